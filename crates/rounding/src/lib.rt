// How far one rounding strays, and each operation as one rounding: definitions and laws. No code.
