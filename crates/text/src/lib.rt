// Numbers as text, on slices of bytes: words of a line, decimals and hexadecimals read and written, and an f32 by its bits.
#![tactic(auto)]

ghost use Rattle.std.specs.Prelude.{◌≡◌, ◌+◌, ◌<◌, ◌≤◌, length, drop};
ghost use Rattle.std.specs.Float.{binary32};
ghost use Rattle.std.specs.Float.Ieee.{of_bits};
ghost use Rattle.text.specs.Text.{first_of, word_at, line_end, bytes_of, digit_of, number_from, decimal_of, hex_of, bits_of, buffer, put, puts, glyph};
ghost use Rattle.text.specs.Text.{decimal_text, hex_text};

// A part of a text: the bytes from `start` up to, not including, `end`.
#[derive(Clone, Copy)]
pub struct Span {
    pub start: usize,
    pub end: usize,
}

// The text from `at` on.
fn rest_of(s: &[u8], at: usize) -> &[u8]
    ensures { result.now ≡ drop at s.now }
{
    s.get(at..).unwrap_or(&[])
}

// The position of the first byte from `at` on that is `a` or `b`, else the text's end.
fn first_of(s: &[u8], at: usize, a: u8, b: u8) -> usize
    ensures { result ≡ first_of a b s.now at }
{
    let rest = rest_of(s, at);
    at + rest.iter().take_while(|x| **x != a && **x != b).count()
}

// The word that starts at `at`: it ends at a blank, a newline or the text's end.
#[tactic(auto, unfolding(crate::specs::Text::word_at))]
pub fn word(s: &[u8], at: usize) -> Span
    ensures { result ≡ word_at s.now at }
{
    Span {
        start: at,
        end: first_of(s, at, b' ', b'\n'),
    }
}

// The end of the line that `at` is in: its newline or the text's end.
#[tactic(auto, unfolding(crate::specs::Text::line_end))]
pub fn line_end(s: &[u8], at: usize) -> usize
    ensures { result ≡ line_end s.now at }
{
    first_of(s, at, b'\n', b'\n')
}

// A digit's number, `a` to `f` counting from 10; 16 for any other byte.
#[tactic(auto, unfolding(crate::specs::Text::digit_of))]
fn digit(b: u8) -> u64
    ensures { result ≡ digit_of b }
{
    match b {
        b'0'..=b'9' => u64::from(b - b'0'),
        b'a'..=b'f' => u64::from(b - b'a') + 10,
        _ => 16,
    }
}

// The number that the digits of `s` spell; none at a byte that is no digit of the base, and past `most`.
fn digits(s: &[u8], base: u64, most: u64) -> Option<u64>
    requires { (0 < base) × (base ≤ 16) × (16 ≤ most) }
    ensures { result ≡ number_from base most s.now 0 }
{
    let mut v = 0;
    for b in s {
        let d = digit(*b);
        if d >= base || v > (most - d) / base {
            return None;
        }
        v = v * base + d;
    }
    Some(v)
}

// The bytes of a word; none of a word that reaches past the text.
pub fn bytes_of(s: &[u8], w: Span) -> &[u8]
    ensures { result.now ≡ bytes_of s.now w }
{
    s.get(w.start..w.end).unwrap_or(&[])
}

// The word as a decimal below 2^64, of one digit at least.
pub fn decimal(s: &[u8], w: Span) -> Option<u64>
    ensures { result ≡ decimal_of (bytes_of s.now w) }
{
    match bytes_of(s, w) {
        [] => None,
        word => digits(word, 10, u64::MAX),
    }
}

// The word as a bit pattern in eight lower-case hexadecimal digits.
pub fn hexadecimal(s: &[u8], w: Span) -> Option<u32>
    ensures { result ≡ hex_of (bytes_of s.now w) }
{
    let word = bytes_of(s, w);
    if word.len() != 8 {
        return None;
    }
    let bits = digits(word, 16, u64::from(u32::MAX))?;
    Some(bits as u32)
}

// The f32 of a bit pattern; every NaN's pattern gives the one NaN.
pub fn float_of(bits: u32) -> f32
    ensures { result ≡ of_bits binary32 bits }
{
    if bits % 2147483648 > 2139095040 {
        return 0.0 / 0.0;
    }
    f32::from_bits(bits)
}

// The bit pattern of an f32, a NaN's as 7fc00000.
#[tactic(auto, using(bits::specs::Nan::nan_is, bits::specs::Patterns::not_nan), unfolding(crate::specs::Text::bits_of))]
pub fn bits_of(x: f32) -> u32
    ensures { result ≡ bits_of x }
{
    if x != x {
        return 2143289344;
    }
    f32::to_bits(x)
}

// Writes `b` at `at` where there is room, and answers the position after it.
#[tactic(auto, unfolding(crate::specs::Text::put))]
pub fn put_byte(out: &mut [u8], at: usize, b: u8) -> usize
    ensures { buffer out.new result ≡ put b (buffer out.old at) }
{
    if at < out.len() {
        out[at] = b;
        at + 1
    } else {
        at
    }
}

// Writes the bytes of `s`, one after the other.
pub fn put_bytes(out: &mut [u8], at: usize, s: &[u8]) -> usize
    ensures { buffer out.new result ≡ puts s.now (buffer out.old at) }
{
    let mut p = at;
    for b in s {
        p = put_byte(out, p, *b);
    }
    p
}

// A digit below 16 as a byte.
#[tactic(auto, unfolding(crate::specs::Text::glyph))]
fn glyph(d: u64) -> u8
    requires { d < 16 }
    ensures { result ≡ glyph d }
{
    if d < 10 {
        b'0' + d as u8
    } else {
        b'a' - 10 + d as u8
    }
}

// Puts the decimal digits of `n` at the end of `text`, and answers where they start.
fn spell(n: u64, text: &mut [u8]) -> usize
    requires { length text.old ≡ 20 }
    ensures { (result ≤ 20) × (length text.new ≡ 20) × (drop result text.new ≡ decimal_text n) }
{
    let mut rest = n;
    for i in (0..20).rev() {
        text[i] = glyph(rest % 10);
        if rest < 10 {
            return i;
        }
        rest /= 10;
    }
    0
}

// Writes `n` in decimal.
#[tactic(auto, using(crate::proofs::Writing::puts_tail))]
pub fn put_decimal(out: &mut [u8], at: usize, n: u64) -> usize
    ensures { buffer out.new result ≡ puts (decimal_text n) (buffer out.old at) }
{
    let mut text = [0u8; 20];
    let first = spell(n, &mut text);
    put_bytes(out, at, &text[first..])
}

// Writes `n` in eight lower-case hexadecimal digits.
#[tactic(auto, unfolding(crate::specs::Text::hex_text))]
pub fn put_hex(out: &mut [u8], at: usize, n: u32) -> usize
    ensures { buffer out.new result ≡ puts (hex_text n) (buffer out.old at) }
{
    let n = u64::from(n);
    let text = [
        glyph(n / 268435456 % 16),
        glyph(n / 16777216 % 16),
        glyph(n / 1048576 % 16),
        glyph(n / 65536 % 16),
        glyph(n / 4096 % 16),
        glyph(n / 256 % 16),
        glyph(n / 16 % 16),
        glyph(n % 16),
    ];
    put_bytes(out, at, &text)
}
