// The setup without its voices, its refusals, and a bank as a parked file: definitions and laws only.

#![tactic(auto)]
