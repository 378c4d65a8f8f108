// How far the rounding in soft_clip strays: a bound, over whole numbers. No code.
#![tactic(auto)]
