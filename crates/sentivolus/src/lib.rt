// The exported functions: what C and Rust link. A slice passes as a pointer and a length, a reference to an array as a pointer. The caller sees to it
// that MXCSR is at its default, rounding to nearest with subnormals, as the contracts' floats are; c/sentivolus.h and rust/ do.
#![tactic(auto)]

mod calls;
mod design;
mod leaves;
