// The float leaves of lane.rs for the lane f32, and document 01's stand-ins for library functions.
#![tactic(auto)]

ghost use Rattle.std.specs.Prelude.{◌≡◌};
ghost use Rattle.lane.specs.Floats.{fma};
ghost use Rattle.lane.specs.Lane.{is_minus_zero, max_of, min_of, clamp_of, exp2_of, pow10_of, exp_of, tan_of, soft_clip, saturation_gain};

use std::f32::consts::{LN_2, LOG2_10, LOG2_E};

// Whether x is -0, by its bits.
pub fn is_minus_zero(x: f32) -> bool
    ensures { result ≡ is_minus_zero x }
{
    !x.is_nan() && x.to_bits() == 2147483648
}

// The larger of two, -0 being below +0; a NaN gives way to the other. Where b is a number other than -0 one comparison decides; of a
// constant the tests before it cost nothing.
pub fn max(a: f32, b: f32) -> f32
    ensures { result ≡ max_of a b }
{
    if b.is_nan() {
        return a;
    }
    if is_minus_zero(b) {
        if a.is_nan() {
            return b;
        }
        return if a < b { b } else { a };
    }
    if b < a { a } else { b }
}

// The smaller of two, likewise. Where b is other than -0 document 01's comparison serves.
pub fn min(a: f32, b: f32) -> f32
    ensures { result ≡ min_of a b }
{
    if a.is_nan() {
        return b;
    }
    if b.is_nan() {
        return a;
    }
    if is_minus_zero(b) {
        return if a < b { a } else { b };
    }
    if b < a { b } else { a }
}

// Rust's clamp: -0 stays -0 at a low end of 0, and a NaN stays a NaN.
pub fn clamp(v: f32, lo: f32, hi: f32) -> f32
    ensures { result ≡ clamp_of v lo hi }
{
    if v < lo {
        return lo;
    }
    if v > hi { hi } else { v }
}

// A fused step is two roundings, as on the scalar lane: first the product, then the sum.
pub fn fma(x: f32, mul: f32, add: f32) -> f32
    ensures { result ≡ fma x mul add }
{
    x * mul + add
}

// The largest magnitude `exp2` takes; beyond it, it clamps.
const EXP2_RANGE: f32 = 12.0;

// 2 to the power `x`, for `x` clamped to ±EXP2_RANGE.
pub fn exp2(x: f32) -> f32
    ensures { result ≡ exp2_of x }
{
    let x = min(max(x, -EXP2_RANGE), EXP2_RANGE);
    let z = x * (LN_2 / 16.0);
    let mut p = 1.0 / 5040.0;
    p = p * z + 1.0 / 720.0;
    p = p * z + 1.0 / 120.0;
    p = p * z + 1.0 / 24.0;
    p = p * z + 1.0 / 6.0;
    p = p * z + 0.5;
    p = p * z + 1.0;
    p = p * z + 1.0;
    p = p * p;
    p = p * p;
    p = p * p;
    p * p
}

// 10 to the power d / n.
pub fn pow10(d: f32, n: f32) -> f32
    ensures { result ≡ pow10_of d n }
{
    exp2(d / n * LOG2_10)
}

pub fn exp(v: f32) -> f32
    ensures { result ≡ exp_of v }
{
    exp2(v * LOG2_E)
}

// tan(w) for w from 0 to TAN_LIMIT.
pub fn tan(w: f32) -> f32
    ensures { result ≡ tan_of w }
{
    let w2 = w * w;
    let mut s = -1.0 / 39916800.0;
    s = s * w2 + 1.0 / 362880.0;
    s = s * w2 + -1.0 / 5040.0;
    s = s * w2 + 1.0 / 120.0;
    s = s * w2 + -1.0 / 6.0;
    s = s * w2 + 1.0;
    let mut c = 1.0 / 479001600.0;
    c = c * w2 + -1.0 / 3628800.0;
    c = c * w2 + 1.0 / 40320.0;
    c = c * w2 + -1.0 / 720.0;
    c = c * w2 + 1.0 / 24.0;
    c = c * w2 + -0.5;
    c = c * w2 + 1.0;
    s * w / c
}

// A soft clipper shaped like tanh.
pub fn soft_clip(x: f32) -> f32
    ensures { result ≡ soft_clip x }
{
    let x = min(max(x, -3.0), 3.0);
    let x2 = x * x;
    x * (x2 + 27.0) / (x2 * 9.0 + 27.0)
}

// The gain that the resonance path's saturator has at `x`.
pub fn saturation_gain(x: f32, inv_a: f32) -> f32
    ensures { result ≡ saturation_gain x inv_a }
{
    let r = x * inv_a;
    1.0 / sqrt::root(r * r + 1.0)
}
