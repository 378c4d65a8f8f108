// The square root of an f32 (document 01, Floats): NaN, infinity and both zeros as themselves, a negative number NaN,
// else the f32 nearest the true root. Whole numbers decide: a first guess opens, and comparisons of squares judge or correct it.
#![tactic(auto)]

ghost use Rattle.std.specs.Prelude.{◌≡◌, ◌+◌, ◌*◌, ◌^◌, ◌<◌, ◌≤◌, true, T, to_bits};
ghost use Rattle.std.specs.Float.{binary32};
ghost use Rattle.std.specs.Float.Ieee.{fits};
ghost use Rattle.sqrt.specs.Root.{root_of, root_units};
ghost use Rattle.sqrt.specs.Opening.{opening_of};
ghost use Rattle.sqrt.specs.Inner.{NearestWhole, Normal, scaled, HasRoot, DigitsOf};

// The largest whole n with n * n <= 64 * j, for j up to 1023; for a larger j it is 255. One binary digit after the other: n is
// the whole part of the root of 64 * j without its last 2k binary digits.
pub fn opening(j: u32) -> u32
    ensures { result ≡ opening_of j }
{
    let square = 64 * (j as u64);
    let mut n = 0u64;
    for k in (0..8u32).rev() {
        let next = 2 * n + 1;
        n = if next * next <= square >> (2 * k) {
            next
        } else {
            2 * n
        };
    }
    n as u32
}

// A first guess at √m, by one step of Halley's rule for √w, w = m / 2^32: g * (g² + 3w) / (3g² + w), written as 3g - (8/3)g³ / (g² + w/3).
// g is the opening figure for w plus 5/8, the middle of what that figure stands for, put together from its bits.
// Added to 2^36 an f64 keeps 16 digits after the point, so the last bits are √w * 2^16 = √m.
// Only the range is promised, since `near_root` corrects the guess.
fn guess(m: u64) -> u64
    requires { m < 281474976710656 }
    ensures { (8388608 ≤ result) × (result < 16777216) }
{
    let n = opening((m >> 38) as u32) as u64;
    let g = f64::from_bits(n * 35184372088832 + 4634226006796795904);
    let third = (((m >> 23) as u32) as f64) * 0.0006510416666666666;
    let a = g * g;
    let c = 3.0 * g + 68719476736.0 - 2.6666666666666665 * g * a / (a + third);
    if c.is_nan() {
        return 8388608;
    }
    c.to_bits() % 8388608 + 8388608
}

// The whole number nearest to √m.
fn near_root(m: u64) -> u64
    requires { (70368744177664 ≤ m) × (m ≤ 281474959933440) }
    ensures { NearestWhole m result }
{
    let mut n = guess(m);
    while m <= n * (n - 1) {
        n -= 1;
    }
    while n * (n + 1) < m {
        n += 1;
    }
    n
}

// A guess at √x for x from 1 up, below 4, in single precision: a quadratic g, cut to 12 digits by the sum with 4096 so that its square is
// exact; then two steps of Newton's rule in one, g + (x - g²)(x + 3g²) / (4g(x + g²)). Near 1, where half of the roots lie close to the middle
// of two f32, g is 1. An f32 and no more is promised: `is_root` judges it.
fn quick_guess(x: f32) -> f32
    ensures { T (fits binary32 result) }
{
    let g = x * 0.54150390625 + 4096.5009765625 - x * x * 0.04248046875 - 4096.0;
    let a = g * g;
    let s = x + a;
    g + (x - a) * ((s + (a + a)) / (4.0 * g * s))
}

// Whether n is the whole number nearest to √m.
fn is_nearest(m: u64, n: u64) -> bool
    requires { (70368744177664 ≤ m) × (m ≤ 281474959933440) × (n < 4294967296) }
    ensures { result ≡ true → NearestWhole m n }
{
    (m + n - 1).wrapping_sub(n * n) < n + n
}

// Whether r, from 1 up and below 2, has for its digits the whole number nearest to √m. Its pattern is its digits and 1056964608, the
// pattern of 1/2.
fn is_root(m: u64, r: f32) -> bool
    requires { (70368744177664 ≤ m) × (m ≤ 281474959933440) }
    ensures { result ≡ true → HasRoot m r }
{
    !r.is_nan() && is_nearest(m, r.to_bits().wrapping_sub(1056964608) as u64)
}

// The significand of a normal number, by its pattern, with zeros behind it: an even power of two is left.
fn scaled_of(b: u32) -> u64
    requires { Normal b }
    ensures { result ≡ scaled b }
{
    ((b % 8388608 + 8388608) as u64) << (24 - b / 8388608 % 2)
}

// A number above zero by its pattern: 24 binary digits m, and an exponent.
#[derive(Drop)]
struct Digits {
    m: u64,
    e: u32,
}

// A subnormal number is brought to 24 digits.
fn digits_of(b: u32) -> Digits
    requires { (0 < b) × (b < 2139095040) }
    ensures { DigitsOf b result }
{
    if b >= 8388608 {
        return Digits {
            m: (b % 8388608 + 8388608) as u64,
            e: b / 8388608 + 127,
        };
    }
    let k = b.leading_zeros() - 8;
    Digits {
        m: (b as u64) << k,
        e: 128 - k,
    }
}

// The f32 nearest to √(m * 2^(e + 21)) units of 2^-149, the smallest f32 above zero. The power left under the root is even; the quick
// guess is the answer where its digits are the root's.
fn finite_root(m: u64, e: u32) -> f32
    requires { (8388608 ≤ m) × (m < 16777216) × (105 ≤ e) × (e ≤ 381) }
    ensures { result ≡ root_units (m * 2 ^ (e + 21)) }
{
    let square = m << (23 + e % 2);
    let r = quick_guess(f32::from_bits((126 + e % 2) * 8388608 + (m as u32)));
    if is_root(square, r) {
        return f32::from_bits((e / 2 - 1) * 8388608 + (r.to_bits() - 1056964608));
    }
    f32::from_bits((e / 2 - 1) * 8388608 + (near_root(square) as u32))
}

// The root of any number, with its pattern. What is not above zero and finite has a pattern of 0 or from the infinity's up.
fn any_root(x: f32, b: u32) -> f32
    requires { b ≡ to_bits binary32 x }
    ensures { result ≡ root_of x }
{
    if b == 0 {
        return x;
    }
    if b >= 2139095040 {
        if x < 0.0 {
            return 0.0 / 0.0;
        }
        return x;
    }
    let d = digits_of(b);
    finite_root(d.m, d.e)
}

// The root of a number from 1 up, below 4, with its pattern: the quick guess, where that is the root.
fn guessed_root(x: f32, b: u32) -> f32
    requires { (b ≡ to_bits binary32 x) × (1065353216 ≤ b) × (b < 1082130432) }
    ensures { result ≡ root_of x }
{
    let r = quick_guess(x);
    if is_root(scaled_of(b), r) {
        return r;
    }
    any_root(x, b)
}

// The root. What the saturator takes it of, 1 and a square, mostly lies from 1 up and below 4.
pub fn root(x: f32) -> f32
    ensures { result ≡ root_of x }
{
    if x.is_nan() {
        return x;
    }
    let b = x.to_bits();
    if b >= 1065353216 && b < 1082130432 {
        return guessed_root(x, b);
    }
    any_root(x, b)
}
