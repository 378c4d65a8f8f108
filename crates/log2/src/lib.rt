// log2 of an f32 in twenty rounds (document 01, Floats): the exponent, and twenty binary digits of the significand's logarithm, each by a square.
#![tactic(auto)]

ghost use Rattle.std.specs.Prelude.{◌≡◌, ◌*◌, ◌<◌, ◌≤◌};
ghost use Rattle.log2.specs.Log2.{rounds, log_of};
ghost use Rattle.log2.specs.Inner.{offset};

// The twenty binary digits after the point of log2(m / 2^23). b is 1 where the square reaches 2^31, else 0, so a round has no branch.
fn fraction(m: u64) -> u64
    requires { (8388608 ≤ m) × (m < 16777216) }
    ensures { (result ≡ rounds 20 (128 * m) 0) × (result < 1048576) }
{
    let mut r = 128 * m;
    let mut f = 0u64;
    for _ in 0..20u32 {
        let s = r * r / 1073741824;
        let b = s / 2147483648;
        f = 2 * f + b;
        r = s >> b;
    }
    f
}

// (v - 126 * 2^20) / 2^20
fn scaled(v: u64) -> f32
    requires { (125829120 ≤ v) × (v ≤ 138412032) }
    ensures { result ≡ offset v }
{
    if v >= 132120576 {
        ((v - 132120576) as f32) / 1048576.0
    } else {
        ((132120576 - v) as f32) / -1048576.0
    }
}

// With b the pattern of q = m * 2^e, m is b % 2^23 + 2^23 and e + 149 is b / 2^23 - 1. Outside 1/64 <= q < 64 the answer is 0.
pub fn log2(q: f32) -> f32
    ensures { result ≡ log_of q }
{
    if q >= 0.015625 && q < 64.0 {
        let b = q.to_bits() as u64;
        let f = fraction(b % 8388608 + 8388608);
        scaled((b / 8388608 - 1) * 1048576 + f)
    } else {
        0.0
    }
}
