// A slot's peak while a block runs. A number without sign rises by two comparisons a frame, with the sample and with its negative. Any other peak
// goes at the first sample that is no NaN, so -1 runs in its place; where no such sample came the peak itself returns.
#![tactic(auto)]

ghost use Rattle.std.specs.Prelude.{◌≡◌, cond, Float};
ghost use Rattle.std.specs.Float.Ieee.{lt};
ghost use Rattle.peak.specs.Peak.{peak_of};
ghost use Rattle.peak.specs.Running.{is_plain, running_of, settled_of, Runs};

// Whether a peak is a number without sign, which runs itself.
pub fn is_plain(peak: f32) -> bool
    ensures { (result ≡ is_plain peak) × (Runs peak (running_of peak)) × (settled_of peak (running_of peak) ≡ peak) }
{
    !(peak < 0.0 || peak.is_nan() || lane::is_minus_zero(peak))
}

// The larger of two, by one comparison.
fn larger(a: f32, b: f32) -> f32
    ensures { result ≡ cond (lt a b) b a }
{
    if a < b { b } else { a }
}

// What runs in a peak's place, after a sample.
pub fn raised(running: f32, out: f32) -> f32
    ensures { (peak : Float) → Runs peak running → Runs peak result × (settled_of peak result ≡ peak_of (settled_of peak running) out) }
{
    larger(larger(running, out), -out)
}

// The peak at the block's end.
pub fn settled(peak: f32, running: f32) -> f32
    ensures { result ≡ settled_of peak running }
{
    if running < 0.0 {
        peak
    } else if 0.0 < running {
        running
    } else {
        0.0
    }
}
