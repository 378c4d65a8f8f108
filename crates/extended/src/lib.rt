// What every extended kernel works with: one tick's settings and the shapers.
#![tactic(auto)]

ghost use Rattle.std.specs.Prelude.{◌≡◌, Bool};
ghost use Rattle.extended.specs.Extended.{settings_at, unit_or0, abs_of, asym_slope, asym_of, smooth_mark, lines_mark};

use filter::Ratio;

// The chord comb's teeth (code 13): how many, and each one's octaves above the cutoff.
#[derive(Clone, Copy)]
pub struct Chord {
    pub count: u32,
    pub offsets: [f32; 8],
}

// One sample's settings, smoothed. `ref_over_rate` is the reference over the rate for the gains,
// `reference_ratio` the same for the delay lines. `chord` is the setup's.
#[derive(Clone, Copy)]
pub struct Settings {
    pub resonance: f32,
    pub inv_knee: f32,
    pub character: f32,
    pub x: f32,
    pub y: f32,
    pub z: f32,
    pub ref_over_rate: Ratio,
    pub reference_ratio: Ratio,
    pub chord: Chord,
}

// Where the settings stand among the smoothed numbers.
const RES: usize = 0;

const INV_KNEE: usize = 3;

const CHARACTER: usize = 7;

const MORPH_Z: usize = 10;

// The settings of the smoothed numbers, at X and Y.
pub fn settings_at(reference: Ratio, chord: Chord, params: &[f32; 11], x: f32, y: f32) -> Settings
    ensures { result ≡ settings_at reference chord params.now x y }
{
    Settings {
        resonance: params[RES],
        inv_knee: params[INV_KNEE],
        character: params[CHARACTER],
        x,
        y,
        z: params[MORPH_Z],
        ref_over_rate: reference,
        reference_ratio: reference,
        chord,
    }
}

// The asymmetric shaper's bias.
const ASYM_BIAS: f32 = 0.3;

// The shaper's slope at zero.
fn asym_slope() -> f32
    ensures { result ≡ asym_slope }
{
    let x = ASYM_BIAS;
    let x2 = x * x;
    let den = 27.0 + 9.0 * x2;
    ((27.0 + 3.0 * x2) * den - x * (27.0 + x2) * 18.0 * x) / (den * den)
}

// An asymmetric soft clipper with unity slope at zero.
pub fn asym(x: f32) -> f32
    ensures { result ≡ asym_of x }
{
    (lane::soft_clip(x + ASYM_BIAS) - lane::soft_clip(ASYM_BIAS)) * (1.0 / asym_slope())
}

// Clamped to 0 to 1.
pub fn unit(x: f32) -> f32
    ensures { result ≡ unit_or0 x }
{
    lane::min(lane::max(x, 0.0), 1.0)
}

// The magnitude, the larger of x and -x. 0 - x is -x, and +0 of either zero, so that one comparison decides.
pub fn abs(x: f32) -> f32
    ensures { result ≡ abs_of x }
{
    let n = 0.0 - x;
    if n < x { x } else { n }
}

// Whether a structure's character is Smooth: it lags the cutoff (and the pole-zero X and Y).
pub fn is_smooth(code: u32) -> bool
    ensures { result ≡ smooth_mark code }
{
    matches!(code, 4..=6 | 8)
}

// Whether a structure runs on the delay lines.
pub fn has_lines(code: u32) -> bool
    ensures { result ≡ lines_mark code }
{
    matches!(code, 9 | 13)
}
