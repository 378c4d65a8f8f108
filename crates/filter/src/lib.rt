// What mod.rs gives the extended kernels: a voice's settings and targets, the pitch's way to a ratio and a gain, the state-variable stage.
#![tactic(auto)]

ghost use Rattle.std.specs.Prelude.{◌≡◌};
ghost use Rattle.filter.specs.Filter.{octaves_of, ratio_of, over_of, once, gain_at, gain_of};
ghost use Rattle.filter.specs.Judged.{capped_at, capped_of, judged_gain};
ghost use Rattle.filter.specs.Filter.{svf_of, svf_k, saturated_k};
ghost use Rattle.filter.specs.Voice.{default_params, unit_or_nan, drive_gain, inverse_knee, finite_or0, level_of, morph_of, targets_of, morph_targets_of};
ghost use Rattle.filter.specs.Voice.{voice_targets, nan_knob};

use std::f32::consts::PI;

// A pitch counts semitones.
#[derive(Clone, Copy)]
pub struct Pitch(pub f32);

// A ratio counts cycles per sample.
#[derive(Clone, Copy)]
pub struct Ratio(pub f32);

// How far past zero damping the resonance law goes at resonance 1, as a fraction of its damping at resonance 0.
const SVF_OVERSHOOT: f32 = 0.02;

// Octaves above the reference.
pub fn octaves_of(pitch: Pitch) -> f32
    ensures { result ≡ octaves_of pitch }
{
    (pitch.0 - 69.0) * (1.0 / 12.0)
}

// The highest cutoff a stage runs at, in cycles per sample.
const RATIO_LIMIT: f32 = 0.49 * PI / PI;

// A ratio held just below Nyquist, and whether it was greater before.
#[derive(Clone, Copy)]
pub struct Capped {
    pub ratio: Ratio,
    pub over: bool,
}

// The ratio of so many octaves above the reference. Every ratio is capped, and judged, here.
pub fn capped_at(octaves: f32, reference: Ratio) -> Capped
    ensures { result ≡ capped_at octaves reference }
{
    let ratio = lane::exp2(octaves) * reference.0;
    Capped {
        ratio: Ratio(lane::min(ratio, RATIO_LIMIT)),
        over: RATIO_LIMIT < ratio,
    }
}

// A mark, counted.
pub fn once(over: bool) -> u32
    ensures { result ≡ once over }
{
    u32::from(over)
}

// A pitch's ratio, and whether it was greater than the cap.
pub fn capped_of(pitch: Pitch, reference: Ratio) -> Capped
    ensures { result ≡ capped_of pitch reference }
{
    capped_at(octaves_of(pitch), reference)
}

// The cutoff, as a fraction of the sample rate, of a pitch.
pub fn ratio_of(pitch: Pitch, reference: Ratio) -> Ratio
    ensures { result ≡ ratio_of pitch reference }
{
    capped_of(pitch, reference).ratio
}

// Whether a pitch's ratio was greater than the cap.
pub fn over_of(pitch: Pitch, reference: Ratio) -> bool
    ensures { result ≡ over_of pitch reference }
{
    capped_of(pitch, reference).over
}

// The prewarped integrator gain of a ratio.
pub fn gain_at(ratio: Ratio) -> f32
    ensures { result ≡ gain_at ratio }
{
    lane::tan(ratio.0 * PI)
}

// A pitch's gain, and whether its ratio was greater than the cap.
#[derive(Clone, Copy)]
pub struct JudgedGain {
    pub g: f32,
    pub over: bool,
}

// The gain with its ratio's mark.
pub fn judged_gain(pitch: Pitch, reference: Ratio) -> JudgedGain
    ensures { result ≡ judged_gain pitch reference }
{
    let c = capped_of(pitch, reference);
    JudgedGain {
        g: gain_at(c.ratio),
        over: c.over,
    }
}

// The prewarped integrator gain of a pitch.
pub fn gain(pitch: Pitch, reference: Ratio) -> f32
    ensures { result ≡ gain_of pitch reference }
{
    judged_gain(pitch, reference).g
}

// A state-variable stage's outputs, and its two states after them.
#[derive(Clone, Copy)]
pub struct Stage {
    pub ic1: f32,
    pub ic2: f32,
    pub band: f32,
    pub low: f32,
}

// One linear trapezoidal state-variable stage with damping `k`. The high output is `x - k band - low`.
pub fn svf(ic1: f32, ic2: f32, x: f32, g: f32, k: f32) -> Stage
    ensures { result ≡ svf_of ic1 ic2 x g k }
{
    let a1 = 1.0 / (g * (g + k) + 1.0);
    let a2 = g * a1;
    let a3 = g * a2;
    let v3 = x - ic2;
    let band = a1 * ic1 + a2 * v3;
    let low = a2 * ic1 + (a3 * v3 + ic2);
    Stage {
        ic1: band + band - ic1,
        ic2: low + low - ic2,
        band,
        low,
    }
}

// The state-variable resonance law.
pub fn svf_k(k0: f32, floor: f32, r: f32) -> f32
    ensures { result ≡ svf_k k0 floor r }
{
    lane::max(r * (-k0 * (1.0 + SVF_OVERSHOOT)) + k0, floor)
}

// The damping a resonant stage runs at.
pub fn saturated_k(k0: f32, k: f32, previous_band: f32, inv_knee: f32) -> f32
    ensures { result ≡ saturated_k k0 k previous_band inv_knee }
{
    (k - k0) * lane::saturation_gain(previous_band, inv_knee) + k0
}

// One voice's settings, other than cutoff.
#[derive(Clone, Copy)]
pub struct VoiceParams {
    pub resonance: f32,
    pub drive: f32,
    pub saturation: f32,
    pub character: f32,
    pub stereo_offset: f32,
    pub mix: f32,
    pub level: f32,
    pub morph_x: f32,
    pub morph_y: f32,
    pub morph_z: f32,
}

// Drive's gain into the clipper at full drive, in decibels.
const DRIVE_DB: f32 = 24.0;

// Octaves the knee falls across the saturation range.
const SATURATION_OCTAVES: f32 = 5.0;

// The resonance saturator's knee at saturation 0.
const SATURATION_KNEE: f32 = 3.0;

// Resonance 10 %, no drive, saturation, character or offset, fully filtered, unity level, X, Y and Z at 0.
pub fn default_params() -> VoiceParams
    ensures { result ≡ default_params }
{
    VoiceParams {
        resonance: 0.1,
        drive: 0.0,
        saturation: 0.0,
        character: 0.0,
        stereo_offset: 0.0,
        mix: 1.0,
        level: 1.0,
        morph_x: 0.0,
        morph_y: 0.0,
        morph_z: 0.0,
    }
}

fn unit_or_nan(v: f32) -> f32
    ensures { result ≡ unit_or_nan v }
{
    lane::clamp(v, 0.0, 1.0)
}

fn morph(v: f32) -> f32
    ensures { result ≡ morph_of v }
{
    if v.is_nan() { 0.0 } else { unit_or_nan(v) }
}

fn finite_or_0(v: f32) -> f32
    ensures { result ≡ finite_or0 v }
{
    if v.is_finite() { v } else { 0.0 }
}

fn level(v: f32) -> f32
    ensures { result ≡ level_of v }
{
    lane::max(finite_or_0(v), 0.0)
}

fn drive_gain(drive: f32) -> f32
    ensures { result ≡ drive_gain drive }
{
    lane::pow10(drive * DRIVE_DB, 20.0)
}

fn inverse_knee(saturation: f32) -> f32
    ensures { result ≡ inverse_knee saturation }
{
    lane::exp2(saturation * SATURATION_OCTAVES) / SATURATION_KNEE
}

// The settings a bank smooths towards, for one voice, in the form the kernel uses.
pub fn targets_of(p: VoiceParams) -> [f32; 8]
    ensures { result ≡ targets_of p }
{
    let drive = unit_or_nan(p.drive);
    [
        unit_or_nan(p.resonance),
        drive,
        drive_gain(drive),
        inverse_knee(unit_or_nan(p.saturation)),
        finite_or_0(p.stereo_offset),
        unit_or_nan(p.mix),
        level(p.level),
        unit_or_nan(p.character),
    ]
}

// The pole-zero X and Y a bank smooths towards, for one voice.
pub fn morph_targets_of(p: VoiceParams) -> [f32; 2]
    ensures { result ≡ morph_targets_of p }
{
    [morph(p.morph_x), morph(p.morph_y)]
}

// A voice's eleven targets.
pub fn voice_targets(p: VoiceParams) -> [f32; 11]
    ensures { result ≡ voice_targets p }
{
    let t = targets_of(p);
    let m = morph_targets_of(p);
    let z = morph(p.morph_z);
    [
        t[0], t[1], t[2], t[3], t[4], t[5], t[6], t[7], m[0], m[1], z,
    ]
}

// What refusal 8 names.
pub fn nan_knob(p: VoiceParams) -> bool
    ensures { result ≡ nan_knob p }
{
    p.resonance.is_nan()
        || p.drive.is_nan()
        || p.saturation.is_nan()
        || p.character.is_nan()
        || p.mix.is_nan()
}
