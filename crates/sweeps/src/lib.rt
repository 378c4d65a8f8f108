// The kernels on state-variable stages: BuzzMorph, DjSweep and Diffuser. Each has what follows from the pitch and the settings
// alone, in a struct of its name, and the step over the input and the states.
#![tactic(auto)]

ghost use Rattle.std.specs.Prelude.{◌≡◌, ◌<◌};
ghost use Rattle.extended.specs.Extended.{ticked};
ghost use Rattle.sweeps.specs.Sweeps.{buzz_with, buzz_mix, buzz_step};
ghost use Rattle.sweeps.specs.Sweeps.{dj_distance, dj_depth, dj_pitch, dj_k, dj_coefficients, dj_over, dj_with, dj_filtered, dj_step};
ghost use Rattle.sweeps.specs.Sweeps.{diffuser_k, diffuser_weight, diffuser_with, diffuse_stage, diffuser_step};

use extended::Settings;
use filter::{Pitch, Stage};
use std::f32::consts::SQRT_2;

const K_BUTTERWORTH_2: f32 = SQRT_2;

// How far below the normal types' the buzz morph's resonance knee sits.
const BUZZ_KNEE: f32 = 3.0;

// The buzz morph: a resonant state-variable stage with an asymmetric shaper before it and a low knee in its resonance path,
// its output morphing from low-pass through notch to high-pass.
#[derive(Clone, Copy)]
pub struct BuzzMorph {
    pub g: f32,
    pub law: f32,
    pub inv_knee: f32,
    pub w_low: f32,
    pub w_high: f32,
}

// From the pitch's gain.
pub fn buzz_with(g: f32, p: Settings) -> BuzzMorph
    ensures { result ≡ buzz_with g p }
{
    BuzzMorph {
        g,
        law: filter::svf_k(K_BUTTERWORTH_2, f32::NEG_INFINITY, p.resonance),
        inv_knee: p.inv_knee * BUZZ_KNEE,
        w_low: lane::min((1.0 - p.character) * 2.0, 1.0),
        w_high: lane::min(p.character * 2.0, 1.0),
    }
}

fn buzz_mix(c: BuzzMorph, u: f32, k: f32, s: Stage) -> f32
    ensures { result ≡ buzz_mix c u k s }
{
    let high = u - k * s.band - s.low;
    c.w_low * s.low + c.w_high * high
}

// State: 0 and 1 the stage, 2 its previous band output.
pub fn buzz_step(c: BuzzMorph, state: &mut [f32; 20], x: f32) -> f32
    ensures { ticked result state.new ≡ buzz_step c state.old x }
{
    let k = filter::saturated_k(K_BUTTERWORTH_2, c.law, state[2], c.inv_knee);
    let u = extended::asym(x);
    let s = filter::svf(state[0], state[1], u, c.g, k);
    state[0] = s.ic1;
    state[1] = s.ic2;
    state[2] = s.band;
    buzz_mix(c, u, k, s)
}

// The cutoff pitch of the cutoff control's middle.
const NEUTRAL_PITCH: f32 = 68.4;

// The flat zone around the middle, as a fraction of each half, and how far past it the filter fades in.
const DJ_FLAT: f32 = 0.04;

const DJ_FADE: f32 = 0.1;

// The low-pass's and the high-pass's cutoff pitches, from the middle out.
const DJ_LOW_PASS_0: f32 = 135.076;

const DJ_LOW_PASS_1: f32 = 22.651;

const DJ_HIGH_PASS_0: f32 = 3.486;

const DJ_HIGH_PASS_1: f32 = 123.514;

// The damping at resonance 1.
const DJ_K_MIN: f32 = 0.35;

// The DJ sweep: one state-variable stage whose cutoff control is the sweep, low-pass below its middle and high-pass above,
// flat around it.
#[derive(Clone, Copy)]
pub struct DjSweep {
    pub g: f32,
    pub k: f32,
    pub low_side: f32,
    pub wet: f32,
}

fn dj_distance(pitch: Pitch) -> f32
    ensures { result ≡ dj_distance pitch }
{
    lane::min(
        lane::max((pitch.0 - NEUTRAL_PITCH) * (1.0 / NEUTRAL_PITCH), -1.0),
        1.0,
    )
}

fn dj_depth(d: f32) -> f32
    ensures { result ≡ dj_depth d }
{
    lane::max((extended::abs(d) - DJ_FLAT) * (1.0 / (1.0 - DJ_FLAT)), 0.0)
}

fn dj_pitch(low_side: f32, u: f32) -> Pitch
    ensures { result ≡ dj_pitch low_side u }
{
    let lp = u * (DJ_LOW_PASS_1 - DJ_LOW_PASS_0) + DJ_LOW_PASS_0;
    let hp = u * (DJ_HIGH_PASS_1 - DJ_HIGH_PASS_0) + DJ_HIGH_PASS_0;
    Pitch(low_side * (lp - hp) + hp)
}

// The DJ sweep's resonance law.
fn dj_k(r: f32) -> f32
    ensures { result ≡ dj_k r }
{
    r * (DJ_K_MIN - K_BUTTERWORTH_2) + K_BUTTERWORTH_2
}

// From what follows from the pitch alone.
pub fn dj_with(g: f32, low_side: f32, wet: f32, p: Settings) -> DjSweep
    ensures { result ≡ dj_with g low_side wet p }
{
    DjSweep {
        g,
        k: dj_k(p.resonance),
        low_side,
        wet,
    }
}

// The sweep, and whether the ratio of its own cutoff was greater than the cap.
#[derive(Clone, Copy)]
pub struct JudgedSweep {
    pub sweep: DjSweep,
    pub over: bool,
}

pub fn dj_coefficients(pitch: Pitch, p: Settings) -> JudgedSweep
    ensures { (result.sweep ≡ dj_coefficients pitch p) × (result.over ≡ dj_over pitch p) }
{
    let reference = p.ref_over_rate;
    let d = dj_distance(pitch);
    let low_side = extended::unit(-d * 1000000.0);
    let u = dj_depth(d);
    let gain = filter::judged_gain(dj_pitch(low_side, u), reference);
    JudgedSweep {
        sweep: dj_with(gain.g, low_side, lane::min(u * (1.0 / DJ_FADE), 1.0), p),
        over: gain.over,
    }
}

fn dj_filtered(c: DjSweep, x: f32, s: Stage) -> f32
    ensures { result ≡ dj_filtered c x s }
{
    let high = x - c.k * s.band - s.low;
    c.low_side * (s.low - high) + high
}

// State: 0 and 1 the stage.
pub fn dj_step(c: DjSweep, state: &mut [f32; 20], x: f32) -> f32
    ensures { ticked result state.new ≡ dj_step c state.old x }
{
    let s = filter::svf(state[0], state[1], x, c.g, c.k);
    state[0] = s.ic1;
    state[1] = s.ic2;
    c.wet * (dj_filtered(c, x, s) - x) + x
}

// The diffuser: eight second-order all-pass stages at the cutoff in series, character setting how many are heard, resonance their Q.
#[derive(Clone, Copy)]
pub struct Diffuser {
    pub g: f32,
    pub k: f32,
    pub k2: f32,
    pub n: f32,
}

// A stage's damping at resonance 0 and 1.
const DIFFUSER_K_0: f32 = 2.0;

const DIFFUSER_K_1: f32 = 0.2;

fn diffuser_k(r: f32) -> f32
    ensures { result ≡ diffuser_k r }
{
    r * (DIFFUSER_K_1 - DIFFUSER_K_0) + DIFFUSER_K_0
}

// From the pitch's gain.
pub fn diffuser_with(g: f32, p: Settings) -> Diffuser
    ensures { result ≡ diffuser_with g p }
{
    let k = diffuser_k(p.resonance);
    Diffuser {
        g,
        k,
        k2: k + k,
        n: p.character * 7.0,
    }
}

fn diffuser_weight(n: f32, j: usize) -> f32
    requires { j < 8 }
    ensures { result ≡ diffuser_weight n j }
{
    lane::max(1.0 - extended::abs(n - (j as f32)), 0.0)
}

// The states, the signal and the output after some stages.
#[derive(Clone, Copy)]
pub struct Diffused {
    pub state: [f32; 20],
    pub u: f32,
    pub out: f32,
}

fn diffuse_stage(c: Diffuser, d: Diffused, j: usize) -> Diffused
    requires { j < 8 }
    ensures { result ≡ diffuse_stage c j d }
{
    let mut state = d.state;
    let a = 2 * j;
    let b = 2 * j + 1;
    let s = filter::svf(state[a], state[b], d.u, c.g, c.k);
    state[a] = s.ic1;
    state[b] = s.ic2;
    let u = d.u - c.k2 * s.band;
    let w = diffuser_weight(c.n, j);
    Diffused {
        state,
        u,
        out: w * u + d.out,
    }
}

// State: 2j and 2j + 1 stage j.
pub fn diffuser_step(c: Diffuser, state: &mut [f32; 20], x: f32) -> f32
    ensures { ticked result state.new ≡ diffuser_step c state.old x }
{
    let mut d = Diffused {
        state: *state,
        u: x,
        out: 0.0,
    };
    for j in 0..8 {
        d = diffuse_stage(c, d, j);
    }
    let after = d.state;
    *state = after;
    d.out
}
