// The expanders and the K35. Each has what follows from the pitch and the settings alone, in a struct of its name, and the step over
// the input and the states.
#![tactic(auto)]

ghost use Rattle.std.specs.Prelude.{◌≡◌};
ghost use Rattle.filter.specs.declared.Pitch.{Pitch};
ghost use Rattle.filter.specs.Filter.{gain_of};
ghost use Rattle.extended.specs.Extended.{ticked};
ghost use Rattle.stages.specs.Stages.{ladder_states};
ghost use Rattle.expanders.specs.Expanders.{expander_coefficients, expander_with, expander_solve, expander_taps, stages, band_mix, band_step};
ghost use Rattle.expanders.specs.Expanders.{tap_weight, multimode_weights, multimode_mix, multimode_step};
ghost use Rattle.expanders.specs.Expanders.{k35_coefficients, k35_with, k35_den, k35_low, k35_high, k35_feedback, k35_step};

use extended::Settings;
use stages::{Five, LADDER_COMPENSATION, LADDER_MAX, Stages};

// The expanders: four one-pole stages with feedback from the last, their output a mix of the ladder's input and its four stages.
#[derive(Clone, Copy)]
pub struct Expander {
    pub gg: f32,
    pub h: f32,
    pub gg4: f32,
    pub base: f32,
    pub inv_knee: f32,
}

// From what follows from the pitch alone.
pub fn expander_with(gg: f32, h: f32, gg4: f32, p: Settings) -> Expander
    ensures { result ≡ expander_with gg h gg4 p }
{
    Expander {
        gg,
        h,
        gg4,
        base: p.resonance * LADDER_MAX,
        inv_knee: p.inv_knee,
    }
}

// From the gain of a pitch.
pub fn expander_coefficients(g: f32, p: Settings) -> Expander
    ensures { (pitch : Pitch) → g ≡ gain_of pitch p.ref_over_rate → result ≡ expander_coefficients pitch p }
{
    let gg = g / (1.0 + g);
    let gg2 = gg * gg;
    expander_with(gg, 1.0 - gg, gg2 * gg2, p)
}

fn expander_solve(c: Expander, state: &[f32; 20], k: f32, x: f32) -> Five
    ensures { result ≡ expander_solve c state.now k x }
{
    let b0 = c.h * state[0];
    let b1 = c.h * state[1];
    let b2 = c.h * state[2];
    let b3 = c.h * state[3];
    let sum = ((b0 * c.gg + b1) * c.gg + b2) * c.gg + b3;
    let input = x * (k * LADDER_COMPENSATION + 1.0);
    let y4 = (c.gg4 * input + sum) / (k * c.gg4 + 1.0);
    let u = input - k * y4;
    let t1 = c.gg * u + b0;
    let t2 = c.gg * t1 + b1;
    let t3 = c.gg * t2 + b2;
    Five(u, t1, t2, t3, c.gg * t3 + b3)
}

fn expander_taps(c: Expander, state: &[f32; 20], x: f32) -> Five
    ensures { result ≡ expander_taps c state.now x }
{
    let k = c.base * lane::saturation_gain(state[4], c.inv_knee);
    expander_solve(c, state, k, x)
}

// What a ladder's states follow from.
fn stages(taps: Five) -> Stages
    ensures { result ≡ stages taps }
{
    Stages {
        y1: taps.1,
        y2: taps.2,
        y3: taps.3,
        y4: taps.4,
    }
}

// The ladder's taps at x, and the states that they leave.
fn tapped(c: Expander, state: &mut [f32; 20], x: f32) -> Five
    ensures taps { result ≡ expander_taps c state.old x }
    ensures states { state.new ≡ ladder_states state.old (stages (expander_taps c state.old x)) }
{
    let taps = expander_taps(c, state, x);
    stages::store_ladder(state, stages(taps));
    taps
}

fn band_mix(t: Five) -> f32
    ensures { result ≡ band_mix t }
{
    4.0 * (t.2 - t.3 - t.3 + t.4)
}

// The band-pass, 4 (y2 - 2 y3 + y4). State: 0 to 3 the stages, 4 the previous fourth-stage output.
pub fn band_step(c: Expander, state: &mut [f32; 20], x: f32) -> f32
    ensures { ticked result state.new ≡ band_step c state.old x }
{
    band_mix(tapped(c, state, x))
}

fn tap_weight(a: f32, c: f32, low: f32, notch: f32, high: f32) -> f32
    ensures { result ≡ tap_weight a c low notch high }
{
    c * (high - notch) + (a * (notch - low) + low)
}

// The multimode's tap weights: low-pass to notch over the first half of character, notch to high-pass over the second.
pub fn multimode_weights(character: f32) -> Five
    ensures { result ≡ multimode_weights character }
{
    let a = lane::min(character * 2.0, 1.0);
    let c = lane::max(character * 2.0 - 1.0, 0.0);
    Five(
        tap_weight(a, c, 0.0, 1.0, 1.0),
        tap_weight(a, c, 0.0, -4.0, -4.0),
        tap_weight(a, c, 0.0, 8.0, 6.0),
        tap_weight(a, c, 0.0, -8.0, -4.0),
        tap_weight(a, c, 1.0, 4.0, 1.0),
    )
}

fn multimode_mix(w: Five, t: Five) -> f32
    ensures { result ≡ multimode_mix w t }
{
    let out = w.0 * t.0 + 0.0;
    let out = w.1 * t.1 + out;
    let out = w.2 * t.2 + out;
    let out = w.3 * t.3 + out;
    w.4 * t.4 + out
}

pub fn multimode_step(c: Expander, w: Five, state: &mut [f32; 20], x: f32) -> f32
    ensures { ticked result state.new ≡ multimode_step c w state.old x }
{
    multimode_mix(w, tapped(c, state, x))
}

// The K35: a Sallen-Key low-pass and a high-pass, both running, with a saturator on the feedback amplifier; character picks one,
// crossfading over a tenth of its range.
#[derive(Clone, Copy)]
pub struct K35 {
    pub gg: f32,
    pub h: f32,
    pub base: f32,
    pub inv_knee: f32,
    pub w: f32,
}

// The K35's feedback at resonance 1.
const K35_MAX: f32 = 2.04;

// Where its control crosses from low-pass to high-pass.
const K35_SWITCH_0: f32 = 0.45;

const K35_SWITCH_1: f32 = 0.55;

// How far below the normal types' the K35's feedback knee sits.
const K35_KNEE: f32 = 3.0;

// From what follows from the pitch and the character alone.
pub fn k35_with(gg: f32, h: f32, w: f32, p: Settings) -> K35
    ensures { result ≡ k35_with gg h w p }
{
    K35 {
        gg,
        h,
        base: p.resonance * K35_MAX,
        inv_knee: p.inv_knee * K35_KNEE,
        w,
    }
}

// From the gain of a pitch.
pub fn k35_coefficients(g: f32, p: Settings) -> K35
    ensures { (pitch : Pitch) → g ≡ gain_of pitch p.ref_over_rate → result ≡ k35_coefficients pitch p }
{
    let gg = g / (1.0 + g);
    let w = extended::unit((p.character - K35_SWITCH_0) * (1.0 / (K35_SWITCH_1 - K35_SWITCH_0)));
    k35_with(gg, 1.0 - gg, w, p)
}

fn k35_den(c: K35, k: f32) -> f32
    ensures { result ≡ k35_den c k }
{
    1.0 / (1.0 - k * c.gg * c.h)
}

// One half's output and its states after it.
#[derive(Clone, Copy)]
pub struct Half35 {
    pub out: f32,
    pub s0: f32,
    pub s1: f32,
    pub s2: f32,
    pub s3: f32,
}

fn k35_low(c: K35, s0: f32, s1: f32, s2: f32, k: f32, x: f32) -> Half35
    ensures { result ≡ k35_low c s0 s1 s2 k x }
{
    let y1 = c.gg * x + c.h * s0;
    let y2 = (c.gg * y1 - k * c.gg * c.h * s2 + c.h * s1) * k35_den(c, k);
    let hp3 = c.h * (y2 - s2);
    let lp3 = y2 - hp3;
    Half35 {
        out: y2,
        s0: y1 + y1 - s0,
        s1: y2 + y2 - s1,
        s2: lp3 + lp3 - s2,
        s3: k * hp3,
    }
}

fn k35_high(c: K35, s0: f32, s1: f32, s2: f32, k: f32, x: f32) -> Half35
    ensures { result ≡ k35_high c s0 s1 s2 k x }
{
    let y1 = c.h * (x - s0);
    let y2 = c.h * (y1 + k * c.h * s2 - s1) * k35_den(c, k);
    let lp3 = c.gg * y2 + c.h * s2;
    let v = k * lp3 + y1;
    let lp1 = x - y1;
    let lp2 = v - y2;
    Half35 {
        out: y2,
        s0: lp1 + lp1 - s0,
        s1: lp2 + lp2 - s1,
        s2: lp3 + lp3 - s2,
        s3: k * lp3,
    }
}

// A half's feedback with the saturator, from its previous feedback.
fn k35_feedback(c: K35, previous: f32) -> f32
    ensures { result ≡ k35_feedback c previous }
{
    c.base * lane::saturation_gain(previous, c.inv_knee)
}

// State: 0 to 2 the low-pass's stages, 3 its previous feedback; 4 to 6 the high-pass's, 7 its previous feedback.
pub fn k35_step(c: K35, state: &mut [f32; 20], x: f32) -> f32
    ensures { ticked result state.new ≡ k35_step c state.old x }
{
    let l = k35_low(
        c,
        state[0],
        state[1],
        state[2],
        k35_feedback(c, state[3]),
        x,
    );
    let h = k35_high(
        c,
        state[4],
        state[5],
        state[6],
        k35_feedback(c, state[7]),
        x,
    );
    state[0] = l.s0;
    state[1] = l.s1;
    state[2] = l.s2;
    state[3] = l.s3;
    state[4] = h.s0;
    state[5] = h.s1;
    state[6] = h.s2;
    state[7] = h.s3;
    c.w * (h.out - l.out) + l.out
}
