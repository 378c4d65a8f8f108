// One frame of one slot: the body of the frame loop of Run::go for the scalar lane, and the numbers worked out once a block.
#![tactic(auto)]

ghost use Rattle.std.specs.Prelude.{◌≡◌, true, ◌≤◌, Float};
ghost use Rattle.lane.specs.Floats.{◌⊕◌};
ghost use Rattle.extended.specs.Extended.{unit_or0};
ghost use Rattle.lines.specs.Ring.{StandsIn};
ghost use Rattle.kernels.specs.Promises.{KernelLeaves};
ghost use Rattle.run.specs.Run.{clean_drive, constants_of, sign_of, smooth_of, lag_share, lagged, lag_state, controls_after, state_after};
ghost use Rattle.run.specs.Run.{driven_of, mix_of};
ghost use Rattle.peak.specs.Running.{Runs};
ghost use Rattle.run.specs.Promises.{Glided, Keeps, kernel_on, over_on, tick_on, TickLeaves, Widths, held_record};

use extended::Chord;
use filter::{Pitch, Ratio};
use kernels::tuning::{KeptNumbers, KeptPlan};
use lines::Ring;
use poles::Series;

// The smoothing glide's time constant, in seconds.
const SMOOTHING_SECONDS: f32 = 0.002;

// What clean drive drops the clipper's input by, and raises its output by, in decibels.
const CLEAN_DB: f32 = 24.0;

// Smooth's longest time constant, at character 1, in seconds.
const SMOOTH_SECONDS: f32 = 0.1;

// Where each smoothed number stands.
const DRIVE: usize = 1;

const DRIVE_GAIN: usize = 2;

const OFFSET: usize = 4;

const MIX: usize = 5;

const LEVEL: usize = 6;

const CHARACTER: usize = 7;

const MORPH_X: usize = 8;

const MORPH_Y: usize = 9;

// Where the cutoff smoothing keeps its state: whether it has started, then the smoothed pitch, X and Y.
const LAG_STARTED: usize = 16;

const LAG_PITCH: usize = 17;

const LAG_X: usize = 18;

const LAG_Y: usize = 19;

// The numbers that are worked out once a block, and the setup's chord.
#[derive(Clone, Copy)]
pub struct Constants {
    pub alpha: f32,
    pub clip_in: f32,
    pub clip_out: f32,
    pub smooth_samples: f32,
    pub ref_over_rate: Ratio,
    pub chord: Chord,
}

// What a block has of its setup for every tick: the structure's code, the table's active sections, axes and gain, the constants.
#[derive(Clone, Copy)]
pub struct Structure {
    pub code: u32,
    pub active: u32,
    pub three: bool,
    pub gain: f32,
    pub k: Constants,
}

// What a frame brings to a slot: the channel's sign, the voice's pitch, the input sample, and what X and Y are steered by, zeros where it is
// unsteered.
#[derive(Clone, Copy)]
pub struct FrameInput {
    pub sign: f32,
    pub pitch: Pitch,
    pub input: f32,
    pub x: f32,
    pub y: f32,
}

fn clean_drive() -> f32
    ensures { result ≡ clean_drive }
{
    lane::pow10(-CLEAN_DB, 20.0)
}

pub fn constants_of(rate: f32, reference: f32, clean: bool, chord: Chord) -> Constants
    ensures { result ≡ constants_of rate reference clean chord }
{
    let factor = if clean { clean_drive() } else { 1.0 };
    Constants {
        alpha: 1.0 - lane::exp(-1.0 / (SMOOTHING_SECONDS * rate)),
        clip_in: factor,
        clip_out: 1.0 / factor,
        smooth_samples: SMOOTH_SECONDS * rate,
        ref_over_rate: Ratio(reference / rate),
        chord,
    }
}

// The channel's sign.
pub fn sign(channels: usize, channel: usize) -> f32
    ensures { result ≡ sign_of channels channel }
{
    if channels == 1 {
        0.0
    } else if channel == 0 {
        -1.0
    } else {
        1.0
    }
}

// The eleven smoothed numbers one frame further on the way to their targets.
pub fn smooth(params: &mut [f32; 11], targets: &[f32; 11], alpha: f32)
    ensures { params.new ≡ smooth_of alpha targets.now params.old }
{
    let next = [
        (targets[0] - params[0]) * alpha + params[0],
        (targets[1] - params[1]) * alpha + params[1],
        (targets[2] - params[2]) * alpha + params[2],
        (targets[3] - params[3]) * alpha + params[3],
        (targets[4] - params[4]) * alpha + params[4],
        (targets[5] - params[5]) * alpha + params[5],
        (targets[6] - params[6]) * alpha + params[6],
        (targets[7] - params[7]) * alpha + params[7],
        (targets[8] - params[8]) * alpha + params[8],
        (targets[9] - params[9]) * alpha + params[9],
        (targets[10] - params[10]) * alpha + params[10],
    ];
    *params = next;
}

// The same; where their glide has ended they stay.
fn smooth_on(params: &mut [f32; 11], targets: &[f32; 11], alpha: f32, glided: bool)
    requires { glided ≡ true → Glided alpha targets.now params.old }
    ensures { params.new ≡ smooth_of alpha targets.now params.old }
{
    if glided {
        return;
    }
    smooth(params, targets, alpha);
}

// The pitch, X and Y that a frame's kernel takes.
#[derive(Clone, Copy)]
pub struct Controls {
    pub pitch: f32,
    pub x: f32,
    pub y: f32,
}

fn steer(morph: f32, v: f32) -> f32
    ensures { result ≡ unit_or0 (morph ⊕ v) }
{
    extended::unit(morph + v)
}

fn lag_share(smooth_samples: f32, character: f32, started: f32) -> f32
    ensures { result ≡ lag_share smooth_samples character started }
{
    let a = 1.0 / (character * character * smooth_samples + 1.0);
    1.0 - started * (1.0 - a)
}

fn lagged(state: &[f32; 20], smooth_samples: f32, character: f32, at: Controls) -> Controls
    ensures { result ≡ lagged smooth_samples character state.now at }
{
    let a = lag_share(smooth_samples, character, state[LAG_STARTED]);
    Controls {
        pitch: (at.pitch - state[LAG_PITCH]) * a + state[LAG_PITCH],
        x: (at.x - state[LAG_X]) * a + state[LAG_X],
        y: (at.y - state[LAG_Y]) * a + state[LAG_Y],
    }
}

fn store_lag(state: &mut [f32; 20], after: Controls)
    ensures { state.new ≡ lag_state state.old after }
{
    state[LAG_STARTED] = 1.0;
    state[LAG_PITCH] = after.pitch;
    state[LAG_X] = after.x;
    state[LAG_Y] = after.y;
}

// A one-pole lag that starts at its first input, for the structures whose character is Smooth.
fn lag(
    code: u32,
    state: &mut [f32; 20],
    smooth_samples: f32,
    character: f32,
    at: Controls,
) -> Controls
    ensures { (result ≡ controls_after code smooth_samples character state.old at)
        × (state.new ≡ state_after code smooth_samples character state.old at) }
{
    if !extended::is_smooth(code) {
        return at;
    }
    let after = lagged(state, smooth_samples, character, at);
    store_lag(state, after);
    after
}

fn drive(k: Constants, params: &[f32; 11], input: f32) -> f32
    ensures { result ≡ driven_of k params.now input }
{
    let u = input * params[DRIVE_GAIN];
    let clipped = lane::soft_clip(u * k.clip_in) * k.clip_out;
    (clipped - u) * params[DRIVE] + u
}

fn mix(params: &[f32; 11], input: f32, wet: f32) -> f32
    ensures { result ≡ mix_of params.now input wet }
{
    (wet * params[MIX] + input * (1.0 - params[MIX])) * params[LEVEL]
}

// A slot's record in hand: the smoothed numbers, the states and what runs in the peak's place.
#[derive(Clone, Copy)]
pub struct Record {
    pub params: [f32; 11],
    pub state: [f32; 20],
    pub peak: f32,
}

// A frame's sample, and how often its kernel judged a ratio greater than the cap.
#[derive(Clone, Copy)]
pub struct Sample {
    pub out: f32,
    pub over: u32,
}

// The lag, the drive and the kernel. `kept` and `comb` hold the numbers kept from frame to frame.
fn kernel_tick(
    m: Structure,
    sections: &[f32; 320],
    kept: &mut KeptNumbers,
    comb: &mut KeptPlan,
    params: &[f32; 11],
    state: &mut [f32; 20],
    delay: &mut [f32],
    at: Ring,
    controls: Controls,
    input: f32,
) -> Sample
    requires { (StandsIn delay.old at)
        × (Keeps m at.len sections.now kept.old.tuning kept.old.blended kept.old.over comb.old.plan comb.old.teeth) }
    ensures { (KernelLeaves
        (kernel_on m sections.now at params.now state.old controls input delay.old)
        delay.old at result.out state.new delay.new)
        × (result.over ≡ over_on m sections.now params.now state.old controls)
        × (Keeps m at.len sections.now kept.new.tuning kept.new.blended kept.new.over
        comb.new.plan comb.new.teeth) }
{
    let k = m.k;
    let after = lag(m.code, state, k.smooth_samples, params[CHARACTER], controls);
    let driven = drive(k, params, input);
    let p = extended::settings_at(k.ref_over_rate, k.chord, params, after.x, after.y);
    let pitch = Pitch(after.pitch);
    kept.retune(m.code, pitch, k.ref_over_rate, k.chord, params[CHARACTER]);
    let series = Series {
        active: m.active,
        three: m.three,
        gain: m.gain,
    };
    kept.blend_sections(m.code, sections, series, pitch, p);
    comb.replan(m.code, at.len, kept.tuning[0], k.chord);
    let out = kernels::kernel(
        m.code, sections, series, kept, comb, state, delay, at, pitch, p, driven,
    );
    Sample {
        out,
        over: kept.over,
    }
}

// One frame of one slot. `kept` and `comb` hold the numbers kept from frame to frame; `glided` says that smoothing leaves the smoothed numbers as
// they are.
pub fn tick(
    m: Structure,
    sections: &[f32; 320],
    kept: &mut KeptNumbers,
    comb: &mut KeptPlan,
    targets: &[f32; 11],
    rec: &mut Record,
    delay: &mut [f32],
    at: Ring,
    f: FrameInput,
    glided: bool,
) -> Sample
    requires { (Widths rec.old.params rec.old.state) × (StandsIn delay.old at)
        × (Keeps m at.len sections.now kept.old.tuning kept.old.blended kept.old.over comb.old.plan comb.old.teeth)
        × (glided ≡ true → Glided m.k.alpha targets.now rec.old.params) }
    ensures { ((b : Float) → Runs b rec.old.peak → Runs b rec.new.peak × (TickLeaves
        (tick_on m sections.now at f targets.now (held_record rec.old.params rec.old.state b rec.old.peak)
        delay.old)
        delay.old at result (held_record rec.new.params rec.new.state b rec.new.peak) delay.new))
        × (result.over ≤ 8) × (Widths rec.new.params rec.new.state)
        × (Keeps m at.len sections.now kept.new.tuning kept.new.blended kept.new.over
        comb.new.plan comb.new.teeth)
        × (rec.new.params ≡ smooth_of m.k.alpha targets.now rec.old.params) }
{
    let Record {
        params,
        state,
        peak,
    } = rec;
    smooth_on(params, targets, m.k.alpha, glided);
    let controls = Controls {
        pitch: params[OFFSET] * f.sign + f.pitch.0,
        x: steer(params[MORPH_X], f.x),
        y: steer(params[MORPH_Y], f.y),
    };
    let wet = kernel_tick(
        m, sections, kept, comb, params, state, delay, at, controls, f.input,
    );
    let out = mix(params, f.input, wet.out);
    *peak = peak::raised(*peak, out);
    Sample {
        out,
        over: wet.over,
    }
}
