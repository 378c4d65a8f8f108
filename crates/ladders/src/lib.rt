// The transistor and diode ladders. Each has what follows from the pitch and the settings alone, in a struct of its name, and the
// step over the input and the states.
#![tactic(auto)]

ghost use Rattle.std.specs.Prelude.{◌≡◌, List, Float};
ghost use Rattle.filter.specs.declared.Pitch.{Pitch};
ghost use Rattle.filter.specs.Filter.{gain_of};
ghost use Rattle.extended.specs.Extended.{ticked};
ghost use Rattle.stages.specs.Promises.{stages_of};
ghost use Rattle.ladders.specs.Ladders.{transistor_with, stage_gain, stage_gains, transistor_solve, transistor_step};
ghost use Rattle.ladders.specs.Ladders.{driven_coefficients, driven_with, driven_step};
ghost use Rattle.ladders.specs.Ladders.{diode_rows, acid_with, clean_ladder_with, diode_solve, diode_feedback, diode_step, acid_step, clean_ladder_step};

use extended::Settings;
use stages::{Four, LADDER_COMPENSATION, LADDER_MAX, Stages};
use std::f32::consts::LOG2_10;

// The transistor ladders: four one-pole stages with feedback from the last, each stage's gain falling as its state grows, solved in
// closed form.
#[derive(Clone, Copy)]
pub struct TransistorLadder {
    pub g: f32,
    pub base: f32,
    pub inv_knee: f32,
}

// The stages' knee: each stage's gain falls as 1 / √(1 + (state / knee)²).
const TRANSISTOR_KNEE: f32 = 4.0;

// From the pitch's gain.
pub fn transistor_with(g: f32, p: Settings) -> TransistorLadder
    ensures { result ≡ transistor_with g p }
{
    TransistorLadder {
        g,
        base: p.resonance * LADDER_MAX,
        inv_knee: p.inv_knee,
    }
}

fn stage_gain(g: f32, s: f32) -> f32
    ensures { result ≡ stage_gain g s }
{
    let gi = g * lane::saturation_gain(s, 1.0 / TRANSISTOR_KNEE);
    gi / (1.0 + gi)
}

// The states are read once, before the roots, and handed on as s.
fn stage_gains(g: f32, s: Four) -> Four
    ensures { (state : List Float) → s ≡ stages_of state → result ≡ stage_gains g state }
{
    Four(
        stage_gain(g, s.0),
        stage_gain(g, s.1),
        stage_gain(g, s.2),
        stage_gain(g, s.3),
    )
}

fn transistor_solve(s: Four, gg: Four, k: f32, x: f32) -> Stages
    ensures { (state : List Float) → s ≡ stages_of state → result ≡ transistor_solve state gg k x }
{
    let b0 = (1.0 - gg.0) * s.0;
    let b1 = (1.0 - gg.1) * s.1;
    let b2 = (1.0 - gg.2) * s.2;
    let b3 = (1.0 - gg.3) * s.3;
    let big_g = gg.0 * gg.1 * gg.2 * gg.3;
    let sum = ((b0 * gg.1 + b1) * gg.2 + b2) * gg.3 + b3;
    let input = x * (k * LADDER_COMPENSATION + 1.0);
    let y4 = (big_g * input + sum) / (k * big_g + 1.0);
    let u = input - k * y4;
    let y1 = gg.0 * u + b0;
    let y2 = gg.1 * y1 + b1;
    let y3 = gg.2 * y2 + b2;
    Stages {
        y1,
        y2,
        y3,
        y4: gg.3 * y3 + b3,
    }
}

// State: 0 to 3 the stages, 4 the previous fourth-stage output.
pub fn transistor_step(c: TransistorLadder, state: &mut [f32; 20], x: f32) -> f32
    ensures { ticked result state.new ≡ transistor_step c state.old x }
{
    let s = stages::stages_of(state);
    let k = c.base * lane::saturation_gain(state[4], c.inv_knee);
    let y = transistor_solve(s, stage_gains(c.g, s), k, x);
    stages::store_ladder(state, y);
    y.y4
}

// The driven ladder: a soft clipper before the transistor ladder, whose gain character raises, scaled so full scale comes out at full
// scale, and a lower resonance knee.
#[derive(Clone, Copy)]
pub struct DrivenLadder {
    pub ladder: TransistorLadder,
    pub drive: f32,
    pub full: f32,
}

// The driven ladder's gain into its clipper at character 1, in decibels.
const DRIVEN_DB: f32 = 30.0;

// How far below the normal types' the driven ladder's resonance knee sits.
const DRIVEN_KNEE: f32 = 4.0;

// From what follows from the pitch and the character alone.
pub fn driven_with(g: f32, drive: f32, full: f32, p: Settings) -> DrivenLadder
    ensures { result ≡ driven_with g drive full p }
{
    DrivenLadder {
        ladder: TransistorLadder {
            inv_knee: p.inv_knee * DRIVEN_KNEE,
            ..transistor_with(g, p)
        },
        drive,
        full,
    }
}

// From the gain of a pitch.
pub fn driven_coefficients(g: f32, p: Settings) -> DrivenLadder
    ensures { (pitch : Pitch) → g ≡ gain_of pitch p.ref_over_rate → result ≡ driven_coefficients pitch p }
{
    let drive = lane::exp2(p.character * (DRIVEN_DB / 20.0 * LOG2_10));
    driven_with(g, drive, lane::soft_clip(drive), p)
}

pub fn driven_step(c: DrivenLadder, state: &mut [f32; 20], x: f32) -> f32
    ensures { ticked result state.new ≡ driven_step c state.old x }
{
    let u = lane::soft_clip(x * c.drive) / c.full;
    transistor_step(c.ladder, state, u)
}

// What a diode ladder's elimination has of the pitch alone, row by row.
#[derive(Clone, Copy)]
pub struct Rows {
    pub g: f32,
    pub e: f32,
    pub r1: f32,
    pub a1: f32,
    pub r2: f32,
    pub a2: f32,
    pub r3: f32,
}

// The diode ladders: four coupled stages, each passing part of its neighbour's current back, with feedback from the last, solved in
// closed form by elimination.
#[derive(Clone, Copy)]
pub struct DiodeLadder {
    pub rows: Rows,
    pub base: f32,
    pub inv_knee: f32,
}

// How much of each stage's current a stage passes back to the one before it.
const DIODE_COUPLING: f32 = 0.5;

// The oscillation frequency in units of the stage frequency, for that coupling.
const DIODE_W: f32 = 1.0552897;

// The feedback at the edge of self-oscillation, and how far past it resonance 1 goes.
const DIODE_K: f32 = 8.617769;

const DIODE_OVERSHOOT: f32 = 1.025;

// How far below the normal types' the acid ladder's resonance knee sits.
const ACID_KNEE: f32 = 2.0;

// From the pitch's gain.
pub fn diode_rows(gain: f32) -> Rows
    ensures { result ≡ diode_rows gain }
{
    let g = gain * (1.0 / DIODE_W);
    let e = g * DIODE_COUPLING;
    let d = 1.0 + g + e;
    let r1 = 1.0 / d;
    let a1 = e * r1;
    let r2 = 1.0 / (d - g * a1);
    let a2 = e * r2;
    let r3 = 1.0 / (d - g * a2);
    Rows {
        g,
        e,
        r1,
        a1,
        r2,
        a2,
        r3,
    }
}

// The acid ladder: an asymmetric shaper before it and a low resonance knee.
pub fn acid_with(rows: Rows, p: Settings) -> DiodeLadder
    ensures { result ≡ acid_with rows p }
{
    DiodeLadder {
        inv_knee: p.inv_knee * ACID_KNEE,
        ..clean_ladder_with(rows, p)
    }
}

// The clean ladder: its pass band compensated for resonance and no shaper.
pub fn clean_ladder_with(rows: Rows, p: Settings) -> DiodeLadder
    ensures { result ≡ clean_ladder_with rows p }
{
    DiodeLadder {
        rows,
        base: p.resonance * (DIODE_K * DIODE_OVERSHOOT),
        inv_knee: p.inv_knee,
    }
}

fn diode_solve(c: Rows, state: &[f32; 20], k: f32, input: f32) -> Stages
    ensures { result ≡ diode_solve c state.now k input }
{
    let b1 = (c.g * input + state[0]) * c.r1;
    let d1 = -c.g * k * c.r1;
    let b2 = (c.g * b1 + state[1]) * c.r2;
    let d2 = c.g * d1 * c.r2;
    let p3 = (c.g * d2 + c.e) * c.r3;
    let b3 = (c.g * b2 + state[2]) * c.r3;
    let y4 = (c.g * b3 + state[3]) / (1.0 + c.g - c.g * p3);
    let y3 = p3 * y4 + b3;
    let y2 = c.a2 * y3 + (d2 * y4 + b2);
    let y1 = c.a1 * y2 + (d1 * y4 + b1);
    Stages { y1, y2, y3, y4 }
}

fn diode_feedback(c: DiodeLadder, state: &[f32; 20]) -> f32
    ensures { result ≡ diode_feedback c state.now }
{
    c.base * lane::saturation_gain(state[4], c.inv_knee)
}

// A diode ladder's tick on its input, with its feedback.
fn diode_step(c: Rows, state: &mut [f32; 20], k: f32, input: f32) -> f32
    ensures { ticked result state.new ≡ diode_step c state.old k input }
{
    let y = diode_solve(c, state, k, input);
    stages::store_ladder(state, y);
    y.y4
}

// State: 0 to 3 the stages, 4 the previous fourth-stage output.
pub fn acid_step(c: DiodeLadder, state: &mut [f32; 20], x: f32) -> f32
    ensures { ticked result state.new ≡ acid_step c state.old x }
{
    let k = diode_feedback(c, state);
    diode_step(c.rows, state, k, extended::asym(x))
}

pub fn clean_ladder_step(c: DiodeLadder, state: &mut [f32; 20], x: f32) -> f32
    ensures { ticked result state.new ≡ clean_ladder_step c state.old x }
{
    let k = diode_feedback(c, state);
    diode_step(c.rows, state, k, x * (1.0 + k))
}
