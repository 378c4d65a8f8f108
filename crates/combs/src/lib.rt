// Comb II: a feedback comb whose loop reads two taps on the delay lines, one period of the cutoff back and one period of a second
// frequency back, averaged, with a soft clipper in the loop. The output is scaled by 1 - feedback. The chord comb: the same over up to
// eight taps.
#![tactic(auto)]

ghost use Rattle.std.specs.Prelude.{◌≡◌};
ghost use Rattle.lane.specs.Floats.{◌‼◌};
ghost use Rattle.lines.specs.Ring.{StandsIn};
ghost use Rattle.filter.specs.declared.Pitch.{Pitch};
ghost use Rattle.filter.specs.Filter.{ratio_of};
ghost use Rattle.teeth.specs.Promises.{Planned};
ghost use Rattle.combs.specs.Combs.{feedback_path, comb_loop, comb_coefficients, comb_with};
ghost use Rattle.combs.specs.Promises.{end_at, comb_at, chord_at, CombLeaves};

use extended::{Chord, Settings};
use lines::Ring;

// The second frequency at character 1, in octaves above the first.
const COMB_OCTAVES: f32 = 2.0;

// Feedback at resonance 1.
const COMB_FEEDBACK_MAX: f32 = 0.98;

// What both combs' loops have of the settings.
#[derive(Clone, Copy)]
pub struct FeedbackPath {
    pub feedback: f32,
    pub inv_knee: f32,
    pub knee: f32,
}

#[derive(Clone, Copy)]
pub struct Comb2 {
    pub first: f32,
    pub second: f32,
    pub path: FeedbackPath,
}

pub fn feedback_path(p: Settings) -> FeedbackPath
    ensures { result ≡ feedback_path p }
{
    FeedbackPath {
        feedback: p.resonance * COMB_FEEDBACK_MAX,
        inv_knee: p.inv_knee,
        knee: 1.0 / p.inv_knee,
    }
}

// From what follows from the pitch and the character alone.
pub fn comb_with(first: f32, second: f32, p: Settings) -> Comb2
    ensures { result ≡ comb_with first second p }
{
    Comb2 {
        first,
        second,
        path: feedback_path(p),
    }
}

// From the ratio of a pitch.
pub fn comb_coefficients(ratio: f32, p: Settings) -> Comb2
    ensures { (pitch : Pitch) → ratio ≡ (ratio_of pitch p.reference_ratio).0 → result ≡ comb_coefficients pitch p }
{
    let octaves = lane::exp2(p.character * COMB_OCTAVES);
    comb_with(1.0 / ratio, 1.0 / (ratio * octaves), p)
}

fn comb_loop(c: FeedbackPath, taps: f32, x: f32) -> f32
    ensures { result ≡ comb_loop c taps x }
{
    c.feedback * (lane::soft_clip(taps * c.inv_knee) * c.knee) + x
}

// Writes the cursor's cell, through the view, from the mean of the taps.
fn comb_end(c: FeedbackPath, delay: &mut [f32], at: Ring, taps: f32, x: f32) -> f32
    requires { StandsIn delay.old at }
    ensures { CombLeaves (end_at c delay.old at taps x) delay.old at result delay.new }
{
    let y = comb_loop(c, taps, x);
    view::write_through(delay, at.len, at.cursor, at.slot, y);
    y * (1.0 - c.feedback)
}

// Reads two taps of the slot's ring and writes the cursor's cell, through the view.
pub fn comb_step(c: Comb2, delay: &mut [f32], at: Ring, x: f32) -> f32
    requires { StandsIn delay.old at }
    ensures { CombLeaves (comb_at c delay.old at x) delay.old at result delay.new }
{
    let first = view::read_through(delay, at.len, at.cursor, at.slot, c.first);
    let second = view::read_through(delay, at.len, at.cursor, at.slot, c.second);
    comb_end(c.path, delay, at, (first + second) * 0.5, x)
}

// Reads the chord's teeth of the slot's ring together, by the plan, and writes the cursor's cell.
pub fn chord_step(
    c: FeedbackPath,
    chord: Chord,
    plan: &[usize; 65],
    teeth: &[f32; 9],
    delay: &mut [f32],
    at: Ring,
    x: f32,
) -> f32
    requires { (StandsIn delay.old at) × (Planned at.len chord plan.now teeth.now) }
    ensures { CombLeaves (chord_at c (teeth.now ‼ 8) chord delay.old at x) delay.old at result delay.new }
{
    let mut taps = [0.0f32; 8];
    let mean = teeth::read_planned(
        delay, at.len, at.cursor, at.slot, chord, plan, teeth, &mut taps,
    );
    comb_end(c, delay, at, mean, x)
}
