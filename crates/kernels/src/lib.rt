// The structure's kernel, chosen by its code, and what a kernel keeps from frame to frame.
#![tactic(auto)]

ghost use Rattle.std.specs.Prelude.{◌≡◌};
ghost use Rattle.lines.specs.Ring.{StandsIn};
ghost use Rattle.kernels.specs.Tuning.{rows_from, expander_from, weights_from};
ghost use Rattle.kernels.specs.Promises.{table_with, Tuned, PlannedAt, kernel_at, KernelLeaves};

pub mod tuning;

use expanders::Expander;
use extended::Settings;
use filter::Pitch;
use ladders::Rows;
use lines::Ring;
use poles::Series;
use stages::Five;
use tuning::{KeptNumbers, KeptPlan};

// What a structure's coefficients have of the kept numbers.
fn rows_of(tuning: &[f32; 10]) -> Rows
    ensures { result ≡ rows_from tuning.now }
{
    Rows {
        g: tuning[0],
        e: tuning[1],
        r1: tuning[2],
        a1: tuning[3],
        r2: tuning[4],
        a2: tuning[5],
        r3: tuning[6],
    }
}

fn expander_of(tuning: &[f32; 10], p: Settings) -> Expander
    ensures { result ≡ expander_from tuning.now p }
{
    expanders::expander_with(tuning[0], tuning[1], tuning[2], p)
}

fn weights_of(tuning: &[f32; 10]) -> Five
    ensures { result ≡ weights_from tuning.now }
{
    Five(tuning[3], tuning[4], tuning[5], tuning[6], tuning[7])
}

// One tick of the structure `code`. `kept` holds the numbers of this pitch and character, and PoleZero's of this pitch, X, Y and Z, `comb` the chord
// comb's plan at this pitch.
pub fn kernel(
    code: u32,
    sections: &[f32; 320],
    series: Series,
    kept: &KeptNumbers,
    comb: &KeptPlan,
    state: &mut [f32; 20],
    delay: &mut [f32],
    at: Ring,
    pitch: Pitch,
    p: Settings,
    x: f32,
) -> f32
    requires { (StandsIn delay.old at) × (Tuned code (table_with series sections.now) pitch p kept.now.tuning kept.now.blended)
        × (PlannedAt code at.len pitch p comb.now.plan comb.now.teeth) }
    ensures { KernelLeaves
        (kernel_at code (table_with series sections.now) at pitch p state.old delay.old x)
        delay.old at result state.new delay.new }
{
    let tuning = &kept.tuning;
    match code {
        1 => sweeps::buzz_step(sweeps::buzz_with(tuning[0], p), state, x),
        2 => sweeps::dj_step(
            sweeps::dj_with(tuning[0], tuning[1], tuning[2], p),
            state,
            x,
        ),
        3 => sweeps::diffuser_step(sweeps::diffuser_with(tuning[0], p), state, x),
        4 => ladders::transistor_step(ladders::transistor_with(tuning[0], p), state, x),
        5 => ladders::acid_step(ladders::acid_with(rows_of(tuning), p), state, x),
        6 => ladders::clean_ladder_step(ladders::clean_ladder_with(rows_of(tuning), p), state, x),
        7 => ladders::driven_step(
            ladders::driven_with(tuning[0], tuning[1], tuning[2], p),
            state,
            x,
        ),
        8 => poles::pole_zero_step(&kept.blended, series, state, x),
        9 => combs::comb_step(combs::comb_with(tuning[0], tuning[1], p), delay, at, x),
        10 => expanders::multimode_step(expander_of(tuning, p), weights_of(tuning), state, x),
        11 => expanders::band_step(expander_of(tuning, p), state, x),
        12 => expanders::k35_step(
            expanders::k35_with(tuning[0], tuning[1], tuning[2], p),
            state,
            x,
        ),
        13 => combs::chord_step(
            combs::feedback_path(p),
            p.chord,
            &comb.plan,
            &comb.teeth,
            delay,
            at,
            x,
        ),
        _ => x,
    }
}
