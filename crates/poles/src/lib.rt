// The pole-zero filter: a table's active sections in series, each a state-variable stage whose frequency, damping and output mix are
// blended at this sample's X, Y and Z, then the overall gain.
#![tactic(auto)]

ghost use Rattle.std.specs.Prelude.{◌≡◌, ℕ, ◌+◌, ◌*◌, ◌<◌, ◌≤◌, min, List, [], ◌∷◌, Float};
ghost use Rattle.std.proofs.lemmas.List.Edits.{sets};
ghost use Rattle.filter.specs.Filter.{octaves_of};
ghost use Rattle.poles.specs.Poles.{term, blend_of, pad_of, number_at, pole_section, section_over, pole_over, pole_mix, pole_stage, pole_step};
ghost use Rattle.poles.specs.Numbers.{near_at, between_at, face_section, numbers_of, Gives, TakesEight, judged_of, five, table_of, marks_of, pole_numbers};
ghost use Rattle.poles.specs.Numbers.{section_at};
ghost use Rattle.extended.specs.Extended.{ticked};

use extended::Settings;
use filter::{Pitch, Ratio, Stage};
use points::Section;

// Where the far face begins in a table.
const FAR_FACE: usize = 160;

// What a table has beside its numbers: how many of its sections run in series, whether it has three axes, and the gain after the sections.
#[derive(Clone, Copy)]
pub struct Series {
    pub active: u32,
    pub three: bool,
    pub gain: f32,
}

// Where a frame stands on the pad: whether the table has three axes, X and Y, and the smoothed Z.
#[derive(Clone, Copy)]
pub struct Pad {
    pub three: bool,
    pub x: f32,
    pub y: f32,
    pub z: f32,
}

// One section's gain, damping and output weights.
#[derive(Clone, Copy)]
pub struct PoleSection {
    pub g: f32,
    pub k: f32,
    pub high: f32,
    pub band: f32,
    pub low: f32,
}

// A section, and 1 if its ratio was greater than the cap, else 0.
#[derive(Clone, Copy)]
pub struct JudgedSection {
    pub section: PoleSection,
    pub over: u32,
}

// Where value i of section j begins in the table, each with its four terms.
fn term(j: usize, i: usize) -> usize
    requires { (j < 8) × (i < 5) }
    ensures { result ≡ term j i }
{
    20 * j + 4 * i
}

fn blend(sections: &[f32; 320], at: usize, x: f32, y: f32) -> f32
    requires { at < 317 }
    ensures { result ≡ blend_of sections.now at x y }
{
    sections[at + 3] * (x * y) + (sections[at + 2] * y + (sections[at + 1] * x + sections[at]))
}

// The numbers of section j in the face that begins at `face`.
fn face_section(sections: &[f32; 320], face: usize, j: usize, x: f32, y: f32) -> Section
    requires { (face ≤ 160) × (j < 8) }
    ensures { result ≡ face_section sections.now face j x y }
{
    Section {
        octaves: blend(sections, face + term(j, 0), x, y),
        damping: blend(sections, face + term(j, 1), x, y),
        high: blend(sections, face + term(j, 2), x, y),
        band: blend(sections, face + term(j, 3), x, y),
        low: blend(sections, face + term(j, 4), x, y),
    }
}

// A section with its mark, of its numbers and the cutoff's octaves.
fn judged(n: Section, transpose: f32, reference: Ratio) -> JudgedSection
    ensures { result ≡ judged_of n transpose reference }
{
    let c = filter::capped_at(transpose + n.octaves, reference);
    JudgedSection {
        section: PoleSection {
            g: filter::gain_at(c.ratio),
            k: n.damping,
            high: n.high,
            band: n.band,
            low: n.low,
        },
        over: filter::once(c.over),
    }
}

fn pole_mix(c: PoleSection, u: f32, s: Stage) -> f32
    ensures { result ≡ pole_mix c u s }
{
    let kb = c.k * s.band;
    let hp = u - kb - s.low;
    c.high * hp + (c.band * kb + c.low * s.low)
}

// One section: its output, with its two states updated.
fn pole_stage(c: PoleSection, state: &mut [f32; 20], u: f32, j: usize) -> f32
    requires { j < 8 }
    ensures { ticked result state.new ≡ pole_stage c j (ticked u state.old) }
{
    let a = 2 * j;
    let b = 2 * j + 1;
    let s = filter::svf(state[a], state[b], u, c.g, c.k);
    state[a] = s.ic1;
    state[b] = s.ic2;
    pole_mix(c, u, s)
}

// How many sections run.
fn sections_run(active: u32) -> usize
    ensures { result ≡ min active 8 }
{
    active.min(8) as usize
}

// Section j's numbers in the near face.
fn near_section(sections: &[f32; 320], pad: Pad, j: usize) -> Section
    requires { j < 8 }
    ensures { result ≡ numbers_of (near_at sections.now pad) j }
{
    face_section(sections, 0, j, pad.x, pad.y)
}

// Section j's numbers between the two faces.
fn between_section(sections: &[f32; 320], pad: Pad, j: usize) -> Section
    requires { j < 8 }
    ensures { result ≡ numbers_of (between_at sections.now pad) j }
{
    let near = face_section(sections, 0, j, pad.x, pad.y);
    let far = face_section(sections, FAR_FACE, j, pad.x, pad.y);
    near.between(far, extended::unit(pad.z))
}

// Puts section j among the numbers, five a section.
fn put_section(numbers: &mut [f32; 44], j: usize, c: PoleSection)
    requires { j < 8 }
    ensures { numbers.new ≡ sets numbers.old (5 * j) (five c) }
{
    let at = 5 * j;
    numbers[at] = c.g;
    numbers[at + 1] = c.k;
    numbers[at + 2] = c.high;
    numbers[at + 3] = c.band;
    numbers[at + 4] = c.low;
}

// The numbers of all sections, and how many of the running ones' ratios were greater than their cap.
#[derive(Clone, Copy)]
pub struct Blended {
    pub numbers: [f32; 44],
    pub over: u32,
}

// Of the n sections that run, each by its numbers in the table; last the pitch, X, Y and Z. Two axes are apart from three, so that their
// sections are worked out without a look at the far face.
fn running_numbers<F: Fn(usize) -> Section>(
    section: F,
    transpose: f32,
    reference: Ratio,
    n: usize,
    pitch: f32,
    pad: Pad,
) -> Blended
    ghost at: { ℕ → Float }
    requires few { n ≤ 8 }
    requires takes { TakesEight (F.pre section) }
    requires gives { Gives (F.post section) at }
    ensures numbers { result.numbers ≡ table_of (pole_section at transpose reference) n (pitch ∷ pad.x ∷ pad.y ∷ pad.z ∷ []) }
    ensures over { result.over ≡ marks_of (section_over at transpose reference) n }
{
    let mut numbers = [0.0; 44];
    let mut over = 0;
    for j in 0..n {
        let s = judged(section(j), transpose, reference);
        put_section(&mut numbers, j, s.section);
        over += s.over;
    }
    numbers[40] = pitch;
    numbers[41] = pad.x;
    numbers[42] = pad.y;
    numbers[43] = pad.z;
    Blended { numbers, over }
}

// What follows from the pitch and the settings alone.
pub fn pole_numbers(sections: &[f32; 320], series: Series, pitch: Pitch, p: Settings) -> Blended
    ensures { (result.numbers ≡ pole_numbers sections.now series.active p.ref_over_rate pitch (pad_of series.three p))
        × (result.over ≡ pole_over (number_at sections.now (pad_of series.three p)) series.active (octaves_of pitch) p.ref_over_rate) }
{
    let reference = p.ref_over_rate;
    let pad = Pad {
        three: series.three,
        x: p.x,
        y: p.y,
        z: p.z,
    };
    let transpose = filter::octaves_of(pitch);
    let n = sections_run(series.active);
    if series.three {
        running_numbers(
            |j| between_section(sections, pad, j),
            transpose,
            reference,
            n,
            pitch.0,
            pad,
        )
    } else {
        running_numbers(
            |j| near_section(sections, pad, j),
            transpose,
            reference,
            n,
            pitch.0,
            pad,
        )
    }
}

// Section j of those numbers.
fn section_at(numbers: &[f32; 44], j: usize) -> PoleSection
    requires { j < 8 }
    ensures { result ≡ section_at numbers.now j }
{
    let at = 5 * j;
    PoleSection {
        g: numbers[at],
        k: numbers[at + 1],
        high: numbers[at + 2],
        band: numbers[at + 3],
        low: numbers[at + 4],
    }
}

// State: 2j and 2j + 1 section j.
pub fn pole_zero_step(numbers: &[f32; 44], series: Series, state: &mut [f32; 20], x: f32) -> f32
    ensures { ticked result state.new ≡
        pole_step (section_at numbers.now) series.active series.gain state.old x }
{
    let mut u = x;
    for j in 0..sections_run(series.active) {
        u = pole_stage(section_at(numbers, j), state, u, j);
    }
    u * series.gain
}
