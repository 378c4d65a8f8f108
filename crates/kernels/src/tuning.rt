// What a kernel has of the pitch and the character alone, or PoleZero of the pitch, X, Y and Z, kept from frame to frame and worked out
// again when one of them changes; and the chord comb's plan, of the ratio.
ghost use Rattle.std.specs.Prelude.{◌≡◌, ℕ, true, false, ◌+◌};
ghost use Rattle.std.specs.Float.Ieee.{is_nan};
ghost use Rattle.filter.specs.Filter.{gain_of, over_of, once};
ghost use Rattle.sweeps.specs.Sweeps.{dj_coefficients, dj_over};
ghost use Rattle.combs.specs.Combs.{comb_coefficients, comb_over, comb_ratio, chord_over};
ghost use Rattle.lane.specs.Floats.{zero};
ghost use Rattle.lines.specs.Lines.{is_length};
ghost use Rattle.teeth.specs.Promises.{PlannedFor};
ghost use Rattle.kernels.specs.Tuning.{three_numbers, dj_numbers, row_numbers, driven_numbers, comb_numbers, band_numbers};
ghost use Rattle.kernels.specs.Tuning.{multimode_numbers, k35_numbers, gain_numbers, numbers_of, tuning_of, tuned_over, key_of};
ghost use Rattle.kernels.specs.Tuning.{blended_of, blended_over, driven_list};
ghost use Rattle.pole_zero.specs.declared.Table.{Table};
ghost use Rattle.poles.specs.Poles.{pad_of};
ghost use Rattle.kernels.specs.Promises.{table_with, Kept, KeptSections, KeptTeeth, TunedAt, DrivenAt, BlendedAt};

use combs::Comb2;
use expanders::{Expander, K35};
use extended::{Chord, Settings};
use filter::{Pitch, Ratio};
use ladders::{DrivenLadder, Rows};
use poles::Series;
use stages::Five;
use sweeps::DjSweep;

// A structure's numbers; a place that it has no use for is 0.
#[derive(Clone, Copy)]
pub struct Numbers(
    pub f32,
    pub f32,
    pub f32,
    pub f32,
    pub f32,
    pub f32,
    pub f32,
    pub f32,
);

fn three_numbers(a: f32, b: f32, c: f32) -> Numbers
    ensures { result ≡ three_numbers a b c }
{
    Numbers(a, b, c, 0.0, 0.0, 0.0, 0.0, 0.0)
}

fn dj_numbers(c: DjSweep) -> Numbers
    ensures { result ≡ dj_numbers c }
{
    three_numbers(c.g, c.low_side, c.wet)
}

fn row_numbers(c: Rows) -> Numbers
    ensures { result ≡ row_numbers c }
{
    Numbers(c.g, c.e, c.r1, c.a1, c.r2, c.a2, c.r3, 0.0)
}

fn driven_numbers(c: DrivenLadder) -> Numbers
    ensures { result ≡ driven_numbers c }
{
    three_numbers(c.ladder.g, c.drive, c.full)
}

fn comb_numbers(c: Comb2) -> Numbers
    ensures { result ≡ comb_numbers c }
{
    three_numbers(c.first, c.second, 0.0)
}

fn band_numbers(c: Expander) -> Numbers
    ensures { result ≡ band_numbers c }
{
    three_numbers(c.gg, c.h, c.gg4)
}

fn multimode_numbers(c: Expander, w: Five) -> Numbers
    ensures { result ≡ multimode_numbers c w }
{
    Numbers(c.gg, c.h, c.gg4, w.0, w.1, w.2, w.3, w.4)
}

fn k35_numbers(c: K35) -> Numbers
    ensures { result ≡ k35_numbers c }
{
    three_numbers(c.gg, c.h, c.w)
}

// The numbers of a structure whose numbers follow from the pitch's gain.
fn gain_numbers(code: u32, g: f32, p: Settings) -> Numbers
    ensures { (pitch : Pitch) → g ≡ gain_of pitch p.ref_over_rate → result ≡ gain_numbers code pitch p }
{
    match code {
        5 => row_numbers(ladders::diode_rows(g)),
        6 => row_numbers(ladders::diode_rows(g)),
        7 => driven_numbers(ladders::driven_coefficients(g, p)),
        10 => multimode_numbers(
            expanders::expander_coefficients(g, p),
            expanders::multimode_weights(p.character),
        ),
        11 => band_numbers(expanders::expander_coefficients(g, p)),
        12 => k35_numbers(expanders::k35_coefficients(g, p)),
        _ => three_numbers(g, 0.0, 0.0),
    }
}

// A structure's numbers, and how often a tick at them judges a ratio greater than its cap.
#[derive(Clone, Copy)]
pub struct JudgedNumbers {
    pub numbers: Numbers,
    pub over: u32,
}

fn judged_sweep(pitch: Pitch, p: Settings) -> JudgedNumbers
    ensures { (result.numbers ≡ dj_numbers (dj_coefficients pitch p)) × (result.over ≡ once (dj_over pitch p)) }
{
    let c = sweeps::dj_coefficients(pitch, p);
    JudgedNumbers {
        numbers: dj_numbers(c.sweep),
        over: filter::once(c.over),
    }
}

// Each of the two reads judges.
fn judged_comb(pitch: Pitch, p: Settings) -> JudgedNumbers
    ensures { (result.numbers ≡ comb_numbers (comb_coefficients pitch p)) × (result.over ≡ once (comb_over pitch p) + once (comb_over pitch p)) }
{
    let c = filter::capped_of(pitch, p.reference_ratio);
    let over = filter::once(c.over);
    JudgedNumbers {
        numbers: comb_numbers(combs::comb_coefficients(c.ratio.0, p)),
        over: over + over,
    }
}

// Each of the teeth judges.
fn judged_chord(pitch: Pitch, p: Settings) -> JudgedNumbers
    ensures { (result.numbers ≡ three_numbers (comb_ratio pitch p) zero zero) × (result.over ≡ chord_over pitch p) }
{
    let c = filter::capped_of(pitch, p.reference_ratio);
    let n = teeth::teeth_of(p.chord) as u32;
    JudgedNumbers {
        numbers: three_numbers(c.ratio.0, 0.0, 0.0),
        over: n * filter::once(c.over),
    }
}

fn judged_gain(code: u32, pitch: Pitch, p: Settings) -> JudgedNumbers
    ensures { (result.numbers ≡ gain_numbers code pitch p) × (result.over ≡ once (over_of pitch p.ref_over_rate)) }
{
    let c = filter::judged_gain(pitch, p.ref_over_rate);
    JudgedNumbers {
        numbers: gain_numbers(code, c.g, p),
        over: filter::once(c.over),
    }
}

// PoleZero's count, which follows from its sections, stays as it was.
fn numbers_of(code: u32, pitch: Pitch, p: Settings, before: u32) -> JudgedNumbers
    ensures { (result.numbers ≡ numbers_of code pitch p) × (result.over ≡ tuned_over code pitch p before) }
{
    match code {
        2 => judged_sweep(pitch, p),
        8 => JudgedNumbers {
            numbers: three_numbers(0.0, 0.0, 0.0),
            over: before,
        },
        9 => judged_comb(pitch, p),
        13 => judged_chord(pitch, p),
        _ => judged_gain(code, pitch, p),
    }
}

// Whether two numbers are no NaN and have the same bits.
pub fn same(a: f32, b: f32) -> bool
    ensures { result ≡ true → (is_nan a ≡ false) × (a ≡ b) }
{
    a == a && b == b && a.to_bits() == b.to_bits()
}

// Whether the kept numbers are those of this pitch and character.
fn is_tuned(tuning: &[f32; 10], pitch: f32, character: f32) -> bool
    ensures { result ≡ true → TunedAt tuning.now pitch character }
{
    same(tuning[8], pitch) && same(tuning[9], character)
}

// The kept numbers of a pitch and a character.
#[derive(Clone, Copy)]
pub struct Tuning {
    pub numbers: [f32; 10],
    pub over: u32,
}

fn tuned(code: u32, pitch: Pitch, p: Settings, before: u32) -> Tuning
    ensures { (result.numbers ≡ tuning_of code pitch p) × (result.over ≡ tuned_over code pitch p before) }
{
    let c = numbers_of(code, pitch, p, before);
    let n = c.numbers;
    Tuning {
        numbers: [n.0, n.1, n.2, n.3, n.4, n.5, n.6, n.7, pitch.0, p.character],
        over: c.over,
    }
}

// Whether the kept numbers are the driven ladder's (code 7) of this character, at whatever pitch.
fn is_driven(code: u32, tuning: &[f32; 10], character: f32) -> bool
    ensures { result ≡ true → DrivenAt code tuning.now character }
{
    code == 7 && same(tuning[8], tuning[8]) && same(tuning[9], character)
}

// The driven ladder's numbers at another pitch: what follows from the character stays.
fn driven_at(tuning: &[f32; 10], pitch: Pitch, reference: Ratio, character: f32) -> Tuning
    ensures { (result.numbers ≡ driven_list tuning.now pitch reference character) × (result.over ≡ once (over_of pitch reference)) }
{
    let c = filter::judged_gain(pitch, reference);
    Tuning {
        numbers: [
            c.g, tuning[1], tuning[2], 0.0, 0.0, 0.0, 0.0, 0.0, pitch.0, character,
        ],
        over: filter::once(c.over),
    }
}

// The numbers and the count of another pitch or character than those of `tuning`.
fn retuned(
    code: u32,
    tuning: &[f32; 10],
    over: u32,
    pitch: Pitch,
    reference: Ratio,
    chord: Chord,
    character: f32,
) -> Tuning
    requires { Kept code reference chord tuning.now over }
    ensures { (result.numbers ≡ tuning_of code pitch (key_of reference chord character))
        × (result.over ≡ tuned_over code pitch (key_of reference chord character) over) }
{
    if is_driven(code, tuning, character) {
        return driven_at(tuning, pitch, reference, character);
    }
    tuned(
        code,
        pitch,
        Settings {
            resonance: 0.0,
            inv_knee: 0.0,
            character,
            x: 0.0,
            y: 0.0,
            z: 0.0,
            ref_over_rate: reference,
            reference_ratio: reference,
            chord,
        },
        over,
    )
}

// Whether the kept numbers of the sections are those of this pitch, X, Y and Z.
fn is_blended(blended: &[f32; 44], pitch: f32, x: f32, y: f32, z: f32) -> bool
    ensures { result ≡ true → BlendedAt blended.now pitch x y z }
{
    same(blended[40], pitch) && same(blended[41], x) && same(blended[42], y) && same(blended[43], z)
}

// The numbers kept from frame to frame: `tuning` those of a pitch and a character, which are its last two, `blended` PoleZero's, of a pitch, X, Y
// and Z, its last four, and how often a tick at them judges a ratio greater than its cap.
#[derive(Clone, Copy)]
pub struct KeptNumbers {
    pub tuning: [f32; 10],
    pub blended: [f32; 44],
    pub over: u32,
}

impl KeptNumbers {
    // None yet: their pitch, X, Y and Z are NaN, which nothing equals.
    pub fn unset() -> KeptNumbers
        ensures tuning { (code : ℕ) (reference : Ratio) (chord : Chord) → Kept code reference chord result.tuning result.over }
        ensures sections { (code : ℕ) (table : Table) (reference : Ratio) → KeptSections code table reference result.blended result.over }
    {
        let tuning = [f32::NAN; 10];
        let blended = [f32::NAN; 44];
        KeptNumbers {
            tuning,
            blended,
            over: 0,
        }
    }

    // Brings the numbers and the count to this pitch and character.
    pub fn retune(
        &mut self,
        code: u32,
        pitch: Pitch,
        reference: Ratio,
        chord: Chord,
        character: f32,
    )
        requires { Kept code reference chord self.old.tuning self.old.over }
        ensures { (self.new.tuning ≡ tuning_of code pitch (key_of reference chord character))
            × (self.new.over ≡ tuned_over code pitch (key_of reference chord character) self.old.over)
            × (self.new.blended ≡ self.old.blended) }
    {
        if is_tuned(&self.tuning, pitch.0, character) {
            return;
        }
        let next = retuned(
            code,
            &self.tuning,
            self.over,
            pitch,
            reference,
            chord,
            character,
        );
        let numbers = next.numbers;
        self.tuning = numbers;
        self.over = next.over;
    }

    // Brings the sections' numbers and the count to this pitch, X, Y and Z. Only PoleZero (code 8) has sections.
    pub fn blend_sections(
        &mut self,
        code: u32,
        sections: &[f32; 320],
        series: Series,
        pitch: Pitch,
        p: Settings,
    )
        requires { KeptSections code (table_with series sections.now) p.ref_over_rate self.old.blended self.old.over }
        ensures { (self.new.blended ≡ blended_of code (table_with series sections.now) pitch p self.old.blended)
            × (self.new.over ≡ blended_over code (table_with series sections.now) p.ref_over_rate pitch (pad_of series.three p)
            self.old.over) × (self.new.tuning ≡ self.old.tuning) }
    {
        if code != 8 {
            return;
        }
        if is_blended(&self.blended, pitch.0, p.x, p.y, p.z) {
            return;
        }
        let next = poles::pole_numbers(sections, series, pitch, p);
        let numbers = next.numbers;
        self.blended = numbers;
        self.over = next.over;
    }
}

// The chord comb's plan of its teeth, of a ratio, which stands last in `teeth`.
#[derive(Clone, Copy)]
pub struct KeptPlan {
    pub plan: [usize; 65],
    pub teeth: [f32; 9],
}

impl KeptPlan {
    // None yet: its ratio is NaN, which nothing equals.
    pub fn unset() -> KeptPlan
        ensures { (len : ℕ) (chord : Chord) → KeptTeeth len chord result.plan result.teeth }
    {
        let plan = [0usize; 65];
        let teeth = [f32::NAN; 9];
        KeptPlan { plan, teeth }
    }

    // Brings the plan to a ratio. Only the chord comb (code 13) has teeth.
    pub fn replan(&mut self, code: u32, len: usize, ratio: f32, chord: Chord)
        requires { (is_length len ≡ true) × (KeptTeeth len chord self.old.plan self.old.teeth) }
        ensures { (KeptTeeth len chord self.new.plan self.new.teeth)
            × (code ≡ 13 → PlannedFor len chord ratio self.new.plan self.new.teeth) }
    {
        if code != 13 {
            return;
        }
        if same(self.teeth[8], ratio) {
            return;
        }
        let KeptPlan { plan, teeth } = self;
        teeth::plan_teeth(len, ratio, chord, plan, teeth);
    }
}
