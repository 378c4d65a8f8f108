// The teeth of the chord comb, read together. The cells of the ring that they need follow from the delays alone: a plan of them is
// made once and kept, and each frame loads every cell of the plan once.
#![tactic(auto)]

ghost use Rattle.std.specs.Prelude.{◌≡◌, true, ℕ, ◌+◌, ◌*◌, ◌%◌, ◌^◌, ◌<◌, ◌≤◌, length, set, replicate};
ghost use Rattle.lane.specs.Floats.{◌⊕◌, ◌‼◌, zero};
ghost use Rattle.parts.specs.Parts.{piece};
ghost use Rattle.lines.specs.Lines.{is_length, is_view, cell_of};
ghost use Rattle.teeth.specs.Teeth.{ring_taps, teeth_of, tooth_delay, first_of, is_of_four};
ghost use Rattle.teeth.specs.Promises.{plan_at, place_of, size_in, fraction_of, Widths, Planned, PlannedFor, TapsLeft, ChordLeaves};
ghost use Rattle.teeth.specs.Needed.{fresh, fresh_tooth, Apart, Clear};
ghost use Rattle.teeth.specs.Placing.{kept, Earlier, Placed, Cell};
ghost use Rattle.teeth.specs.Taps.{Loaded, tap_of, Summed};

use extended::Chord;

// A plan has the steps back of the cells to load, from PLACES on where each tooth's four stand among them, and at SIZE how many they are.
const PLACES: usize = 32;

const SIZE: usize = 64;

// The ratio stands after the teeth's eight fractions.
const RATIO: usize = 8;

// How many teeth there are, 8 at most.
pub fn teeth_of(chord: Chord) -> usize
    ensures { result ≡ teeth_of chord }
{
    chord.count.min(8) as usize
}

// Tooth j's delay.
fn tooth_delay(ratio: f32, chord: Chord, j: usize) -> f32
    requires { j < 8 }
    ensures { result ≡ tooth_delay ratio chord j }
{
    let offset = chord.offsets[j];
    1.0 / (ratio * lane::exp2(offset))
}

// The first of a tooth's four cells, in steps back, and how far between the second and the third it reads.
#[derive(Clone, Copy)]
struct Tooth {
    first: usize,
    fraction: f32,
}

// The tooth at a delay, which is clamped as a single read's.
fn tooth_at(len: usize, delay: f32) -> Tooth
    requires { is_length len ≡ true }
    ensures { (result.first ≡ first_of len delay) × (result.fraction ≡ fraction_of len delay) }
{
    let d = lines::held(len, delay);
    let w = lines::whole_part(d);
    Tooth {
        first: w as usize - 1,
        fraction: d - w as f32,
    }
}

// The cell `back` is one of the four from `first` on.
fn is_of_four(first: usize, back: usize) -> bool
    ensures { result ≡ is_of_four first back }
{
    first <= back && back - first < 4
}

// The first of the teeth before tooth i that needs the cell `back`.
fn earlier(firsts: &[usize; 8], i: usize, back: usize) -> Option<usize>
    requires { i ≤ 8 }
    ensures { Earlier (kept firsts.now) i back result }
{
    firsts[..i]
        .iter()
        .position(|first| is_of_four(*first, back))
}

// No cell of the four from `a` on is one of the four from `first` on. (`false` promises nothing.)
fn is_apart(first: usize, a: usize) -> bool
    ensures { result ≡ true → Apart first a }
{
    first.abs_diff(a) > 3
}

// No tooth before tooth i needs any of the four cells from `a` on. (`false` promises nothing.)
fn is_clear(firsts: &[usize; 8], i: usize, a: usize) -> bool
    requires { i ≤ 8 }
    ensures { result ≡ true → Clear (kept firsts.now) i a }
{
    firsts[..i].iter().all(|first| is_apart(*first, a))
}

// Where cell k of tooth j stands among the cells.
fn place_of(plan: &[usize; 65], j: usize, k: usize) -> usize
    requires { (j < 8) × (k < 4) }
    ensures { result ≡ place_of plan.now j k }
{
    plan[PLACES + (j * 4 + k)]
}

// Plans a cell more, `back`, as the teeth's cell number `at`.
fn append(plan: &mut [usize; 65], at: usize, back: usize, size: usize)
    requires { (at < 32) × (size ≤ at) }
    ensures { plan.new ≡ set (set plan.old size back) (32 + at) size }
{
    plan[size] = back;
    plan[PLACES + at] = size;
}

// Places a cell of tooth i: where the first earlier tooth that needs it has it, or appended. Answers how many cells are planned.
fn place_cell(
    plan: &mut [usize; 65],
    firsts: &[usize; 8],
    i: usize,
    at: usize,
    back: usize,
    size: usize,
) -> usize
    requires { (Cell (kept firsts.now) i at back) × (Placed (kept firsts.now) at plan.old size) }
    ensures { (result ≡ size + fresh (kept firsts.now) i back)
        × (Placed (kept firsts.now) (at + 1) plan.new result) }
{
    if let Some(j) = earlier(firsts, i, back) {
        plan[PLACES + at] = place_of(plan, j, back - firsts[j]);
        size
    } else {
        append(plan, at, back, size);
        size + 1
    }
}

// Places the four cells of tooth i, which is the last of `firsts` so far. Answers how many cells are planned.
fn place_tooth(plan: &mut [usize; 65], firsts: &[usize; 8], i: usize, size: usize) -> usize
    requires { (i < 8) × (kept firsts.now i < 65536) × (Placed (kept firsts.now) (i * 4) plan.old size) }
    ensures { (result ≡ fresh_tooth (kept firsts.now) i size)
        × (Placed (kept firsts.now) (i * 4 + 4) plan.new result) }
{
    let first = firsts[i];
    let at = i * 4;
    if is_clear(firsts, i, first) {
        append(plan, at, first, size);
        append(plan, at + 1, first + 1, size + 1);
        append(plan, at + 2, first + 2, size + 2);
        append(plan, at + 3, first + 3, size + 3);
        size + 4
    } else {
        let a = place_cell(plan, firsts, i, at, first, size);
        let b = place_cell(plan, firsts, i, at + 1, first + 1, a);
        let c = place_cell(plan, firsts, i, at + 2, first + 2, b);
        place_cell(plan, firsts, i, at + 3, first + 3, c)
    }
}

// Brings the plan and the fractions to a ratio.
pub fn plan_teeth(
    len: usize,
    ratio: f32,
    chord: Chord,
    plan: &mut [usize; 65],
    teeth: &mut [f32; 9],
)
    requires { (is_length len ≡ true) × (Widths plan.old teeth.old) }
    ensures { PlannedFor len chord ratio plan.new teeth.new }
{
    let mut firsts = [0; 8];
    let mut size = 0;
    teeth[RATIO] = ratio;
    for i in 0..teeth_of(chord) {
        let tooth = tooth_at(len, tooth_delay(ratio, chord, i));
        teeth[i] = tooth.fraction;
        firsts[i] = tooth.first;
        size = place_tooth(plan, &firsts, i, size);
    }
    plan[SIZE] = size;
}

// The cell `back` steps before the cursor's own, of a ring of len cells: no remainder is taken.
fn cell_before(len: usize, own: usize, back: usize) -> usize
    requires { (is_length len ≡ true) × (own < len) × (back < len) }
    ensures { (result < len) × ((cursor : ℕ) → cursor < 2 ^ 64 → own ≡ cursor % len → result ≡ cell_of len cursor back) }
{
    if back <= own {
        own - back
    } else {
        own + len - back
    }
}

// The cells of the plan, each loaded once.
fn load_cells(buf: &[f32], len: usize, cursor: usize, slot: usize, plan: &[usize; 65]) -> [f32; 32]
    requires { (is_view len slot (length buf.now) ≡ true) × (size_in plan.now ≤ 32)
        × ((m : ℕ) → m < size_in plan.now → plan_at plan.now m < len) }
    ensures { Loaded len cursor (piece len slot buf.now) plan.now (size_in plan.now) result }
{
    let base = slot * len;
    let own = cursor % len;
    let mut cells = [0.0; 32];
    for k in 0..plan[SIZE] {
        cells[k] = buf[base + cell_before(len, own, plan[k])];
    }
    cells
}

// Tooth j's tap, of the cells at its four places.
fn tap_of(cells: &[f32; 32], plan: &[usize; 65], teeth: &[f32; 9], j: usize) -> f32
    requires { (j < 8) × ((k : ℕ) → k < 4 → place_of plan.now j k < 32) }
    ensures { result ≡ tap_of cells.now plan.now (teeth.now ‼ j) j }
{
    let newer = cells[place_of(plan, j, 0)];
    let p0 = cells[place_of(plan, j, 1)];
    let p1 = cells[place_of(plan, j, 2)];
    let older = cells[place_of(plan, j, 3)];
    lines::hermite(newer, p0, p1, older, teeth[j])
}

// One tap more: it goes to its place, and the sum with it is answered.
fn add_tap(
    cells: &[f32; 32],
    plan: &[usize; 65],
    teeth: &[f32; 9],
    tooth: usize,
    sum: f32,
    taps: &mut [f32; 8],
) -> f32
    requires { (tooth < 8) × ((k : ℕ) → k < 4 → place_of plan.now tooth k < 32) }
    ensures { (result ≡ sum ⊕ tap_of cells.now plan.now (teeth.now ‼ tooth) tooth)
        × (taps.new ≡ set taps.old tooth (tap_of cells.now plan.now (teeth.now ‼ tooth) tooth)) }
{
    let tap = tap_of(cells, plan, teeth, tooth);
    taps[tooth] = tap;
    sum + tap
}

// The taps of n teeth, and their sum, beginning with the first. Two a turn: one a turn is some 3 % slower.
fn add_taps(
    cells: &[f32; 32],
    plan: &[usize; 65],
    teeth: &[f32; 9],
    n: usize,
    taps: &mut [f32; 8],
) -> f32
    requires { (1 ≤ n) × (n ≤ 8) × ((j k : ℕ) → j < n → k < 4 → place_of plan.now j k < 32) × (taps.old ≡ replicate 8 zero) }
    ensures { Summed (λ j. tap_of cells.now plan.now (teeth.now ‼ j) j) n result taps.new }
{
    let first = tap_of(cells, plan, teeth, 0);
    taps[0] = first;
    let mut sum = first;
    let mut tooth: usize = 1;
    while tooth + 1 < n {
        let with = add_tap(cells, plan, teeth, tooth, sum, taps);
        sum = add_tap(cells, plan, teeth, tooth + 1, with, taps);
        tooth += 2;
    }
    if tooth < n {
        add_tap(cells, plan, teeth, tooth, sum, taps)
    } else {
        sum
    }
}

// The taps by the plan, each cell that the teeth need loaded once, those past the last tooth 0; and their mean.
pub fn read_planned(
    buf: &[f32],
    len: usize,
    cursor: usize,
    slot: usize,
    chord: Chord,
    plan: &[usize; 65],
    teeth: &[f32; 9],
    taps: &mut [f32; 8],
) -> f32
    requires { (is_view len slot (length buf.now) ≡ true) × (Planned len chord plan.now teeth.now) }
    ensures { TapsLeft (teeth_of chord) (ring_taps len cursor (piece len slot buf.now) (teeth.now ‼ 8) chord)
        result taps.new }
{
    let n = teeth_of(chord);
    *taps = [0.0; 8];
    if n == 0 {
        return 0.0 * (1.0 / n as f32);
    }
    let cells = load_cells(buf, len, cursor, slot, plan);
    let sum = add_taps(&cells, plan, teeth, n, taps);
    sum * (1.0 / n as f32)
}

// The reading through a view, whole by itself: the taps, and the size of the set of the cells that the teeth need.
pub fn chord_read(
    buf: &[f32],
    len: usize,
    cursor: usize,
    slot: usize,
    ratio: f32,
    chord: Chord,
    taps: &mut [f32; 8],
) -> usize
    ensures { ChordLeaves buf.now len cursor slot ratio chord result taps.new }
{
    if lines::is_view(len, slot, buf.len()) {
        let mut plan = [0; 65];
        let mut teeth = [0.0; 9];
        plan_teeth(len, ratio, chord, &mut plan, &mut teeth);
        read_planned(buf, len, cursor, slot, chord, &plan, &teeth, taps);
        plan[SIZE]
    } else {
        *taps = [0.0; 8];
        0
    }
}
