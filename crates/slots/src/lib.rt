// The slots of a bank's lent lists: one slot started, loaded and stored, one frame of it, and the frames after a frame that left it as it was.
#![tactic(auto)]

ghost use Rattle.std.specs.Prelude.{◌≡◌, ℕ, ◌+◌, ◌*◌, ◌%◌, ◌^◌, ◌<◌, ◌≤◌, true, [], ◌∷◌, ◌++◌, length, take, drop, replicate, if◌then◌else◌, Float};
ghost use Rattle.std.proofs.Math.Seq.{paste};
ghost use Rattle.parts.specs.Parts.{patch};
ghost use Rattle.lane.specs.Floats.{◌‼◌, zero};
ghost use Rattle.extended.specs.Extended.{lines_mark};
ghost use Rattle.voices.specs.Calls.{smoothed_width, targets_width, states_width, record_width, record_z};
ghost use Rattle.peak.specs.Running.{running_of, settled_of, Runs};
ghost use Rattle.run.specs.Run.{smooth_of};
ghost use Rattle.run.specs.Promises.{Glided, Keeps, Widths, record_of};
ghost use Rattle.slots.specs.Slots.{slot_run, Worked, Placed, Buffers};
ghost use Rattle.slots.specs.Slots.{frame_in, Signals, SameFrame, Rested, AsBefore, Settled};

use extended::Chord;
use filter::Pitch;
use kernels::tuning::{KeptNumbers, KeptPlan};
use lines::Ring;
use run::{FrameInput, Record, Structure};
use voices::{RECORD_WIDTH, TARGETS_WIDTH};

// Where a record has its slot's peak and smoothed z, and where z stands among the smoothed numbers.
pub const PEAK: usize = RECORD_WIDTH - 2;

const RECORD_Z: usize = RECORD_WIDTH - 1;

const SMOOTHED_Z: usize = TARGETS_WIDTH - 1;

// The place of a column in a row, of a list of so many rows.
pub fn place_at(row: usize, width: usize, column: usize, rows: usize, len: usize) -> usize
    requires { (row < rows) × (column < width) × (len ≡ rows * width) }
    ensures { (result ≡ row * width + column) × (result < len) }
{
    row * width + column
}

// Where piece s begins, of a list of so many pieces.
pub fn start_of(s: usize, width: usize, pieces: usize, len: usize) -> usize
    requires { (s < pieces) × (len ≡ pieces * width) }
    ensures { (result ≡ s * width) × (result + width ≤ len) }
{
    s * width
}

// Copies n numbers from a place of one list to a place of another.
pub fn copy(list: &[f32], from: usize, into: &mut [f32], to: usize, n: usize)
    requires { (from + n ≤ length list.now) × (to + n ≤ length into.old) }
    ensures { into.new ≡ paste into.old to (drop from list.now) n }
{
    for i in 0..n {
        into[to + i] = list[from + i];
    }
}

// N numbers from a place of a list on: a voice's targets, a slot's states.
pub fn load<const N: usize>(list: &[f32], at: usize) -> [f32; N]
    requires { at + N ≤ length list.now }
    ensures { result ≡ take N (drop at list.now) }
{
    let mut into = [0.0; N];
    copy(list, at, &mut into, 0, N);
    into
}

// A slot's smoothed numbers: ten in front, z after its states and peak.
pub fn load_smoothed(list: &[f32], at: usize) -> [f32; 11]
    requires { at + record_width ≤ length list.now }
    ensures { result ≡ take smoothed_width (drop at list.now) ++ list.now ‼ (at + record_z) ∷ [] }
{
    let mut into: [f32; 11] = load(list, at);
    into[SMOOTHED_Z] = list[at + RECORD_Z];
    into
}

// Stores a slot's record.
pub fn store_record(records: &mut [f32], slot: usize, rec: &Record)
    requires { slot * record_width + record_width ≤ length records.old }
    ensures { records.new ≡ patch record_width slot (record_of rec.now.params rec.now.state rec.now.peak) records.old }
{
    let at = slot * RECORD_WIDTH;
    copy(&rec.params, 0, records, at, 10);
    copy(&rec.state, 0, records, at + 10, 20);
    records[at + PEAK] = rec.peak;
    records[at + RECORD_Z] = rec.params[SMOOTHED_Z];
}

// Zeroes a slot's ring.
fn zero_ring(delay: &mut [f32], slot: usize, len: usize)
    requires { slot * len + len ≤ length delay.old }
    ensures { delay.new ≡ patch len slot (replicate len zero) delay.old }
{
    let base = slot * len;
    delay[base..base + len].fill(0.0);
}

// Starts a slot: a voice's targets to its smoothed numbers, states, peak and ring zero.
pub fn start_slot(
    targets: &[f32; 11],
    records: &mut [f32],
    delay: &mut [f32],
    slot: usize,
    len: usize,
)
    requires { (slot * record_width + record_width ≤ length records.old) × (slot * len + len ≤ length delay.old) }
    ensures { (records.new ≡ patch record_width slot (record_of targets.now (replicate states_width zero) zero)
        records.old)
        × (delay.new ≡ patch len slot (replicate len zero) delay.old) }
{
    let rec = Record {
        params: *targets,
        state: [0.0; 20],
        peak: 0.0,
    };
    store_record(records, slot, &rec);
    zero_ring(delay, slot, len);
}

// What a block works with beside the lists: the setup's numbers but for its table's sections, the block's, and what is worked out
// from them once: the number of slots, the ring's length and what every tick takes.
#[derive(Clone, Copy)]
pub struct Prepared {
    pub m: Structure,
    pub rate: f32,
    pub reference: f32,
    pub clean: bool,
    pub chord: Chord,
    pub voices: usize,
    pub channels: usize,
    pub cursor: usize,
    pub frames: usize,
    pub steered: bool,
    pub slots: usize,
    pub len: usize,
}

// A slot: its channel and voice, its number, and the channel's sign.
#[derive(Clone, Copy)]
pub struct Slot {
    pub channel: usize,
    pub voice: usize,
    pub number: usize,
    pub sign: f32,
}

// The slot of a channel and a voice.
pub fn slot_at(e: Prepared, channel: usize, voice: usize) -> Slot
    requires { (Worked e) × (channel < e.channels) × (voice < e.voices) }
    ensures { (Placed e result) × (result.channel ≡ channel) × (result.voice ≡ voice) }
{
    let number = place_at(channel, e.voices, voice, e.channels, e.slots);
    Slot {
        channel,
        voice,
        number,
        sign: run::sign(e.channels, channel),
    }
}

// The cursor so many frames on: it wraps at the machine word if the structure runs on the delay lines, else it stays.
pub fn cursor_after(code: u32, cursor: usize, frames: usize) -> usize
    ensures { result ≡ (if lines_mark code then (cursor + frames) % 2 ^ 64 else cursor) }
{
    if extended::has_lines(code) {
        cursor.wrapping_add(frames)
    } else {
        cursor
    }
}

// A steered frame's x or y; an unsteered one is steered by 0.
fn steering_at(steered: bool, list: &[f32], i: usize) -> f32
    requires { steered ≡ true → i < length list.now }
    ensures { result ≡ (if steered then (list.now ‼ i) else zero) }
{
    if steered { list[i] } else { 0.0 }
}

// What a block lends to be read in each frame: the voices' pitches, and what X and Y are steered by.
#[derive(Clone, Copy)]
pub struct Modulation<'a> {
    pub pitch: &'a [f32],
    pub x: &'a [f32],
    pub y: &'a [f32],
}

// One frame of a slot, with the slot's record in hand: how often it judged a ratio greater than its cap. `kept` and `comb` hold the numbers kept
// from frame to frame; `glided` says that smoothing leaves the smoothed numbers as they are.
pub fn frame(
    e: Prepared,
    sections: &[f32; 320],
    kept: &mut KeptNumbers,
    comb: &mut KeptPlan,
    targets: &[f32; 11],
    rec: &mut Record,
    delay: &mut [f32],
    by: Modulation,
    audio: &mut [f32],
    p: Slot,
    f: usize,
    glided: bool,
) -> u32
    requires { (Worked e) × (Placed e p) × (Buffers e by.pitch.now by.x.now by.y.now delay.old audio.old) × (f < e.frames)
        × (Widths rec.old.params rec.old.state)
        × (Keeps e.m e.len sections.now kept.old.tuning kept.old.blended kept.old.over comb.old.plan comb.old.teeth)
        × (glided ≡ true → Glided e.m.k.alpha targets.now rec.old.params) }
    ensures { ((b : Float) → Runs b rec.old.peak → Runs b rec.new.peak
        × ((k : ℕ) → slot_run rec.new.params rec.new.state b rec.new.peak delay.new audio.new (k + result)
        ≡ frame_in e sections.now targets.now by.entry.pitch.now by.entry.x.now by.entry.y.now p f
        (slot_run rec.old.params rec.old.state b rec.old.peak delay.old audio.old k)))
        × (result ≤ 8)
        × (Widths rec.new.params rec.new.state)
        × (Keeps e.m e.len sections.now kept.new.tuning kept.new.blended kept.new.over
        comb.new.plan comb.new.teeth)
        × (rec.new.params ≡ smooth_of e.m.k.alpha targets.now rec.old.params) }
{
    let at = place_at(f, e.slots, p.number, e.frames, audio.len());
    let from = place_at(f, e.voices, p.voice, e.frames, by.pitch.len());
    let ring = Ring {
        len: e.len,
        cursor: cursor_after(e.m.code, e.cursor, f),
        slot: p.number,
    };
    let given = FrameInput {
        sign: p.sign,
        pitch: Pitch(by.pitch[from]),
        input: audio[at],
        x: steering_at(e.steered, by.x, from),
        y: steering_at(e.steered, by.y, from),
    };
    let s = run::tick(
        e.m, sections, kept, comb, targets, rec, delay, ring, given, glided,
    );
    audio[at] = s.out;
    s.over
}

// Whether n numbers of a list are, bit for bit and none of them NaN, those at a place of another.
pub fn is_same(list: &[f32], from: usize, other: &[f32], n: usize) -> bool
    requires { (from + n ≤ length list.now) × (n ≤ length other.now) }
    ensures { result ≡ true → take n other.now ≡ take n (drop from list.now) }
{
    for i in 0..n {
        if !kernels::tuning::same(other[i], list[from + i]) {
            return false;
        }
    }
    true
}

// Whether frame f brings a slot what frame 0 did: its pitch, its steering and the input that frame 0 had.
fn is_same_frame(e: Prepared, by: Modulation, audio: &[f32], p: Slot, input: f32, f: usize) -> bool
    requires { (Placed e p) × (Signals e by.pitch.now by.x.now by.y.now audio.now) × (f < e.frames) }
    ensures { result ≡ true → SameFrame e by.entry.pitch.now by.entry.x.now by.entry.y.now audio.now p input f }
{
    let at = place_at(f, e.slots, p.number, e.frames, audio.len());
    let from = place_at(f, e.voices, p.voice, e.frames, by.pitch.len());
    let first = p.voice;
    let by_x = steering_at(e.steered, by.x, from);
    let by_y = steering_at(e.steered, by.y, from);
    let first_x = steering_at(e.steered, by.x, first);
    let first_y = steering_at(e.steered, by.y, first);
    kernels::tuning::same(by.pitch[from], by.pitch[first])
        && kernels::tuning::same(audio[at], input)
        && kernels::tuning::same(by_x, first_x)
        && kernels::tuning::same(by_y, first_y)
}

// Stores frame 0's sample in the frames after it that bring a slot what frame 0 did: the first that does not.
pub fn rest(e: Prepared, by: Modulation, audio: &mut [f32], p: Slot, input: f32) -> usize
    requires { (Worked e) × (Placed e p) × (Signals e by.pitch.now by.x.now by.y.now audio.old) × (0 < e.frames) }
    ensures { Rested e by.entry.pitch.now by.entry.x.now by.entry.y.now p input audio.old audio.new result }
{
    let sample = audio[p.number];
    for f in 1..e.frames {
        if !is_same_frame(e, by, audio, p, input, f) {
            return f;
        }
        let at = place_at(f, e.slots, p.number, e.frames, audio.len());
        audio[at] = sample;
    }
    e.frames
}

// A slot in a frame loop: its record in hand, how often its frames judged a ratio greater than the cap, and its next frame.
#[derive(Clone, Copy)]
pub struct Progress {
    pub rec: Record,
    pub count: u32,
    pub next: usize,
}

// Whether a frame that worked no delay line left a slot's record as it was, bit for bit and no number NaN.
fn is_at_rest(code: u32, was: &Record, rec: &Record) -> bool
    requires { (Widths was.now.params was.now.state) × (Widths rec.now.params rec.now.state) }
    ensures { result ≡ true → AsBefore code was.now rec.now }
{
    !extended::has_lines(code)
        && is_same(&was.state, 0, &rec.state, 20)
        && is_same(&was.params, 0, &rec.params, 11)
        && kernels::tuning::same(rec.peak, was.peak)
}

// After frame 0 of a slot: where it left the record as it was, the frames that bring the same again are stored. Whether it did.
pub fn settle(
    e: Prepared,
    was: &Record,
    run: &mut Progress,
    by: Modulation,
    audio: &mut [f32],
    p: Slot,
    input: f32,
) -> bool
    requires { (Worked e) × (Placed e p) × (Signals e by.pitch.now by.x.now by.y.now audio.old)
        × (Widths was.now.params was.now.state) × (Widths run.old.rec.params run.old.rec.state) × (run.old.count ≤ 8) }
    ensures { (Settled e by.entry.pitch.now by.entry.x.now by.entry.y.now p input was.now run.old.rec
        audio.old audio.new run.old.count run.new.count run.old.next run.new.next result) × (run.new.rec ≡ run.old.rec) }
{
    if !is_at_rest(e.m.code, was, &run.rec) {
        return false;
    }
    let f = rest(e, by, audio, p, input);
    run.count = f as u32 * run.count;
    run.next = f;
    true
}

// What runs in a peak's place while a block runs.
pub fn running(peak: f32) -> f32
    ensures { (result ≡ running_of peak) × (Runs peak result) × (settled_of peak result ≡ peak) }
{
    if peak::is_plain(peak) { peak } else { -1.0 }
}

// Whether the glide of a slot's smoothed numbers has ended; it is not asked of a place that has no slot of its own.
pub fn has_glided(params: &[f32; 11], targets: &[f32; 11], alpha: f32, own: bool) -> bool
    requires { length params.now ≡ targets_width }
    ensures { result ≡ true → Glided alpha targets.now params.now }
{
    if !own {
        return false;
    }
    let mut next = *params;
    run::smooth(&mut next, targets, alpha);
    is_same(&next, 0, params, 11)
}
