// A block through every slot: one slot or two in one frame loop, since a slot's frame waits for its own last one and another slot's need not; and
// the frames of a slot at rest stored without a tick.
#![tactic(auto)]

ghost use Rattle.std.specs.Prelude.{◌≡◌, ◌≢◌, true, ℕ, ◌+◌, ◌*◌, ◌<◌, ◌≤◌, length, set};
ghost use Rattle.parts.specs.Parts.{upto, patch};
ghost use Rattle.voices.specs.Calls.{targets_width, record_width, block_of};
ghost use Rattle.run.specs.Promises.{Widths, Glided, held_record};
ghost use Rattle.slots.specs.Slots.{engine_at, block_on, bank_at, block_run, slot_in, channel_in, Worked, Placed, Buffers, Lists};
ghost use Rattle.pairs.specs.Pairs.{run_of, abreast_of, hand_of, store_of, Keeping, Seated, Sound, Framed, Goes, Advances, Spans};
ghost use Rattle.pairs.specs.Pairs.{Loaded, one_or_two, voice_in};

use kernels::tuning::{KeptNumbers, KeptPlan};
use run::Record;
use slots::{Modulation, PEAK, Prepared, Progress, Slot};
use voices::{RECORD_WIDTH, TARGETS_WIDTH};

// Where a voice's targets and a slot's record have the stereo offset.
const OFFSET: usize = 4;

// A slot in the loop: its voice's targets, the peak that the block begins with, whether its glide has ended, and which of the two kept numbers it has.
#[derive(Clone, Copy)]
pub struct Seat {
    pub slot: Slot,
    pub goals: [f32; 11],
    pub held: f32,
    pub glided: bool,
    pub row: usize,
}

// A slot's next frame.
fn next_frame(
    e: Prepared,
    sections: &[f32; 320],
    kept: &mut KeptNumbers,
    comb: &mut KeptPlan,
    run: &mut Progress,
    delay: &mut [f32],
    by: Modulation,
    audio: &mut [f32],
    seat: &Seat,
)
    requires { (Worked e) × (Placed e seat.now.slot) × (Buffers e by.pitch.now by.x.now by.y.now delay.old audio.old)
        × (run.old.next < e.frames) × (run.old.count ≤ 8 * run.old.next)
        × (Widths run.old.rec.params run.old.rec.state)
        × (Keeping e sections.now kept.old comb.old)
        × (seat.now.glided ≡ true → Glided e.m.k.alpha seat.now.goals run.old.rec.params) }
    ensures { (Framed e sections.now by.entry.pitch.now by.entry.x.now by.entry.y.now seat.now run.old delay.old audio.old run.new delay.new audio.new)
        × (Keeping e sections.now kept.new comb.new) }
{
    let Progress { rec, count, next } = run;
    let met = slots::frame(
        e,
        sections,
        kept,
        comb,
        &seat.goals,
        rec,
        delay,
        by,
        audio,
        seat.slot,
        *next,
        seat.glided,
    );
    *count += met;
    *next += 1;
}

// Frame f of slot s, unless the slot is past it.
fn tick_slot(
    e: Prepared,
    sections: &[f32; 320],
    kept: &mut [KeptNumbers; 2],
    comb: &mut KeptPlan,
    runs: &mut [Progress; 2],
    delay: &mut [f32],
    by: Modulation,
    audio: &mut [f32],
    seats: &[Seat; 2],
    wide: usize,
    s: usize,
    f: usize,
)
    requires { (Worked e) × (Seated e (abreast_of wide seats.now))
        × (Sound e sections.now by.pitch.now by.x.now by.y.now (abreast_of wide seats.now)
        (hand_of runs.old delay.old audio.old) (store_of kept.old comb.old))
        × (s < wide) × (f < e.frames) × (f ≤ (run_of runs.old s).next) }
    ensures { (Sound e sections.now by.entry.pitch.now by.entry.x.now by.entry.y.now (abreast_of wide seats.now)
        (hand_of runs.new delay.new audio.new) (store_of kept.new comb.new))
        × (Goes e sections.now by.entry.pitch.now by.entry.x.now by.entry.y.now (abreast_of wide seats.now)
        (hand_of runs.old delay.old audio.old) (hand_of runs.new delay.new audio.new))
        × (Advances s (s + 1) (f + 1) runs.old runs.new) }
{
    if f < runs[s].next {
        return;
    }
    let seat = &seats[s];
    let row = seat.row % 2;
    next_frame(
        e,
        sections,
        &mut kept[row],
        comb,
        &mut runs[s],
        delay,
        by,
        audio,
        seat,
    );
}

// Frame f of the slots from lo up to hi.
fn tick_slots(
    e: Prepared,
    sections: &[f32; 320],
    kept: &mut [KeptNumbers; 2],
    comb: &mut KeptPlan,
    runs: &mut [Progress; 2],
    delay: &mut [f32],
    by: Modulation,
    audio: &mut [f32],
    seats: &[Seat; 2],
    wide: usize,
    lo: usize,
    hi: usize,
    f: usize,
)
    requires { (Worked e) × (Seated e (abreast_of wide seats.now))
        × (Sound e sections.now by.pitch.now by.x.now by.y.now (abreast_of wide seats.now)
        (hand_of runs.old delay.old audio.old) (store_of kept.old comb.old))
        × (lo ≤ hi) × (hi ≤ wide) × (f < e.frames) × ((i : ℕ) → lo ≤ i → i < hi → f ≤ (run_of runs.old i).next) }
    ensures { (Sound e sections.now by.entry.pitch.now by.entry.x.now by.entry.y.now (abreast_of wide seats.now)
        (hand_of runs.new delay.new audio.new) (store_of kept.new comb.new))
        × (Goes e sections.now by.entry.pitch.now by.entry.x.now by.entry.y.now (abreast_of wide seats.now)
        (hand_of runs.old delay.old audio.old) (hand_of runs.new delay.new audio.new))
        × (Advances lo hi (f + 1) runs.old runs.new) }
{
    for s in lo..hi {
        tick_slot(
            e, sections, kept, comb, runs, delay, by, audio, seats, wide, s, f,
        );
    }
}

// The slots and frames of a turn.
#[derive(Clone, Copy)]
pub struct Span {
    pub lo: usize,
    pub hi: usize,
    pub from: usize,
    pub end: usize,
}

// The frames of a span.
fn run_span(
    e: Prepared,
    sections: &[f32; 320],
    kept: &mut [KeptNumbers; 2],
    comb: &mut KeptPlan,
    runs: &mut [Progress; 2],
    delay: &mut [f32],
    by: Modulation,
    audio: &mut [f32],
    seats: &[Seat; 2],
    wide: usize,
    span: Span,
)
    requires { (Worked e) × (Seated e (abreast_of wide seats.now))
        × (Sound e sections.now by.pitch.now by.x.now by.y.now (abreast_of wide seats.now)
        (hand_of runs.old delay.old audio.old) (store_of kept.old comb.old))
        × (span.lo ≤ span.hi) × (span.hi ≤ wide) × (span.from ≤ span.end) × (span.end ≤ e.frames)
        × ((i : ℕ) → span.lo ≤ i → i < span.hi → span.from ≤ (run_of runs.old i).next) }
    ensures { (Sound e sections.now by.entry.pitch.now by.entry.x.now by.entry.y.now (abreast_of wide seats.now)
        (hand_of runs.new delay.new audio.new) (store_of kept.new comb.new))
        × (Goes e sections.now by.entry.pitch.now by.entry.x.now by.entry.y.now (abreast_of wide seats.now)
        (hand_of runs.old delay.old audio.old) (hand_of runs.new delay.new audio.new))
        × (Advances span.lo span.hi span.end runs.old runs.new) }
{
    for f in span.from..span.end {
        tick_slots(
            e, sections, kept, comb, runs, delay, by, audio, seats, wide, span.lo, span.hi, f,
        );
    }
}

// The least of the next frames of one slot or two.
fn least(runs: &[Progress; 2], wide: usize) -> usize
    ensures { ((i : ℕ) → i < wide → i < 2 → result ≤ (run_of runs.now i).next) × (result ≤ (run_of runs.now 0).next) }
{
    let a = runs[0].next;
    let b = runs[1].next;
    if wide < 2 || a < b { a } else { b }
}

// Turn t is frame 0 of slot t; the last turn is every frame that is left, of all slots.
fn span_of(runs: &[Progress; 2], wide: usize, t: usize, frames: usize) -> Span
    requires { (1 ≤ frames) × (t ≤ wide) × (1 ≤ wide) × (wide ≤ 2)
        × ((i : ℕ) → i < 2 → (run_of runs.now i).next ≤ frames) }
    ensures { Spans wide t frames runs.now result }
{
    if t < wide {
        return Span {
            lo: t,
            hi: t + 1,
            from: 0,
            end: 1,
        };
    }
    Span {
        lo: 0,
        hi: wide,
        from: least(runs, wide),
        end: frames,
    }
}

// A turn.
fn run_turn(
    e: Prepared,
    sections: &[f32; 320],
    kept: &mut [KeptNumbers; 2],
    comb: &mut KeptPlan,
    runs: &mut [Progress; 2],
    delay: &mut [f32],
    by: Modulation,
    audio: &mut [f32],
    seats: &[Seat; 2],
    wide: usize,
    t: usize,
)
    requires { (Worked e) × (Seated e (abreast_of wide seats.now))
        × (Sound e sections.now by.pitch.now by.x.now by.y.now (abreast_of wide seats.now)
        (hand_of runs.old delay.old audio.old) (store_of kept.old comb.old))
        × (t ≤ wide) × ((i : ℕ) → t ≤ i → i < 2 → (run_of runs.old i).next ≡ 0) }
    ensures { (Sound e sections.now by.entry.pitch.now by.entry.x.now by.entry.y.now (abreast_of wide seats.now)
        (hand_of runs.new delay.new audio.new) (store_of kept.new comb.new))
        × (Goes e sections.now by.entry.pitch.now by.entry.x.now by.entry.y.now (abreast_of wide seats.now)
        (hand_of runs.old delay.old audio.old) (hand_of runs.new delay.new audio.new))
        × ((i : ℕ) → t < i → i < 2 → (run_of runs.new i).next ≡ 0)
        × (t ≡ wide → (i : ℕ) → i < wide → (run_of runs.new i).next ≡ e.frames) }
{
    let span = span_of(runs, wide, t, e.frames);
    let s = span.lo;
    let p = seats[s].slot;
    let input = audio[p.number];
    let was = runs[s].rec;
    run_span(
        e, sections, kept, comb, runs, delay, by, audio, seats, wide, span,
    );
    if t == wide {
        return;
    }
    slots::settle(e, &was, &mut runs[s], by, audio, p, input);
}

// A slot's seat, and how far it has come before the first frame. Whether its glide has ended is not asked of a slot that is not run.
fn load_slot(
    e: Prepared,
    targets: &[f32],
    records: &[f32],
    slot: Slot,
    row: usize,
    runs: bool,
) -> (Seat, Progress)
    requires { (Placed e slot) × (length targets.now ≡ e.voices * targets_width) × (length records.now ≡ e.slots * record_width) }
    ensures { (result.0.slot ≡ slot) × (Loaded e targets.now records.now result.0 result.1) }
{
    let from = slots::start_of(slot.voice, TARGETS_WIDTH, e.voices, targets.len());
    let at = slots::start_of(slot.number, RECORD_WIDTH, e.slots, records.len());
    let goals: [f32; 11] = slots::load(targets, from);
    let params = slots::load_smoothed(records, at);
    let state: [f32; 20] = slots::load(records, at + 10);
    let held = records[at + PEAK];
    let peak = slots::running(held);
    let glided = slots::has_glided(&params, &goals, e.m.k.alpha, runs);
    (
        Seat {
            slot,
            goals,
            held,
            glided,
            row,
        },
        Progress {
            rec: Record {
                params,
                state,
                peak,
            },
            count: 0,
            next: 0,
        },
    )
}

// Stores a slot's record and count.
fn store_slot(e: Prepared, records: &mut [f32], counts: &mut [u32], seat: &Seat, run: &Progress)
    requires { (Placed e seat.now.slot) × (length records.old ≡ e.slots * record_width) × (length counts.old ≡ e.slots)
        × (Widths run.now.rec.params run.now.rec.state) }
    ensures { (records.new ≡ patch record_width seat.now.slot.number
        (held_record run.now.rec.params run.now.rec.state seat.now.held run.now.rec.peak) records.old)
        × (counts.new ≡ set counts.old seat.now.slot.number run.now.count) }
{
    let rec = Record {
        params: run.rec.params,
        state: run.rec.state,
        peak: peak::settled(seat.held, run.rec.peak),
    };
    slots::store_record(records, seat.slot.number, &rec);
    counts[seat.slot.number] = run.count;
}

// A block through one slot, given as both, or through two: their records are loaded, worked frame by frame, and stored; their counts are written.
fn run_slots(
    e: Prepared,
    sections: &[f32; 320],
    targets: &[f32],
    records: &mut [f32],
    delay: &mut [f32],
    by: Modulation,
    audio: &mut [f32],
    counts: &mut [u32],
    first: Slot,
    second: Slot,
    wide: usize,
    shared: bool,
)
    requires { (Worked e) × (Lists e targets.now records.old counts.old) × (Buffers e by.pitch.now by.x.now by.y.now delay.old audio.old)
        × (Placed e first) × (Placed e second) × (1 ≤ wide) × (wide ≤ 2) × (wide ≡ 2 → first.number ≢ second.number) }
    ensures { block_run records.new delay.new audio.new counts.new
        ≡ one_or_two wide
        (slot_in e sections.now targets.now by.entry.pitch.now by.entry.x.now by.entry.y.now second.channel second.voice)
        (slot_in e sections.now targets.now by.entry.pitch.now by.entry.x.now by.entry.y.now first.channel first.voice
        (block_run records.old delay.old audio.old counts.old)) }
{
    let one = load_slot(e, targets, records, first, 0, true);
    let two = load_slot(e, targets, records, second, usize::from(!shared), wide == 2);
    let seats = [one.0, two.0];
    let mut runs = [one.1, two.1];
    let mut kept = [KeptNumbers::unset(); 2];
    let mut comb = KeptPlan::unset();
    for t in 0..wide + 1 {
        run_turn(
            e, sections, &mut kept, &mut comb, &mut runs, delay, by, audio, &seats, wide, t,
        );
    }
    store_slot(e, records, counts, &seats[0], &runs[0]);
    if wide < 2 {
        return;
    }
    store_slot(e, records, counts, &seats[1], &runs[1]);
}

// Whether a structure goes two slots abreast though their pitches differ: PoleZero and the chord comb have kept numbers for one alone.
fn goes_abreast(code: u32) -> bool {
    !matches!(code, 8 | 13)
}

// Whether a slot's voice has no stereo offset, so that both channels have one pitch.
fn is_even(e: Prepared, targets: &[f32], records: &[f32], p: Slot) -> bool
    requires { (Placed e p) × (length targets.now ≡ e.voices * targets_width) × (length records.now ≡ e.slots * record_width) }
{
    let from = slots::place_at(p.voice, TARGETS_WIDTH, OFFSET, e.voices, targets.len());
    let at = slots::place_at(p.number, RECORD_WIDTH, OFFSET, e.slots, records.len());
    targets[from] == 0.0 && records[at] == 0.0
}

// A block through both channels of a voice, abreast where they go so or have one pitch, which then also share the kept numbers.
fn run_voice(
    e: Prepared,
    sections: &[f32; 320],
    targets: &[f32],
    records: &mut [f32],
    delay: &mut [f32],
    by: Modulation,
    audio: &mut [f32],
    counts: &mut [u32],
    v: usize,
)
    requires { (Worked e) × (Lists e targets.now records.old counts.old) × (Buffers e by.pitch.now by.x.now by.y.now delay.old audio.old)
        × (e.channels ≡ 2) × (v < e.voices) }
    ensures { block_run records.new delay.new audio.new counts.new
        ≡ voice_in e sections.now targets.now by.entry.pitch.now by.entry.x.now by.entry.y.now v
        (block_run records.old delay.old audio.old counts.old) }
{
    let first = slots::slot_at(e, 0, v);
    let second = slots::slot_at(e, 1, v);
    let even = is_even(e, targets, records, first);
    if even || goes_abreast(e.m.code) {
        run_slots(
            e, sections, targets, records, delay, by, audio, counts, first, second, 2, even,
        );
        return;
    }
    run_slots(
        e, sections, targets, records, delay, by, audio, counts, first, first, 1, true,
    );
    run_slots(
        e, sections, targets, records, delay, by, audio, counts, second, second, 1, true,
    );
}

// A block through the voices, each on both channels.
fn run_voices(
    e: Prepared,
    sections: &[f32; 320],
    targets: &[f32],
    records: &mut [f32],
    delay: &mut [f32],
    by: Modulation,
    audio: &mut [f32],
    counts: &mut [u32],
)
    requires { (Worked e) × (Lists e targets.now records.old counts.old) × (Buffers e by.pitch.now by.x.now by.y.now delay.old audio.old)
        × (e.channels ≡ 2) }
    ensures { block_run records.new delay.new audio.new counts.new
        ≡ upto (voice_in e sections.now targets.now by.entry.pitch.now by.entry.x.now by.entry.y.now) e.voices
        (block_run records.old delay.old audio.old counts.old) }
{
    for v in 0..e.voices {
        run_voice(e, sections, targets, records, delay, by, audio, counts, v);
    }
}

// A block through the next slot of a channel, or the next two: how many.
fn run_next(
    e: Prepared,
    sections: &[f32; 320],
    targets: &[f32],
    records: &mut [f32],
    delay: &mut [f32],
    by: Modulation,
    audio: &mut [f32],
    counts: &mut [u32],
    channel: usize,
    v: usize,
) -> usize
    requires { (Worked e) × (Lists e targets.now records.old counts.old) × (Buffers e by.pitch.now by.x.now by.y.now delay.old audio.old)
        × (channel < e.channels) × (v < e.voices) }
    ensures { (1 ≤ result) × (v + result ≤ e.voices)
        × (block_run records.new delay.new audio.new counts.new
        ≡ upto (λ i. slot_in e sections.now targets.now by.entry.pitch.now by.entry.x.now by.entry.y.now channel (v + i)) result
        (block_run records.old delay.old audio.old counts.old)) }
{
    let first = slots::slot_at(e, channel, v);
    if v + 1 < e.voices && goes_abreast(e.m.code) {
        let second = slots::slot_at(e, channel, v + 1);
        run_slots(
            e, sections, targets, records, delay, by, audio, counts, first, second, 2, false,
        );
        return 2;
    }
    run_slots(
        e, sections, targets, records, delay, by, audio, counts, first, first, 1, true,
    );
    1
}

// A block through the slots of one channel.
fn run_channel(
    e: Prepared,
    sections: &[f32; 320],
    targets: &[f32],
    records: &mut [f32],
    delay: &mut [f32],
    by: Modulation,
    audio: &mut [f32],
    counts: &mut [u32],
    channel: usize,
)
    requires { (Worked e) × (Lists e targets.now records.old counts.old) × (Buffers e by.pitch.now by.x.now by.y.now delay.old audio.old)
        × (channel < e.channels) }
    ensures { block_run records.new delay.new audio.new counts.new
        ≡ channel_in e sections.now targets.now by.entry.pitch.now by.entry.x.now by.entry.y.now channel
        (block_run records.old delay.old audio.old counts.old) }
{
    // each turn goes on by one or by two
    let mut v = 0;
    while v < e.voices {
        v += run_next(
            e, sections, targets, records, delay, by, audio, counts, channel, v,
        );
    }
}

// A block through every slot.
pub fn run_block(
    e: Prepared,
    sections: &[f32; 320],
    targets: &[f32],
    records: &mut [f32],
    delay: &mut [f32],
    by: Modulation,
    audio: &mut [f32],
    counts: &mut [u32],
)
    requires { (Worked e) × (Lists e targets.now records.old counts.old) × (Buffers e by.pitch.now by.x.now by.y.now delay.old audio.old) }
    ensures { block_run records.new delay.new audio.new counts.new
        ≡ block_of (engine_at e sections.now) e.voices
        (block_on e by.entry.pitch.now by.entry.x.now by.entry.y.now audio.old counts.old)
        (bank_at e targets.now records.old delay.old) }
{
    if e.channels == 2 {
        run_voices(e, sections, targets, records, delay, by, audio, counts);
        return;
    }
    for c in 0..e.channels {
        run_channel(e, sections, targets, records, delay, by, audio, counts, c);
    }
}
