// The checks of the bank's calls, in the order of the refusals' numbers. Each call makes those whose values it takes.
#![tactic(auto)]

ghost use Rattle.std.specs.Prelude.{◌≡◌, [], ◌*◌, ◌<◌, length};
ghost use Rattle.std.specs.List.{list_any};
ghost use Rattle.setups.specs.Setup.{codes_check_of, chord_refused, setup_check_of};
ghost use Rattle.lines.specs.Lines.{is_outside, ring_len};
ghost use Rattle.voices.specs.Calls.{fine, call_set, call_start, call_block, call_park, call_audition, are_long, file_length};
ghost use Rattle.voices.specs.Calls.{targets_width, record_width, is_clear, is_flat};
ghost use Rattle.checks.specs.Setup.{solo_of, engine};
ghost use Rattle.checks.specs.Checks.{number_of, check_of, bank_of, block_from, IsOpenVerdict, IsVerdict};

use extended::Chord;
use filter::VoiceParams;
use pole_zero::Table;
use voices::{RECORD_WIDTH, TARGETS_WIDTH};

// What a bank is opened with, and every later call is given again.
#[derive(Clone, Copy)]
pub struct Setup {
    pub code: u32,
    pub rate: f32,
    pub reference: f32,
    pub voices: usize,
    pub channels: usize,
    pub clean: bool,
    pub table: Table,
    pub chord: Chord,
}

// Why a call is refused: a variant's value is its number, by document 01's table ('A bank is opened') and, from 12 on, by document 02. 11, of a point,
// is pole_zero's.
#[derive(Clone, Copy, Debug, PartialEq, Eq)]
pub enum Refusal {
    Rate = 1,
    Tuning = 2,
    Polyphony = 3,
    Layout = 4,
    Structure = 5,
    Store = 6,
    Voice = 7,
    Knob = 8,
    Frames = 9,
    Buffer = 10,
    Damaged = 12,
    Blocks = 13,
    Scratch = 14,
    Unparkable = 15,
    Chord = 16,
}

impl From<Refusal> for u32 {
    ghost from_gives = { λ refusal number. number ≡ number_of refusal };

    fn from(refusal: Refusal) -> u32 {
        refusal as u32
    }
}

// Whether one of the numbers is NaN, below `low` or above `high`.
fn any_outside(xs: &[f32], low: f32, high: f32) -> bool
    ensures { result ≡ list_any (λ x. is_outside x low high) xs.now }
{
    xs.iter().any(|x| lines::is_outside(*x, low, high))
}

// Refusals 1 to 5, where `codes` is the highest code.
pub fn codes_check(setup: Setup, codes: usize) -> Result<(), Refusal>
    ensures { check_of result ≡ codes_check_of codes (solo_of setup) setup.voices }
{
    if lines::rate_refused(setup.rate) {
        return Err(Refusal::Rate);
    }
    if lines::is_outside(setup.reference, 1.0, 20000.0) {
        return Err(Refusal::Tuning);
    }
    if !(1..=16).contains(&setup.voices) {
        return Err(Refusal::Polyphony);
    }
    if !(1..=2).contains(&setup.channels) {
        return Err(Refusal::Layout);
    }
    if !(1..=codes).contains(&(setup.code as usize)) {
        return Err(Refusal::Structure);
    }
    Ok(())
}

// Refusal 16 (C-18): a bad count of code 13, or among so many an octave offset that is NaN, below 0 or above 2.
fn chord_refused(code: u32, chord: Chord) -> bool
    ensures { result ≡ chord_refused code chord }
{
    code == 13
        && (!(1..=8).contains(&chord.count)
            || any_outside(&chord.offsets[..chord.count as usize], 0.0, 2.0))
}

// Refusals 1 to 5, then 16.
pub fn setup_check(setup: Setup) -> Result<(), Refusal>
    ensures { check_of result ≡ setup_check_of (solo_of setup) setup.voices }
{
    codes_check(setup, 13)?;
    if chord_refused(setup.code, setup.chord) {
        return Err(Refusal::Chord);
    }
    Ok(())
}

// Whether the lists are as long as an accepted setup asks.
fn are_long(setup: Setup, targets: &[f32], records: &[f32], delay: &[f32]) -> bool
    requires { setup_check_of (solo_of setup) setup.voices ≡ fine }
    ensures { result ≡ are_long setup.channels (ring_len setup.rate) setup.voices
        (bank_of targets.now records.now delay.now 0) }
{
    let slots = setup.channels * setup.voices;
    targets.len() == setup.voices * TARGETS_WIDTH
        && records.len() == slots * RECORD_WIDTH
        && delay.len() == slots * lines::ring_len(setup.rate)
}

// The setup's refusals, then 6: the checks of open, which start and block make too.
pub fn open_check(
    setup: Setup,
    targets: &[f32],
    records: &[f32],
    delay: &[f32],
) -> Result<(), Refusal>
    ensures { IsOpenVerdict setup (bank_of targets.now records.now delay.now 0) result }
{
    setup_check(setup)?;
    if !are_long(setup, targets, records, delay) {
        return Err(Refusal::Store);
    }
    Ok(())
}

// The setup's refusals, then 6 of targets alone, 7 and 8.
pub fn set_check(setup: Setup, targets: &[f32], voice: usize, p: VoiceParams) -> Result<(), Refusal>
    ensures { IsVerdict setup (call_set voice p) (bank_of targets.now [] [] 0) result }
{
    setup_check(setup)?;
    if targets.len() != setup.voices * TARGETS_WIDTH {
        return Err(Refusal::Store);
    }
    if setup.voices <= voice {
        return Err(Refusal::Voice);
    }
    if filter::nan_knob(p) {
        return Err(Refusal::Knob);
    }
    Ok(())
}

// Those of open, then 7.
pub fn start_check(
    setup: Setup,
    targets: &[f32],
    records: &[f32],
    delay: &[f32],
    voice: usize,
) -> Result<(), Refusal>
    ensures { IsVerdict setup (call_start voice) (bank_of targets.now records.now delay.now 0) result }
{
    open_check(setup, targets, records, delay)?;
    if setup.voices <= voice {
        return Err(Refusal::Voice);
    }
    Ok(())
}

// The bytes of a parked bank (C-12) in blocks of 512: two of the setup, one a voice, one a slot, one for every 126 cells of a slot's ring.
pub fn file_length(setup: Setup) -> usize
    requires { setup_check_of (solo_of setup) setup.voices ≡ fine }
    ensures { result ≡ file_length (engine setup) setup.voices }
{
    let slots = setup.channels * setup.voices;
    let parts = (lines::ring_len(setup.rate) + 125) / 126;
    (2 + setup.voices + slots + slots * parts) * 512
}

// Whether the number at one place of each of so many rows has no bit set: +0, not -0.
fn is_clear(list: &[f32], width: usize, place: usize, rows: usize) -> bool
    requires { (place < width) × (length list.now ≡ rows * width) }
    ensures { result ≡ is_clear width place rows list.now }
{
    for i in 0..rows {
        let at = slots::place_at(i, width, place, rows, list.len());
        if text::bits_of(list[at]) != 0 {
            return false;
        }
    }
    true
}

// Whether z has no bit set, in the targets of every voice and the record of every slot (C-17).
fn is_flat(setup: Setup, targets: &[f32], records: &[f32]) -> bool
    requires lists { (length targets.now ≡ setup.voices * targets_width) × (length records.now ≡ setup.channels * setup.voices * record_width) }
    requires accepted { setup_check_of (solo_of setup) setup.voices ≡ fine }
    ensures { result ≡ is_flat setup.channels setup.voices (bank_of targets.now records.now [] 0) }
{
    let slots = setup.channels * setup.voices;
    is_clear(targets, TARGETS_WIDTH, TARGETS_WIDTH - 1, setup.voices)
        && is_clear(records, RECORD_WIDTH, RECORD_WIDTH - 1, slots)
}

// Those of open, then 6 of the list that park writes, then 15 of a third axis (C-17) or a chord (C-18), for which a parked file has no words.
pub fn park_check(
    setup: Setup,
    targets: &[f32],
    records: &[f32],
    delay: &[f32],
    written: usize,
) -> Result<(), Refusal>
    ensures { IsVerdict setup (call_park written) (bank_of targets.now records.now delay.now 0) result }
{
    open_check(setup, targets, records, delay)?;
    if written != file_length(setup) {
        return Err(Refusal::Store);
    }
    if setup.table.three || setup.code == 13 || !is_flat(setup, targets, records) {
        return Err(Refusal::Unparkable);
    }
    Ok(())
}

// Those of open, then 9 and 10: a steered block has x and y of pitch's length, an unsteered one empty x and y; counts (C-11) has one number a slot.
pub fn block_check(
    setup: Setup,
    targets: &[f32],
    records: &[f32],
    delay: &[f32],
    frames: usize,
    pitch: &[f32],
    steered: bool,
    x: &[f32],
    y: &[f32],
    audio: &[f32],
    counts: &[u32],
) -> Result<(), Refusal>
    ensures { IsVerdict setup
        (call_block (block_from frames pitch.now steered x.now y.now audio.now counts.now))
        (bank_of targets.now records.now delay.now 0) result }
{
    open_check(setup, targets, records, delay)?;
    if !(1..=4096).contains(&frames) {
        return Err(Refusal::Frames);
    }
    let slots = setup.channels * setup.voices;
    let wide = frames * setup.voices;
    let steering = if steered { wide } else { 0 };
    if pitch.len() != wide
        || x.len() != steering
        || y.len() != steering
        || audio.len() != frames * slots
        || counts.len() != slots
    {
        return Err(Refusal::Buffer);
    }
    Ok(())
}

// Those of block, then 14 of the scratch lists (C-16).
pub fn audition_check(
    setup: Setup,
    targets: &[f32],
    records: &[f32],
    delay: &[f32],
    scratch_targets: &[f32],
    scratch_records: &[f32],
    scratch_delay: &[f32],
    frames: usize,
    pitch: &[f32],
    steered: bool,
    x: &[f32],
    y: &[f32],
    audio: &[f32],
    counts: &[u32],
) -> Result<(), Refusal>
    ensures { IsVerdict setup
        (call_audition (block_from frames pitch.now steered x.now y.now audio.now counts.now)
        (bank_of scratch_targets.now scratch_records.now scratch_delay.now 0))
        (bank_of targets.now records.now delay.now 0) result }
{
    block_check(
        setup, targets, records, delay, frames, pitch, steered, x, y, audio, counts,
    )?;
    if !are_long(setup, scratch_targets, scratch_records, scratch_delay) {
        return Err(Refusal::Scratch);
    }
    Ok(())
}
