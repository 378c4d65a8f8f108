// The voice filter bank: open, set, start and block on lists that the caller lends.
#![tactic(auto)]

ghost use Rattle.std.specs.Prelude.{◌≡◌, ◌*◌, ◌<◌, length};
ghost use Rattle.filter.specs.Voice.{voice_targets};
ghost use Rattle.parts.specs.Parts.{patch};
ghost use Rattle.voices.specs.Calls.{targets_width, open_of};
ghost use Rattle.checks.specs.Setup.{engine};
ghost use Rattle.checks.specs.Checks.{bank_of, block_from};
ghost use Rattle.bank.specs.Bank.{SetDoes, StartDoes, OpenDoes, BlockDoes};
ghost use Rattle.bank.specs.Promises.{Ready, Started};

use checks::{Refusal, Setup};
use filter::VoiceParams;
use run::Structure;
use slots::{Modulation, Prepared};
use voices::TARGETS_WIDTH;

// What an accepted block answers: the new cursor, and the frames rendered.
#[derive(Clone, Copy)]
pub struct Rendered {
    pub cursor: usize,
    pub frames: usize,
}

// Writes one voice's targets.
fn set_voice(targets: &mut [f32], voices: usize, voice: usize, p: VoiceParams)
    requires { (voice < voices) × (length targets.old ≡ voices * targets_width) }
    ensures { targets.new ≡ patch targets_width voice (voice_targets p) targets.old }
{
    let at = slots::start_of(voice, TARGETS_WIDTH, voices, targets.len());
    let goals = filter::voice_targets(p);
    slots::copy(&goals, 0, targets, at, TARGETS_WIDTH);
}

// Copies a voice's targets to its smoothed numbers on every channel, and zeroes its states, peaks and rings.
fn start_voice(setup: Setup, targets: &[f32], records: &mut [f32], delay: &mut [f32], voice: usize)
    requires { (Ready setup (bank_of targets.now records.old delay.old 0)) × (voice < setup.voices) }
    ensures { Started setup voice targets.now records.old delay.old
        records.new delay.new }
{
    let voices = setup.voices;
    let len = lines::ring_len(setup.rate);
    let slots = setup.channels * voices;
    let from = slots::start_of(voice, TARGETS_WIDTH, voices, targets.len());
    let goals: [f32; 11] = slots::load(targets, from);
    for c in 0..setup.channels {
        let slot = slots::place_at(c, voices, voice, setup.channels, slots);
        slots::start_slot(&goals, records, delay, slot, len);
    }
}

// Sets every voice to the defaults and starts it.
fn open_voices(setup: Setup, targets: &mut [f32], records: &mut [f32], delay: &mut [f32])
    requires { Ready setup (bank_of targets.old records.old delay.old 0) }
    ensures { bank_of targets.new records.new delay.new 0
        ≡ open_of (engine setup) setup.voices (bank_of targets.old records.old delay.old 0) }
{
    for v in 0..setup.voices {
        set_voice(targets, setup.voices, v, filter::default_params());
        start_voice(setup, targets, records, delay, v);
    }
}

// The answer of open, the cursor 0, and the setup given back.
#[derive(Clone, Copy)]
pub struct Opened {
    pub answer: Result<usize, Refusal>,
    pub setup: Setup,
}

// Opens a bank: every voice at the defaults and started, cursor 0.
pub fn open(setup: Setup, targets: &mut [f32], records: &mut [f32], delay: &mut [f32]) -> Opened
    ensures { OpenDoes setup (bank_of targets.old records.old delay.old 0)
        result.answer result.setup targets.new records.new delay.new }
{
    if let Err(refusal) = checks::open_check(setup, targets, records, delay) {
        return Opened {
            answer: Err(refusal),
            setup,
        };
    }
    open_voices(setup, targets, records, delay);
    Opened {
        answer: Ok(0),
        setup,
    }
}

// Writes one voice's targets, and answers the cursor.
pub fn set(
    setup: Setup,
    cursor: usize,
    targets: &mut [f32],
    voice: usize,
    p: VoiceParams,
) -> Result<usize, Refusal>
    ensures { SetDoes setup cursor voice p targets.old result targets.new }
{
    checks::set_check(setup, targets, voice, p)?;
    set_voice(targets, setup.voices, voice, p);
    Ok(cursor)
}

// Starts one voice, and answers the cursor.
pub fn start(
    setup: Setup,
    cursor: usize,
    targets: &[f32],
    records: &mut [f32],
    delay: &mut [f32],
    voice: usize,
) -> Result<usize, Refusal>
    ensures { StartDoes setup cursor voice targets.now records.old delay.old
        result records.new delay.new }
{
    checks::start_check(setup, targets, records, delay, voice)?;
    start_voice(setup, targets, records, delay, voice);
    Ok(cursor)
}

// Renders a block: every slot, frame by frame, in place. C-11: counts, one number a slot, becomes how often a ratio was greater than its
// cap in this block. The constants are made once.
pub fn block(
    setup: Setup,
    cursor: usize,
    targets: &[f32],
    records: &mut [f32],
    delay: &mut [f32],
    frames: usize,
    pitch: &[f32],
    steered: bool,
    x: &[f32],
    y: &[f32],
    audio: &mut [f32],
    counts: &mut [u32],
) -> Result<Rendered, Refusal>
    ensures { BlockDoes setup
        (block_from frames pitch.now steered x.now y.now audio.old counts.old)
        (bank_of targets.now records.old delay.old cursor)
        result records.new delay.new audio.new counts.new }
{
    checks::block_check(
        setup, targets, records, delay, frames, pitch, steered, x, y, audio, counts,
    )?;
    let table = setup.table;
    let sections = table.sections;
    let chord = setup.chord;
    let prepared = Prepared {
        m: Structure {
            code: setup.code,
            active: table.active,
            three: table.three,
            gain: table.gain,
            k: run::constants_of(setup.rate, setup.reference, setup.clean, chord),
        },
        rate: setup.rate,
        reference: setup.reference,
        clean: setup.clean,
        chord,
        voices: setup.voices,
        channels: setup.channels,
        cursor,
        frames,
        steered,
        slots: setup.channels * setup.voices,
        len: lines::ring_len(setup.rate),
    };
    pairs::run_block(
        prepared,
        &sections,
        targets,
        records,
        delay,
        Modulation { pitch, x, y },
        audio,
        counts,
    );
    let next = slots::cursor_after(setup.code, cursor, frames);
    Ok(Rendered {
        cursor: next,
        frames,
    })
}
