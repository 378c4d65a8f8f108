// The bank's calls. Each answers 0, or the number of a refusal, which changes no list and no number behind a pointer.
ghost use Rattle.std.specs.Prelude.{◌≡◌, []};
ghost use Rattle.voices.specs.Calls.{call_set, call_start};
ghost use Rattle.checks.specs.Checks.{bank_of, block_from};
ghost use Rattle.filter.specs.Voice.{default_params};
ghost use Rattle.setups.specs.Parked.{file_verdict};
ghost use Rattle.parking.specs.Parking.{park_length};
ghost use Rattle.sentivolus.specs.Calls.{version, setup_of, params_of, param_numbers, OpenLeaves, CallLeaves, BlockLeaves, AuditionLeaves};
ghost use Rattle.sentivolus.specs.Calls.{ParkLeft, SetupLeft, RestoreLeft};
ghost use Rattle.sentivolus.specs.Answers.{answer_number};

use checks::{Refusal, Setup};
use extended::Chord;
use filter::VoiceParams;
use pole_zero::Table;

// The interface's version: 10,000 x major + 100 x minor + patch.
#[unsafe(no_mangle)]
pub extern "C" fn sentivolus_version() -> u32
    ensures { result ≡ version }
{
    1000
}

// The default settings of a voice, in the order of VoiceParams.
#[unsafe(no_mangle)]
pub extern "C" fn sentivolus_defaults(out: &mut [f32; 10])
    ensures { out.new ≡ param_numbers default_params }
{
    let p = filter::default_params();
    *out = [
        p.resonance,
        p.drive,
        p.saturation,
        p.character,
        p.stereo_offset,
        p.mix,
        p.level,
        p.morph_x,
        p.morph_y,
        p.morph_z,
    ];
}

fn setup_of(
    code: u32,
    rate: f32,
    reference: f32,
    voices: usize,
    channels: usize,
    clean: bool,
    active: u32,
    three: bool,
    sections: &[f32; 320],
    gain: f32,
    count: u32,
    offsets: &[f32; 8],
) -> Setup
    ensures { result ≡ setup_of code rate reference voices channels clean active three sections.now gain count offsets.now }
{
    Setup {
        code,
        rate,
        reference,
        voices,
        channels,
        clean,
        table: Table {
            active,
            three,
            sections: *sections,
            gain,
        },
        chord: Chord {
            count,
            offsets: *offsets,
        },
    }
}

// 0 of a call that was accepted, else the refusal's number.
fn answer_number<T: Copy>(answer: Result<T, Refusal>) -> u32
    ensures { result ≡ answer_number answer }
{
    match answer {
        Ok(_) => 0,
        Err(refusal) => u32::from(refusal),
    }
}

// Every voice set to the defaults and started; the cursor is 0 afterwards.
#[unsafe(no_mangle)]
pub extern "C" fn sentivolus_open(
    code: u32,
    rate: f32,
    reference: f32,
    voices: usize,
    channels: usize,
    clean: bool,
    active: u32,
    three: bool,
    sections: &[f32; 320],
    gain: f32,
    count: u32,
    offsets: &[f32; 8],
    targets: &mut [f32],
    records: &mut [f32],
    delay: &mut [f32],
) -> u32
    ensures { OpenLeaves (setup_of code rate reference voices channels clean active three sections.now gain count offsets.now)
        (bank_of targets.old records.old delay.old 0)
        result targets.new records.new delay.new }
{
    let s = setup_of(
        code, rate, reference, voices, channels, clean, active, three, sections, gain, count,
        offsets,
    );
    answer_number(bank::open(s, targets, records, delay).answer)
}

// Writes one voice's targets. The cursor stays.
#[unsafe(no_mangle)]
pub extern "C" fn sentivolus_set(
    code: u32,
    rate: f32,
    reference: f32,
    voices: usize,
    channels: usize,
    clean: bool,
    active: u32,
    three: bool,
    sections: &[f32; 320],
    gain: f32,
    count: u32,
    offsets: &[f32; 8],
    targets: &mut [f32],
    voice: usize,
    resonance: f32,
    drive: f32,
    saturation: f32,
    character: f32,
    stereo_offset: f32,
    mix: f32,
    level: f32,
    morph_x: f32,
    morph_y: f32,
    morph_z: f32,
) -> u32
    ensures { CallLeaves (setup_of code rate reference voices channels clean active three sections.now gain count offsets.now)
        (call_set voice (params_of resonance drive saturation character stereo_offset mix level morph_x morph_y morph_z))
        (bank_of targets.old [] [] 0)
        result targets.new [] [] }
{
    let s = setup_of(
        code, rate, reference, voices, channels, clean, active, three, sections, gain, count,
        offsets,
    );
    let p = VoiceParams {
        resonance,
        drive,
        saturation,
        character,
        stereo_offset,
        mix,
        level,
        morph_x,
        morph_y,
        morph_z,
    };
    answer_number(bank::set(s, 0, targets, voice, p))
}

// Copies a voice's targets to its smoothed numbers on every channel and zeroes its states, peaks and rings. The cursor stays.
#[unsafe(no_mangle)]
pub extern "C" fn sentivolus_start(
    code: u32,
    rate: f32,
    reference: f32,
    voices: usize,
    channels: usize,
    clean: bool,
    active: u32,
    three: bool,
    sections: &[f32; 320],
    gain: f32,
    count: u32,
    offsets: &[f32; 8],
    targets: &[f32],
    records: &mut [f32],
    delay: &mut [f32],
    voice: usize,
) -> u32
    ensures { CallLeaves (setup_of code rate reference voices channels clean active three sections.now gain count offsets.now)
        (call_start voice)
        (bank_of targets.now records.old delay.old 0)
        result targets.now records.new delay.new }
{
    let s = setup_of(
        code, rate, reference, voices, channels, clean, active, three, sections, gain, count,
        offsets,
    );
    answer_number(bank::start(s, 0, targets, records, delay, voice))
}

// Renders a block in place. `cursor` is the cursor, and the new one afterwards; `counts`, one number a slot, becomes how often in this block a ratio was
// greater than its cap (C-11); `rendered` becomes the frames rendered.
#[unsafe(no_mangle)]
pub extern "C" fn sentivolus_block(
    code: u32,
    rate: f32,
    reference: f32,
    voices: usize,
    channels: usize,
    clean: bool,
    active: u32,
    three: bool,
    sections: &[f32; 320],
    gain: f32,
    count: u32,
    offsets: &[f32; 8],
    cursor: &mut usize,
    targets: &[f32],
    records: &mut [f32],
    delay: &mut [f32],
    frames: usize,
    pitch: &[f32],
    steered: bool,
    x: &[f32],
    y: &[f32],
    audio: &mut [f32],
    counts: &mut [u32],
    rendered: &mut usize,
) -> u32
    ensures { BlockLeaves (setup_of code rate reference voices channels clean active three sections.now gain count offsets.now)
        (block_from frames pitch.now steered x.now y.now audio.old counts.old)
        (bank_of targets.now records.old delay.old cursor.old)
        rendered.old result cursor.new rendered.new
        records.new delay.new audio.new counts.new }
{
    let s = setup_of(
        code, rate, reference, voices, channels, clean, active, three, sections, gain, count,
        offsets,
    );
    let answer = bank::block(
        s, *cursor, targets, records, delay, frames, pitch, steered, x, y, audio, counts,
    );
    match answer {
        Ok(block) => {
            *cursor = block.cursor;
            *rendered = block.frames;
            0
        }
        Err(refusal) => u32::from(refusal),
    }
}

// Renders a block on a copy of the bank (C-16), which the scratch lists and `scratch_cursor` hold afterwards; `counts` and `rendered` as of a block. The
// bank's own lists and cursor stay.
#[unsafe(no_mangle)]
pub extern "C" fn sentivolus_audition(
    code: u32,
    rate: f32,
    reference: f32,
    voices: usize,
    channels: usize,
    clean: bool,
    active: u32,
    three: bool,
    sections: &[f32; 320],
    gain: f32,
    count: u32,
    offsets: &[f32; 8],
    cursor: usize,
    targets: &[f32],
    records: &[f32],
    delay: &[f32],
    scratch_cursor: &mut usize,
    scratch_targets: &mut [f32],
    scratch_records: &mut [f32],
    scratch_delay: &mut [f32],
    frames: usize,
    pitch: &[f32],
    steered: bool,
    x: &[f32],
    y: &[f32],
    audio: &mut [f32],
    counts: &mut [u32],
    rendered: &mut usize,
) -> u32
    ensures { AuditionLeaves
        (setup_of code rate reference voices channels clean active three sections.now gain count offsets.now)
        (block_from frames pitch.now steered x.now y.now audio.old counts.old)
        (bank_of scratch_targets.old scratch_records.old scratch_delay.old scratch_cursor.old)
        (bank_of targets.now records.now delay.now cursor)
        rendered.old result scratch_cursor.new rendered.new
        scratch_targets.new scratch_records.new scratch_delay.new audio.new counts.new }
{
    let s = setup_of(
        code, rate, reference, voices, channels, clean, active, three, sections, gain, count,
        offsets,
    );
    let answer = auditions::audition(
        s,
        cursor,
        targets,
        records,
        delay,
        scratch_targets,
        scratch_records,
        scratch_delay,
        frames,
        pitch,
        steered,
        x,
        y,
        audio,
        counts,
    );
    match answer {
        Ok(block) => {
            *scratch_cursor = block.cursor;
            *rendered = block.frames;
            0
        }
        Err(refusal) => u32::from(refusal),
    }
}

// The bytes that `sentivolus_park` writes, 0 for a refused setup.
#[unsafe(no_mangle)]
pub extern "C" fn sentivolus_park_len(
    code: u32,
    rate: f32,
    reference: f32,
    voices: usize,
    channels: usize,
    clean: bool,
    active: u32,
    three: bool,
    sections: &[f32; 320],
    gain: f32,
    count: u32,
    offsets: &[f32; 8],
) -> usize
    ensures { result ≡ park_length
        (setup_of code rate reference voices channels clean active three sections.now gain count offsets.now) }
{
    let s = setup_of(
        code, rate, reference, voices, channels, clean, active, three, sections, gain, count,
        offsets,
    );
    parking::park_len(s)
}

// Writes a bank to a file (C-12). The cursor stays.
#[unsafe(no_mangle)]
pub extern "C" fn sentivolus_park(
    code: u32,
    rate: f32,
    reference: f32,
    voices: usize,
    channels: usize,
    clean: bool,
    active: u32,
    three: bool,
    sections: &[f32; 320],
    gain: f32,
    count: u32,
    offsets: &[f32; 8],
    cursor: usize,
    targets: &[f32],
    records: &[f32],
    delay: &[f32],
    file: &mut [u8],
) -> u32
    ensures { ParkLeft (setup_of code rate reference voices channels clean active three sections.now gain count offsets.now)
        (bank_of targets.now records.now delay.now cursor)
        file.old result file.new }
{
    let s = setup_of(
        code, rate, reference, voices, channels, clean, active, three, sections, gain, count,
        offsets,
    );
    answer_number(parking::park(s, cursor, targets, records, delay, file))
}

// A setup's numbers, each to its place.
fn put_setup(
    setup: Setup,
    code: &mut u32,
    rate: &mut f32,
    reference: &mut f32,
    voices: &mut usize,
    channels: &mut usize,
    clean: &mut bool,
    active: &mut u32,
    three: &mut bool,
    sections: &mut [f32; 320],
    gain: &mut f32,
    count: &mut u32,
    offsets: &mut [f32; 8],
)
    ensures { setup_of code.new rate.new reference.new voices.new channels.new clean.new
        active.new three.new sections.new gain.new count.new offsets.new ≡ setup }
{
    let table = setup.table;
    let numbers = table.sections;
    let chord = setup.chord;
    let octaves = chord.offsets;
    *code = setup.code;
    *rate = setup.rate;
    *reference = setup.reference;
    *voices = setup.voices;
    *channels = setup.channels;
    *clean = setup.clean;
    *active = table.active;
    *three = table.three;
    *sections = numbers;
    *gain = table.gain;
    *count = chord.count;
    *offsets = octaves;
}

// The setup and the cursor of a parked file (C-12), so that lists can be lent: refused as by `sentivolus_restore`, but for 6.
#[unsafe(no_mangle)]
pub extern "C" fn sentivolus_parked_setup(
    file: &[u8],
    code: &mut u32,
    rate: &mut f32,
    reference: &mut f32,
    voices: &mut usize,
    channels: &mut usize,
    clean: &mut bool,
    active: &mut u32,
    three: &mut bool,
    sections: &mut [f32; 320],
    gain: &mut f32,
    count: &mut u32,
    offsets: &mut [f32; 8],
    cursor: &mut usize,
) -> u32
    ensures { SetupLeft (file_verdict file.now) file.now
        (setup_of code.old rate.old reference.old voices.old channels.old clean.old
        active.old three.old sections.old gain.old count.old offsets.old)
        cursor.old result
        (setup_of code.new rate.new reference.new voices.new channels.new clean.new
        active.new three.new sections.new gain.new count.new offsets.new)
        cursor.new }
{
    match parking::parked_setup(file) {
        Ok(held) => {
            put_setup(
                held.setup, code, rate, reference, voices, channels, clean, active, three,
                sections, gain, count, offsets,
            );
            *cursor = held.cursor;
            0
        }
        Err(refusal) => u32::from(refusal),
    }
}

// Reads a bank from a file (C-12): the lists, the setup's numbers and the cursor become those that it holds.
#[unsafe(no_mangle)]
pub extern "C" fn sentivolus_restore(
    file: &[u8],
    targets: &mut [f32],
    records: &mut [f32],
    delay: &mut [f32],
    code: &mut u32,
    rate: &mut f32,
    reference: &mut f32,
    voices: &mut usize,
    channels: &mut usize,
    clean: &mut bool,
    active: &mut u32,
    three: &mut bool,
    sections: &mut [f32; 320],
    gain: &mut f32,
    count: &mut u32,
    offsets: &mut [f32; 8],
    cursor: &mut usize,
) -> u32
    ensures { RestoreLeft file.now (bank_of targets.old records.old delay.old 0)
        (setup_of code.old rate.old reference.old voices.old channels.old clean.old
        active.old three.old sections.old gain.old count.old offsets.old)
        cursor.old result
        (setup_of code.new rate.new reference.new voices.new channels.new clean.new
        active.new three.new sections.new gain.new count.new offsets.new)
        cursor.new targets.new records.new delay.new }
{
    match parking::restore(file, targets, records, delay) {
        Ok(held) => {
            put_setup(
                held.setup, code, rate, reference, voices, channels, clean, active, three,
                sections, gain, count, offsets,
            );
            *cursor = held.cursor;
            0
        }
        Err(refusal) => u32::from(refusal),
    }
}
