// Impulse on slices (document 01, 'Checked figures'): the line that it reads, its verdict, the voice's response and the text that it prints.
#![tactic(auto)]

ghost use Rattle.std.specs.Prelude.{◌≡◌, Some, Ok, length};
ghost use Rattle.text.specs.Text.{buffer, puts};
ghost use Rattle.voices.specs.Calls.{targets_width, record_width, most_frames};
ghost use Rattle.impulses.specs.Asks.{Renderable};
ghost use Rattle.impulses.specs.Impulse.{short_decimal, line_request, request_of, impulse_setup, cells, after_setup, verdict_of};
ghost use Rattle.impulses.specs.Impulse.{sample_text, samples_text, refused_text, steady_pitch, silence, impulse_of};
ghost use Rattle.impulses.specs.Impulse.{rendered_of, response_of, answer_text, Prints};

use checks::Setup;
use extended::Chord;
use text::Span;
use voices::{RECORD_WIDTH, TARGETS_WIDTH};

// What an input asks for.
#[derive(Clone, Copy)]
pub struct Asked {
    pub code: u32,
    pub rate: u32,
    pub frames: usize,
}

// Why no frame is rendered: the program has no cells for the rate's ring, or the refusal of this number.
#[derive(Clone, Copy)]
pub enum Reason {
    Large,
    Refused(u32),
}

// Digits of a number at most.
const MOST_DIGITS: usize = 9;

// The ring cells that the program has.
const CELLS: usize = 16384;

// The highest rate whose ring they hold.
const HIGHEST_RATE: u32 = 131015;

// Frames of a block at most.
const MOST_FRAMES: usize = 4096;

// ---- the line read

// The word as an unsigned decimal of 1 to 9 digits.
fn short_decimal(line: &[u8], w: Span) -> Option<u32>
    ensures { result ≡ short_decimal line.now w }
{
    if w.end.saturating_sub(w.start) > MOST_DIGITS {
        return None;
    }
    let v = text::decimal(line, w)?;
    Some(v as u32)
}

// Three words with one blank between, and nothing else.
fn line_request(line: &[u8]) -> Option<Asked>
    ensures { result ≡ line_request line.now }
{
    let a = text::word(line, 0);
    if a.end >= line.len() {
        return None;
    }
    let b = text::word(line, a.end + 1);
    if b.end >= line.len() {
        return None;
    }
    let c = text::word(line, b.end + 1);
    if c.end != line.len() {
        return None;
    }
    Some(Asked {
        code: short_decimal(line, a)?,
        rate: short_decimal(line, b)?,
        frames: short_decimal(line, c)? as usize,
    })
}

// What the input's first line asks for; later bytes are ignored.
pub fn request_of(input: &[u8]) -> Option<Asked>
    ensures { result ≡ request_of input.now }
{
    let end = text::line_end(input, 0);
    line_request(&input[..end])
}

// ---- the verdict

// One mono voice, reference 440, not clean, all-bypass table, one tooth at offset 0.
fn setup_of(code: u32, rate: u32) -> Setup
    ensures { result ≡ impulse_setup code rate }
{
    Setup {
        code,
        rate: std::num::nearest_u32_to_f32(rate),
        reference: 440.0,
        voices: 1,
        channels: 1,
        clean: false,
        table: pole_zero::bypass_table(),
        chord: Chord {
            count: 1,
            offsets: [0.0; 8],
        },
    }
}

// After the setup's refusals: `large`, then 9.
#[tactic(auto, unfolding(crate::specs::Impulse::after_setup))]
fn after_setup(rate: u32, frames: usize) -> Result<(), Reason>
    ensures { result ≡ after_setup rate frames }
{
    if rate > HIGHEST_RATE {
        return Err(Reason::Large);
    }
    if !(1..=MOST_FRAMES).contains(&frames) {
        return Err(Reason::Refused(9));
    }
    Ok(())
}

// The setup's refusals, of which 2 to 4 and 16 cannot come, then `large`, then 9.
pub fn verdict_of(asked: Asked) -> Result<(), Reason>
    ensures { result ≡ verdict_of asked.code asked.rate asked.frames }
{
    let Asked { code, rate, frames } = asked;
    if lines::rate_refused(std::num::nearest_u32_to_f32(rate)) {
        return Err(Reason::Refused(1));
    }
    if !(1..=13).contains(&code) {
        return Err(Reason::Refused(5));
    }
    after_setup(rate, frames)
}

// ---- the text printed

// One frame: its number, a blank, the sample's bits, a newline.
#[tactic(auto, using(crate::proofs::Writing::puts_append), unfolding(crate::specs::Impulse::sample_text, text::specs::Text::puts))]
fn put_sample(out: &mut [u8], at: usize, frame: usize, sample: f32) -> usize
    ensures { buffer out.new result ≡ puts (sample_text frame sample) (buffer out.old at) }
{
    let bits = text::bits_of(sample);
    let a = text::put_decimal(out, at, frame as u64);
    let b = text::put_byte(out, a, b' ');
    let c = text::put_hex(out, b, bits);
    text::put_byte(out, c, b'\n')
}

// The samples, a line each, from frame 0 on.
pub fn put_samples(out: &mut [u8], at: usize, samples: &[f32]) -> usize
    ensures { buffer out.new result ≡ puts (samples_text 0 samples.now) (buffer out.old at) }
{
    let mut p = at;
    for (i, x) in samples.iter().enumerate() {
        p = put_sample(out, p, i, *x);
    }
    p
}

#[tactic(auto, using(crate::proofs::Writing::puts_append), unfolding(crate::specs::Impulse::refused_text, text::specs::Text::puts))]
fn put_refused(out: &mut [u8], at: usize, n: u32) -> usize
    ensures { buffer out.new result ≡ puts (refused_text n) (buffer out.old at) }
{
    let a = text::put_bytes(out, at, b"refused ");
    let b = text::put_decimal(out, a, u64::from(n));
    text::put_byte(out, b, b'\n')
}

// ---- the voice

fn silence<const N: usize>() -> [f32; N]
    ensures { (result ≡ silence N) × (length result ≡ N) }
{
    [0.0; N]
}

// 1, 0, 0, ..
fn impulse_audio() -> [f32; MOST_FRAMES]
    ensures { (result ≡ impulse_of most_frames) × (length result ≡ 4096) }
{
    let mut audio = silence::<MOST_FRAMES>();
    audio[0] = 1.0;
    audio
}

fn steady_pitch() -> [f32; MOST_FRAMES]
    ensures { (result ≡ steady_pitch most_frames) × (length result ≡ 4096) }
{
    [69.0; MOST_FRAMES]
}

// Opens the voice on lists of zeros with the lent delay, and renders the audio in place. The one slot's count (C-11) is not read.
fn render(code: u32, rate: u32, delay: &mut [f32], pitch: &[f32], audio: &mut [f32])
    requires { Renderable code rate delay.old pitch.now audio.old }
    ensures { audio.new ≡ rendered_of code rate delay.old pitch.now audio.old }
{
    let setup = setup_of(code, rate);
    let frames = audio.len();
    let mut targets = silence::<TARGETS_WIDTH>();
    let mut records = silence::<RECORD_WIDTH>();
    let mut counts = [0u32; 1];
    bank::open(setup, &mut targets, &mut records, delay);
    let _ = bank::block(
        setup,
        0,
        &targets,
        &mut records,
        delay,
        frames,
        pitch,
        false,
        &[],
        &[],
        audio,
        &mut counts,
    );
}

// The response to the impulse, printed.
fn put_response(out: &mut [u8], at: usize, asked: Asked) -> usize
    requires { verdict_of asked.code asked.rate asked.frames ≡ Ok tt }
    ensures { buffer out.new result ≡ puts (samples_text 0 (response_of asked.code asked.rate asked.frames)) (buffer out.old at) }
{
    let Asked { code, rate, frames } = asked;
    let mut delay = silence::<CELLS>();
    let pitch = steady_pitch();
    let mut audio = impulse_audio();
    let len = lines::ring_len(std::num::nearest_u32_to_f32(rate));
    render(
        code,
        rate,
        &mut delay[..len],
        &pitch[..frames],
        &mut audio[..frames],
    );
    put_samples(out, at, &audio[..frames])
}

// ---- the program's answer

fn put_answer(out: &mut [u8], at: usize, asked: Asked) -> usize
    ensures { buffer out.new result ≡ puts (answer_text (Some asked)) (buffer out.old at) }
{
    match verdict_of(asked) {
        Ok(()) => put_response(out, at, asked),
        Err(Reason::Large) => text::put_bytes(out, at, b"large\n"),
        Err(Reason::Refused(n)) => put_refused(out, at, n),
    }
}

// Writes what the program prints for an input at the start of `out`, and answers its length. What has no room is left out.
pub fn put_impulse(out: &mut [u8], input: &[u8]) -> usize
    ensures { Prints input.now out.old out.new result }
{
    match request_of(input) {
        Some(asked) => put_answer(out, 0, asked),
        None => text::put_bytes(out, 0, b"line\n"),
    }
}
