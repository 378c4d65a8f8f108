// Replays lists of calls on the proved bank: copies each call and writes its answer anew, so that the output is the input where
// every answer is right, bit for bit. The answers of the input, lines that start with `=`, `o`, `h`, `c`, `t`, `r` or `d`, are left
// out; a line that cannot be read gives `?`.
// Limits: targets 176 numbers, records 1,024, delay 65,536, each lent with one more at most; pitch, x and y 8,192 numbers each,
// audio 16,384, counts 1,024; the input 1,048,576 bytes.
#![tactic(auto)]

ghost use Rattle.std.specs.Prelude.{◌≡◌, ◌≤◌, take, IfOk, IfSome};
ghost use Rattle.std.specs.Io.KnownBytes.{Consumes};
ghost use Rattle.words.specs.Words.{word_of};

use bank::Rendered;
use checks::{Refusal, Setup};
use extended::Chord;
use filter::VoiceParams;
use pole_zero::Table;
use std::io::{Read, Write};
use std::{array, io};
use text::Span;

// How many numbers of targets, records and delay are lent.
#[derive(Clone, Copy, Default)]
struct Lengths {
    targets: usize,
    records: usize,
    delay: usize,
}

// The numbers of a bank, or an audition's scratch.
#[derive(Drop)]
struct Lists {
    targets: [f32; 177],
    records: [f32; 1025],
    delay: [f32; 65537],
}

// The numbers of a block.
#[derive(Drop)]
struct Signals {
    pitch: [f32; 8192],
    x: [f32; 8192],
    y: [f32; 8192],
    audio: [f32; 16384],
}

// Which call the lines of a block are for: a block, answered by its samples or by their sums, or an audition.
#[derive(Clone, Copy, PartialEq, Eq)]
enum Call {
    Block,
    BlockSums,
    Audition,
}

// A block or an audition, and how many numbers its lists have, as far as they are read.
#[derive(Clone, Copy)]
struct Block {
    call: Call,
    frames: usize,
    steered: bool,
    pitch: usize,
    x: usize,
    y: usize,
    audio: usize,
}

// The line that comes next: a call's, or of a block the list named.
#[derive(Clone, Copy)]
enum Awaited {
    Call,
    Pitch(Block),
    X(Block),
    Y(Block),
    Audio(Block),
}

// What the next call is handed beside the lists' numbers. `own` are the lists' lengths and `lent` those that the next call is
// given, which a `lend` line changes. `counts` is the length of the next block's or audition's list of counts, and `scratch` the
// lengths of the next audition's scratch, where a line said so.
#[derive(Clone, Copy)]
struct State {
    setup: Setup,
    cursor: usize,
    own: Lengths,
    lent: Lengths,
    counts: Option<usize>,
    scratch: Option<Lengths>,
    awaited: Awaited,
}

// What the lines so far left: the state, and the numbers of the lists and of a block; and room for an audition's scratch.
#[derive(Drop)]
struct Replay {
    state: State,
    lists: Lists,
    scratch: Lists,
    signals: Signals,
}

// A line as it was read. Those of a block's lists say how many numbers they have.
#[derive(Drop)]
enum Command {
    Scenario,
    Setup(Setup),
    Open(Setup, Lengths),
    Lend(Lengths),
    Cursor(usize),
    Poke,
    Set(usize, VoiceParams),
    Start(usize),
    Counts(usize),
    Scratch(Lengths),
    Block(Block),
    Pitch(usize),
    X(usize),
    Y(usize),
    Audio(usize),
    Dump,
}

// A number and how often it stands in a row.
#[derive(Clone, Copy)]
struct Run {
    value: f32,
    count: usize,
}

// The first n elements, or all where there are fewer.
fn first<T>(xs: &[T], n: usize) -> &[T] {
    &xs[..n.min(xs.len())]
}

fn first_mut<T>(xs: &mut [T], n: usize) -> &mut [T] {
    let n = n.min(xs.len());
    &mut xs[..n]
}

// The bytes of word k; none past the last.
fn word(s: &[u8], k: usize) -> &[u8]
    ensures { result.now ≡ word_of s.now 0 k }
{
    words::bytes_at(s, words::start(s, 0, k))
}

// Whether no word follows the first k.
fn ends_at(s: &[u8], k: usize) -> bool {
    words::start(s, 0, k) == s.len()
}

// The N f32 from word k on.
fn floats<const N: usize>(s: &[u8], k: usize) -> Option<[f32; N]> {
    let at = words::start(s, 0, k);
    if !words::are_floats(s, at, 0, N) {
        return None;
    }
    Some(array::from_fn(|i| words::float_at(s, at, i)))
}

// The N decimals from word k on.
fn decimals<const N: usize>(s: &[u8], k: usize) -> Option<[usize; N]> {
    let at = words::start(s, 0, k);
    if !words::are_decimals(s, at, 0, N) {
        return None;
    }
    Some(array::from_fn(|i| words::decimal_at(s, at, i, 0) as usize))
}

// The number in 32 bits; the largest where it has more.
fn u32_of(n: usize) -> u32 {
    u32::try_from(n).unwrap_or(u32::MAX)
}

// The run that a word is: eight hexadecimal digits, then `*` and a count where it is not 1.
fn run_of(word: &[u8]) -> Option<Run> {
    let (digits, times) = word.split_at_checked(8)?;
    let bits = text::hexadecimal(digits, Span { start: 0, end: 8 })?;
    let count = match times {
        [] => 1,
        [b'*', count @ ..] => words::decimal_at(count, 0, 0, 0) as usize,
        _ => return None,
    };
    if count == 0 {
        return None;
    }
    Some(Run {
        value: text::float_of(bits),
        count,
    })
}

// Reads the runs from word k to the line's end into the list, and answers how many numbers they are; none where one cannot be
// read or the list has no room for it.
fn read_list(s: &[u8], k: usize, xs: &mut [f32]) -> Option<usize> {
    let mut n = 0usize;
    for word in s
        .get(words::start(s, 0, k)..)?
        .split_inclusive(|b| *b == b' ')
    {
        let run = run_of(word.strip_suffix(b" ").unwrap_or(word))?;
        let end = n.checked_add(run.count)?;
        xs.get_mut(n..end)?.fill(run.value);
        n = end;
    }
    Some(n)
}

// A line of a list: its letter, and the numbers in runs.
fn put_list(out: &mut [u8], at: usize, letter: u8, xs: &[f32]) -> usize {
    let p = text::put_byte(out, at, letter);
    let p = words::put_runs(out, p, xs);
    text::put_byte(out, p, b'\n')
}

// A line of a list's sums mod 2^32: s1 += bits + 1 and s2 += s1 over the numbers, both from 0.
fn put_digest(out: &mut [u8], at: usize, xs: &[f32]) -> usize {
    let mut s1 = 0u32;
    let mut s2 = 0u32;
    for x in xs {
        s1 = s1.wrapping_add(text::bits_of(*x)).wrapping_add(1);
        s2 = s2.wrapping_add(s1);
    }
    let p = text::put_bytes(out, at, b"h ");
    let p = text::put_hex(out, p, s1);
    let p = text::put_byte(out, p, b' ');
    let p = text::put_hex(out, p, s2);
    text::put_byte(out, p, b'\n')
}

// A line of counts: `c`, and each in decimal.
fn put_counts(out: &mut [u8], at: usize, counts: &[u32]) -> usize {
    let mut p = text::put_byte(out, at, b'c');
    for n in counts {
        p = text::put_byte(out, p, b' ');
        p = text::put_decimal(out, p, u64::from(*n));
    }
    text::put_byte(out, p, b'\n')
}

// A line of `= refused` and the refusal's number.
fn put_refusal(out: &mut [u8], at: usize, refusal: Refusal) -> usize {
    let p = text::put_bytes(out, at, b"= refused ");
    let p = text::put_decimal(out, p, u64::from(u32::from(refusal)));
    text::put_byte(out, p, b'\n')
}

// A line of `= ok` and the numbers, the cursor first.
fn put_ok(out: &mut [u8], at: usize, numbers: &[usize]) -> usize {
    let mut p = text::put_bytes(out, at, b"= ok");
    for n in numbers {
        p = text::put_byte(out, p, b' ');
        p = text::put_decimal(out, p, *n as u64);
    }
    text::put_byte(out, p, b'\n')
}

// A call's answer as a line.
fn put_answer(out: &mut [u8], at: usize, answer: Result<usize, Refusal>) -> usize {
    match answer {
        Ok(cursor) => put_ok(out, at, &[cursor]),
        Err(refusal) => put_refusal(out, at, refusal),
    }
}

// `table`, or `table3` with three axes, active gain nums: `most` numbers at most
fn table_at(s: &[u8], three: bool, most: usize) -> Option<Table> {
    let [active] = decimals::<1>(s, 1)?;
    let [gain] = floats::<1>(s, 2)?;
    let mut sections = [0f32; 320];
    read_list(s, 3, first_mut(&mut sections, most))?;
    Some(Table {
        active: u32_of(active),
        three,
        sections,
        gain,
    })
}

// `chord` n o1 .. o8
fn chord_at(s: &[u8]) -> Option<Chord> {
    let [n] = decimals::<1>(s, 1)?;
    let offsets = floats::<8>(s, 2)?;
    if !ends_at(s, 10) {
        return None;
    }
    Some(Chord {
        count: u32_of(n),
        offsets,
    })
}

// The setup of words 1 to 6, with another's table and chord.
fn setup_at(s: &[u8], old: Setup) -> Option<Setup> {
    let [code] = decimals::<1>(s, 1)?;
    let [rate, reference] = floats::<2>(s, 2)?;
    let [voices, channels, clean] = decimals::<3>(s, 4)?;
    Some(Setup {
        code: u32_of(code),
        rate,
        reference,
        voices,
        channels,
        clean: clean != 0,
        ..old
    })
}

// The three lengths that are the line's last words, from word k on.
fn lengths_at(s: &[u8], k: usize) -> Option<Lengths> {
    let [targets, records, delay] = decimals::<3>(s, k)?;
    if targets > 177 || records > 1025 || delay > 65537 {
        return None;
    }
    Some(Lengths {
        targets,
        records,
        delay,
    })
}

// The decimal that is the line's only word after its name.
fn number(s: &[u8]) -> Option<usize> {
    let [n] = decimals::<1>(s, 1)?;
    ends_at(s, 2).then_some(n)
}

// `set` voice and ten floats
fn set_at(s: &[u8]) -> Option<Command> {
    let [voice] = decimals::<1>(s, 1)?;
    let [
        resonance,
        drive,
        saturation,
        character,
        stereo_offset,
        mix,
        level,
        morph_x,
        morph_y,
        morph_z,
    ] = floats::<10>(s, 2)?;
    if !ends_at(s, 12) {
        return None;
    }
    let params = VoiceParams {
        resonance,
        drive,
        saturation,
        character,
        stereo_offset,
        mix,
        level,
        morph_x,
        morph_y,
        morph_z,
    };
    Some(Command::Set(voice, params))
}

// `block`, `blockh` or `audition` frames steered; the lines of four lists follow.
fn block_at(s: &[u8], call: Call) -> Option<Command> {
    let [frames, steered] = decimals::<2>(s, 1)?;
    if !ends_at(s, 3) {
        return None;
    }
    Some(Command::Block(Block {
        call,
        frames,
        steered: steered != 0,
        pitch: 0,
        x: 0,
        y: 0,
        audio: 0,
    }))
}

// `poke` t|r|d at nums: writes the numbers into a list of the bank from `at` on. Where `at` cannot be read they go to the list's start.
fn poke(s: &[u8], own: Lengths, lists: &mut Lists) -> Option<Command> {
    let Lists {
        targets,
        records,
        delay,
    } = lists;
    let xs = match word(s, 1) {
        b"t" => first_mut(targets, own.targets),
        b"r" => first_mut(records, own.records),
        b"d" => first_mut(delay, own.delay),
        _ => return None,
    };
    let at = decimals::<1>(s, 2);
    let [from] = at.unwrap_or([0]);
    read_list(s, 3, xs.get_mut(from..)?)?;
    at.map(|_| Command::Poke)
}

// Reads a line. The numbers of a list go into that list at once, even where the rest of the line cannot be read.
fn read_command(
    s: &[u8],
    state: &State,
    lists: &mut Lists,
    signals: &mut Signals,
) -> Option<Command> {
    let command = match word(s, 0) {
        b"scenario" => Command::Scenario,
        b"table" => Command::Setup(Setup {
            table: table_at(s, false, 160)?,
            ..state.setup
        }),
        b"table3" => Command::Setup(Setup {
            table: table_at(s, true, 320)?,
            ..state.setup
        }),
        b"chord" => Command::Setup(Setup {
            chord: chord_at(s)?,
            ..state.setup
        }),
        b"setup" if ends_at(s, 7) => Command::Setup(setup_at(s, state.setup)?),
        b"open" if ends_at(s, 10) => Command::Open(setup_at(s, state.setup)?, lengths_at(s, 7)?),
        b"lend" if ends_at(s, 4) => Command::Lend(lengths_at(s, 1)?),
        b"scratch" if ends_at(s, 4) => Command::Scratch(lengths_at(s, 1)?),
        b"cursor" => Command::Cursor(number(s)?),
        b"counts" => Command::Counts(number(s).filter(|n| *n <= 1024)?),
        b"start" => Command::Start(number(s)?),
        b"set" => set_at(s)?,
        b"poke" => poke(s, state.own, lists)?,
        b"block" => block_at(s, Call::Block)?,
        b"blockh" => block_at(s, Call::BlockSums)?,
        b"audition" => block_at(s, Call::Audition)?,
        b"p" => Command::Pitch(read_list(s, 1, &mut signals.pitch)?),
        b"x" => Command::X(read_list(s, 1, &mut signals.x)?),
        b"y" => Command::Y(read_list(s, 1, &mut signals.y)?),
        b"a" => Command::Audio(read_list(s, 1, &mut signals.audio)?),
        b"dump" => Command::Dump,
        _ => return None,
    };
    Some(command)
}

impl State {
    // A scenario's start: no lists, a table of two axes and zeros, active 0, gain 1, and a chord of no teeth.
    fn fresh() -> State {
        State {
            setup: Setup {
                code: 0,
                rate: 0.0,
                reference: 0.0,
                voices: 0,
                channels: 0,
                clean: false,
                table: Table {
                    active: 0,
                    three: false,
                    sections: [0f32; 320],
                    gain: 1.0,
                },
                chord: Chord {
                    count: 0,
                    offsets: [0f32; 8],
                },
            },
            cursor: 0,
            own: Lengths::default(),
            lent: Lengths::default(),
            counts: None,
            scratch: None,
            awaited: Awaited::Call,
        }
    }

    // How many counts the next block is lent: as a `counts` line said, or one a slot. More voices than 16, or channels than 2, are
    // refused before the lists are measured.
    fn counts_lent(&self) -> usize {
        let voices = self.setup.voices.min(16);
        let slots = if self.setup.channels == 2 {
            2 * voices
        } else {
            voices
        };
        self.counts.unwrap_or(slots)
    }

    // How long the scratch of the next audition is: as a `scratch` line said, or as the bank's lists.
    fn scratch_lent(&self) -> Lengths {
        self.scratch.unwrap_or(self.lent)
    }
}

impl Lists {
    fn filled(value: f32) -> Lists {
        Lists {
            targets: [value; 177],
            records: [value; 1025],
            delay: [value; 65537],
        }
    }

    fn fill(&mut self, value: f32) {
        self.targets.fill(value);
        self.records.fill(value);
        self.delay.fill(value);
    }

    // All targets, records and delay, of these lengths.
    fn dump(&self, n: Lengths, out: &mut [u8], at: usize) -> usize {
        let p = put_list(out, at, b't', first(&self.targets, n.targets));
        let p = put_list(out, p, b'r', first(&self.records, n.records));
        put_list(out, p, b'd', first(&self.delay, n.delay))
    }
}

// The lists anew, each number a half, and `open`.
fn open_call(state: &State, lists: &mut Lists, out: &mut [u8], at: usize) -> usize {
    let Lists {
        targets,
        records,
        delay,
    } = lists;
    let targets = first_mut(targets, state.own.targets);
    let records = first_mut(records, state.own.records);
    let delay = first_mut(delay, state.own.delay);
    targets.fill(0.5);
    records.fill(0.5);
    delay.fill(0.5);
    let opened = bank::open(state.setup, targets, records, delay);
    put_answer(out, at, opened.answer)
}

// `set`; where it is accepted the voice's eleven targets follow the answer.
fn set_call(
    state: &State,
    voice: usize,
    params: VoiceParams,
    lists: &mut Lists,
    out: &mut [u8],
    at: usize,
) -> usize {
    let lent = first_mut(&mut lists.targets, state.lent.targets);
    match bank::set(state.setup, state.cursor, lent, voice, params) {
        Ok(cursor) => {
            let p = put_ok(out, at, &[cursor]);
            let from = 11 * voice.min(15);
            put_list(out, p, b't', &lists.targets[from..from + 11])
        }
        Err(refusal) => put_refusal(out, at, refusal),
    }
}

fn start_call(state: &State, voice: usize, lists: &mut Lists, out: &mut [u8], at: usize) -> usize {
    let Lists {
        targets,
        records,
        delay,
    } = lists;
    let started = bank::start(
        state.setup,
        state.cursor,
        first(targets, state.lent.targets),
        first_mut(records, state.lent.records),
        first_mut(delay, state.lent.delay),
        voice,
    );
    put_answer(out, at, started)
}

fn block_call(
    state: &State,
    block: Block,
    lists: &mut Lists,
    signals: &mut Signals,
    counts: &mut [u32],
) -> Result<Rendered, Refusal> {
    let Lists {
        targets,
        records,
        delay,
    } = lists;
    let Signals { pitch, x, y, audio } = signals;
    bank::block(
        state.setup,
        state.cursor,
        first(targets, state.lent.targets),
        first_mut(records, state.lent.records),
        first_mut(delay, state.lent.delay),
        block.frames,
        first(pitch, block.pitch),
        block.steered,
        first(x, block.x),
        first(y, block.y),
        first_mut(audio, block.audio),
        counts,
    )
}

fn audition_call(
    state: &State,
    block: Block,
    lists: &Lists,
    scratch: &mut Lists,
    signals: &mut Signals,
    counts: &mut [u32],
) -> Result<Rendered, Refusal> {
    let lengths = state.scratch_lent();
    let Lists {
        targets,
        records,
        delay,
    } = scratch;
    let Signals { pitch, x, y, audio } = signals;
    auditions::audition(
        state.setup,
        state.cursor,
        first(&lists.targets, state.lent.targets),
        first(&lists.records, state.lent.records),
        first(&lists.delay, state.lent.delay),
        first_mut(targets, lengths.targets),
        first_mut(records, lengths.records),
        first_mut(delay, lengths.delay),
        block.frames,
        first(pitch, block.pitch),
        block.steered,
        first(x, block.x),
        first(y, block.y),
        first_mut(audio, block.audio),
        counts,
    )
}

// An accepted block: the cursor and the frames rendered, its samples or their sums, and its counts.
fn put_block(
    out: &mut [u8],
    at: usize,
    rendered: Rendered,
    call: Call,
    audio: &[f32],
    counts: &[u32],
) -> usize {
    let p = put_ok(out, at, &[rendered.cursor, rendered.frames]);
    let p = if call == Call::BlockSums {
        put_digest(out, p, audio)
    } else {
        put_list(out, p, b'o', audio)
    };
    put_counts(out, p, counts)
}

// A block, whose last line has been read. Each of the lent counts is 7 before.
fn block_line(
    state: &mut State,
    block: Block,
    lists: &mut Lists,
    signals: &mut Signals,
    out: &mut [u8],
    at: usize,
) -> usize {
    let mut counts = [7u32; 1024];
    let counts = first_mut(&mut counts, state.counts_lent());
    match block_call(state, block, lists, signals, counts) {
        Ok(rendered) => {
            state.cursor = rendered.cursor;
            let audio = first(&signals.audio, block.audio);
            put_block(out, at, rendered, block.call, audio, counts)
        }
        Err(refusal) => put_refusal(out, at, refusal),
    }
}

// The same of an audition, which leaves the cursor; the scratch follows where it is accepted. Each number of it is a quarter before.
fn audition_line(
    state: &State,
    block: Block,
    lists: &Lists,
    scratch: &mut Lists,
    signals: &mut Signals,
    out: &mut [u8],
    at: usize,
) -> usize {
    let mut counts = [7u32; 1024];
    let counts = first_mut(&mut counts, state.counts_lent());
    scratch.fill(0.25);
    match audition_call(state, block, lists, scratch, signals, counts) {
        Ok(rendered) => {
            let audio = first(&signals.audio, block.audio);
            let p = put_block(out, at, rendered, block.call, audio, counts);
            scratch.dump(state.scratch_lent(), out, p)
        }
        Err(refusal) => put_refusal(out, at, refusal),
    }
}

// Does what a line says that is none of a block's lists, and writes the answer of a call after the line.
fn respond(
    state: &mut State,
    command: Command,
    lists: &mut Lists,
    out: &mut [u8],
    at: usize,
) -> Option<usize> {
    match command {
        Command::Scenario => *state = State::fresh(),
        Command::Setup(setup) => state.setup = setup,
        Command::Lend(lent) => state.lent = lent,
        Command::Cursor(cursor) => state.cursor = cursor,
        Command::Counts(n) => state.counts = Some(n),
        Command::Scratch(lengths) => state.scratch = Some(lengths),
        Command::Block(block) => state.awaited = Awaited::Pitch(block),
        Command::Poke => {}
        Command::Open(setup, own) => {
            *state = State {
                setup,
                cursor: 0,
                own,
                lent: own,
                ..*state
            };
            return Some(open_call(state, lists, out, at));
        }
        Command::Set(voice, params) => {
            let end = set_call(state, voice, params, lists, out, at);
            state.lent = state.own;
            return Some(end);
        }
        Command::Start(voice) => {
            let end = start_call(state, voice, lists, out, at);
            state.lent = state.own;
            return Some(end);
        }
        Command::Dump => return Some(lists.dump(state.own, out, at)),
        Command::Pitch(_) | Command::X(_) | Command::Y(_) | Command::Audio(_) => return None,
    }
    Some(at)
}

// The line and its newline.
fn put_line(out: &mut [u8], s: &[u8]) -> usize {
    let p = text::put_bytes(out, 0, s);
    text::put_byte(out, p, b'\n')
}

// Whether the line is of an answer, by its first word.
fn is_answer(s: &[u8]) -> bool {
    words::name_at(b"= o h t r d c", 7, s, 0) < 7
}

impl Replay {
    // Before the first line: a scenario's start, and zeros.
    fn new() -> Replay {
        Replay {
            state: State::fresh(),
            lists: Lists::filled(0.0),
            scratch: Lists::filled(0.0),
            signals: Signals {
                pitch: [0f32; 8192],
                x: [0f32; 8192],
                y: [0f32; 8192],
                audio: [0f32; 16384],
            },
        }
    }

    // Renders a block, or auditions it; the next call is lent the lists at their own lengths, and the next block a count a slot. After
    // an audition the next one's scratch is as long as the bank's lists.
    fn render(&mut self, block: Block, out: &mut [u8], at: usize) -> usize {
        let Replay {
            state,
            lists,
            scratch,
            signals,
        } = self;
        let end = match block.call {
            Call::Block | Call::BlockSums => block_line(state, block, lists, signals, out, at),
            Call::Audition => {
                let end = audition_line(state, block, lists, scratch, signals, out, at);
                state.scratch = None;
                end
            }
        };
        state.lent = state.own;
        state.counts = None;
        state.awaited = Awaited::Call;
        end
    }

    // A line that is no comment and no answer. The lines of a block go p, x, y, a, and no other line stands between them.
    fn answer(&mut self, s: &[u8], out: &mut [u8]) -> Option<usize> {
        let Replay {
            state,
            lists,
            signals,
            ..
        } = self;
        let command = read_command(s, state, lists, signals)?;
        let end = put_line(out, s);
        match (state.awaited, command) {
            (Awaited::Call, command) => return respond(state, command, lists, out, end),
            (Awaited::Pitch(block), Command::Pitch(pitch)) => state.awaited = Awaited::X(Block {
                pitch,
                ..block
            }),
            (Awaited::X(block), Command::X(x)) => state.awaited = Awaited::Y(Block { x, ..block }),
            (Awaited::Y(block), Command::Y(y)) => state.awaited = Awaited::Audio(Block {
                y,
                ..block
            }),
            (Awaited::Audio(block), Command::Audio(audio)) => {
                return Some(self.render(Block { audio, ..block }, out, end));
            }
            _ => return None,
        }
        Some(end)
    }

    // Reads a line without its newline, and writes it and its answer: answers how many bytes of `out` to write.
    fn line(&mut self, s: &[u8], out: &mut [u8]) -> usize {
        match s {
            [] => 0,
            [b'#', ..] => put_line(out, s),
            _ if is_answer(s) => 0,
            _ => match self.answer(s, out) {
                Some(end) => end,
                None => text::put_bytes(out, 0, b"?\n"),
            },
        }
    }
}

// Every line of the input.
fn replay_lines<W: Write>(
    output: &mut W,
    input: &[u8],
    replay: &mut Replay,
    out: &mut [u8],
) -> io::Result<()> {
    for s in input.split_inclusive(|b| *b == b'\n') {
        let n = replay.line(s.strip_suffix(b"\n").unwrap_or(s), out);
        output.write_all(first(out, n))?;
    }
    Ok(())
}

// Fills the array from its start with what the input has, and answers the number of bytes.
fn read_input<R: Read>(reader: &mut R, input: &mut [u8; 1048576]) -> io::Result<usize>
    ensures count { IfOk result (λ n. n ≤ 1048576) }
    ensures bytes { IfOk result (λ n. IfSome (R.remaining reader.old) (λ xs. take n input.new ≡ take 1048576 xs)) }
    ensures no_more { IfOk result (λ n. Consumes (R.remaining reader.old) (R.remaining reader.new) (take n input.new)) }
{
    inputs::read_full(reader, input)
}

// Replays the first n bytes. The input's array comes by its type: the length of a local array of this size takes the prover too deep.
fn replay_input<W: Write>(
    output: &mut W,
    input: &[u8; 1048576],
    n: usize,
    replay: &mut Replay,
    out: &mut [u8; 524288],
) -> io::Result<()> {
    replay_lines(output, first(input, n), replay, out)
}

fn main(rt: HostRuntime) -> io::Result<()> {
    let mut input = [0u8; 1048576];
    let mut replay = Replay::new();
    let mut out = [0u8; 524288];
    let n = read_input(&mut rt.stdin(), &mut input)?;
    replay_input(&mut rt.stdout(), &input, n, &mut replay, &mut out)
}
