// A bank parked in a file of 512-byte blocks, and restored from one (document 02, C-12).
#![tactic(auto)]

ghost use Rattle.std.specs.Prelude.{◌≡◌, ◌&&◌, [], ◌%◌, ◌≤◌, T, eqb, length};
ghost use Rattle.std.specs.Float.{binary32};
ghost use Rattle.std.specs.Float.Ieee.{fits};
ghost use Rattle.text.specs.Text.{bits_of};
ghost use Rattle.rows.specs.Asks.{F32s};
ghost use Rattle.setups.specs.Back.{F32Setup};
ghost use Rattle.places.specs.Places.{sound_file};
ghost use Rattle.setups.specs.Parked.{setup_words, setup_word, cursor_in, file_verdict};
ghost use Rattle.checks.specs.Setup.{solo_of};
ghost use Rattle.checks.specs.Checks.{bank_of};
ghost use Rattle.parking.specs.Parking.{park_length, ParkDoes, setup_in, told, held_by, RestoreDoes};
ghost use Rattle.parking.specs.Asks.{word_from, words_from, SetupAt, sections_in, table_in, setup_verdict, head_verdict, ClearTable, FileRead};

use checks::{Refusal, Setup};
use extended::Chord;
use places::Sizes;
use pole_zero::Table;

// ---- parking

// An f32 as a word; it is an f32.
fn word_of(x: f32) -> u32
    ensures { (result ≡ bits_of x) × T (fits binary32 x) }
{
    text::bits_of(x)
}

// Word `i` of kind 1: the nine in front, the numbers of the table's near face, its gain.
fn word_from(front: &[u32], sections: &[f32], gain: u32, i: usize) -> u32
    requires { (length front.now ≡ 9) × (length sections.now ≡ 320) }
    ensures { result ≡ word_from front.now sections.now gain i }
{
    if i < 9 {
        return front[i];
    }
    if i < 169 {
        let at = i - 9;
        return text::bits_of(sections[at]);
    }
    gain
}

fn words_from(front: &[u32], sections: &[f32], gain: u32, words: &mut [u32])
    requires { (length front.now ≡ 9) × (length sections.now ≡ 320) × (length words.old ≡ 170) }
    ensures { (words.new ≡ words_from front.now sections.now gain)
        × F32s sections.now × (length sections.now ≡ 320) }
{
    for i in 0..170usize {
        words[i] = word_from(front, sections, gain, i);
    }
}

// The words of a setup and a cursor; the setup's numbers are f32s, so that they come back.
fn setup_words(setup: Setup, cursor: usize, words: &mut [u32])
    requires { (setup.voices ≤ 4294967295) × (setup.channels ≤ 4294967295) × (length words.old ≡ 170) }
    ensures { (words.new ≡ setup_words (solo_of setup) setup.voices cursor) × F32Setup (solo_of setup) }
{
    let table = setup.table;
    let sections = table.sections;
    let front = [
        setup.code,
        setup.voices as u32,
        setup.channels as u32,
        u32::from(setup.clean),
        word_of(setup.rate),
        word_of(setup.reference),
        (cursor % 4294967296) as u32,
        (cursor / 4294967296) as u32,
        table.active,
    ];
    words_from(&front, &sections, word_of(table.gain), words);
}

// The bytes that `park` writes, 0 for a refused setup.
pub fn park_len(setup: Setup) -> usize
    ensures { result ≡ park_length setup }
{
    match checks::setup_check(setup) {
        Ok(()) => checks::file_length(setup),
        Err(_) => 0,
    }
}

// Writes a bank to a file, and answers the cursor.
pub fn park(
    setup: Setup,
    cursor: usize,
    targets: &[f32],
    records: &[f32],
    delay: &[f32],
    file: &mut [u8],
) -> Result<usize, Refusal>
    ensures { ParkDoes setup (bank_of targets.now records.now delay.now cursor)
        file.old result file.new }
{
    checks::park_check(setup, targets, records, delay, file.len())?;
    let mut words = [0u32; 170];
    setup_words(setup, cursor, &mut words);
    let mut content = [0u32; 126];
    let len = lines::ring_len(setup.rate);
    files::park_file(
        file,
        &words,
        setup.voices,
        setup.channels * setup.voices,
        len,
        (len + 125) / 126,
        targets,
        records,
        delay,
        &mut content,
    );
    Ok(cursor)
}

// ---- restoring

// Word `i` of kind 1 of a file whose setup blocks are `a` and `b`.
fn file_word(file: &[u8], a: usize, b: usize, i: usize) -> u32
    requires { (SetupAt file.now a b) × (i ≤ 251) }
    ensures { result ≡ setup_word file.now i }
{
    let at = 1 + i % 126;
    if i < 126 {
        return file_words::get_word(file, a * 128 + at);
    }
    file_words::get_word(file, b * 128 + at)
}

// The numbers of a table of two axes; those of the far face are zero (C-17).
fn read_sections(file: &[u8], a: usize, b: usize) -> [f32; 320]
    requires { SetupAt file.now a b }
    ensures { result ≡ sections_in file.now }
{
    let mut sections = [0.0f32; 320];
    for i in 0..160usize {
        sections[i] = text::float_of(file_word(file, a, b, 9 + i));
    }
    sections
}

fn read_table(file: &[u8], a: usize, b: usize) -> Table
    requires { SetupAt file.now a b }
    ensures { result ≡ table_in file.now }
{
    let active = file_word(file, a, b, 8);
    let sections = read_sections(file, a, b);
    let gain = text::float_of(file_word(file, a, b, 169));
    Table {
        active,
        three: false,
        sections,
        gain,
    }
}

fn read_cursor(file: &[u8], a: usize, b: usize) -> usize
    requires { SetupAt file.now a b }
    ensures { result ≡ cursor_in file.now }
{
    file_word(file, a, b, 6) as usize + file_word(file, a, b, 7) as usize * 4294967296
}

// A file has no words for a chord (C-18).
fn read_setup(file: &[u8], a: usize, b: usize) -> Setup
    requires { SetupAt file.now a b }
    ensures { result ≡ setup_in file.now }
{
    let code = file_word(file, a, b, 0);
    let voices = file_word(file, a, b, 1) as usize;
    let channels = file_word(file, a, b, 2) as usize;
    let clean = file_word(file, a, b, 3) == 1;
    let rate = text::float_of(file_word(file, a, b, 4));
    let reference = text::float_of(file_word(file, a, b, 5));
    let table = read_table(file, a, b);
    Setup {
        code,
        rate,
        reference,
        voices,
        channels,
        clean,
        table,
        chord: Chord {
            count: 0,
            offsets: [0.0; 8],
        },
    }
}

// The setup and the cursor that a file holds.
#[derive(Clone, Copy)]
pub struct Held {
    pub setup: Setup,
    pub cursor: usize,
}

// Whole blocks whose words sum to zero; else 12.
fn is_sound(file: &[u8]) -> bool
    ensures { result ≡ eqb (length file.now % 512) 0 && sound_file file.now }
{
    file.len() % 512 == 0 && places::sound_file(file)
}

// 13 of the clean word, then the setup's 1 to 5, where 12 is the highest code (C-18).
fn read_at(file: &[u8], a: usize, b: usize) -> Result<Held, Refusal>
    requires { SetupAt file.now a b }
    ensures { told result ≡ held_by (setup_verdict file.now) file.now }
{
    if file_word(file, a, b, 3) > 1 {
        return Err(Refusal::Blocks);
    }
    let setup = read_setup(file, a, b);
    checks::codes_check(setup, 12)?;
    let cursor = read_cursor(file, a, b);
    Ok(Held { setup, cursor })
}

// 12, 13 of the setup's blocks, 1 to 5.
fn read_head(file: &[u8]) -> Result<Held, Refusal>
    ensures { told result ≡ held_by (head_verdict file.now) file.now }
{
    if !is_sound(file) {
        return Err(Refusal::Damaged);
    }
    let a = places::sole(file, 1).ok_or(Refusal::Blocks)?;
    let b = places::sole(file, 65537).ok_or(Refusal::Blocks)?;
    read_at(file, a, b)
}

// Those, then 13 of the other blocks. `places` becomes where each block that the setup calls for stands, plus 1.
fn read_file(file: &[u8], places: &mut [u16]) -> Result<Held, Refusal>
    requires { ClearTable places.old }
    ensures { FileRead file.now places.new result }
{
    let held = read_head(file)?;
    let setup = held.setup;
    let sizes = Sizes {
        voices: setup.voices,
        slots: setup.channels * setup.voices,
        parts: (lines::ring_len(setup.rate) + 125) / 126,
    };
    if !places::survey(file, sizes, places) {
        return Err(Refusal::Blocks);
    }
    Ok(held)
}

// The setup and the cursor of a file, for a host that is to lend lists: the checks of restore but 6.
pub fn parked_setup(file: &[u8]) -> Result<Held, Refusal>
    ensures { told result ≡ held_by (file_verdict file.now) file.now }
{
    let mut places = [0u16; 16722];
    read_file(file, &mut places)
}

// Reads a bank from a file, and answers its setup and cursor.
pub fn restore(
    file: &[u8],
    targets: &mut [f32],
    records: &mut [f32],
    delay: &mut [f32],
) -> Result<Held, Refusal>
    ensures { RestoreDoes file.now (bank_of targets.old records.old delay.old 0)
        result targets.new records.new delay.new }
{
    let mut places = [0u16; 16722];
    let held = read_file(file, &mut places)?;
    let setup = held.setup;
    checks::open_check(setup, targets, records, delay)?;
    let len = lines::ring_len(setup.rate);
    files::restore_lists(
        file,
        &places,
        setup.voices,
        setup.channels * setup.voices,
        len,
        (len + 125) / 126,
        targets,
        records,
        delay,
    );
    Ok(held)
}
