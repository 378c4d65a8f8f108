// A bank's lists and setup words parked in blocks, and the lists restored from the blocks that a survey found.
#![tactic(auto)]

ghost use Rattle.std.specs.Prelude.{◌≡◌, ◌+◌, ◌≤◌, length};
ghost use Rattle.voices.specs.Calls.{targets_width, record_width};
ghost use Rattle.files.specs.File.{parked_targets, parked_record};
ghost use Rattle.files.specs.Image.{image_file};
ghost use Rattle.files.specs.Asks.{image_of, Room, Ready, Restored};

use rows::Layout;
use voices::{RECORD_WIDTH, TARGETS_WIDTH};

// Numbers of a row that kinds 2 and 3 carry: all but z.
const PARKED_TARGETS: usize = 10;

const PARKED_RECORD: usize = 31;

// Kind 2: the targets, a voice a row.
fn target_rows(voices: usize) -> Layout
    ensures { result ≡ record { kind = 2; first = 2; rows = voices; carried = parked_targets; len = targets_width; parts = 1 } }
{
    Layout {
        kind: 2,
        first: 2,
        rows: voices,
        carried: PARKED_TARGETS,
        len: TARGETS_WIDTH,
        parts: 1,
    }
}

// Kind 3: the records, a slot a row, behind the targets.
fn record_rows(voices: usize, slots: usize) -> Layout
    requires { voices ≤ 256 }
    ensures { result ≡ record { kind = 3; first = 2 + voices; rows = slots; carried = parked_record; len = record_width; parts = 1 } }
{
    Layout {
        kind: 3,
        first: 2 + voices,
        rows: slots,
        carried: PARKED_RECORD,
        len: RECORD_WIDTH,
        parts: 1,
    }
}

// Kind 4: the ring cells, a slot a row, behind the records.
fn ring_rows(voices: usize, slots: usize, len: usize, parts: usize) -> Layout
    requires { (voices ≤ 256) × (slots ≤ 256) }
    ensures { result ≡ record { kind = 4; first = 2 + voices + slots; rows = slots; carried = len; len = len; parts = parts } }
{
    Layout {
        kind: 4,
        first: 2 + voices + slots,
        rows: slots,
        carried: len,
        len,
        parts,
    }
}

// Writes the whole file. `words` is room for the content of one block.
pub fn park_file(
    out: &mut [u8],
    setup: &[u32],
    voices: usize,
    slots: usize,
    len: usize,
    parts: usize,
    targets: &[f32],
    records: &[f32],
    delay: &[f32],
    words: &mut [u32],
)
    requires room { Room (image_of voices slots len parts setup.now targets.now records.now delay.now) (length out.old) }
    requires words_len { length words.old ≡ 126 }
    ensures { out.new ≡ image_file
        (image_of voices slots len parts setup.now targets.now records.now delay.now) }
{
    let (front, rest) = setup.split_at(126);
    blocks::put_block(out, 0, blocks::head_of(1, 0, 0), front);
    blocks::put_block(out, 1, blocks::head_of(1, 0, 1), rest);
    rows::put_rows(out, target_rows(voices), targets, words);
    rows::put_rows(out, record_rows(voices, slots), records, words);
    rows::put_rows(out, ring_rows(voices, slots, len, parts), delay, words);
}

// Reads the lists of a file that the survey accepted.
pub fn restore_lists(
    file: &[u8],
    pos: &[u16],
    voices: usize,
    slots: usize,
    len: usize,
    parts: usize,
    targets: &mut [f32],
    records: &mut [f32],
    delay: &mut [f32],
)
    requires { Ready voices slots len parts file.now pos.now (length targets.old) (length records.old) (length delay.old) }
    ensures { Restored voices slots len file.now targets.new records.new delay.new }
{
    rows::get_rows(file, pos, target_rows(voices), targets);
    rows::get_rows(file, pos, record_rows(voices, slots), records);
    rows::get_rows(file, pos, ring_rows(voices, slots, len, parts), delay);
}
