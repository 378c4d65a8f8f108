// A list of rows parked in blocks of 126 numbers, and restored from the blocks that a table of places names. Of a row of `len` numbers the first
// `carried` are parked; the others are restored as 0.
#![tactic(auto)]

ghost use Rattle.std.specs.Prelude.{◌≡◌, ◌+◌, ◌-◌, ◌*◌, ◌≤◌, ◌<◌, length, get_or};
ghost use Rattle.parts.specs.Parts.{piece};
ghost use Rattle.rows.specs.Rows.{cell_word, row_words};
ghost use Rattle.rows.specs.Asks.{cell_at, rows_written, restored_rows, Parked, Lent};

// How a list of rows lies in a file: the kind of its blocks, the first of them, its rows, the numbers of a row, how many of these are carried, and the
// parts of a row.
#[derive(Clone, Copy)]
pub struct Layout {
    pub kind: usize,
    pub first: usize,
    pub rows: usize,
    pub carried: usize,
    pub len: usize,
    pub parts: usize,
}

// Number `c` of a row as a word; past the numbers that are carried, zero.
#[tactic(auto, using(std::proofs::lemmas::Bool::Decides::nat_tests), unfolding(crate::specs::Rows::cell_word))]
fn cell_word(xs: &[f32], layout: Layout, row: usize, c: usize) -> u32
    requires { (layout.carried ≤ layout.len) × (row * layout.len + layout.len ≤ length xs.now) }
    ensures { result ≡ cell_word layout.carried layout.len xs.now row c }
{
    if c < layout.carried {
        text::bits_of(xs[row * layout.len + c])
    } else {
        0
    }
}

// The content of a part of a row, into `words`.
fn part_words(xs: &[f32], layout: Layout, row: usize, part: usize, words: &mut [u32])
    requires { (layout.carried ≤ layout.len) × (row * layout.len + layout.len ≤ length xs.now) × (part ≤ 65535) × (length words.old ≡ 126) }
    ensures { words.new ≡ row_words layout.carried layout.len xs.now row part }
{
    for (w, word) in words.iter_mut().enumerate() {
        *word = cell_word(xs, layout, row, part * 126 + w);
    }
}

// Writes the blocks of a list. `words` is room for the content of one.
pub fn put_rows(out: &mut [u8], layout: Layout, xs: &[f32], words: &mut [u32])
    requires parked { Parked layout.first layout.kind layout.rows layout.carried layout.len layout.parts (length xs.now) (length out.old) }
    requires words_len { length words.old ≡ 126 }
    ensures { out.new ≡ rows_written layout.first layout.kind layout.carried layout.len layout.parts xs.now (layout.rows * layout.parts) out.old }
{
    for j in 0..layout.rows * layout.parts {
        let row = j / layout.parts;
        let part = j % layout.parts;
        part_words(xs, layout, row, part, words);
        blocks::put_block(
            out,
            layout.first + j,
            blocks::head_of(layout.kind, row, part),
            words,
        );
    }
}

// Number `i` of a list; 0 where it is not carried.
fn cell_at(file: &[u8], pos: &[u16], layout: Layout, i: usize) -> f32
    requires lent { Lent layout.first layout.rows layout.len layout.parts pos.now (length file.now) }
    requires i_bound { i < layout.rows * layout.len }
    ensures { result ≡ cell_at (λ j. piece 512 (get_or pos.now (layout.first + j) 0 - 1) file.now) layout.carried layout.len layout.parts i }
{
    let cell = i % layout.len;
    if cell >= layout.carried {
        return 0.0;
    }
    let k = layout.first + (i / layout.len * layout.parts + cell / 126);
    let b = usize::from(pos[k]) - 1;
    text::float_of(file_words::get_word(file, b * 128 + (1 + cell % 126)))
}

// Reads a list from the blocks that `pos` names, from the entry of its first block on.
pub fn get_rows(file: &[u8], pos: &[u16], layout: Layout, out: &mut [f32])
    requires lent { Lent layout.first layout.rows layout.len layout.parts pos.now (length file.now) }
    requires out_len { length out.old ≡ layout.rows * layout.len }
    ensures { out.new ≡ restored_rows (λ j. piece 512 (get_or pos.now (layout.first + j) 0 - 1) file.now) layout.carried layout.len layout.parts
        (layout.rows * layout.len) }
{
    for (i, x) in out.iter_mut().enumerate() {
        *x = cell_at(file, pos, layout, i);
    }
}
