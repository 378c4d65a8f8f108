// A block of 512 bytes: written from a head and up to 126 words, and its sum checked.
#![tactic(auto)]

ghost use Rattle.std.specs.Prelude.{◌≡◌, ◌+◌, ◌*◌, ◌%◌, ◌≤◌, ◌<◌, length};
ghost use Rattle.parts.specs.Parts.{patch};
ghost use Rattle.file_words.specs.Words.{word_at};
ghost use Rattle.blocks.specs.Blocks.{head_of, sum_to, body_word, block_bytes, sound_block};

// A block's head.
#[tactic(auto, unfolding(crate::specs::Blocks::head_of))]
pub fn head_of(kind: usize, who: usize, part: usize) -> u32
    requires { (kind ≤ 255) × (who ≤ 255) × (part ≤ 65535) }
    ensures { result ≡ head_of kind who part }
{
    (kind + who * 256 + part * 65536) as u32
}

// Word `j` before the last: the head, the content, zeros.
#[tactic(auto, unfolding(crate::specs::Blocks::body_word))]
fn body_word(head: u32, words: &[u32], j: usize) -> u32
    ensures { result ≡ body_word head words.now j }
{
    if j == 0 {
        head
    } else {
        words.get(j - 1).copied().unwrap_or(0)
    }
}

// The sum of a part's first `n` words, modulo 2^32.
fn sum_of(part: &[u8], n: usize) -> u32
    requires { n * 4 ≤ length part.now }
    ensures { result ≡ sum_to (word_at part.now) n % 4294967296 }
{
    let mut sum: u32 = 0;
    for j in 0..n {
        sum = sum.wrapping_add(file_words::get_word(part, j));
    }
    sum
}

// Makes a block of a part of 512 bytes.
pub fn fill_block(part: &mut [u8], head: u32, words: &[u32])
    requires { length part.old ≡ 512 }
    ensures { part.new ≡ block_bytes head words.now }
{
    for j in 0..127usize {
        file_words::put_word(part, j, body_word(head, words, j));
    }
    file_words::put_word(part, 127, sum_of(part, 127).wrapping_neg());
}

// Block `b` of a file.
pub fn put_block(out: &mut [u8], b: usize, head: u32, words: &[u32])
    requires { b * 512 + 512 ≤ length out.old }
    ensures { out.new ≡ patch 512 b (block_bytes head words.now) out.old }
{
    let start = b * 512;
    fill_block(&mut out[start..start + 512], head, words);
}

// Whether a part's 128 words sum to zero modulo 2^32.
#[tactic(auto, unfolding(crate::specs::Blocks::sound_block))]
pub fn sound_block(part: &[u8]) -> bool
    requires { 512 ≤ length part.now }
    ensures { result ≡ sound_block part.now }
{
    sum_of(part, 128) == 0
}
