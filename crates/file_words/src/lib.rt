// Words of 32 bits in a list of bytes, low byte first.
#![tactic(auto)]

ghost use Rattle.std.specs.Prelude.{◌≡◌, ◌+◌, ◌*◌, ◌≤◌, length};
ghost use Rattle.parts.specs.Parts.{patch};
ghost use Rattle.file_words.specs.Words.{word_at, word_bytes};

// Word `i` of a file.
pub fn get_word(file: &[u8], i: usize) -> u32
    requires { i * 4 + 4 ≤ length file.now }
    ensures { result ≡ word_at file.now i }
{
    let at = i * 4;
    u32::from_le_bytes([file[at], file[at + 1], file[at + 2], file[at + 3]])
}

// Writes word `i`.
pub fn put_word(out: &mut [u8], i: usize, w: u32)
    requires { i * 4 + 4 ≤ length out.old }
    ensures { out.new ≡ patch 4 i (word_bytes w) out.old }
{
    let at = i * 4;
    out[at..at + 4].copy_from_slice(&w.to_le_bytes());
}
