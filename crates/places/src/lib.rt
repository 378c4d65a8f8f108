// The reader's survey of a file: whether every block that the setup calls for stands exactly once and no other does, and where each stands.
#![tactic(auto)]

ghost use Rattle.std.specs.Prelude.{◌≡◌, ◌≢◌, ◌↔◌, IsTrue, ◌&&◌, ℕ, ◌+◌, ◌*◌, ◌≤◌, ◌<◌, eqb, length, get_or};
ghost use Rattle.blocks.specs.Blocks.{total};
ghost use Rattle.places.specs.Places.{blocks_in, index_of, number_at, sound_file};
ghost use Rattle.places.specs.Sole.{sole_of};
ghost use Rattle.places.specs.Survey.{Small, Entered, Surveyed};

// A setup's blocks: voices, slots, parts of a ring.
#[derive(Clone, Copy)]
pub struct Sizes {
    pub voices: usize,
    pub slots: usize,
    pub parts: usize,
}

impl Sizes {
    // How many blocks the setup calls for.
    fn total(self) -> usize
        requires { Small self.voices self.slots self.parts }
        ensures { result ≡ total self.voices self.slots self.parts }
    {
        2 + self.voices + self.slots + self.slots * self.parts
    }
}

// The number of a head, the total for one that is not called for.
#[tactic(auto, using(std::proofs::lemmas::Bool::Decides::nat_tests, crate::proofs::Entering::index_is), unfolding(crate::specs::Places::number_of))]
fn index_of(z: Sizes, head: u32) -> usize
    requires { Small z.voices z.slots z.parts }
    ensures { result ≡ index_of z.voices z.slots z.parts head }
{
    let head = head as usize;
    let who = head / 256 % 256;
    let part = head / 65536;
    match head % 256 {
        1 if who == 0 && part < 2 => part,
        2 if who < z.voices && part == 0 => 2 + who,
        3 if who < z.slots && part == 0 => 2 + z.voices + who,
        4 if who < z.slots && part < z.parts => 2 + z.voices + z.slots + who * z.parts + part,
        _ => z.total(),
    }
}

// Enters every block in the table; whether all are called for and none is doubled.
fn mark_all(file: &[u8], z: Sizes, pos: &mut [u16]) -> bool
    requires small { Small z.voices z.slots z.parts }
    requires fits { (total z.voices z.slots z.parts ≤ length pos.old) × (blocks_in file.now ≤ 65535) }
    requires clear { (k : ℕ) → k < total z.voices z.slots z.parts → get_or pos.old k 0 ≡ 0 }
    ensures { Entered (number_at z.voices z.slots z.parts file.now) (blocks_in file.now) (total z.voices z.slots z.parts) pos.new result }
{
    let n = z.total();
    for b in 0..file.len() / 512 {
        let k = index_of(z, file_words::get_word(file, b * 128));
        if k >= n || pos[k] != 0 {
            return false;
        }
        pos[k] = (b + 1) as u16;
    }
    true
}

// Whether none of the first `n` entries is clear.
fn full(pos: &[u16], n: usize) -> bool
    requires { n ≤ length pos.now }
    ensures { IsTrue result ↔ ((k : ℕ) → k < n → get_or pos.now k 0 ≢ 0) }
{
    pos[..n].iter().all(|p| *p != 0)
}

// Whether every block called for stands exactly once and no other does; `pos` then has where each stands, plus 1.
pub fn survey(file: &[u8], z: Sizes, pos: &mut [u16]) -> bool
    requires small { Small z.voices z.slots z.parts }
    requires fits { total z.voices z.slots z.parts ≤ length pos.old }
    requires clear { (k : ℕ) → k < total z.voices z.slots z.parts → get_or pos.old k 0 ≡ 0 }
    ensures { Surveyed z.voices z.slots z.parts file.now pos.new result }
{
    let n = z.total();
    file.len() / 512 == n && mark_all(file, z, pos) && full(pos, n)
}

// Where the block with this head stands, if it stands exactly once.
pub fn sole(file: &[u8], head: u32) -> Option<usize>
    ensures { result ≡ sole_of file.now head }
{
    let mut seen: usize = 0;
    let mut at = 0;
    for b in 0..file.len() / 512 {
        if file_words::get_word(file, b * 128) == head {
            seen += 1;
            at = b;
        }
    }
    if seen == 1 { Some(at) } else { None }
}

// Whether the words of every block sum to zero.
pub fn sound_file(file: &[u8]) -> bool
    ensures { result ≡ sound_file file.now }
{
    for b in 0..file.len() / 512 {
        if !blocks::sound_block(&file[b * 512..b * 512 + 512]) {
            return false;
        }
    }
    true
}
