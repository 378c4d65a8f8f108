// The words of a line read by their place, a name found in a list of names, and f32 written by their bits.
#![tactic(auto)]

ghost use Rattle.std.specs.Prelude.{◌≡◌, ℕ, ◌<◌, ◌≤◌, ◌^◌, Bool, List, length};
ghost use Rattle.text.specs.Text.{decimal_of, hex_of, bits_of, buffer, puts, hex_text};
ghost use Rattle.words.specs.Words.{next_at, word_start, bytes_at, word_of, float_or0, value_or, is_float, is_decimal};
ghost use Rattle.words.specs.Words.{every, place_from, run_of, put_run, put_runs};

// Where the word after that at `at` starts; the text's end where there is none.
#[tactic(auto, unfolding(crate::specs::Words::next_at))]
fn next(s: &[u8], at: usize) -> usize
    ensures { result ≡ next_at s.now at }
{
    let end = text::word(s, at).end;
    if end < s.len() { end + 1 } else { s.len() }
}

// Where word k starts, counted from that at `at`.
pub fn start(s: &[u8], at: usize, k: usize) -> usize
    ensures { result ≡ word_start s.now at k }
{
    let mut p = at;
    for _ in 0..k {
        p = next(s, p);
    }
    p
}

// The bytes of the word at `at`.
#[tactic(auto, unfolding(crate::specs::Words::bytes_at))]
pub fn bytes_at(s: &[u8], at: usize) -> &[u8]
    ensures { result.now ≡ bytes_at s.now at }
{
    text::bytes_of(s, text::word(s, at))
}

// Word k from `at` on as an f32; 0 where it is none.
#[tactic(auto, unfolding(crate::specs::Words::float_or0, crate::specs::Words::bytes_at))]
pub fn float_at(s: &[u8], at: usize, k: usize) -> f32
    ensures { result ≡ float_or0 (hex_of (word_of s.now at k)) }
{
    let word = text::word(s, start(s, at, k));
    text::hexadecimal(s, word).map_or(0.0, text::float_of)
}

// Word k from `at` on as a decimal; `or` where it is none.
#[tactic(auto, unfolding(crate::specs::Words::bytes_at))]
pub fn decimal_at(s: &[u8], at: usize, k: usize, or: u64) -> u64
    ensures { result ≡ value_or or (decimal_of (word_of s.now at k)) }
{
    let word = text::word(s, start(s, at, k));
    text::decimal(s, word).unwrap_or(or)
}

// Whether the word at `at` is an f32.
#[tactic(auto, unfolding(crate::specs::Words::is_float, crate::specs::Words::bytes_at))]
fn is_float(s: &[u8], at: usize) -> bool
    ensures { result ≡ is_float (bytes_at s.now at) }
{
    text::hexadecimal(s, text::word(s, at)).is_some()
}

// Whether the word at `at` is a decimal.
#[tactic(auto, unfolding(crate::specs::Words::is_decimal, crate::specs::Words::bytes_at))]
fn is_decimal(s: &[u8], at: usize) -> bool
    ensures { result ≡ is_decimal (bytes_at s.now at) }
{
    text::decimal(s, text::word(s, at)).is_some()
}

// Whether the n words from word k on are all of a kind, which `is_one` tells of the word at a place.
fn are_all<F: Fn(usize) -> bool>(s: &[u8], at: usize, k: usize, n: usize, is_one: F) -> bool
    ghost kind: { List ℕ → Bool }
    requires callable { F.IsAlwaysCallable is_one }
    requires tells { (p : ℕ) (r : Bool) → p < 2 ^ 64 → F.post is_one p r → r ≡ kind (bytes_at s.now p) }
    ensures { result ≡ every kind s.now (word_start s.now at k) n }
{
    let mut p = start(s, at, k);
    for _ in 0..n {
        if !is_one(p) {
            return false;
        }
        p = next(s, p);
    }
    true
}

// Whether the n words from word k on are all f32.
pub fn are_floats(s: &[u8], at: usize, k: usize, n: usize) -> bool
    ensures { result ≡ every is_float s.now (word_start s.now at k) n }
{
    are_all(s, at, k, n, |p| is_float(s, p))
}

// Whether the n words from word k on are all decimals.
pub fn are_decimals(s: &[u8], at: usize, k: usize, n: usize) -> bool
    ensures { result ≡ every is_decimal s.now (word_start s.now at k) n }
{
    are_all(s, at, k, n, |p| is_decimal(s, p))
}

// The place of `name` among the first n words of `names`, from 0; n where it is none of them.
fn place(names: &[u8], n: usize, name: &[u8]) -> usize
    ensures { result ≡ place_from names.now name.now 0 n }
{
    let mut at = 0;
    for k in 0..n {
        if bytes_at(names, at) == name {
            return k;
        }
        at = next(names, at);
    }
    n
}

// The place of the word at `at` among the first n words of `names`.
pub fn name_at(names: &[u8], n: usize, s: &[u8], at: usize) -> usize
    ensures { result ≡ place_from names.now (bytes_at s.now at) 0 n }
{
    place(names, n, bytes_at(s, at))
}

// Writes a number's bits.
pub fn put_value(out: &mut [u8], at: usize, x: f32) -> usize
    ensures { buffer out.new result ≡ puts (hex_text (bits_of x)) (buffer out.old at) }
{
    text::put_hex(out, at, text::bits_of(x))
}

// A blank, the bits, and the count where it is not 1.
#[tactic(auto, unfolding(crate::specs::Words::put_run))]
fn put_run(out: &mut [u8], at: usize, bits: u32, n: usize) -> usize
    ensures { buffer out.new result ≡ put_run bits n (buffer out.old at) }
{
    let p = text::put_byte(out, at, b' ');
    let p = text::put_hex(out, p, bits);
    if n == 1 {
        return p;
    }
    let p = text::put_byte(out, p, b'*');
    text::put_decimal(out, p, n as u64)
}

// How many numbers at the front have these bits.
fn run_len(xs: &[f32], bits: u32) -> usize
    ensures count { result ≡ run_of bits xs.now }
    ensures fits { result ≤ length xs.now }
{
    xs.iter().take_while(|x| text::bits_of(**x) == bits).count()
}

// Writes the numbers' bits in runs.
pub fn put_runs(out: &mut [u8], at: usize, xs: &[f32]) -> usize
    ensures { buffer out.new result ≡ put_runs xs.now (buffer out.old at) }
{
    let mut p = at;
    let mut rest = xs;
    while let [x, ..] = rest {
        let bits = text::bits_of(*x);
        let n = run_len(rest, bits);
        p = put_run(out, p, bits, n);
        (_, rest) = rest.split_at(n);
    }
    p
}
