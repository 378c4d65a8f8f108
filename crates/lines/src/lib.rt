// Delay lines (lines.rs): one ring per slot of the lent delay list, read at a fractional delay with four-point cubic
// Hermite interpolation. On plain parameters; the list holds `len` cells a slot.
#![tactic(auto)]

ghost use Rattle.std.specs.Prelude.{◌≡◌, ◌+◌, ◌*◌, ◌<◌, ◌≤◌, length, slice_index_or};
ghost use Rattle.std.specs.Float.{nan};
ghost use Rattle.parts.specs.Parts.{piece};
ghost use Rattle.lines.specs.Lines.{whole_part, is_outside, rate_refused, ring_len, hermite_of, held, cell_of, taps_of, is_view, read_of, write_of};

// Where a slot's ring stands in the lent delay list: its length, the cursor and the slot.
#[derive(Clone, Copy)]
pub struct Ring {
    pub len: usize,
    pub cursor: usize,
    pub slot: usize,
}

// The longest delay a bank's rings hold, in seconds at the rate it's made for.
const MAX_DELAY_SECONDS: f32 = 0.125;

// The shortest delay read, in samples: the interpolator reads one sample newer than the delay.
const MIN_DELAY: f32 = 2.0;

// NaN, below `low` or above `high`: what the refusals ask of a number.
pub fn is_outside(x: f32, low: f32, high: f32) -> bool
    ensures { result ≡ is_outside x low high }
{
    x.is_nan() || x < low || x > high
}

// Refusal 1: NaN, below 8,000 or above 384,000.
pub fn rate_refused(rate: f32) -> bool
    ensures { result ≡ rate_refused rate }
{
    is_outside(rate, 8000.0, 384000.0)
}

// Each slot's ring length at `rate`: a power of two; 0 for a rate that is refused.
pub fn ring_len(rate: f32) -> usize
    ensures { result ≡ ring_len rate }
{
    if rate_refused(rate) {
        return 0;
    }
    let cells = std::num::truncating_f32_to_u64(rate * MAX_DELAY_SECONDS) + 8;
    cells.next_power_of_two() as usize
}

// A power of two from 1,024 to 65,536, and a slot that ends within `have` cells. The division cannot wrap, where the slot's
// end could.
pub fn is_view(len: usize, slot: usize, have: usize) -> bool
    ensures { result ≡ is_view len slot have }
{
    matches!(len, 1024 | 2048 | 4096 | 8192 | 16384 | 32768 | 65536) && slot < have / len
}

// The delay clamped to MIN_DELAY .. len - 3; a NaN fails the first test.
pub fn held(len: usize, delay: f32) -> f32
    requires { (1024 ≤ len) × (len ≤ 65536) }
    ensures { result ≡ held len delay }
{
    if delay >= MIN_DELAY {
        let longest = (len - 3) as f32;
        if delay <= longest { delay } else { longest }
    } else {
        MIN_DELAY
    }
}

// Four-point cubic Hermite interpolation between `p0` and the older `p1`, `t` of the way.
pub fn hermite(newer: f32, p0: f32, p1: f32, older: f32, t: f32) -> f32
    ensures { result ≡ hermite_of newer p0 p1 older t }
{
    let c1 = 0.5 * (p1 - newer);
    let c2 = newer - 2.5 * p0 + 2.0 * p1 - 0.5 * older;
    let c3 = 0.5 * (older - newer) + 1.5 * (p0 - p1);
    ((c3 * t + c2) * t + c1) * t + p0
}

// The whole part of a delay, by its own bits: the 24 digits without those of the fraction.
pub fn whole_part(d: f32) -> u32
    requires { (1 ≤ whole_part d) × (whole_part d ≤ 65536) }
    ensures { result ≡ whole_part d }
{
    let b = d.to_bits();
    (b % 8388608 + 8388608) >> (150 - b / 8388608)
}

// The cell `back` frames before the cursor, of the slot's ring.
pub fn cell_at(buf: &[f32], len: usize, cursor: usize, slot: usize, back: usize) -> f32
    requires { (0 < len) × (slot * len + len ≤ length buf.now) }
    ensures { result ≡ slice_index_or (piece len slot buf.now) (cell_of len cursor back) nan }
{
    let base = slot * len;
    let cell = cursor.wrapping_sub(back) % len;
    buf[base + cell]
}

// The slot's ring, read between the cells `w` and `w + 1` back.
fn taps(buf: &[f32], len: usize, cursor: usize, slot: usize, w: usize, t: f32) -> f32
    requires { (0 < len) × (slot * len + len ≤ length buf.now) × (2 ≤ w) × (w ≤ 65536) }
    ensures { result ≡ taps_of len cursor w t (piece len slot buf.now) }
{
    let newer = cell_at(buf, len, cursor, slot, w - 1);
    let p0 = cell_at(buf, len, cursor, slot, w);
    let p1 = cell_at(buf, len, cursor, slot, w + 1);
    let older = cell_at(buf, len, cursor, slot, w + 2);
    hermite(newer, p0, p1, older, t)
}

// The slot's ring, read `delay` frames before the cursor; 0 for a bad view.
pub fn read_at(buf: &[f32], len: usize, cursor: usize, slot: usize, delay: f32) -> f32
    ensures { result ≡ read_of buf.now len cursor slot delay }
{
    if is_view(len, slot, buf.len()) {
        let d = held(len, delay);
        let w = whole_part(d);
        let t = d - w as f32;
        return taps(buf, len, cursor, slot, w as usize, t);
    }
    0.0
}

// Writes this frame's `value` to the cursor's cell of the slot's ring; nothing for a bad view.
pub fn write_at(buf: &mut [f32], len: usize, cursor: usize, slot: usize, value: f32)
    ensures { buf.new ≡ write_of buf.old len cursor slot value }
{
    if is_view(len, slot, buf.len()) {
        let base = slot * len;
        let cell = cursor % len;
        buf[base + cell] = value;
    }
}
