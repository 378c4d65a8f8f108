// Replays rows `name inputs = answer` on the proved functions: writes each row again with the answer computed, so that the
// output is the input where every answer is right, bit for bit. A line that starts with `#` is copied; a row that cannot be
// read gives `?`.
#![tactic(auto)]

use extended::Chord;
use filter::{Pitch, Ratio, VoiceParams};
use points::{Point, PointKind, Section, State};
use pole_zero::{PoleZeroDesign, Table};
use std::io::{Read, Write};
use std::{array, io};

// The N f32 from word k on.
fn floats<const N: usize>(s: &[u8], k: usize) -> Option<[f32; N]> {
    let at = words::start(s, 0, k);
    if !words::are_floats(s, at, 0, N) {
        return None;
    }
    Some(array::from_fn(|i| words::float_at(s, at, i)))
}

// The N decimals from word k on.
fn decimals<const N: usize>(s: &[u8], k: usize) -> Option<[usize; N]> {
    let at = words::start(s, 0, k);
    if !words::are_decimals(s, at, 0, N) {
        return None;
    }
    Some(array::from_fn(|i| words::decimal_at(s, at, i, 0) as usize))
}

// The f32 that a row's name takes, where they are N and end at `end`.
fn arguments<const N: usize>(s: &[u8], end: usize) -> Option<[f32; N]> {
    if words::start(s, words::start(s, 0, 1), N) != end {
        return None;
    }
    floats(s, 1)
}

// Writes the numbers' bits, a blank between two.
fn put_floats(out: &mut [u8], at: usize, xs: &[f32]) -> usize {
    let mut p = at;
    for (i, x) in xs.iter().enumerate() {
        if i > 0 {
            p = text::put_byte(out, p, b' ');
        }
        p = words::put_value(out, p, *x);
    }
    p
}

// The kind at `at`, and how many f32 follow it: the frequency, Q, and what a Bell or a Free point carries.
fn kind_at(s: &[u8], at: usize) -> Option<(PointKind, usize)> {
    match text::decimal(s, text::word(s, at))? {
        0 => Some((PointKind::HighPass, 2)),
        1 => Some((PointKind::LowPass, 2)),
        2 => Some((PointKind::Bypass, 2)),
        3 => Some((PointKind::AllPass, 2)),
        4 => Some((PointKind::BandPass, 2)),
        5 => Some((PointKind::Notch, 2)),
        6 => Some((PointKind::Bell(words::float_at(s, at, 3)), 3)),
        7 => Some((
            PointKind::Free(words::float_at(s, at, 3), words::float_at(s, at, 4)),
            4,
        )),
        _ => None,
    }
}

// The point from the word at `at` on, and where the word after it starts.
fn point_at(s: &[u8], at: usize) -> Option<(Point, usize)> {
    let (kind, n) = kind_at(s, at)?;
    if !words::are_floats(s, at, 1, n) {
        return None;
    }
    let point = Point {
        kind,
        frequency: words::float_at(s, at, 1),
        q: words::float_at(s, at, 2),
    };
    Some((point, words::start(s, words::start(s, at, 1), n)))
}

// Eight points from the word at `at` on, and where the word after them starts.
fn state_at(s: &[u8], at: usize) -> Option<(State, usize)> {
    let mut points = [Point::default(); 8];
    let mut next = at;
    for point in &mut points {
        (*point, next) = point_at(s, next)?;
    }
    Some((State { points }, next))
}

// The gain and the states from word k up to `end`; with two axes the states at z = 1 are the default's.
fn design_at(s: &[u8], k: usize, end: usize, three: bool) -> Option<PoleZeroDesign> {
    let [gain_db] = floats::<1>(s, k)?;
    let mut states = [State::default(); 8];
    let mut next = words::start(s, words::start(s, 0, k), 1);
    let n = if three { 8 } else { 4 };
    for state in &mut states[..n] {
        (*state, next) = state_at(s, next)?;
    }
    if next != end {
        return None;
    }
    Some(PoleZeroDesign {
        states,
        three,
        gain_db,
    })
}

// The functions with one number as their answer.
fn value_of(name: &[u8], s: &[u8], end: usize) -> Option<f32> {
    match name {
        b"max" => arguments::<2>(s, end).map(|[a, b]| lane::max(a, b)),
        b"min" => arguments::<2>(s, end).map(|[a, b]| lane::min(a, b)),
        b"exp2" => arguments::<1>(s, end).map(|[a]| lane::exp2(a)),
        b"tan" => arguments::<1>(s, end).map(|[a]| lane::tan(a)),
        b"soft_clip" => arguments::<1>(s, end).map(|[a]| lane::soft_clip(a)),
        b"sqrt" => arguments::<1>(s, end).map(|[a]| sqrt::root(a)),
        b"log2" => arguments::<1>(s, end).map(|[a]| log2::log2(a)),
        b"asym" => arguments::<1>(s, end).map(|[a]| extended::asym(a)),
        b"saturation_gain" => arguments::<2>(s, end).map(|[x, inv]| lane::saturation_gain(x, inv)),
        b"hermite" => arguments::<5>(s, end).map(|[a, b, c, d, t]| lines::hermite(a, b, c, d, t)),
        b"ratio_of" => arguments::<2>(s, end).map(|[p, r]| filter::ratio_of(Pitch(p), Ratio(r)).0),
        b"gain" => arguments::<2>(s, end).map(|[p, r]| filter::gain(Pitch(p), Ratio(r))),
        _ => None,
    }
}

// `svf` ic1 ic2 x g k
fn svf_row(s: &[u8], end: usize, out: &mut [u8], at: usize) -> Option<usize> {
    let [ic1, ic2, x, g, k] = arguments::<5>(s, end)?;
    let v = filter::svf(ic1, ic2, x, g, k);
    Some(put_floats(out, at, &[v.band, v.low, v.ic1, v.ic2]))
}

// `targets_of` and ten floats, in the order of VoiceParams
fn targets_row(s: &[u8], end: usize, out: &mut [u8], at: usize) -> Option<usize> {
    let [
        resonance,
        drive,
        saturation,
        character,
        stereo_offset,
        mix,
        level,
        morph_x,
        morph_y,
        morph_z,
    ] = arguments::<10>(s, end)?;
    let params = VoiceParams {
        resonance,
        drive,
        saturation,
        character,
        stereo_offset,
        mix,
        level,
        morph_x,
        morph_y,
        morph_z,
    };
    Some(put_floats(out, at, &filter::voice_targets(params)))
}

// `ring_len` rate
fn ring_len_row(s: &[u8], end: usize, out: &mut [u8], at: usize) -> Option<usize> {
    let [rate] = arguments::<1>(s, end)?;
    Some(text::put_decimal(out, at, lines::ring_len(rate) as u64))
}

// `over` pitch ref_over_rate: whether the ratio was greater than its cap, as 1 or 0
fn over_row(s: &[u8], end: usize, out: &mut [u8], at: usize) -> Option<usize> {
    let [pitch, reference] = arguments::<2>(s, end)?;
    let over = filter::over_of(Pitch(pitch), Ratio(reference));
    Some(text::put_decimal(out, at, u64::from(over)))
}

// `point` POINT
fn point_row(s: &[u8], end: usize, out: &mut [u8], at: usize) -> Option<usize> {
    let (point, next) = point_at(s, words::start(s, 0, 1))?;
    if next != end {
        return None;
    }
    Some(put_floats(out, at, &point.section().values()))
}

// `table` DESIGN, or `table8` DESIGN8: of a table with two axes the numbers at z = 1 are left out.
fn table_row(s: &[u8], end: usize, three: bool, out: &mut [u8], at: usize) -> Option<usize> {
    let t = Table::of(design_at(s, 1, end, three)?);
    let p = text::put_decimal(out, at, u64::from(t.active));
    let p = text::put_byte(out, p, b' ');
    let p = words::put_value(out, p, t.gain);
    let n = if t.three { 320 } else { 160 };
    Some(words::put_runs(out, p, &t.sections[..n]))
}

// `section` point x y z DESIGN, or `section8` point x y z DESIGN8
fn section_row(s: &[u8], end: usize, three: bool, out: &mut [u8], at: usize) -> Option<usize> {
    let [point] = decimals::<1>(s, 1)?;
    let [x, y, z] = floats::<3>(s, 2)?;
    let design = design_at(s, 5, end, three)?;
    Some(put_answer(out, at, design.section(point, x, y, z)))
}

fn put_answer(out: &mut [u8], at: usize, a: Option<Section>) -> usize {
    match a {
        Some(v) => put_floats(out, at, &v.values()),
        None => text::put_bytes(out, at, b"refused 11"),
    }
}

// `read` cells len cursor slot delay
fn read_row(s: &[u8], end: usize, cells: &[f32], out: &mut [u8], at: usize) -> Option<usize> {
    let [count, len, cursor, slot] = decimals::<4>(s, 1)?;
    let [delay] = floats::<1>(s, 5)?;
    if words::start(s, 0, 6) != end {
        return None;
    }
    let lent = cells.get(..count)?;
    let x = lines::read_at(lent, len, cursor, slot, delay);
    Some(words::put_value(out, at, x))
}

// The chord of word 6: its number of teeth, and their offsets up to `end`.
fn chord_at(s: &[u8], end: usize) -> Option<Chord> {
    let [n] = decimals::<1>(s, 6)?;
    let first = words::start(s, 0, 7);
    if n > 8 || words::start(s, first, n) != end || !words::are_floats(s, first, 0, n) {
        return None;
    }
    Some(Chord {
        count: n as u32,
        offsets: array::from_fn(|i| words::float_at(s, first, i)),
    })
}

// `chord_read` cells len cursor slot ratio n o1 .. on: the size of the set of cells that the teeth need, and a tap of each tooth.
fn chord_row(s: &[u8], end: usize, cells: &[f32], out: &mut [u8], at: usize) -> Option<usize> {
    let [count, len, cursor, slot] = decimals::<4>(s, 1)?;
    let [ratio] = floats::<1>(s, 5)?;
    let chord = chord_at(s, end)?;
    let lent = cells.get(..count)?;
    let mut taps = [0f32; 8];
    let size = teeth::chord_read(lent, len, cursor, slot, ratio, chord, &mut taps);
    let mut p = text::put_decimal(out, at, size as u64);
    for tap in taps.iter().take(chord.count as usize) {
        p = text::put_byte(out, p, b' ');
        p = words::put_value(out, p, *tap);
    }
    Some(p)
}

// Writes the answer of the row whose `=` is at `end`, and answers the position after it; none where the row cannot be read.
fn answer(s: &[u8], end: usize, cells: &[f32], out: &mut [u8], at: usize) -> Option<usize> {
    let name = words::bytes_at(s, 0);
    match name {
        b"svf" => svf_row(s, end, out, at),
        b"targets_of" => targets_row(s, end, out, at),
        b"ring_len" => ring_len_row(s, end, out, at),
        b"over" => over_row(s, end, out, at),
        b"point" => point_row(s, end, out, at),
        b"table" => table_row(s, end, false, out, at),
        b"table8" => table_row(s, end, true, out, at),
        b"section" => section_row(s, end, false, out, at),
        b"section8" => section_row(s, end, true, out, at),
        b"read" => read_row(s, end, cells, out, at),
        b"chord_read" => chord_row(s, end, cells, out, at),
        _ => {
            let x = value_of(name, s, end)?;
            Some(words::put_value(out, at, x))
        }
    }
}

// The row again: up to `= ` as it stands, then the answer.
fn row(s: &[u8], cells: &[f32], out: &mut [u8]) -> Option<usize> {
    let end = s.iter().position(|b| *b == b'=')?;
    let asked = s.get(..end + 2)?;
    let at = text::put_bytes(out, 0, asked);
    answer(s, end, cells, out, at)
}

// A line without its newline; answers how many bytes of `out` to write.
fn line(s: &[u8], cells: &[f32], out: &mut [u8]) -> usize {
    let p = match s {
        [] | [b'#', ..] => text::put_bytes(out, 0, s),
        _ => match row(s, cells, out) {
            Some(p) => p,
            None => text::put_byte(out, 0, b'?'),
        },
    };
    text::put_byte(out, p, b'\n')
}

// Every line of the input.
fn replay<W: Write>(output: &mut W, s: &[u8], cells: &[f32], out: &mut [u8]) -> io::Result<()> {
    for s in s.split_inclusive(|b| *b == b'\n') {
        let n = line(s.strip_suffix(b"\n").unwrap_or(s), cells, out);
        output.write_all(&out[..n.min(out.len())])?;
    }
    Ok(())
}

// Cell i holds 37 i mod 1009.
fn fill(cells: &mut [f32]) {
    for (i, cell) in cells.iter_mut().enumerate() {
        *cell = std::num::nearest_u32_to_f32((i % 1009 * 37 % 1009) as u32);
    }
}

// Reads the input and replays it. The arrays come by their types: the lengths of local arrays of this size take the prover long.
fn replay_input<R: Read, W: Write>(
    reader: &mut R,
    output: &mut W,
    input: &mut [u8; 524288],
    cells: &mut [f32; 131072],
    out: &mut [u8; 8192],
) -> io::Result<()> {
    fill(cells);
    let n = inputs::read_full(reader, input)?;
    replay(output, &input[..n], cells, out)
}

fn main(rt: HostRuntime) -> io::Result<()> {
    let mut input = [0u8; 524288];
    let mut cells = [0f32; 131072];
    let mut out = [0u8; 8192];
    replay_input(
        &mut rt.stdin(),
        &mut rt.stdout(),
        &mut input,
        &mut cells,
        &mut out,
    )
}
