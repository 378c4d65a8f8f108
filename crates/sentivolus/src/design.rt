// The pole-zero design as flat numbers: 64 kind numbers and 256 floats (frequency, Q, a, b), state by state, point by point, four states at z = 0 and four
// at z = 1, which a design of two axes has no use for.
ghost use Rattle.std.specs.Prelude.{◌≡◌, ◌<◌};
ghost use Rattle.points.specs.Points.{section_of, values};
ghost use Rattle.pole_zero.specs.PoleZero.{table_of};
ghost use Rattle.sentivolus.specs.Design.{kind_of, point_of, state_of, design_of, TableLeft, SectionLeft};

use points::{Point, PointKind, State};
use pole_zero::{PoleZeroDesign, Table};

fn kind_of(kind: u32, a: f32, b: f32) -> PointKind
    ensures { result ≡ kind_of kind a b }
{
    match kind {
        0 => PointKind::HighPass,
        1 => PointKind::LowPass,
        3 => PointKind::AllPass,
        4 => PointKind::BandPass,
        5 => PointKind::Notch,
        6 => PointKind::Bell(a),
        7 => PointKind::Free(a, b),
        _ => PointKind::Bypass,
    }
}

fn point_of(kinds: &[u32; 64], numbers: &[f32; 256], i: usize) -> Point
    requires { i < 64 }
    ensures { result ≡ point_of kinds.now numbers.now i }
{
    let a = numbers[4 * i + 2];
    let b = numbers[4 * i + 3];
    Point {
        kind: kind_of(kinds[i], a, b),
        frequency: numbers[4 * i],
        q: numbers[4 * i + 1],
    }
}

fn state_of(kinds: &[u32; 64], numbers: &[f32; 256], s: usize) -> State
    requires { s < 8 }
    ensures { result ≡ state_of kinds.now numbers.now s }
{
    State {
        points: [
            point_of(kinds, numbers, 8 * s),
            point_of(kinds, numbers, 8 * s + 1),
            point_of(kinds, numbers, 8 * s + 2),
            point_of(kinds, numbers, 8 * s + 3),
            point_of(kinds, numbers, 8 * s + 4),
            point_of(kinds, numbers, 8 * s + 5),
            point_of(kinds, numbers, 8 * s + 6),
            point_of(kinds, numbers, 8 * s + 7),
        ],
    }
}

fn design_of(kinds: &[u32; 64], numbers: &[f32; 256], three: bool, gain_db: f32) -> PoleZeroDesign
    ensures { result ≡ design_of kinds.now numbers.now three gain_db }
{
    PoleZeroDesign {
        states: [
            state_of(kinds, numbers, 0),
            state_of(kinds, numbers, 1),
            state_of(kinds, numbers, 2),
            state_of(kinds, numbers, 3),
            state_of(kinds, numbers, 4),
            state_of(kinds, numbers, 5),
            state_of(kinds, numbers, 6),
            state_of(kinds, numbers, 7),
        ],
        three,
        gain_db,
    }
}

// A point's section: octaves, damping, high, band, low.
#[unsafe(no_mangle)]
pub extern "C" fn sentivolus_point(
    kind: u32,
    frequency: f32,
    q: f32,
    a: f32,
    b: f32,
    out: &mut [f32; 5],
)
    ensures { out.new ≡ values (section_of record { kind = kind_of kind a b; frequency = frequency; q = q }) }
{
    let k = kind_of(kind, a, b);
    let p = Point {
        kind: k,
        frequency,
        q,
    };
    let v = p.section().values();
    *out = v;
}

// The design's table, with the design's axes: 320 numbers, the active sections and the gain.
#[unsafe(no_mangle)]
pub extern "C" fn sentivolus_table(
    kinds: &[u32; 64],
    numbers: &[f32; 256],
    three: bool,
    gain_db: f32,
    sections: &mut [f32; 320],
    gain: &mut f32,
) -> u32
    ensures { TableLeft (table_of (design_of kinds.now numbers.now three gain_db))
        result three sections.new gain.new }
{
    let t = Table::of(design_of(kinds, numbers, three, gain_db));
    let s = t.sections;
    *sections = s;
    *gain = t.gain;
    t.active
}

// A point's section at x, y and z: 0 and its five numbers, or 11 and `out` as it was.
#[unsafe(no_mangle)]
pub extern "C" fn sentivolus_section(
    kinds: &[u32; 64],
    numbers: &[f32; 256],
    three: bool,
    gain_db: f32,
    point: usize,
    x: f32,
    y: f32,
    z: f32,
    out: &mut [f32; 5],
) -> u32
    ensures { SectionLeft (design_of kinds.now numbers.now three gain_db) point x y z out.old
        result out.new }
{
    match design_of(kinds, numbers, three, gain_db).section(point, x, y, z) {
        Some(s) => {
            let v = s.values();
            *out = v;
            0
        }
        None => 11,
    }
}
