// The pole-zero filter's design (pole_zero.rs): four states of eight points each, morphed by x and y, or eight states, morphed by z too (document 02,
// C-17), an overall gain, and the table that the kernel runs.
#![tactic(auto)]

ghost use Rattle.std.specs.Prelude.{◌≡◌, Bool, List, ◌+◌, ◌*◌, ◌<◌, ◌≤◌};
ghost use Rattle.parts.specs.Parts.{patch};
ghost use Rattle.pole_zero.specs.PoleZero.{default_design, point_at, design_gain, refusal_of, values_of, section_refusal, section_values, blend};
ghost use Rattle.pole_zero.specs.PoleZero.{blended, blended_at, terms_of, bilinear_of, face_bypassed, is_bypassed};
ghost use Rattle.pole_zero.specs.PoleZero.{empty_table, with_section, with_point, table_of};

use points::{Point, Section, State};

// The overall gain's range, in decibels.
const GAIN_DB: f32 = 24.0;

// Where the states of a face begin: four at z = 0, four at z = 1.
const NEAR: usize = 0;

const FAR: usize = 4;

// A pole-zero filter's whole design. With two axes the states at z = 1 are not read.
#[derive(Clone, Copy)]
pub struct PoleZeroDesign {
    pub states: [State; 8],
    pub three: bool,
    pub gain_db: f32,
}

// A design in the form the kernel runs: 20 numbers for each point that does something, in the face at z = 0, 160 numbers, and then in that at z = 1,
// which is read if there are three axes.
#[derive(Clone, Copy)]
pub struct Table {
    pub active: u32,
    pub three: bool,
    pub sections: [f32; 320],
    pub gain: f32,
}

// Of the four states' sections: each of the five values at (0, 0), then its X, Y and X * Y coefficients.
fn terms(a: Section, b: Section, c: Section, d: Section) -> [f32; 20]
    ensures { result ≡ terms_of a b c d }
{
    [
        a.octaves,
        b.octaves - a.octaves,
        c.octaves - a.octaves,
        d.octaves - c.octaves - b.octaves + a.octaves,
        a.damping,
        b.damping - a.damping,
        c.damping - a.damping,
        d.damping - c.damping - b.damping + a.damping,
        a.high,
        b.high - a.high,
        c.high - a.high,
        d.high - c.high - b.high + a.high,
        a.band,
        b.band - a.band,
        c.band - a.band,
        d.band - c.band - b.band + a.band,
        a.low,
        b.low - a.low,
        c.low - a.low,
        d.low - c.low - b.low + a.low,
    ]
}

// Value i of 0 to 4 of a point's terms, at x and y.
fn blend(t: [f32; 20], i: usize, x: f32, y: f32) -> f32
    requires { i < 5 }
    ensures { result ≡ blend t i x y }
{
    let at = 4 * i;
    t[at] + x * t[at + 1] + y * t[at + 2] + x * y * t[at + 3]
}

// The section of a point's terms, at x and y.
fn blended(t: [f32; 20], x: f32, y: f32) -> Section
    ensures { result ≡ blended t x y }
{
    Section {
        octaves: blend(t, 0, x, y),
        damping: blend(t, 1, x, y),
        high: blend(t, 2, x, y),
        band: blend(t, 3, x, y),
        low: blend(t, 4, x, y),
    }
}

impl Default for PoleZeroDesign {
    ghost is_default = { λ x. x ≡ default_design };

    // Every state the default's, two axes, the gain 0 dB.
    fn default() -> PoleZeroDesign
        ensures { result ≡ default_design }
    {
        PoleZeroDesign {
            states: [State::default(); 8],
            three: false,
            gain_db: 0.0,
        }
    }
}

impl PoleZeroDesign {
    // Point `point` of state `state`.
    fn point(self, state: usize, point: usize) -> Point
        requires { (state < 8) × (point < 8) }
        ensures { result ≡ point_at self state point }
    {
        self.states[state].points[point]
    }

    // The overall gain as a factor.
    pub fn gain(self) -> f32
        ensures { result ≡ design_gain self }
    {
        lane::pow10(points::clamp_or(self.gain_db, -GAIN_DB, GAIN_DB, 0.0), 20.0)
    }

    // Point `point`'s section at x, y and z.
    fn blended_at(self, point: usize, x: f32, y: f32, z: f32) -> Section
        requires { point < 8 }
        ensures { result ≡ blended_at self point x y z }
    {
        let near = blended(self.bilinear(NEAR, point), x, y);
        if self.three {
            near.between(blended(self.bilinear(FAR, point), x, y), z)
        } else {
            near
        }
    }

    // Point `point`'s section at `x`, `y` and `z` (each 0 to 1), as the filter blends it. None is refusal 11.
    pub fn section(self, point: usize, x: f32, y: f32, z: f32) -> Option<Section>
        ensures refusal { refusal_of result ≡ section_refusal point }
        ensures values { values_of result ≡ section_values self point x y z }
    {
        if point < 8 {
            Some(self.blended_at(
                point,
                lane::clamp(x, 0.0, 1.0),
                lane::clamp(y, 0.0, 1.0),
                lane::clamp(z, 0.0, 1.0),
            ))
        } else {
            None
        }
    }

    // Point `point`'s corner values, of the face whose states begin at `face`, as the bilinear form's terms.
    fn bilinear(self, face: usize, point: usize) -> [f32; 20]
        requires { (face ≤ 4) × (point < 8) }
        ensures { result ≡ bilinear_of self face point }
    {
        terms(
            self.point(face, point).section(),
            self.point(face + 1, point).section(),
            self.point(face + 2, point).section(),
            self.point(face + 3, point).section(),
        )
    }

    // Whether point `point` is a bypass in every state of a face.
    fn face_bypassed(self, face: usize, point: usize) -> bool
        requires { (face ≤ 4) × (point < 8) }
        ensures { result ≡ face_bypassed self face point }
    {
        self.point(face, point).kind.is_bypass()
            && self.point(face + 1, point).kind.is_bypass()
            && self.point(face + 2, point).kind.is_bypass()
            && self.point(face + 3, point).kind.is_bypass()
    }

    // Whether point `point` is a bypass in every state, so that it does nothing wherever X, Y and Z are.
    fn is_bypassed(self, point: usize) -> bool
        requires { point < 8 }
        ensures { result ≡ is_bypassed self point }
    {
        self.face_bypassed(NEAR, point) && (!self.three || self.face_bypassed(FAR, point))
    }
}

// A point's terms stored as section n.
fn store(mut sections: [f32; 320], n: usize, t: [f32; 20]) -> [f32; 320]
    requires { n < 16 }
    ensures { result ≡ patch 20 n t sections }
{
    for i in 0..20 {
        sections[n * 20 + i] = t[i];
    }
    sections
}

// Point p of a design stored as section n of each face that the table has.
fn with_section(sections: [f32; 320], design: PoleZeroDesign, p: usize, n: usize) -> [f32; 320]
    requires { (p < 8) × (n < 8) }
    ensures { result ≡ with_section design p n sections }
{
    let s = store(sections, n, design.bilinear(NEAR, p));
    if design.three {
        store(s, 8 + n, design.bilinear(FAR, p))
    } else {
        s
    }
}

impl Table {
    // No section in use.
    fn empty(design: PoleZeroDesign) -> Table
        ensures { result ≡ empty_table design }
    {
        Table {
            active: 0,
            three: design.three,
            sections: [0.0; 320],
            gain: design.gain(),
        }
    }

    // One turn of the loop over the points.
    fn with_point(self, design: PoleZeroDesign, p: usize) -> Table
        requires { (p < 8) × (self.active ≤ p) }
        ensures { result ≡ with_point design p self }
    {
        if design.is_bypassed(p) {
            return self;
        }
        Table {
            active: self.active + 1,
            sections: with_section(self.sections, design, p, self.active as usize),
            ..self
        }
    }

    // The points that do something, in order, each as its 20 numbers.
    pub fn of(design: PoleZeroDesign) -> Table
        ensures { result ≡ table_of design }
    {
        let mut t = Table::empty(design);
        for p in 0..8 {
            t = t.with_point(design, p);
        }
        t
    }
}

// The table of the default design, whose points are all bypasses.
pub fn bypass_table() -> Table
    ensures { result ≡ table_of default_design }
{
    Table::of(PoleZeroDesign::default())
}
