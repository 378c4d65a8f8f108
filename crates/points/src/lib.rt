// The pole-zero filter's points (pole_zero.rs): what a point does, its values in their ranges, its section, and a state of eight points.
#![tactic(auto)]

ghost use Rattle.std.specs.Prelude.{◌≡◌, Bool, List};
ghost use Rattle.points.specs.Points.{default_point, clamp_or, clamped_kind, clamped, new_section, section_of_kind, section_of, values, bypass_at};
ghost use Rattle.points.specs.Points.{between, section_between, is_bypass, default_state};

use std::f32::consts::FRAC_1_SQRT_2;

// The lowest and highest point frequency, in hertz.
const FREQUENCY_LOW: f32 = 8.0;

const FREQUENCY_HIGH: f32 = 22050.0;

// The lowest and highest Q.
const Q_LOW: f32 = 0.1;

const Q_HIGH: f32 = 40.0;

// A bell's gain range, in decibels.
const POINT_GAIN_DB: f32 = 18.0;

// The frequency, at A4 = 440 Hz, of the cutoff pitch 68.4, at which points sit at their drawn frequencies.
const NEUTRAL_HZ: f32 = 425.012;

// What a point does: a bell has its gain in decibels, a free point its zero's frequency and Q.
#[derive(Clone, Copy)]
pub enum PointKind {
    HighPass,
    LowPass,
    Bypass,
    AllPass,
    BandPass,
    Notch,
    Bell(f32),
    Free(f32, f32),
}

// One point: a second-order section.
#[derive(Clone, Copy)]
pub struct Point {
    pub kind: PointKind,
    pub frequency: f32,
    pub q: f32,
}

// A point's section in the form the filter blends.
#[derive(Clone, Copy)]
pub struct Section {
    pub octaves: f32,
    pub damping: f32,
    pub high: f32,
    pub band: f32,
    pub low: f32,
}

// One state: eight points.
#[derive(Clone, Copy)]
pub struct State {
    pub points: [Point; 8],
}

// A value in its range; one that is no number takes the default.
pub fn clamp_or(v: f32, lo: f32, hi: f32, or: f32) -> f32
    ensures { result ≡ clamp_or v lo hi or }
{
    if v.is_nan() {
        or
    } else {
        lane::clamp(v, lo, hi)
    }
}

// A section's number at z, between a at z = 0 and b at z = 1.
pub fn between(a: f32, b: f32, z: f32) -> f32
    ensures { result ≡ between a b z }
{
    a + z * (b - a)
}

impl PointKind {
    // Whether the kind is Bypass.
    pub fn is_bypass(self) -> bool
        ensures { result ≡ is_bypass self }
    {
        matches!(self, PointKind::Bypass)
    }

    // What the kind carries, in its range.
    fn clamped(self) -> PointKind
        ensures { result ≡ clamped_kind self }
    {
        match self {
            PointKind::Bell(gain_db) => {
                PointKind::Bell(clamp_or(gain_db, -POINT_GAIN_DB, POINT_GAIN_DB, 0.0))
            }
            PointKind::Free(zero_frequency, zero_q) => PointKind::Free(
                clamp_or(zero_frequency, FREQUENCY_LOW, FREQUENCY_HIGH, 1000.0),
                clamp_or(zero_q, Q_LOW, Q_HIGH, FRAC_1_SQRT_2),
            ),
            _ => self,
        }
    }

    // The section of a point of this kind, with its frequency, its octaves and k = 1 / Q.
    fn mix(self, frequency: f32, octaves: f32, k: f32) -> Section
        ensures { result ≡ section_of_kind self frequency octaves k }
    {
        match self {
            PointKind::HighPass => Section::new(octaves, k, 1.0, 0.0, 0.0),
            PointKind::LowPass => Section::new(octaves, k, 0.0, 0.0, 1.0),
            PointKind::Bypass => Section::new(octaves, k, 1.0, 1.0, 1.0),
            PointKind::AllPass => Section::new(octaves, k, 1.0, -1.0, 1.0),
            PointKind::BandPass => Section::new(octaves, k, 0.0, 1.0, 0.0),
            PointKind::Notch => Section::new(octaves, k, 1.0, 0.0, 1.0),
            PointKind::Bell(gain_db) => {
                let a = lane::pow10(gain_db, 40.0);
                Section::new(octaves, k / a, 1.0, a * a, 1.0)
            }
            PointKind::Free(zero_frequency, zero_q) => {
                // Scaled so that neither the low nor the high end rises above unity.
                let r = zero_frequency / frequency;
                let scale = 1.0 / lane::max(1.0 / (r * r), 1.0);
                Section::new(octaves, k, scale / (r * r), scale / (zero_q * r * k), scale)
            }
        }
    }
}

impl Default for Point {
    ghost is_default = { λ x. x ≡ default_point };

    // A bypass at 1 kHz, Q 0.707.
    fn default() -> Point
        ensures { result ≡ default_point }
    {
        Point::bypass(1000.0)
    }
}

impl Point {
    // A bypass at `frequency` hertz, Q 0.707.
    fn bypass(frequency: f32) -> Point
        ensures { result ≡ bypass_at frequency }
    {
        Point {
            kind: PointKind::Bypass,
            frequency,
            q: FRAC_1_SQRT_2,
        }
    }

    // The point with every value in its range; a value that is no number takes the default's.
    pub fn clamped(self) -> Point
        ensures { result ≡ clamped self }
    {
        Point {
            kind: self.kind.clamped(),
            frequency: clamp_or(self.frequency, FREQUENCY_LOW, FREQUENCY_HIGH, 1000.0),
            q: clamp_or(self.q, Q_LOW, Q_HIGH, FRAC_1_SQRT_2),
        }
    }

    // What the filter blends between states.
    pub fn section(self) -> Section
        ensures { result ≡ section_of self }
    {
        let p = self.clamped();
        p.kind.mix(p.frequency, log2::log2(p.frequency / NEUTRAL_HZ), 1.0 / p.q)
    }
}

impl Section {
    fn new(octaves: f32, damping: f32, high: f32, band: f32, low: f32) -> Section
        ensures { result ≡ new_section octaves damping high band low }
    {
        Section {
            octaves,
            damping,
            high,
            band,
            low,
        }
    }

    // The section at z between this one at z = 0 and the other at z = 1.
    pub fn between(self, far: Section, z: f32) -> Section
        ensures { result ≡ section_between self far z }
    {
        Section {
            octaves: between(self.octaves, far.octaves, z),
            damping: between(self.damping, far.damping, z),
            high: between(self.high, far.high, z),
            band: between(self.band, far.band, z),
            low: between(self.low, far.low, z),
        }
    }

    // The five numbers in their order.
    pub fn values(self) -> [f32; 5]
        ensures { result ≡ values self }
    {
        [self.octaves, self.damping, self.high, self.band, self.low]
    }
}

impl Default for State {
    ghost is_default = { λ x. x ≡ default_state };

    // Every point a bypass, spread an octave apart from 62.5 Hz to 8 kHz.
    fn default() -> State
        ensures { result ≡ default_state }
    {
        State {
            points: [
                Point::bypass(62.5),
                Point::bypass(125.0),
                Point::bypass(250.0),
                Point::bypass(500.0),
                Point::bypass(1000.0),
                Point::bypass(2000.0),
                Point::bypass(4000.0),
                Point::bypass(8000.0),
            ],
        }
    }
}
