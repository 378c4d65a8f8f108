// The float leaves, for comparison by running.
ghost use Rattle.std.specs.Prelude.{◌≡◌, List};
ghost use Rattle.lane.specs.Lane.{max_of, min_of, exp2_of, tan_of, soft_clip, saturation_gain};
ghost use Rattle.sqrt.specs.Root.{root_of};
ghost use Rattle.log2.specs.Log2.{log_of};
ghost use Rattle.lines.specs.Lines.{hermite_of, ring_len, read_of};
ghost use Rattle.filter.specs.Filter.{ratio_of, over_of, gain_of, svf_of};
ghost use Rattle.filter.specs.Voice.{voice_targets};
ghost use Rattle.extended.specs.Extended.{asym_of};
ghost use Rattle.teeth.specs.Promises.{ChordLeaves};
ghost use Rattle.sentivolus.specs.Calls.{chord_of, params_of};
ghost use Rattle.sentivolus.specs.Design.{stage_numbers};

use extended::Chord;
use filter::{Pitch, Ratio, VoiceParams};

#[unsafe(no_mangle)]
pub extern "C" fn sentivolus_max(a: f32, b: f32) -> f32
    ensures { result ≡ max_of a b }
{
    lane::max(a, b)
}

#[unsafe(no_mangle)]
pub extern "C" fn sentivolus_min(a: f32, b: f32) -> f32
    ensures { result ≡ min_of a b }
{
    lane::min(a, b)
}

#[unsafe(no_mangle)]
pub extern "C" fn sentivolus_exp2(v: f32) -> f32
    ensures { result ≡ exp2_of v }
{
    lane::exp2(v)
}

#[unsafe(no_mangle)]
pub extern "C" fn sentivolus_tan(w: f32) -> f32
    ensures { result ≡ tan_of w }
{
    lane::tan(w)
}

#[unsafe(no_mangle)]
pub extern "C" fn sentivolus_soft_clip(x: f32) -> f32
    ensures { result ≡ soft_clip x }
{
    lane::soft_clip(x)
}

#[unsafe(no_mangle)]
pub extern "C" fn sentivolus_root(x: f32) -> f32
    ensures { result ≡ root_of x }
{
    sqrt::root(x)
}

#[unsafe(no_mangle)]
pub extern "C" fn sentivolus_log2(q: f32) -> f32
    ensures { result ≡ log_of q }
{
    log2::log2(q)
}

#[unsafe(no_mangle)]
pub extern "C" fn sentivolus_saturation_gain(x: f32, inv_a: f32) -> f32
    ensures { result ≡ saturation_gain x inv_a }
{
    lane::saturation_gain(x, inv_a)
}

#[unsafe(no_mangle)]
pub extern "C" fn sentivolus_asym(x: f32) -> f32
    ensures { result ≡ asym_of x }
{
    extended::asym(x)
}

#[unsafe(no_mangle)]
pub extern "C" fn sentivolus_hermite(newer: f32, p0: f32, p1: f32, older: f32, t: f32) -> f32
    ensures { result ≡ hermite_of newer p0 p1 older t }
{
    lines::hermite(newer, p0, p1, older, t)
}

#[unsafe(no_mangle)]
pub extern "C" fn sentivolus_ring_len(rate: f32) -> usize
    ensures { result ≡ ring_len rate }
{
    lines::ring_len(rate)
}

#[unsafe(no_mangle)]
pub extern "C" fn sentivolus_read(
    buf: &[f32],
    len: usize,
    cursor: usize,
    slot: usize,
    delay: f32,
) -> f32
    ensures { result ≡ read_of buf.now len cursor slot delay }
{
    lines::read_at(buf, len, cursor, slot, delay)
}

// The chord comb's teeth read together (C-18): the taps, and the size of the set of cells that they need.
#[unsafe(no_mangle)]
pub extern "C" fn sentivolus_chord_read(
    buf: &[f32],
    len: usize,
    cursor: usize,
    slot: usize,
    ratio: f32,
    count: u32,
    offsets: &[f32; 8],
    taps: &mut [f32; 8],
) -> usize
    ensures { ChordLeaves buf.now len cursor slot ratio (chord_of count offsets.now) result taps.new }
{
    let octaves = *offsets;
    let chord = Chord {
        count,
        offsets: octaves,
    };
    teeth::chord_read(buf, len, cursor, slot, ratio, chord, taps)
}

#[unsafe(no_mangle)]
pub extern "C" fn sentivolus_ratio_of(pitch: f32, reference_over_rate: f32) -> f32
    ensures { result ≡ (ratio_of record { 0 = pitch } record { 0 = reference_over_rate }).0 }
{
    filter::ratio_of(Pitch(pitch), Ratio(reference_over_rate)).0
}

// Whether that ratio was greater than its cap (C-11).
#[unsafe(no_mangle)]
pub extern "C" fn sentivolus_over(pitch: f32, reference_over_rate: f32) -> bool
    ensures { result ≡ over_of record { 0 = pitch } record { 0 = reference_over_rate } }
{
    filter::over_of(Pitch(pitch), Ratio(reference_over_rate))
}

#[unsafe(no_mangle)]
pub extern "C" fn sentivolus_gain(pitch: f32, reference_over_rate: f32) -> f32
    ensures { result ≡ gain_of record { 0 = pitch } record { 0 = reference_over_rate } }
{
    filter::gain(Pitch(pitch), Ratio(reference_over_rate))
}

// band, low, ic1 and ic2 after it.
#[unsafe(no_mangle)]
pub extern "C" fn sentivolus_svf(ic1: f32, ic2: f32, x: f32, g: f32, k: f32, out: &mut [f32; 4])
    ensures { out.new ≡ stage_numbers (svf_of ic1 ic2 x g k) }
{
    let s = filter::svf(ic1, ic2, x, g, k);
    let numbers = [s.band, s.low, s.ic1, s.ic2];
    *out = numbers;
}

// The eleven targets of ten settings, in the order of VoiceParams.
#[unsafe(no_mangle)]
pub extern "C" fn sentivolus_targets_of(
    resonance: f32,
    drive: f32,
    saturation: f32,
    character: f32,
    stereo_offset: f32,
    mix: f32,
    level: f32,
    morph_x: f32,
    morph_y: f32,
    morph_z: f32,
    out: &mut [f32; 11],
)
    ensures { out.new ≡ voice_targets
        (params_of resonance drive saturation character stereo_offset mix level morph_x morph_y morph_z) }
{
    let t = filter::voice_targets(VoiceParams {
        resonance,
        drive,
        saturation,
        character,
        stereo_offset,
        mix,
        level,
        morph_x,
        morph_y,
        morph_z,
    });
    *out = t;
}
