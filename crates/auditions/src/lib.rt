// Audition (document 02, C-16): a block is heard before it is committed, on a copy of the bank in scratch lists that the caller lends.
#![tactic(auto)]

ghost use Rattle.checks.specs.Checks.{bank_of, block_from};
ghost use Rattle.auditions.specs.Audition.{AuditionDoes};

use bank::Rendered;
use checks::{Refusal, Setup};

// Renders a block on a copy of the bank, which the scratch holds afterwards: answers the copy's new cursor and the frames rendered.
pub fn audition(
    setup: Setup,
    cursor: usize,
    targets: &[f32],
    records: &[f32],
    delay: &[f32],
    scratch_targets: &mut [f32],
    scratch_records: &mut [f32],
    scratch_delay: &mut [f32],
    frames: usize,
    pitch: &[f32],
    steered: bool,
    x: &[f32],
    y: &[f32],
    audio: &mut [f32],
    counts: &mut [u32],
) -> Result<Rendered, Refusal>
    ensures { AuditionDoes setup
        (block_from frames pitch.now steered x.now y.now audio.old counts.old)
        (bank_of scratch_targets.old scratch_records.old scratch_delay.old 0)
        (bank_of targets.now records.now delay.now cursor)
        result scratch_targets.new scratch_records.new scratch_delay.new audio.new counts.new }
{
    checks::audition_check(
        setup,
        targets,
        records,
        delay,
        scratch_targets,
        scratch_records,
        scratch_delay,
        frames,
        pitch,
        steered,
        x,
        y,
        audio,
        counts,
    )?;
    slots::copy(targets, 0, scratch_targets, 0, targets.len());
    slots::copy(records, 0, scratch_records, 0, records.len());
    slots::copy(delay, 0, scratch_delay, 0, delay.len());
    bank::block(
        setup,
        cursor,
        scratch_targets,
        scratch_records,
        scratch_delay,
        frames,
        pitch,
        steered,
        x,
        y,
        audio,
        counts,
    )
}
