// The bank's calls, and a voice from its feed: definitions and laws; the widths of a voice's targets and of a slot's record.
#![tactic(auto)]

// Numbers a voice in targets: eight of targets_of, two of morph_targets_of, z.
pub const TARGETS_WIDTH: usize = 11;

// Numbers a slot in records: ten smoothed and morph, twenty states, the peak, the smoothed z.
pub const RECORD_WIDTH: usize = 32;
