// What the ladders and the expanders share: the numbers of their stages, and the states that the stages leave.
#![tactic(auto)]

ghost use Rattle.std.specs.Prelude.{◌≡◌};
ghost use Rattle.stages.specs.Stages.{ladder_states};
ghost use Rattle.stages.specs.Promises.{stages_of};

// A ladder's feedback at resonance 1.
pub const LADDER_MAX: f32 = 4.1;

// How much of a ladder's feedback raises its input.
pub const LADDER_COMPENSATION: f32 = 0.5;

// One number a stage, from the first on.
#[derive(Clone, Copy)]
pub struct Four(pub f32, pub f32, pub f32, pub f32);

// One number a tap: a ladder's input, then its four stages.
#[derive(Clone, Copy)]
pub struct Five(pub f32, pub f32, pub f32, pub f32, pub f32);

// The outputs of a ladder's four stages.
#[derive(Clone, Copy)]
pub struct Stages {
    pub y1: f32,
    pub y2: f32,
    pub y3: f32,
    pub y4: f32,
}

// The first four states.
pub fn stages_of(state: &[f32; 20]) -> Four
    ensures { result ≡ stages_of state.now }
{
    Four(state[0], state[1], state[2], state[3])
}

// A ladder's states after its stages gave y: the fourth output is kept for the next feedback.
pub fn store_ladder(state: &mut [f32; 20], y: Stages)
    ensures { state.new ≡ ladder_states state.old y }
{
    let s0 = state[0];
    let s1 = state[1];
    let s2 = state[2];
    let s3 = state[3];
    state[0] = y.y1 + y.y1 - s0;
    state[1] = y.y2 + y.y2 - s1;
    state[2] = y.y3 + y.y3 - s2;
    state[3] = y.y4 + y.y4 - s3;
    state[4] = y.y4;
}
