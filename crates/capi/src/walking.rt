// The walk over the features of a seal, and the value of a tag in a main seal and its extension.
ghost use Rattle.std.specs.Prelude.{◌≡◌};
ghost use Rattle.verdict.specs.Judge.{judge};
ghost use Rattle.walk_steps.specs.Steps.{start_of, step_at};
ghost use Rattle.shown.specs.Where.{answer_of, where_is};
ghost use Rattle.face_walk.specs.Face.{start_of as startIs, step_of, where_of};

use face_walk::{FrStart, FrStep, FrWhere};

// Opens a walk over the features of a seal: `walk::start_at`.
pub fn fr_walk_open(seal: &[u8]) -> FrStart
    ensures { result ≡ startIs (start_of (judge seal.now)) }
{
    FrStart::from(walk::start_at(seal))
}

// The next feature of a walk that is at a place: `walk::next_at`.
pub fn fr_walk_next(seal: &[u8], at: usize) -> FrStep
    ensures { result ≡ step_of (step_at seal.now at) }
{
    FrStep::from(walk::next_at(seal, at))
}

// Where the value of a tag stands, in the extension or else in the main seal: `shown::where_is`.
pub fn fr_shown(main_seal: &[u8], extension: &[u8], tag: usize) -> FrWhere
    ensures { result ≡ where_of (answer_of (where_is main_seal.now extension.now tag)) }
{
    FrWhere::from(shown::where_is(main_seal, extension, tag))
}
