// The structs of the C face for the walk and the look-up. specs/Face.antt sets out what each holds, field by field.
#![tactic(auto)]

ghost use Rattle.std.specs.Prelude.{◌≡◌};
ghost use Rattle.shown.specs.Where.{showing, empty, answer_of};
ghost use Rattle.face_walk.specs.Face.{start_of, step_of, where_of};

use face_seals::FrPart;
use reading::Part;
use shown::{NotShown, Where};
use walk_steps::{Start, Step};

// What opening a walk answers.
#[repr(C)]
#[derive(Clone, Copy)]
pub struct FrStart {
    pub number: usize,
    pub place: usize,
    pub at: usize,
}

// What a step of a walk answers.
#[repr(C)]
#[derive(Clone, Copy)]
pub struct FrStep {
    pub number: usize,
    pub place: usize,
    pub tag: usize,
    pub tag_place: usize,
    pub value: FrPart,
    pub at: usize,
}

// What a look-up answers.
#[repr(C)]
#[derive(Clone, Copy)]
pub struct FrWhere {
    pub number: usize,
    pub place: usize,
    pub which: usize,
    pub value: FrPart,
}

// An opening, as the face gives it.
impl From<Start> for FrStart {
    ghost from_gives = { λ start given. given ≡ start_of start };

    fn from(start: Start) -> FrStart {
        FrStart {
            number: start.number,
            place: start.place,
            at: start.at,
        }
    }
}

// A step, as the face gives it.
impl From<Step> for FrStep {
    ghost from_gives = { λ step given. given ≡ step_of step };

    fn from(step: Step) -> FrStep {
        let row = step.row;
        FrStep {
            number: step.number,
            place: step.place,
            tag: row.tag,
            tag_place: row.start,
            value: FrPart {
                place: row.place,
                length: row.size,
            },
            at: step.at,
        }
    }
}

impl FrWhere {
    // A value that a seal shows.
    fn showing(which: usize, value: Part) -> FrWhere
        ensures { result ≡ where_of (showing which value) }
    {
        FrWhere {
            number: 0,
            place: 0,
            which,
            value: FrPart::from(value),
        }
    }

    // A refusal: an empty part.
    fn empty(number: usize, place: usize, which: usize) -> FrWhere
        ensures { result ≡ where_of (empty number place which) }
    {
        FrWhere {
            number,
            place,
            which,
            value: FrPart {
                place: 0,
                length: 0,
            },
        }
    }
}

// A look-up, as the face gives it: number and place of every case, and which seal it is about, 1 the main one and 2 the extension.
impl From<Result<Where, NotShown>> for FrWhere {
    ghost from_gives = { λ found given. given ≡ where_of (answer_of found) };

    fn from(found: Result<Where, NotShown>) -> FrWhere {
        match found {
            Ok(Where::Extension(value)) => FrWhere::showing(2, value),
            Ok(Where::Main(value)) => FrWhere::showing(1, value),
            Err(NotShown::Main(number, place)) => FrWhere::empty(number, place, 1),
            Err(NotShown::Extension(number, place)) => FrWhere::empty(number, place, 2),
            Err(NotShown::Neither) => FrWhere::empty(50, 0, 0),
        }
    }
}
