// The struct of the C face that says why a seal is refused. specs/Face.antt sets out what it holds, field by field.
#![tactic(auto)]

ghost use Rattle.std.specs.Prelude.{◌≡◌};
ghost use Rattle.face_why.specs.Face.{reason_of};

use face_seals::FrPart;
use why::Reason;

// Why a seal is refused; every field is 0 for an accepted seal.
#[repr(C)]
#[derive(Clone, Copy)]
pub struct FrReason {
    pub number: usize,
    pub place: usize,
    pub item: usize,
    pub rule: usize,
    pub judged: FrPart,
}

// A reason, as the face gives it.
impl From<Reason> for FrReason {
    ghost from_gives = { λ reason given. given ≡ reason_of reason };

    fn from(reason: Reason) -> FrReason {
        FrReason {
            number: reason.number,
            place: reason.place,
            item: reason.item,
            rule: reason.rule,
            judged: FrPart::from(reason.judged),
        }
    }
}
