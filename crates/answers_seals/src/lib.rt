// What the writer answers, as the C face tells it: the number and the count of every case. The reader answers a struct, and
// `FrReading::of` takes that.
#![tactic(auto)]

ghost use Rattle.std.specs.Prelude.{◌≡◌};
ghost use Rattle.write_judge.specs.Calls.{writing_of};
ghost use Rattle.face.specs.Face.{filled_of};

use face::FrFilled;
use write_judge::Refused;

// A writing's number and count.
pub fn written(answer: Result<usize, Refused>) -> FrFilled
    ensures { result ≡ filled_of (writing_of answer) }
{
    match answer {
        Ok(count) => FrFilled::done(count),
        Err(Refused::Version) => FrFilled::refused(20, 0),
        Err(Refused::Names) => FrFilled::refused(21, 0),
        Err(Refused::Dates) => FrFilled::refused(22, 0),
        Err(Refused::Last) => FrFilled::refused(23, 0),
        Err(Refused::Rows) => FrFilled::refused(24, 0),
        Err(Refused::Values) => FrFilled::refused(25, 0),
        Err(Refused::Signature) => FrFilled::refused(26, 0),
        Err(Refused::TooLong) => FrFilled::refused(27, 0),
        Err(Refused::NoRoom) => FrFilled::refused(28, 0),
    }
}
