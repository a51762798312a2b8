// What the calls of C40 text, of the words and of the names answer, as the C face tells it: number, place and count of every case. Each
// table stands once, for the exported calls of `capi` and for the cases that are run.
#![tactic(auto)]

ghost use Rattle.std.specs.Prelude.{◌≡◌, Err};
ghost use Rattle.c40.specs.Calls.{reading_of, writing_of};
ghost use Rattle.c40.specs.declared.ReadError.TheVariants as read;
ghost use Rattle.pages.specs.Calls.{placed_of};
ghost use Rattle.words.specs.Calls.{told_of};
ghost use Rattle.why_words.specs.Calls as names;
ghost use Rattle.face.specs.Face.{filled_of};

use c40::{ReadError, WriteError, WrongPair};
use face::FrFilled;
use octets::NoRoom;
use pairs::Fault;

// The number of a pair's fault, at the pair.
fn wrong_pair(wrong: WrongPair) -> FrFilled
    ensures { result ≡ filled_of (reading_of (Err (read.WrongPair wrong))) }
{
    let at = wrong.place;
    match wrong.fault {
        Fault::OutOfRange => FrFilled::refused(41, at),
        Fault::Shift => FrFilled::refused(46, at),
        Fault::Single => FrFilled::refused(47, at),
    }
}

// A reading's number, place and count.
pub fn text_read(answer: Result<usize, ReadError>) -> FrFilled
    ensures { result ≡ filled_of (reading_of answer) }
{
    match answer {
        Ok(characters) => FrFilled::done(characters),
        Err(ReadError::TooLong) => FrFilled::refused(45, 0),
        Err(ReadError::Odd(at)) => FrFilled::refused(40, at),
        Err(ReadError::WrongPair(wrong)) => wrong_pair(wrong),
        Err(ReadError::NoRoom) => FrFilled::refused(42, 0),
    }
}

// A writing's number, place and count.
pub fn text_written(answer: Result<usize, WriteError>) -> FrFilled
    ensures { result ≡ filled_of (writing_of answer) }
{
    match answer {
        Ok(bytes) => FrFilled::done(bytes),
        Err(WriteError::TooLong) => FrFilled::refused(45, 0),
        Err(WriteError::Stranger(at)) => FrFilled::refused(43, at),
        Err(WriteError::NoRoom) => FrFilled::refused(44, 0),
    }
}

// Number and count of words put down, or this number for no room.
fn placed(answer: Result<usize, NoRoom>, no_room: usize) -> FrFilled
    ensures { result ≡ filled_of (placed_of no_room answer) }
{
    match answer {
        Ok(count) => FrFilled::done(count),
        Err(NoRoom) => FrFilled::refused(no_room, 0),
    }
}

// Number and count of the words told.
pub fn words_told(answer: Result<usize, NoRoom>) -> FrFilled
    ensures { result ≡ filled_of (told_of answer) }
{
    placed(answer, 63)
}

// Number and count of an item's name told, or of a rule's words.
pub fn name_told(answer: Result<usize, NoRoom>) -> FrFilled
    ensures { result ≡ filled_of (names.told_of answer) }
{
    placed(answer, 42)
}
