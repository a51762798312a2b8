// What the calls of dates and single INTEGERs answer, as the C face tells it: number, place and value or count of every case. Each table
// stands once, for the exported calls of `capi` and for the cases that are run.
#![tactic(auto)]

ghost use Rattle.std.specs.Prelude.{◌≡◌};
ghost use Rattle.dates.specs.Calls.{taken_of, numbered_of as given_number};
ghost use Rattle.integers.specs.Calls.{reading_of, writing_of};
ghost use Rattle.face.specs.Face.{filled_of, dated_of, numbered_of, integer_of};

use dates::{Date, NoSuchDate};
use face::{FrDate, FrDated, FrFilled, FrInteger, FrNumbered};
use integers::NotOne;
use octets::NoRoom;

// What is taken for a date, with its number; 6 is no such date.
pub fn date_taken(answer: Result<Date, NoSuchDate>) -> FrDated
    ensures { result ≡ dated_of (taken_of answer) }
{
    let none = FrDate {
        month: 0,
        day: 0,
        year: 0,
    };
    let (number, date) = match answer {
        Ok(day) => (0, FrDate::from(day)),
        Err(NoSuchDate) => (6, none),
    };
    FrDated {
        number,
        place: 0,
        date,
    }
}

// A date's number, with the answer's; 22 is no such date.
pub fn date_numbered(answer: Result<usize, NoSuchDate>) -> FrNumbered
    ensures { result ≡ numbered_of (given_number answer) }
{
    let (number, value) = match answer {
        Ok(date_number) => (0, date_number),
        Err(NoSuchDate) => (22, 0),
    };
    FrNumbered {
        number,
        place: 0,
        value,
    }
}

// An INTEGER's value, with its number.
pub fn integer_read(answer: Result<i64, NotOne>) -> FrInteger
    ensures { result ≡ integer_of (reading_of answer) }
{
    let (number, value) = match answer {
        Ok(read) => (0, read),
        Err(NotOne) => (65, 0),
    };
    FrInteger {
        number,
        place: 0,
        value,
    }
}

// A writing's number and count.
pub fn integer_written(answer: Result<usize, NoRoom>) -> FrFilled
    ensures { result ≡ filled_of (writing_of answer) }
{
    match answer {
        Ok(count) => FrFilled::done(count),
        Err(NoRoom) => FrFilled::refused(63, 0),
    }
}
