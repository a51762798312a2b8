// The structs of the C face: plain numbers and bytes by value, and no pointers; those of whole seals stand in `face_seals`.
// specs/Face.antt sets out what each holds, field by field. The exported calls, in the crate `capi`, give them and take them.
#![tactic(auto)]

ghost use Rattle.std.specs.Prelude.{◌≡◌};
ghost use Rattle.face.specs.Face.{date_of, filled_with, hashed_of, inner_date};
ghost use Rattle.format.specs.Answers.{result as plain_result};

use dates::Date;

#[repr(C)]
#[derive(Clone, Copy)]
pub struct FrDate {
    pub month: usize,
    pub day: usize,
    pub year: usize,
}

// What a call answers that fills a buffer: `count` is how many bytes it wrote.
#[repr(C)]
#[derive(Clone, Copy)]
pub struct FrFilled {
    pub number: usize,
    pub place: usize,
    pub count: usize,
}

// What a number answers that is asked for its date.
#[repr(C)]
#[derive(Clone, Copy)]
pub struct FrDated {
    pub number: usize,
    pub place: usize,
    pub date: FrDate,
}

// What a date answers that is asked for its number, `value`.
#[repr(C)]
#[derive(Clone, Copy)]
pub struct FrNumbered {
    pub number: usize,
    pub place: usize,
    pub value: usize,
}

// What an INTEGER answers that is read.
#[repr(C)]
#[derive(Clone, Copy)]
pub struct FrInteger {
    pub number: usize,
    pub place: usize,
    pub value: i64,
}

// The hash that goes with a size, by its bits: 224, 256, 384 or 512, and 0 on a refusal.
#[repr(C)]
#[derive(Clone, Copy)]
pub struct FrHashed {
    pub number: usize,
    pub place: usize,
    pub bits: usize,
}

// A date, as the face gives it.
impl From<Date> for FrDate {
    ghost from_gives = { λ date given. given ≡ date_of date };

    fn from(date: Date) -> FrDate {
        FrDate {
            month: date.month,
            day: date.day,
            year: date.year,
        }
    }
}

// The date that a caller gives, as the layers beneath take it.
impl From<FrDate> for Date {
    ghost from_gives = { λ given date. date ≡ inner_date given };

    fn from(given: FrDate) -> Date {
        Date {
            month: given.month,
            day: given.day,
            year: given.year,
        }
    }
}

impl FrFilled {
    // So many bytes were written.
    pub fn done(count: usize) -> FrFilled
        ensures { result ≡ filled_with 0 0 count }
    {
        FrFilled {
            number: 0,
            place: 0,
            count,
        }
    }

    // Nothing was written, for the reason of this number, at this place.
    pub fn refused(number: usize, place: usize) -> FrFilled
        ensures { result ≡ filled_with number place 0 }
    {
        FrFilled {
            number,
            place,
            count: 0,
        }
    }
}

impl FrHashed {
    // The hash of so many bits.
    pub fn of_bits(bits: usize) -> FrHashed
        ensures { result ≡ hashed_of (plain_result bits) }
    {
        FrHashed {
            number: 0,
            place: 0,
            bits,
        }
    }
}
