// The C40 text codec (document 01, C40; Doc 9303-13, 2.6): why its calls refuse. `c40_read` reads, `c40_write` writes.
#![tactic(auto)]

ghost use Rattle.std.specs.Prelude.{◌≡◌};
ghost use Rattle.c40.specs.declared.ReadError.TheVariants as read;

use pairs::Fault;

// The first pair that is wrongly coded: what is wrong with it, and its place.
#[derive(Clone, Copy, Debug, PartialEq, Eq)]
pub struct WrongPair {
    pub fault: Fault,
    pub place: usize,
}

// Why C40 bytes are not read; `reading_of` of specs/Calls.antt gives each case its number and place.
#[derive(Clone, Copy, Debug, PartialEq, Eq)]
pub enum ReadError {
    // 45: more than 4,096 bytes
    TooLong,
    // 40: an odd number of bytes, this many
    Odd(usize),
    // 41, 46 or 47
    WrongPair(WrongPair),
    // 42: the text does not fit
    NoRoom,
}

impl From<WrongPair> for ReadError {
    ghost from_gives = { λ w e. e ≡ read.WrongPair w };

    fn from(wrong: WrongPair) -> ReadError {
        ReadError::WrongPair(wrong)
    }
}

// Why text is not written in C40; `writing_of` of specs/Calls.antt gives each case its number and place.
#[derive(Clone, Copy, Debug, PartialEq, Eq)]
pub enum WriteError {
    // 45: more than 6,144 characters
    TooLong,
    // 43: the index of the first character that is not in the chart
    Stranger(usize),
    // 44: the bytes do not fit
    NoRoom,
}
