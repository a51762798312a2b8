// What a pair of bytes may carry; `unpack` tells which.
// What is wrong with a pair of bytes, one kind for each number; Faults.antt says of each when it is told.
#[derive(Clone, Copy, Debug, PartialEq, Eq)]
pub enum Fault {
    // 41: its number is 0 or over 64,000, and it does not begin with FE
    OutOfRange,
    // 46: a shift value where none may stand
    Shift,
    // 47: FE in a pair that is not the last, or before a code outside the chart
    Single,
}

// What a pair of bytes carries that is well coded.
#[derive(Clone, Copy, Debug, PartialEq, Eq)]
pub enum Pair {
    Three(u8, u8, u8),
    // two characters, which only the last pair may carry
    Two(u8, u8),
    // one character, which only the last pair may carry
    One(u8),
}

// Three values; below 40 where the number is at most 64,000.
#[derive(Clone, Copy)]
pub struct Values {
    pub a: usize,
    pub b: usize,
    pub c: usize,
}
