// What the layers' code shares on bytes: a byte as a number to reckon with, a number's last byte, its threes and its
// tens, a number in bytes, hexadecimal digits, bytes put into a lent buffer.
#![tactic(auto)]

ghost use Rattle.std.specs.Prelude.{◌≡◌, ◌/◌, ◌%◌, min, length};
ghost use Rattle.format.specs.Hex.{hex_digit, hex_value};
ghost use Rattle.format.specs.BigEndian.{val};
ghost use Rattle.octets.specs.Copy.{copied, reached};

// The error of bytes for which a lent buffer has no room: nothing was put down.
#[derive(Clone, Copy, Debug, PartialEq, Eq)]
pub struct NoRoom;

// A byte as a number to reckon with.
pub fn wide(x: u8) -> usize
    ensures { result ≡ x }
{
    x as usize
}

// The last byte of a number.
pub fn low(n: usize) -> u8
    ensures { result ≡ n % 256 }
{
    (n & 255) as u8
}

// How many threes are in a number, without a division: in 2^32 there are 1431655765 and in 2^16 21845, with 1 left over each. So what is
// left of a high part goes to the low part, and of the small number that comes 174763 / 2^19 serves as 1 / 3.
pub fn threes(n: usize) -> usize
    ensures { result ≡ n / 3 }
{
    let high = n >> 32;
    let rest = high + (n & 4294967295);
    let middle = rest >> 16;
    let last = middle + (rest & 65535);
    high * 1431655765 + middle * 21845 + ((last * 174763) >> 19)
}

// How many tens are in a number, in the same way: in 2^32 there are 429496729 and in 2^16 6553, with 6 left over each, and 6710887 / 2^26
// serves as 1 / 10. One function for both would take five constants that must fit one another, and say no more than the two do.
pub fn tens(n: usize) -> usize
    ensures { result ≡ n / 10 }
{
    let high = n >> 32;
    let rest = high * 6 + (n & 4294967295);
    let middle = rest >> 16;
    let last = middle * 6 + (rest & 65535);
    high * 429496729 + middle * 6553 + ((last * 6710887) >> 26)
}

// Copies all of `from` into `out` from a place on and answers the place reached; where it does not fit, nothing is
// copied and the place stays.
pub fn copy(from: &[u8], out: &mut [u8], at: usize) -> usize
    ensures place { result ≡ reached from.now (length out.old) at }
    ensures buffer { out.new ≡ copied from.now out.old at }
{
    let room = out.len();
    if room < at {
        return at;
    }
    if room - at < from.len() {
        return at;
    }
    let end = at + from.len();
    out[at..end].copy_from_slice(from);
    end
}

// The number in the bytes of `s`, big-endian, of at most the first eight.
pub fn number(s: &[u8]) -> usize
    ensures { result ≡ val s.now (min (length s.now) 8) }
{
    let first = &s[..s.len().min(8)];
    let mut value: usize = 0;
    for x in first {
        value = value * 256 + wide(*x);
    }
    value
}

// The last hexadecimal digit of a number, in upper case: below 16 its only one.
pub fn hex_digit(n: usize) -> u8
    ensures { result ≡ hex_digit (n % 16) }
{
    let last = n & 15;
    if last < 10 {
        return b'0' + last as u8;
    }
    55 + last as u8
}

// What a hexadecimal digit, in upper case, stands for; 16 for any other character.
pub fn hex_value(c: u8) -> usize
    ensures { result ≡ hex_value c }
{
    match c {
        b'0'..=b'9' => wide(c - b'0'),
        b'A'..=b'F' => wide(c - 55),
        _ => 16,
    }
}
