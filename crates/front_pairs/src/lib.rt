// Which bytes can be completed to a pair of a header (document 02, Ticket 12): by the three values that a pair is made
// of.
#![tactic(auto)]

ghost use Rattle.std.specs.Prelude.{◌≡◌, ◌-◌, drop};
ghost use Rattle.front_pairs.specs.Pairs.{is_single, kept_by, fits as fits_of, opens as opens_of, pair_front, length_in};
ghost use Rattle.pairs.specs.Pairs.{number as number_of};

mod places;
mod tests;
mod values;

use octets::wide;
use tests::within;
use unpack::split;

// The pairs of a header, by what their characters may be.
#[derive(Clone, Copy)]
pub enum Kind {
    // the country: a letter, then letters, then fillers
    Country,
    // the signer's first three: two letters, then a letter or digit
    Signer,
    // three letters or digits
    Triple,
    // the signer's last, and the two hexadecimal digits of a length that is not 0
    Length,
    // two letters or digits, which end a reference
    Two,
    // one letter or digit, which ends a reference
    One,
}

// FE and the code of a letter or digit plus 1, which carries one character.
fn is_single(x: u8, y: u8) -> bool
    ensures { result ≡ is_single x y }
{
    let n = wide(y);
    (x == 0xFE) & (within(49, 58, n) | within(66, 91, n))
}

// A pair whose three values may stand there.
fn is_kept(kind: Kind, x: u8, y: u8) -> bool
    ensures { result ≡ kept_by kind (number_of x y) }
{
    let number = wide(x) * 256 + wide(y);
    if number == 0 {
        return false;
    }
    if 64000 < number {
        return false;
    }
    let v = split(number - 1);
    values::kept(kind, v.a, v.b, v.c)
}

// A pair that may stand where a header has one of this kind.
fn fits(kind: Kind, x: u8, y: u8) -> bool
    ensures { result ≡ fits_of kind x y }
{
    match kind {
        Kind::One => is_single(x, y),
        _ => is_kept(kind, x, y),
    }
}

// A first byte with which such a pair begins. Byte 00 begins none: there is no number before the first.
fn opens(kind: Kind, x: u8) -> bool
    ensures { result ≡ opens_of kind x }
{
    if let Kind::One = kind {
        return x == 0xFE;
    }
    if x == 0 {
        return false;
    }
    let low = wide(x) * 256;
    places::starts(kind, low - 1) | places::ends(kind, low + 254)
}

// How many of the bytes at a place can be completed to such a pair: 0, 1 or both.
pub fn pair_front(kind: Kind, seal: &[u8], at: usize) -> usize
    ensures { result ≡ pair_front kind (drop at seal.now) }
{
    if seal.len() <= at {
        return 0;
    }
    let x = seal[at];
    if at + 1 < seal.len() {
        if fits(kind, x, seal[at + 1]) {
            return 2;
        }
    }
    if opens(kind, x) {
        return 1;
    }
    0
}

// The length that the two hexadecimal digits of a pair give; each is told by its value, 4 more than what it stands for.
pub fn length_in(x: u8, y: u8) -> usize
    ensures { result ≡ length_in x y }
{
    let number = wide(x) * 256 + wide(y);
    if number == 0 {
        return 0;
    }
    let v = split(number - 1);
    v.b.saturating_sub(4) * 16 + v.c.saturating_sub(4)
}
