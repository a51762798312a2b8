// Whether the three values of a pair may stand where a header has a pair of a kind (document 01, Layout and C40). The
// filler is carried as a space and is 3, digits are 4 to 13, letters 14 to 39.
ghost use Rattle.std.specs.Prelude.{◌≡◌, ◌<◌};
ghost use Rattle.front_pairs.specs.declared.Kind.TheVariants.{Country, Length};
ghost use Rattle.front_pairs.specs.Pairs.{kept as kept_of};

use crate::Kind;
use crate::tests::within;

// A country: a letter, then letters, then fillers.
fn is_country(a: usize, b: usize, c: usize) -> bool
    ensures { result ≡ kept_of Country a b c }
{
    let lettered = (14 <= b) & ((14 <= c) | (c == 3));
    (14 <= a) & (lettered | ((b == 3) & (c == 3)))
}

// The signer's last, and two hexadecimal digits, of which the values are 4 to 19; both 4 would be a length of 0.
fn is_length(a: usize, b: usize, c: usize) -> bool
    requires { (b < 40) × (c < 40) }
    ensures { result ≡ kept_of Length a b c }
{
    (4 <= a) & (within(4, 19, b) & (within(4, 19, c) & (8 < b + c)))
}

// Three values that may stand where a pair of this kind does. One character that ends a reference is no three values.
pub(crate) fn kept(kind: Kind, a: usize, b: usize, c: usize) -> bool
    requires { (b < 40) × (c < 40) }
    ensures { result ≡ kept_of kind a b c }
{
    match kind {
        Kind::Country => is_country(a, b, c),
        Kind::Signer => (14 <= a) & ((14 <= b) & (4 <= c)),
        Kind::Triple => (4 <= a) & ((4 <= b) & (4 <= c)),
        Kind::Length => is_length(a, b, c),
        Kind::Two => (4 <= a) & ((4 <= b) & (c == 0)),
        Kind::One => false,
    }
}
