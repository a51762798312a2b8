// Whether the first or the last of the 256 numbers of a first byte lies where a pair of a kind does (specs/Pairs.antt
// says why these two are enough): by its first value, and by its place among the 1,600 numbers that have this value.
ghost use Rattle.std.specs.Prelude.{◌≡◌, ◌+◌};
ghost use Rattle.format.specs.Choice.{both as bothOf};
ghost use Rattle.pairs.specs.Pairs.{first};
ghost use Rattle.front_pairs.specs.Pairs.{place};
ghost use Rattle.front_pairs.specs.Pairs.{leads as leadsOf, reached_in, starts_in, ends_in};

use crate::Kind;
use crate::tests::within;
use unpack::split;

// A first value that such a pair has.
fn leads(kind: Kind, a: usize) -> bool
    ensures { result ≡ leadsOf kind a }
{
    match kind {
        Kind::Country | Kind::Signer => within(14, 39, a),
        Kind::Triple | Kind::Length | Kind::Two => within(4, 39, a),
        Kind::One => false,
    }
}

// A place at which such a pair is reached among the 256 numbers; `filled` says whether the country's two fillers are.
fn reached_in(kind: Kind, filled: bool, o: usize) -> bool
    ensures { result ≡ reached_in kind filled o }
{
    match kind {
        Kind::Country => filled | (563 <= o),
        Kind::Signer => 564 <= o,
        Kind::Triple => 164 <= o,
        Kind::Length => within(165, 779, o),
        Kind::Two => within(160, 1560, o),
        Kind::One => false,
    }
}

// The number that is one more than `n`, as the first of 256.
pub(crate) fn starts(kind: Kind, n: usize) -> bool
    ensures { result ≡ bothOf (leadsOf kind (first (n + 1))) (starts_in kind (place (n + 1))) }
{
    let v = split(n);
    let o = v.b * 40 + v.c;
    leads(kind, v.a) & reached_in(kind, o <= 123, o)
}

// The number that is one more than `n`, as the last of 256.
pub(crate) fn ends(kind: Kind, n: usize) -> bool
    ensures { result ≡ bothOf (leadsOf kind (first (n + 1))) (ends_in kind (place (n + 1))) }
{
    let v = split(n);
    let o = v.b * 40 + v.c;
    leads(kind, v.a) & reached_in(kind, within(123, 378, o), o)
}
