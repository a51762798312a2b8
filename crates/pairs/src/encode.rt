// The number of the pair that three, two or one characters are packed in. None of them is judged here: a caller has done so.
ghost use Rattle.std.specs.Prelude.{◌≡◌, ◌+◌, ◌<◌, ◌≤◌};
ghost use Rattle.pairs.specs.Chart.{value_of};
ghost use Rattle.pairs.specs.Pairs.{packed_of, number};

use crate::chart::value_of;
use octets::wide;

// The number of three values, the third given: 1600a + 40b + c + 1.
fn packed(a: u8, b: u8, c: usize) -> usize
    requires { c < 40 }
    ensures { (result ≡ packed_of (value_of a) (value_of b) c) × (result ≤ 64000) }
{
    1600 * value_of(a) + 40 * value_of(b) + c + 1
}

// The number of a full pair.
pub fn number_of(a: u8, b: u8, c: u8) -> usize
    ensures { (result ≡ packed_of (value_of a) (value_of b) (value_of c)) × (result ≤ 64000) }
{
    packed(a, b, value_of(c))
}

// The number of the last pair where two characters are left over: they are completed with 0.
pub fn number_of_two(a: u8, b: u8) -> usize
    ensures { (result ≡ packed_of (value_of a) (value_of b) 0) × (result ≤ 64000) }
{
    packed(a, b, 0)
}

// The number of the last pair where one is left over: FE and its ASCII code plus 1.
pub fn number_of_one(a: u8) -> usize
    ensures { result ≡ number 0xFE (a + 1) }
{
    0xFE00 + wide(a) + 1
}
