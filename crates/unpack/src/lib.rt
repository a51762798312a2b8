// What a pair of C40 bytes carries (document 01, C40; Doc 9303-13, 2.6.2).
#![tactic(auto)]

ghost use Rattle.std.specs.Prelude.{◌≡◌, false, ◌+◌, ◌*◌, ◌<◌, eqb, length, Ok};
ghost use Rattle.pairs.specs.Chart.{the_chart};
ghost use Rattle.pairs.specs.Pairs.{pair_of, chars_of, first, second, third};

use octets::wide;
use pairs::{Fault, Pair, Values, value_of};

// The three values of the number that is one more than `n` (Doc 9303-13, 2.6.2): the forties in `n` leave the third; the forties in these
// are the first, and leave the second.
pub fn split(n: usize) -> Values
    ensures { (result.a ≡ first (n + 1)) × ((result.b ≡ second (n + 1)) × (result.c ≡ third (n + 1))) }
{
    let forties = octets::tens(n) >> 2;
    let a = octets::tens(forties) >> 2;
    Values {
        a,
        b: forties - a * 40,
        c: n - forties * 40,
    }
}

// Whether a pair carries three characters: its number is in range, and none of its three values is a shift. Nothing is divided for it.
// 107374183 is 2^32 / 40 and a little, so the low 32 bits of `n` times 107374183 are the third value times 107374183, and a little: below 3
// times 107374183 exactly where the third value is below 3. By 2684355, which is 2^32 / 1600 and a little, they tell in the same way what
// the sixteen hundreds leave, which is below 120 exactly where the second value is below 3. The first is, where the number is below 4,801.
pub fn is_full(x: u8, y: u8) -> bool
    ensures { result ≡ eqb (length (chars_of (pair_of the_chart false x y))) 3 }
{
    let number = wide(x) * 256 + wide(y);
    if number < 4801 {
        return false;
    }
    if 64000 < number {
        return false;
    }
    let n = number - 1;
    if (n * 107374183) & 4294967295 < 322122549 {
        return false;
    }
    322122600 <= (n * 2684355) & 4294967295
}

// What a pair over 64,000 carries: one character, FE and its code plus 1, and only as the last pair.
fn single(chart: &[u8; 40], x: u8, y: u8, last: bool) -> Result<Pair, Fault>
    requires { 64000 < x * 256 + y }
    ensures { result ≡ pair_of chart.now last x y }
{
    if x != 0xFE {
        return Err(Fault::OutOfRange);
    }
    if !last {
        return Err(Fault::Single);
    }
    if y == 0 {
        return Err(Fault::Single);
    }
    let c = y - 1;
    if chart[value_of(c)] != c {
        return Err(Fault::Single);
    }
    Ok(Pair::One(c))
}

// What the pair `x`, `y` carries by the chart that is lent, or its fault.
pub fn pair_of(chart: &[u8; 40], x: u8, y: u8, last: bool) -> Result<Pair, Fault>
    ensures { result ≡ pair_of chart.now last x y }
{
    let number = wide(x) * 256 + wide(y);
    if number == 0 {
        return Err(Fault::OutOfRange);
    }
    if 64000 < number {
        return single(chart, x, y, last);
    }
    let v = split(number - 1);
    let a = v.a;
    let b = v.b;
    let c = v.c;
    if a < 3 {
        return Err(Fault::Shift);
    }
    if b < 3 {
        return Err(Fault::Shift);
    }
    if 3 <= c {
        return Ok(Pair::Three(chart[a], chart[b], chart[c]));
    }
    if c == 0 {
        if last {
            return Ok(Pair::Two(chart[a], chart[b]));
        }
    }
    Err(Fault::Shift)
}

// How many characters a pair carries; none where it is wrongly coded.
pub fn carried(pair: Result<Pair, Fault>) -> usize
    ensures { result ≡ length (chars_of pair) }
{
    match pair {
        Ok(Pair::Three(_, _, _)) => 3,
        Ok(Pair::Two(_, _)) => 2,
        Ok(Pair::One(_)) => 1,
        Err(_) => 0,
    }
}
