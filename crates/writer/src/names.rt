// Country, signer and reference put down in C40 (document 01, Layout). Their characters were judged, so each has a value without a test.
ghost use Rattle.std.specs.Prelude.{◌≡◌, ◌⊎◌, true, ◌+◌, ◌<◌, ◌≤◌, map, length, take, drop};
ghost use Rattle.format.specs.Bytes.{All};
ghost use Rattle.format.specs.Buffer.{over};
ghost use Rattle.pairs.specs.Chart.{value_of};
ghost use Rattle.pairs.specs.Pairs.{triple};
ghost use Rattle.c40.specs.Text.{publish as c40};
ghost use Rattle.grammar.specs.Legal.{Letter, LetterOrDigit, Filler};
ghost use Rattle.grammar.specs.Publish.{carried, names as names_in};
ghost use Rattle.fields.specs.Characters.{is_country};
ghost use Rattle.write_given.specs.Given.{three_of};
ghost use Rattle.write_judge.specs.Needs.{Room, Named};

use octets::{low, wide};
use versions::Version;
use write_text::put_text;

// The value of a letter or digit.
pub(crate) fn value(c: u8) -> usize
    requires { LetterOrDigit c }
    ensures { result ≡ value_of c }
{
    let n = wide(c);
    if 65 <= n {
        return n - 51;
    }
    n - 44
}

// The value of a letter or filler, which is carried as a space.
pub(crate) fn value_in_country(c: u8) -> usize
    requires { Letter c ⊎ Filler c }
    ensures { result ≡ value_of (carried c) }
{
    if c == b'<' {
        return 3;
    }
    wide(c) - 51
}

// Puts down three values as a pair: 1600a + 40b + c + 1, big-endian.
pub(crate) fn put_values(a: usize, b: usize, c: usize, out: &mut [u8], at: usize) -> usize
    requires { (a < 40) × (b < 40) × (c < 40) × (at + 2 ≤ length out.old) }
    ensures place { result ≡ at + 2 }
    ensures buffer { out.new ≡ over out.old at (triple a b c) }
{
    let number = 1600 * a + 40 * b + c + 1;
    out[at] = low(number >> 8);
    out[at + 1] = low(number);
    at + 2
}

// Puts down the country.
pub(crate) fn put_country(code: [u8; 3], out: &mut [u8], at: usize) -> usize
    requires { (is_country 60 code ≡ true) × (at + 2 ≤ length out.old) }
    ensures place { result ≡ at + 2 }
    ensures buffer { out.new ≡ over out.old at (c40 (map carried (three_of code))) }
{
    put_values(
        value_in_country(code[0]),
        value_in_country(code[1]),
        value_in_country(code[2]),
        out,
        at,
    )
}

// Puts down the three characters of text from a place on.
pub(crate) fn put_three(text: &[u8], i: usize, out: &mut [u8], at: usize) -> usize
    requires { All LetterOrDigit text.now × (i + 3 ≤ length text.now) × (at + 2 ≤ length out.old) }
    ensures place { result ≡ at + 2 }
    ensures buffer { out.new ≡ over out.old at (c40 (take 3 (drop i text.now))) }
{
    put_values(
        value(text[i]),
        value(text[i + 1]),
        value(text[i + 2]),
        out,
        at,
    )
}

// Puts down signer and reference: in version 3 nine characters; in version 4 the signer, the reference's length in two hexadecimal
// digits, whose values are 4 more than what they stand for, and then the reference, which begins a pair of its own.
pub(crate) fn put_names(version: Version, text: &[u8], out: &mut [u8], at: usize) -> usize
    requires { Named version text.now × Room out.old at (names_in version (take 4 text.now) (drop 4 text.now)) }
    ensures place { result ≡ at + length (names_in version (take 4 text.now) (drop 4 text.now)) }
    ensures buffer { out.new
        ≡ over out.old at (names_in version (take 4 text.now) (drop 4 text.now)) }
{
    let second = put_three(text, 0, out, at);
    if let Version::Three = version {
        let third = put_three(text, 3, out, second);
        return put_three(text, 6, out, third);
    }
    let size = text.len() - 4;
    let next = put_values(
        value(text[3]),
        (size >> 4) + 4,
        (size & 15) + 4,
        out,
        second,
    );
    put_text(&text[4..], out, next)
}
