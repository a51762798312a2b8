// What reader and writer share of a seal's fields (document 01, Layout): the header that both carry, the tests of its
// characters, and the length of a signature.
#![tactic(auto)]

ghost use Rattle.std.specs.Prelude.{◌≡◌, [], ◌∷◌};
ghost use Rattle.fields.specs.Characters as character;

mod signature;

use dates::Date;
pub use signature::is_signature;

// The header of a seal, as the reader gives it and the writer takes it: the version's number, 3 or 4, the country with fillers as `<`, and
// the reference's length L.
#[derive(Clone, Copy)]
pub struct Header {
    pub version: usize,
    pub country: [u8; 3],
    pub length: usize,
    pub issued: Date,
    pub signed: Date,
    pub definition: usize,
    pub category: usize,
}

// A letter, in upper case.
fn is_letter(c: u8) -> bool
    ensures { result ≡ character.is_letter c }
{
    matches!(c, b'A'..=b'Z')
}

// A digit.
fn is_digit(c: u8) -> bool
    ensures { result ≡ character.is_digit c }
{
    matches!(c, b'0'..=b'9')
}

// A letter or a digit.
fn is_letter_or_digit(c: u8) -> bool
    ensures { result ≡ character.is_letter_or_digit c }
{
    is_letter(c) || is_digit(c)
}

// Which characters a reference may have: the one test of them.
fn is_reference(c: u8) -> bool
    ensures { result ≡ character.is_reference c }
{
    is_letter_or_digit(c)
}

// Whether all of a text may stand in a reference.
pub fn all_reference(text: &[u8]) -> bool
    ensures { result ≡ character.all character.is_reference text.now }
{
    text.iter().all(|c| is_reference(*c))
}

// Two letters, then two letters or digits.
pub fn is_signer(a: u8, b: u8, c: u8, d: u8) -> bool
    ensures { result ≡ character.is_signer (a ∷ b ∷ c ∷ d ∷ []) }
{
    is_letter(a) && is_letter(b) && is_letter_or_digit(c) && is_letter_or_digit(d)
}

// A country, fillers as `filler`: a letter first, and no letter after a filler.
pub fn is_country(a: u8, b: u8, c: u8, filler: u8) -> bool
    ensures { result ≡ character.is_country filler (a ∷ b ∷ c ∷ []) }
{
    if is_letter(b) {
        return is_letter(a) && (is_letter(c) || c == filler);
    }
    is_letter(a) && b == filler && c == filler
}

// A filler is given as `<`.
pub fn shown(c: u8) -> u8
    ensures { result ≡ character.shown c }
{
    if c == b' ' { b'<' } else { c }
}
