// The rules that the characters of a text keep, in order, or the first that they break (document 01, Layout).
ghost use Rattle.std.specs.Prelude.{◌≡◌, length};
ghost use Rattle.verdict.specs.Items as read;
ghost use Rattle.read_names.specs.Meaning.{Fits, kept_of, rules_of};

use causes::Rule;

// The texts of a header.
#[derive(Clone, Copy)]
pub enum Kind {
    Country,
    // version 3: signer and reference
    Nine,
    // version 4: signer and the reference's length
    Six,
    Reference,
}

// A letter first, letters and then fillers, which are carried as spaces.
fn in_country(text: &[u8]) -> Result<(), Rule>
    requires { length text.now ≡ 3 }
    ensures { kept_of result ≡ read.in_country text.now }
{
    if fields::is_country(text[0], text[1], text[2], b' ') {
        return Ok(());
    }
    Err(Rule::CountryCode)
}

// Letters and digits.
fn in_reference(text: &[u8]) -> Result<(), Rule>
    ensures { kept_of result ≡ read.in_reference text.now }
{
    if fields::all_reference(text) {
        return Ok(());
    }
    Err(Rule::ReferenceCharacters)
}

// The signer, and then the reference.
fn in_nine(text: &[u8]) -> Result<(), Rule>
    requires { length text.now ≡ 9 }
    ensures { kept_of result ≡ read.in_nine text.now }
{
    if fields::is_signer(text[0], text[1], text[2], text[3]) {
        return in_reference(&text[4..]);
    }
    Err(Rule::SignerCharacters)
}

// The signer, and then two hexadecimal digits that give the reference's length, which is not 0.
fn in_six(text: &[u8]) -> Result<(), Rule>
    requires { length text.now ≡ 6 }
    ensures { kept_of result ≡ read.in_six text.now }
{
    if !fields::is_signer(text[0], text[1], text[2], text[3]) {
        return Err(Rule::SignerCharacters);
    }
    let high = octets::hex_value(text[4]);
    let low = octets::hex_value(text[5]);
    if high == 16 {
        return Err(Rule::HexadecimalDigits);
    }
    if low == 16 {
        return Err(Rule::HexadecimalDigits);
    }
    if high + low == 0 {
        return Err(Rule::NotZero);
    }
    Ok(())
}

// The rules of this kind of text.
pub(crate) fn judge(kind: Kind, text: &[u8]) -> Result<(), Rule>
    requires { Fits kind text.now }
    ensures { kept_of result ≡ rules_of kind text.now }
{
    match kind {
        Kind::Country => in_country(text),
        Kind::Nine => in_nine(text),
        Kind::Six => in_six(text),
        Kind::Reference => in_reference(text),
    }
}
