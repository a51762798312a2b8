// What the writer is given, judged (document 01, numbers 21 to 23): header and text. 20 is `Version::from_number`, 24 and 25 are in
// `write_rows`, 26 is `fields::is_signature`.
#![tactic(auto)]

ghost use Rattle.std.specs.Prelude.{◌≡◌};
ghost use Rattle.write_given.specs.Tests as test;
ghost use Rattle.write_given.specs.Tests.Laws.{is_text};

use fields::Header;
use versions::Version;

// Whether text of so many bytes has the size that signer and reference have.
fn is_text_size(version: Version, size: usize) -> bool
    ensures { result ≡ test.is_text_size version size }
{
    if let Version::Three = version {
        return size == 9;
    }
    if size < 5 {
        return false;
    }
    size <= 259
}

// Signer and reference in one text; `length` is the reference's.
fn are_signer_and_reference(version: Version, length: usize, text: &[u8]) -> bool
    ensures { result ≡ is_text version length text.now }
{
    if !is_text_size(version, text.len()) {
        return false;
    }
    if length != text.len() - 4 {
        return false;
    }
    if !fields::is_signer(text[0], text[1], text[2], text[3]) {
        return false;
    }
    fields::all_reference(&text[4..])
}

// Country, signer and reference; the header's L is the reference's length.
pub fn are_names(version: Version, header: Header, text: &[u8]) -> bool
    ensures { result ≡ test.are_names version header text.now }
{
    let country = header.country;
    if !fields::is_country(country[0], country[1], country[2], b'<') {
        return false;
    }
    are_signer_and_reference(version, header.length, text)
}

// Both dates are days.
pub fn are_days(header: Header) -> bool
    ensures { result ≡ test.are_days header }
{
    let issued = header.issued;
    let signed = header.signed;
    if !issued.is_day() {
        return false;
    }
    signed.is_day()
}

// Definition reference and category are 1 to 254.
pub fn are_last(header: Header) -> bool
    ensures { result ≡ test.are_last header }
{
    if header.definition < 1 {
        return false;
    }
    if 254 < header.definition {
        return false;
    }
    if header.category < 1 {
        return false;
    }
    header.category <= 254
}
