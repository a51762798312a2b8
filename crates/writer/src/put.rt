// The parts of a seal put down one after another (document 01, Layout); each answers the place reached.
ghost use Rattle.std.specs.Prelude.{◌≡◌, ◌+◌, ◌<◌, map, length};
ghost use Rattle.format.specs.Buffer.{over};
ghost use Rattle.dates.specs.Days.{Day, publish as date_in};
ghost use Rattle.grammar.specs.Publish.{length_of, feature, message_zone, publish};
ghost use Rattle.rows.specs.Rows.{rows_of};
ghost use Rattle.verdict.specs.Report.{feature_of};
ghost use Rattle.write_given.specs.Given.{given, content_as};
ghost use Rattle.write_judge.specs.Needs.{Room, Measured, Fitting, Headed, Dated, front, rest, Passed};

use crate::names::{put_country, put_names};
use dates::Date;
use der::Form;
use fields::Header;
use octets::low;
use rows::TableRows;
use versions::Version;

// Puts down a date, which was judged to be a day: its number MMDDYYYY.
pub(crate) fn put_date(date: Date, out: &mut [u8], at: usize) -> usize
    requires { Day date × Room out.old at (date_in date) }
    ensures place { result ≡ at + 3 }
    ensures buffer { out.new ≡ over out.old at (date_in date) }
{
    let number = date.month * 1000000 + date.day * 10000 + date.year;
    out[at] = low(number >> 16);
    out[at + 1] = low(number >> 8);
    out[at + 2] = low(number);
    at + 3
}

// Puts down the header's first items: DC, the version, country, signer and reference.
pub(crate) fn put_front(version: Version, header: Header, text: &[u8], out: &mut [u8]) -> usize
    requires { Headed version header text.now × Room out.old 0 (front version header text.now) }
    ensures place { result ≡ length (front version header text.now) }
    ensures buffer { out.new ≡ over out.old 0 (front version header text.now) }
{
    out[0] = 0xDC;
    out[1] = version.byte();
    let code = header.country;
    let at = put_country(code, out, 2);
    put_names(version, text, out, at)
}

// Puts down the header's last items: both dates, definition reference and category.
pub(crate) fn put_rest(header: Header, out: &mut [u8], at: usize) -> usize
    requires { Dated header × Room out.old at (rest header) }
    ensures place { result ≡ at + 8 }
    ensures buffer { out.new ≡ over out.old at (rest header) }
{
    let signed = put_date(header.issued, out, at);
    let last = put_date(header.signed, out, signed);
    out[last] = header.definition as u8;
    out[last + 1] = header.category as u8;
    last + 2
}

// Puts down a length: one plain byte in version 3 and a DER length in version 4; there is room for it, so none is tested for.
pub(crate) fn put_length(version: Version, size: usize, out: &mut [u8], at: usize) -> usize
    requires { Measured version size × Room out.old at (length_of version size) }
    ensures place { result ≡ at + length (length_of version size) }
    ensures buffer { out.new ≡ over out.old at (length_of version size) }
{
    if let Version::Three = version {
        out[at] = size as u8;
        return at + 1;
    }
    match der::length_form(size) {
        Some(Form::One(a)) => {
            out[at] = a;
            at + 1
        }
        Some(Form::Two(a, b)) => {
            out[at] = a;
            out[at + 1] = b;
            at + 2
        }
        Some(Form::Three(a, b, c)) => {
            out[at] = a;
            out[at + 1] = b;
            out[at + 2] = c;
            at + 3
        }
        // no seal has one
        None => at,
    }
}

// Puts down the bytes of a value from a place on and answers the place reached.
pub(crate) fn put_value(value: &[u8], out: &mut [u8], at: usize) -> usize
    requires { Room out.old at value.now }
    ensures place { result ≡ at + length value.now }
    ensures buffer { out.new ≡ over out.old at value.now }
{
    blocks::copy_lent(value, &mut out[at..]);
    at + value.len()
}

// Puts down a feature; the signature is put down as one too, after its mark FF and with a DER length.
pub(crate) fn put_feature(
    version: Version,
    tag: usize,
    value: &[u8],
    out: &mut [u8],
    at: usize,
) -> usize
    requires { (tag < 256) × Measured version (length value.now)
        × Room out.old at (feature version (record { tag = tag; value = value.now })) }
    ensures place { result ≡ at + length (feature version (record { tag = tag; value = value.now })) }
    ensures buffer { out.new
        ≡ over out.old at (feature version (record { tag = tag; value = value.now })) }
{
    out[at] = tag as u8;
    let next = put_length(version, value.len(), out, at + 1);
    put_value(value, out, next)
}

// Puts down the features of the rows.
pub(crate) fn put_rows(
    version: Version,
    rows: &[usize],
    values: &[u8],
    out: &mut [u8],
    start: usize,
) -> usize
    requires { Fitting version (length values.now) (rows_of rows.now)
        × Room out.old start (message_zone version (map (feature_of values.now) (rows_of rows.now))) }
    ensures place { result ≡ start + length (message_zone version (map (feature_of values.now) (rows_of rows.now))) }
    ensures buffer { out.new
        ≡ over out.old start
        (message_zone version (map (feature_of values.now) (rows_of rows.now))) }
{
    let mut at = start;
    for row in TableRows::of(rows) {
        let place = row.place;
        let end = place + row.size;
        at = put_feature(version, row.tag, &values[place..end], out, at);
    }
    at
}

// Puts down a seal whose parts were judged, from the start of `out`, which has room for it.
pub(crate) fn put_seal(
    version: Version,
    header: Header,
    text: &[u8],
    rows: &[usize],
    values: &[u8],
    signature: &[u8],
    out: &mut [u8],
)
    requires { Passed version (given header text.now rows.now values.now signature.now)
        × Room out.old 0
        (publish (content_as (given header text.now rows.now values.now signature.now) version)) }
    ensures { out.new ≡ over out.old 0
        (publish (content_as
        (given header text.now rows.now values.now signature.now) version)) }
{
    let at = put_front(version, header, text, out);
    let message = put_rest(header, out, at);
    let end = put_rows(version, rows, values, out, message);
    put_feature(Version::Four, 0xFF, signature, out, end);
}
