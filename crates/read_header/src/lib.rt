// The header, item by item from the left, in two steps (document 01, Layout; Doc 9303-13, 2.2, Table 1).
#![tactic(auto)]

ghost use Rattle.std.specs.Prelude.{◌≡◌};
ghost use Rattle.read_items.specs.Meaning.{through, value_or};
ghost use Rattle.read_names.specs.Meaning.{text_over};
ghost use Rattle.read_header.specs.Steps.{fields as fieldsIn, code_in, names_in, dated, front_of, rest_of};

use causes::Item;
use dates::Date;
use read_items::{Cursor, Refusal};
use versions::Version;

// What the items up to the reference say; country and names are in lent buffers.
#[derive(Clone, Copy, Debug, PartialEq, Eq)]
pub struct Front {
    pub version: Version,
    // the reference's
    pub length: usize,
    pub next: Cursor,
}

// What the items from the dates on say.
#[derive(Clone, Copy)]
pub struct Rest {
    pub issued: Date,
    pub signed: Date,
    pub definition: usize,
    pub category: usize,
    pub next: Cursor,
}

// DC, version, country, signer and reference; on a refusal `country` and `text` stay.
pub fn read_front(
    seal: &[u8],
    country: &mut [u8; 3],
    text: &mut [u8; 259],
) -> Result<Front, Refusal>
    ensures item { front_of country.new text.new result ≡ fieldsIn seal.now }
    ensures code { country.new ≡ value_or country.old (through code_in (fieldsIn seal.now)) }
    ensures names { text.new ≡ text_over text.old (through names_in (fieldsIn seal.now)) }
{
    let start = Cursor { place: 0 };
    let mark = start.mark(seal);
    let Ok(at) = mark else {
        return Err(Refusal::unread(Item::Mark, mark));
    };
    let edition = at.version(seal);
    let Ok((version, at2)) = edition else {
        return Err(Refusal::unread(Item::Version, edition));
    };
    let mut found = [0u8; 3];
    let code = read_names::country(at2, seal, &mut found);
    let Ok(at3) = code else {
        return Err(Refusal::unread(Item::Country, code));
    };
    let (length, next) = read_names::signer_and_reference(at3, seal, version, text)?;
    *country = found;
    Ok(Front {
        version,
        length,
        next,
    })
}

// Issue date, signature date, definition reference, category.
pub fn read_rest(at: Cursor, seal: &[u8]) -> Result<Rest, Refusal>
    ensures { rest_of result ≡ dated at.place seal.now }
{
    let issue_date = at.date(seal);
    let Ok((issued, at2)) = issue_date else {
        return Err(Refusal::unread(Item::Issued, issue_date));
    };
    let signature_date = at2.date(seal);
    let Ok((signed, at3)) = signature_date else {
        return Err(Refusal::unread(Item::Signed, signature_date));
    };
    let definition_read = at3.last(seal);
    let Ok((definition, at4)) = definition_read else {
        return Err(Refusal::unread(Item::Definition, definition_read));
    };
    let category_read = at4.last(seal);
    let Ok((category, next)) = category_read else {
        return Err(Refusal::unread(Item::Category, category_read));
    };
    Ok(Rest {
        issued,
        signed,
        definition,
        category,
        next,
    })
}
