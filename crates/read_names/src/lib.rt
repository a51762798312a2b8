// The items that are C40 text: country, signer and reference, each put into a lent buffer of its size (document 01, Layout).
#![tactic(auto)]

ghost use Rattle.std.specs.Prelude.{◌≡◌, length};
ghost use Rattle.verdict.specs.Items as read;
ghost use Rattle.read_items.specs.Meaning.{step_of, through, value_or};
ghost use Rattle.read_names.specs.Meaning.{names_of, measured, text_over};

mod rules;
mod text;

use causes::Item;
use read_items::{Broken, Cursor, Refusal};
use rules::Kind;
use versions::Version;

// The country, with fillers as `<`; on a refusal `code` stays.
pub fn country(at: Cursor, seal: &[u8], code: &mut [u8; 3]) -> Result<Cursor, Broken>
    ensures item { step_of code.new result ≡ read.country at.place seal.now }
    ensures buffer { code.new ≡ value_or code.old (read.country at.place seal.now) }
{
    let mut found = [0u8; 3];
    let next = text::field(at, seal, Kind::Country, &mut found)?;
    found[1] = fields::shown(found[1]);
    found[2] = fields::shown(found[2]);
    *code = found;
    Ok(next)
}

// Signer and reference, put one after the other at the start of a text that has room for the longest: the reference's length, L.
fn names_in(
    at: Cursor,
    seal: &[u8],
    version: Version,
    text: &mut [u8],
) -> Result<(usize, Cursor), Refusal>
    requires { length text.old ≡ 259 }
    ensures { names_of text.new result ≡ through measured (read.names version at.place seal.now) }
{
    if let Version::Three = version {
        let nine = text::field(at, seal, Kind::Nine, &mut text[..9]);
        let Ok(next) = nine else {
            return Err(Refusal::unread(Item::Names, nine));
        };
        return Ok((5, next));
    }
    let six = text::field(at, seal, Kind::Six, &mut text[..6]);
    let Ok(after) = six else {
        return Err(Refusal::unread(Item::SignerAndLength, six));
    };
    let size = octets::hex_value(text[4]) * 16 + octets::hex_value(text[5]);
    let end = 4 + size;
    let reference = text::field(after, seal, Kind::Reference, &mut text[4..end]);
    let Ok(next) = reference else {
        let width = octets::threes(size + 2) * 2;
        return Err(Refusal::unread(Item::Reference(width), reference));
    };
    Ok((size, next))
}

// Signer and reference, put one after the other at the start of `text`: the reference's length, L. On a refusal `text` stays.
pub fn signer_and_reference(
    at: Cursor,
    seal: &[u8],
    version: Version,
    text: &mut [u8; 259],
) -> Result<(usize, Cursor), Refusal>
    ensures item { names_of text.new result ≡ through measured (read.names version at.place seal.now) }
    ensures buffer { text.new ≡ text_over text.old (read.names version at.place seal.now) }
{
    let mut found = [0u8; 259];
    let (size, next) = names_in(at, seal, version, &mut found)?;
    let end = 4 + size;
    octets::copy(&found[..end], text, 0);
    Ok((size, next))
}
