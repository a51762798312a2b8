// A field of C40 text: whether its bytes are there, whether they are well coded, and then the rules of its kind.
ghost use Rattle.std.specs.Prelude.{◌≡◌, ◌<◌, ◌≤◌, length};
ghost use Rattle.c40.specs.Decode.{decode};
ghost use Rattle.verdict.specs.Items as read;
ghost use Rattle.read_items.specs.Meaning.{step_of};
ghost use Rattle.read_names.specs.Meaning.{Sized, Fits, exact_of, any_text, rules_of};

use crate::rules::{Kind, judge};
use c40::ReadError;
use causes::Rule;
use read_items::{Broken, Cursor};

// Reads bytes that are as many as a text of this size takes; where they are C40 of its size, it stands there. Else it tells the place
// among the bytes of the first pair that is wrongly coded, or of the last if it does not fit the number of characters.
fn fill(bytes: &[u8], text: &mut [u8]) -> Result<(), usize>
    requires { Sized bytes.now text.old }
    ensures { exact_of text.new result ≡ read.exactly (length text.old) (decode 0 bytes.now) }
{
    let last = bytes.len() - 2;
    let read = c40_read::read(bytes, text);
    match read {
        Ok(count) => {
            if count == text.len() {
                return Ok(());
            }
            Err(last)
        }
        Err(error) => match error {
            ReadError::WrongPair(wrong) => Err(wrong.place),
            _ => Err(last),
        },
    }
}

// A field of as many characters as `text` has room for, by its coding alone; a pair that is wrongly coded is told at its own place.
fn coded(at: Cursor, seal: &[u8], text: &mut [u8]) -> Result<Cursor, Broken>
    requires { (0 < length text.old) × (length text.old ≤ 255) }
    ensures { step_of text.new result ≡ read.field (length text.old) any_text at.place seal.now }
{
    let start = at.place;
    let Some(next) = at.skip(seal, octets::threes(text.len() + 2) * 2) else {
        return Err(at.breaks(Rule::There));
    };
    let end = next.place;
    match fill(&seal[start..end], text) {
        Ok(()) => Ok(next),
        Err(pair) => Err(Broken {
            rule: Rule::WellCoded,
            place: start + pair,
        }),
    }
}

// A field of text, put into `text`, which has room for just as many characters as it has; a wrong character is told at the field's place.
pub(crate) fn field(at: Cursor, seal: &[u8], kind: Kind, text: &mut [u8]) -> Result<Cursor, Broken>
    requires { Fits kind text.old }
    ensures { step_of text.new result
        ≡ read.field (length text.old) (rules_of kind) at.place seal.now }
{
    let next = coded(at, seal, text)?;
    judge(kind, text).map_err(|rule| at.breaks(rule))?;
    Ok(next)
}
