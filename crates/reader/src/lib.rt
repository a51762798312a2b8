// The reader (document 01): the verdict on every byte string, and for a good seal what it says.
#![tactic(auto)]

ghost use Rattle.std.specs.Prelude.{◌≡◌, length};
ghost use Rattle.verdict.specs.Judge.{judge as verdict};
ghost use Rattle.reading.specs.Calls.{answer_of, reading, rows_in, text_in, then};
ghost use Rattle.reading.specs.Calls.Reads.{Reads};
ghost use Rattle.reader.specs.Given.{Given};

mod table;

use read_items::Cursor;
pub use reading::{Ends, Header, Part, Reading};
use versions::Version;

// The verdict on every byte string.
pub fn judge(seal: &[u8]) -> Reading
    ensures { result ≡ answer_of (verdict seal.now) }
{
    let mut names = [0u8; 259];
    let judged = judging::judge_names(seal, &mut names);
    judged.reading
}

// Gives what a good seal says, if there is room for it: a row for each feature into `table`, signer and reference into `text`.
fn give(
    reading: Reading,
    version: Version,
    names: &[u8],
    seal: &[u8],
    table: &mut [usize],
    text: &mut [u8],
) -> Reading
    requires given { Given seal.now reading version names.now }
    ensures { Reads seal.now table.old text.old result table.new text.new }
{
    if table.len() < rows::WIDTH * reading.count {
        return Reading::refused(12, 0);
    }
    if text.len() < names.len() {
        return Reading::refused(12, 0);
    }
    let start = Cursor {
        place: reading.ends.header,
    };
    table::put_rows(start, seal, version, reading.count, table);
    octets::copy(names, text, 0);
    reading
}

// Reads a seal: on 0 a row for each feature stands in `table`, and signer and reference in `text`; on any other number both stay.
pub fn read(seal: &[u8], table: &mut [usize], text: &mut [u8]) -> Reading
    ensures answer { result ≡ answer_of (reading seal.now (length table.old) (length text.old)) }
    ensures rows { table.new
        ≡ then (rows_in (reading seal.now (length table.old) (length text.old))) table.old }
    ensures names { text.new
        ≡ then (text_in (reading seal.now (length table.old) (length text.old))) text.old }
{
    let mut names = [0u8; 259];
    let judged = judging::judge_names(seal, &mut names);
    let outcome = judged.outcome;
    let Ok(version) = outcome else {
        return judged.reading;
    };
    let size = 4 + judged.reading.header.length;
    give(judged.reading, version, &names[..size], seal, table, text)
}
