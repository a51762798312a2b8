// The listing of a seal (document 01, "A whole seal and its listing"), put as text into a lent buffer.
#![tactic(auto)]

ghost use Rattle.std.specs.Prelude.{◌≡◌, ◌≤◌, length};
ghost use Rattle.format.specs.Answers.{done, filled};
ghost use Rattle.verdict.specs.Judge.{judge};
ghost use Rattle.lines.specs.Written.{Puts};
ghost use Rattle.listing.specs.Listed.{listed, Enough};
ghost use Rattle.listing.specs.Listing.{accepted, listing};

mod parts;

use lines::Line;
use list_lines::{put_dates, put_names, put_refused};
use reader::Reading;

// How much of its input a program must read: one byte more than the longest seal, so that one that is too long is known.
pub const READ: usize = 4097;

// Room for every listing (specs/Room.antt).
pub const ROOM: usize = 8562;

// Room for signer and reference of every seal. A table of rows::MOST numbers has room for its rows, so 12 is never listed.
const NAMES: usize = 259;

// The lines of an accepted seal.
fn put_accepted(line: &mut Line, reading: Reading, table: &[usize], text: &[u8])
    ensures { Puts line.old (accepted reading table.now text.now) line.new }
{
    let header = reading.header;
    let country = header.country;
    let signature = reading.signature;
    line.text(b"accepted\n");
    put_names(line, header.version, country, text, header.length);
    put_dates(
        line,
        header.issued,
        header.signed,
        header.definition,
        header.category,
    );
    parts::put_features(line, reading.count, table);
    parts::put_signature(line, signature.place, signature.length);
}

// Puts down the listing of a reading. `reader::read` filled the other two.
fn put_listing(line: &mut Line, reading: Reading, table: &[usize], text: &[u8])
    ensures { Puts line.old (listing reading table.now text.now) line.new }
{
    if reading.number == 0 {
        put_accepted(line, reading, table, text);
        return;
    }
    put_refused(line, reading.number, reading.place);
}

// Puts the listing of the verdict on `seal` at the start of `out` and gives the count of its bytes; past it `out` stays.
pub fn list(seal: &[u8], out: &mut [u8; ROOM]) -> usize
    ensures count { result ≡ length (listed (judge seal.now)) }
    ensures text { out.new ≡ filled (done (listed (judge seal.now))) out.old }
    ensures room { length (listed (judge seal.now)) ≤ ROOM }
    ensures enough { Enough READ }
{
    let mut table = [0usize; rows::MOST];
    let mut text = [0u8; NAMES];
    let reading = reader::read(seal, &mut table, &mut text);
    let mut line = Line::new(out, 0);
    put_listing(&mut line, reading, &table, &text);
    line.at()
}
