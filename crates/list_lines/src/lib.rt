// The lines of a listing (document 01, "A whole seal and its listing") that say what the header holds, and the line of a refusal. Each
// function writes on from where the line stands, as far as there is room.
#![tactic(auto)]

ghost use Rattle.lines.specs.Written.{Puts};
ghost use Rattle.list_lines.specs.ListLine.{name_lines, date_lines, refusal};

mod date;
mod named;

use dates::Date;
use lines::Line;
use named::put_day;
pub use named::{put_counted, put_named};

// Version, country, signer and reference; `text` has the signer in its first four bytes, and then `size` bytes of the reference.
pub fn put_names(line: &mut Line, version: usize, country: [u8; 3], text: &[u8], size: usize)
    ensures { Puts line.old (name_lines version country text.now size) line.new }
{
    put_counted(line, b"version ", version);
    put_named(line, b"country ", &country, 0, 3);
    put_named(line, b"signer ", text, 0, 4);
    put_named(line, b"reference ", text, 4, size);
}

// Both dates, definition reference and category.
pub fn put_dates(line: &mut Line, issued: Date, signed: Date, definition: usize, category: usize)
    ensures { Puts line.old (date_lines issued signed definition category) line.new }
{
    put_day(line, b"issued ", issued);
    put_day(line, b"signed ", signed);
    put_counted(line, b"definition ", definition);
    put_counted(line, b"category ", category);
}

// The line of a refusal.
pub fn put_refused(line: &mut Line, number: usize, place: usize)
    ensures { Puts line.old (refusal number place) line.new }
{
    line.text(b"refused ");
    line.number(number);
    line.text(b" at ");
    line.number(place);
    line.put(b'\n');
}
