// The lines of a listing that say where a part of the seal stands: the features, and the signature.
ghost use Rattle.lines.specs.Line.{ascii};
ghost use Rattle.lines.specs.Written.{Puts};
ghost use Rattle.list_lines.specs.ListLine.{line_of};
ghost use Rattle.listing.specs.Listed.{part, feature};
ghost use Rattle.listing.specs.Listing.{features};

use lines::Line;
use rows::TableRows;

// Puts down where a part stands.
fn put_part(line: &mut Line, place: usize, length: usize)
    ensures { Puts line.old (part place length) line.new }
{
    line.text(b" at ");
    line.number(place);
    line.text(b" length ");
    line.number(length);
}

// Puts down the line of a feature.
fn put_feature(line: &mut Line, tag: usize, place: usize, length: usize)
    ensures { Puts line.old (feature tag place length) line.new }
{
    line.text(b"feature ");
    line.number(tag);
    put_part(line, place, length);
    line.put(b'\n');
}

// Puts down a line for each of `count` rows, as far as the table has them.
pub(crate) fn put_features(line: &mut Line, count: usize, table: &[usize])
    ensures { Puts line.old (features count table.now) line.new }
{
    for row in TableRows::of(table).take(count) {
        put_feature(line, row.tag, row.place, row.size);
    }
}

// Puts down the line of the signature.
pub(crate) fn put_signature(line: &mut Line, place: usize, length: usize)
    ensures { Puts line.old (line_of (ascii "signature") (part place length)) line.new }
{
    line.text(b"signature");
    put_part(line, place, length);
    line.put(b'\n');
}
