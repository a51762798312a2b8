// The text of a walk over the features of a seal (document 02, Ticket 2), put into a lent buffer: a line a feature, or a refusal's line.
#![tactic(auto)]

ghost use Rattle.std.specs.Prelude.{◌≡◌, ◌≤◌, ◌++◌, length};
ghost use Rattle.format.specs.Answers.{done, filled};
ghost use Rattle.verdict.specs.Judge.{judge};
ghost use Rattle.lines.specs.Line.{decimal_of};
ghost use Rattle.lines.specs.Written.{Puts};
ghost use Rattle.walk_lines.specs.Lines.{feature, text_of, TellsOn, Enough};

use lines::Line;
use list_lines::{put_counted, put_refused};
use walk::Row;

// How much of its input a program must read: one byte more than the longest seal, so that one that is too long is known.
pub const READ: usize = 4097;

// Room for every text (specs/Room.antt).
pub const ROOM: usize = 11730;

// Puts down a name and a number.
fn put_named(line: &mut Line, name: &[u8], n: usize)
    ensures { Puts line.old (name.now ++ decimal_of n) line.new }
{
    line.text(name);
    line.number(n);
}

// Puts down the line of a feature.
fn put_feature(line: &mut Line, row: Row)
    ensures { Puts line.old (feature row) line.new }
{
    put_named(line, b"feature ", row.tag);
    put_named(line, b" at ", row.start);
    put_named(line, b" value at ", row.place);
    put_counted(line, b" length ", row.size);
}

// Puts down a line for each feature that the walk finds from a place on.
fn put_features(line: &mut Line, seal: &[u8], start: usize)
    ensures { TellsOn seal.now start line.old line.new }
{
    let mut place = start;
    loop {
        let step = walk::next_at(seal, place);
        if step.number != 0 {
            return;
        }
        put_feature(line, step.row);
        place = step.at;
    }
}

// Puts the text for `seal` at the start of `out` and gives the count of its bytes; past it `out` stays.
pub fn tell(seal: &[u8], out: &mut [u8; ROOM]) -> usize
    ensures count { result ≡ length (text_of (judge seal.now)) }
    ensures text { out.new ≡ filled (done (text_of (judge seal.now))) out.old }
    ensures room { length (text_of (judge seal.now)) ≤ ROOM }
    ensures enough { Enough READ }
{
    let start = walk::start_at(seal);
    let mut line = Line::new(out, 0);
    if start.number != 0 {
        put_refused(&mut line, start.number, start.place);
        return line.at();
    }
    put_features(&mut line, seal, start.at);
    line.at()
}
