// A case of `listing::list`: the listing, and a line with the count and whether the rest was kept.
#![tactic(auto)]

ghost use Rattle.case_file.specs.Line.{Onward};

use case_file::{FILLING, Line, at, put_told};
use listing::ROOM;

// Puts down the listing of a seal, the count, and whether every byte past it is what it was.
fn run_case(seal: &[u8], out: &mut Line)
    ensures { Onward out.old out.new }
{
    let mut text = [FILLING; ROOM];
    let count = listing::list(seal, &mut text);
    put_told(&text, count, out);
}

// Runs the case of a line, `l RUNS`; any other line is a comment and gives nothing.
pub fn run_line(line: &[u8], out: &mut Line)
    ensures { Onward out.old out.new }
{
    if at(line, 0) != b'l' {
        return;
    }
    let mut seal = [0u8; 8192];
    let size = case_file::runs(line, 1, &mut seal);
    run_case(&seal[..size], out);
}
