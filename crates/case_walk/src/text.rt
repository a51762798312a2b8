// A case of `walk_lines::tell`: the text, and a line with the count and whether the rest was kept.
ghost use Rattle.case_file.specs.Line.{Onward};

use case_file::{FILLING, Line};
use walk_lines::ROOM;

// Puts down the text for a seal, the count, and whether every byte past it is what it was.
fn put_told(seal: &[u8], out: &mut Line)
    ensures { Onward out.old out.new }
{
    let mut text = [FILLING; ROOM];
    let count = walk_lines::tell(seal, &mut text);
    case_file::put_told(&text, count, out);
}

// `t RUNS`: the text of a walk.
pub(crate) fn run_text(line: &[u8], out: &mut Line)
    ensures { Onward out.old out.new }
{
    let mut seal = [0u8; 8192];
    let size = case_file::runs(line, 1, &mut seal);
    put_told(&seal[..size], out);
}
