// A case of the value of a tag in a main seal and its extension: number, place, which seal, the value's place and length, and its bytes.
ghost use Rattle.case_file.specs.Line.{Onward};

use crate::line::put_line;
use case_file::{Line, after, runs};
use face_walk::FrWhere;

// Puts down where the value of a tag stands, and the part that is shown of it.
fn put_shown<'a>(main: &'a [u8], extension: &'a [u8], tag: usize, out: &mut Line)
    ensures { Onward out.old out.new }
{
    let found = FrWhere::from(shown::where_is(main, extension, tag));
    let value = found.value;
    put_line(
        found.number,
        &[found.place, found.which, value.place, value.length],
        shown::shown(main, extension, tag),
        out,
    );
}

// `x TAG m RUNS e RUNS`: a tag, the main seal and the extension.
pub(crate) fn run_look_up(line: &[u8], out: &mut Line)
    ensures { Onward out.old out.new }
{
    let tag = case_file::any_number(line, 2);
    let mut main = [0u8; 8192];
    let size = runs(line, after(line, b'm'), &mut main);
    let mut extension = [0u8; 8192];
    let length = runs(line, after(line, b'e'), &mut extension);
    put_shown(&main[..size], &extension[..length], tag.value, out);
}
