// A case of the front part: number and place of the verdict and the front part beside them, and whether a reading without room tells the
// same front part.
#![tactic(auto)]

ghost use Rattle.case_file.specs.Line.{Onward};

use case_file::{Line, at, put_place};
use front_reading::Fronted;

// Puts down number and place, and the front part.
fn put_front(judged: Fronted, out: &mut Line)
    ensures { Onward out.old out.new }
{
    let reading = judged.reading;
    put_place(reading.number, reading.place, out);
    out.text(b" front ");
    out.number(judged.front);
}

// Runs one case, with nothing lent to the reading.
fn run_case(seal: &[u8], out: &mut Line)
    ensures { Onward out.old out.new }
{
    let judged = front_reading::judge(seal);
    let read = front_reading::read(seal, &mut [0usize; 0], &mut [0u8; 0]);
    put_front(judged, out);
    if read.front != judged.front {
        out.text(b" read otherwise");
    }
    out.put(b'\n');
}

// Runs the case of a line, `h RUNS`; any other line is a comment and gives nothing.
pub fn run_line(line: &[u8], out: &mut Line)
    ensures { Onward out.old out.new }
{
    if at(line, 0) != b'h' {
        return;
    }
    let mut seal = [0u8; 8192];
    let size = case_file::runs(line, 1, &mut seal);
    run_case(&seal[..size], out);
}
