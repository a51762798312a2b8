// A case of a whole walk, and one of a single step: a line for each answer.
ghost use Rattle.case_file.specs.Line.{Onward};

use crate::line::put_line;
use case_file::{Line, put_answer};
use walk::Step;

// Puts down the line of a step: every field in its order, and the value that it found.
fn put_step(step: Step, value: &[u8], out: &mut Line)
    ensures { Onward out.old out.new }
{
    let row = step.row;
    put_line(
        step.number,
        &[step.place, row.tag, row.start, row.place, row.size, step.at],
        value,
        out,
    );
}

// Puts down the steps of a walk from a place on, up to the first that finds no further feature, and gives the place that this one gave.
fn put_walk(seal: &[u8], start: usize, out: &mut Line) -> usize
    ensures { Onward out.old out.new }
{
    let mut at = start;
    // each step's place is in the answer before it, so nothing counts them
    loop {
        let step = walk::next_at(seal, at);
        put_step(step, walk::value_at(seal, at), out);
        at = step.at;
        if step.number != 0 {
            return at;
        }
    }
}

// Puts down four steps more, each asked at the place that the answer before it gave: a walk that has ended says so again and again.
fn put_ended(seal: &[u8], start: usize, out: &mut Line)
    ensures { Onward out.old out.new }
{
    let mut at = start;
    for _ in 0..4 {
        let step = walk::next_at(seal, at);
        put_step(step, walk::value_at(seal, at), out);
        at = step.at;
    }
}

// Puts down the opening of a walk, the steps to its end, and those after it.
fn put_whole(seal: &[u8], out: &mut Line)
    ensures { Onward out.old out.new }
{
    let start = walk::start_at(seal);
    put_answer(out, start.number, &[start.place, start.at]);
    let end = put_walk(seal, start.at, out);
    put_ended(seal, end, out);
}

// `f RUNS`: a whole walk.
pub(crate) fn run_walk(line: &[u8], out: &mut Line)
    ensures { Onward out.old out.new }
{
    let mut seal = [0u8; 8192];
    let size = case_file::runs(line, 1, &mut seal);
    put_whole(&seal[..size], out);
}

// `s AT RUNS`: one step at a place.
pub(crate) fn run_step(line: &[u8], out: &mut Line)
    ensures { Onward out.old out.new }
{
    let place = case_file::any_number(line, 2);
    let mut bytes = [0u8; 8192];
    let size = case_file::runs(line, place.next, &mut bytes);
    let seal = &bytes[..size];
    let at = place.value;
    put_step(walk::next_at(seal, at), walk::value_at(seal, at), out);
}
