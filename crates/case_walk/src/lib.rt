// Cases of the walk over the features of a seal, of its text, and of the look-up of a tag (document 02, Ticket 2).
#![tactic(auto)]

ghost use Rattle.case_file.specs.Line.{Onward};

mod line;
mod look_up;
mod steps;
mod text;

use case_file::Line;

// Runs the case of a line, by its letter; any other line is a comment and gives nothing.
pub fn run_line(line: &[u8], out: &mut Line)
    ensures { Onward out.old out.new }
{
    match case_file::at(line, 0) {
        b'f' => steps::run_walk(line, out),
        b's' => steps::run_step(line, out),
        b'x' => look_up::run_look_up(line, out),
        b't' => text::run_text(line, out),
        _ => {}
    }
}
