// A case of dates, and the line of its answer.
#![tactic(auto)]

ghost use Rattle.case_file.specs.Line.{Onward};

use case_file::{Line, put_answer};
use dates::Date;
use face::{FrDated, FrNumbered};

// Puts down the date of a number: month, day and year.
fn put_taken(taken: FrDated, out: &mut Line)
    ensures { Onward out.old out.new }
{
    let date = taken.date;
    put_answer(out, taken.number, &[date.month, date.day, date.year]);
}

// Puts down the number of a date.
fn put_numbered(numbered: FrNumbered, out: &mut Line)
    ensures { Onward out.old out.new }
{
    put_answer(out, numbered.number, &[numbered.value]);
}

// `d NUMBER`: the date of a number.
fn run_date(line: &[u8], out: &mut Line)
    ensures { Onward out.old out.new }
{
    let number = case_file::number(line, 2);
    put_taken(
        answers_numbers::date_taken(Date::from_number(number.value)),
        out,
    );
}

// `n MONTH DAY YEAR`: the number of a date.
fn run_number(line: &[u8], out: &mut Line)
    ensures { Onward out.old out.new }
{
    let month = case_file::number(line, 2);
    let day = case_file::number(line, month.next + 1);
    let year = case_file::number(line, day.next + 1);
    let date = Date {
        month: month.value,
        day: day.value,
        year: year.value,
    };
    put_numbered(answers_numbers::date_numbered(date.number()), out);
}

// Runs the case of a line, by its letter; any other line gives nothing.
pub fn run_line(line: &[u8], out: &mut Line)
    ensures { Onward out.old out.new }
{
    match case_file::at(line, 0) {
        b'd' => run_date(line, out),
        b'n' => run_number(line, out),
        _ => {}
    }
}
