// Dates and single INTEGERs.
ghost use Rattle.std.specs.Prelude.{◌≡◌, length};
ghost use Rattle.format.specs.Answers.{told, filled};
ghost use Rattle.dates.specs.Calls.{from_number, to_number};
ghost use Rattle.integers.specs.Calls.{reading, writing};
ghost use Rattle.face.specs.Face.{filled_of, dated_of, numbered_of, integer_of, inner_date};

use dates::Date;
use face::{FrDate, FrDated, FrFilled, FrInteger, FrNumbered};

// The date whose number MMDDYYYY this is: `Date::from_number`.
pub fn fr_date_from_number(number: usize) -> FrDated
    ensures { result ≡ dated_of (from_number number) }
{
    answers_numbers::date_taken(Date::from_number(number))
}

// The date's number MMDDYYYY: `Date::number`.
pub fn fr_date_to_number(date: FrDate) -> FrNumbered
    ensures { result ≡ numbered_of (to_number (inner_date date)) }
{
    answers_numbers::date_numbered(Date::from(date).number())
}

// Reads one whole INTEGER, 1 to 8 bytes of content: `integers_read::read`.
pub fn fr_integer_read(bytes: &[u8]) -> FrInteger
    ensures { result ≡ integer_of (reading bytes.now) }
{
    answers_numbers::integer_read(integers_read::read(bytes))
}

// Writes a number as an INTEGER from the start of `out`: `integers_write::write`.
pub fn fr_integer_write(value: i64, out: &mut [u8]) -> FrFilled
    ensures answer { result ≡ filled_of (told (writing value (length out.old))) }
    ensures buffer { out.new ≡ filled (writing value (length out.old)) out.old }
{
    answers_numbers::integer_written(integers_write::write(value, out))
}
