// Dates and single INTEGERs.
ghost use Rattle.std.specs.Prelude.{◌≡◌, length};
ghost use Rattle.format.specs.Answers.{told, filled};
ghost use Rattle.dates.specs.Calls.{from_number, to_number};
ghost use Rattle.integers.specs.Calls.{reading, writing};
ghost use Rattle.face.specs.Face.{filled_of, dated_of, numbered_of, integer_of, inner_date};

use face::{FrDate, FrDated, FrFilled, FrInteger, FrNumbered};

// The date whose number MMDDYYYY this is.
#[unsafe(no_mangle)]
pub extern "C" fn fr_date_from_number(number: usize) -> FrDated
    ensures { result ≡ dated_of (from_number number) }
{
    capi::fr_date_from_number(number)
}

// The date's number MMDDYYYY.
#[unsafe(no_mangle)]
pub extern "C" fn fr_date_to_number(date: FrDate) -> FrNumbered
    ensures { result ≡ numbered_of (to_number (inner_date date)) }
{
    capi::fr_date_to_number(date)
}

// Reads one whole INTEGER, 1 to 8 bytes of content.
#[unsafe(no_mangle)]
pub extern "C" fn fr_integer_read(bytes: &[u8]) -> FrInteger
    ensures { result ≡ integer_of (reading bytes.now) }
{
    capi::fr_integer_read(bytes)
}

// Writes a number as an INTEGER from the start of `out`.
#[unsafe(no_mangle)]
pub extern "C" fn fr_integer_write(value: i64, out: &mut [u8]) -> FrFilled
    ensures answer { result ≡ filled_of (told (writing value (length out.old))) }
    ensures buffer { out.new ≡ filled (writing value (length out.old)) out.old }
{
    capi::fr_integer_write(value, out)
}
