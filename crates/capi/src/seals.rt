// Whole seals: read, judged and written, and why one is refused.
ghost use Rattle.std.specs.Prelude.{◌≡◌, length};
ghost use Rattle.format.specs.Answers.{told, filled};
ghost use Rattle.reading.specs.Calls.{answer_of, reading, rows_in, text_in, then};
ghost use Rattle.verdict.specs.Judge.{judge};
ghost use Rattle.front_header.specs.Header.{front};
ghost use Rattle.write_given.specs.Given.{given};
ghost use Rattle.write_judge.specs.Calls.{writing};
ghost use Rattle.face.specs.Face.{filled_of};
ghost use Rattle.face_seals.specs.Face.{reading_of, inner_header};
ghost use Rattle.face_why.specs.Face.{reason_of};
ghost use Rattle.why.specs.Told.{told as reason};

use face::FrFilled;
use face_seals::{FrHeader, FrReading};
use face_why::FrReason;

// Reads a seal: `front_reading::read`. On 0 a row for each feature stands in `table`, and signer and reference in `text`; on any
// other number both stay, and every field but number, place and front is 0.
pub fn fr_read(seal: &[u8], table: &mut [usize], text: &mut [u8]) -> FrReading
    ensures answer { result
        ≡ reading_of (answer_of (reading seal.now (length table.old) (length text.old)))
        (front seal.now) }
    ensures rows { table.new
        ≡ then (rows_in (reading seal.now (length table.old) (length text.old))) table.old }
    ensures names { text.new
        ≡ then (text_in (reading seal.now (length table.old) (length text.old))) text.old }
{
    let read = front_reading::read(seal, table, text);
    FrReading::of(read.reading, read.front)
}

// The verdict on a seal, with nothing lent: `front_reading::judge`.
pub fn fr_judge(seal: &[u8]) -> FrReading
    ensures { result ≡ reading_of (answer_of (judge seal.now)) (front seal.now) }
{
    let judged = front_reading::judge(seal);
    FrReading::of(judged.reading, judged.front)
}

// Why a seal is refused, and every field 0 for an accepted one: `why::why`.
pub fn fr_why(seal: &[u8]) -> FrReason
    ensures { result ≡ reason_of (reason seal.now) }
{
    FrReason::from(why::why(seal))
}

// Writes a seal from the start of `out`: `writer::write`. The rows are the reader's, over `values`; a refusal leaves `out` as it was.
pub fn fr_write(
    header: FrHeader,
    text: &[u8],
    rows: &[usize],
    values: &[u8],
    signature: &[u8],
    out: &mut [u8],
) -> FrFilled
    ensures answer { result ≡ filled_of (told (writing
        (given (inner_header header) text.now rows.now values.now signature.now)
        (length out.old))) }
    ensures buffer { out.new ≡ filled (writing
        (given (inner_header header) text.now rows.now values.now signature.now)
        (length out.old)) out.old }
{
    answers_seals::written(writer::write(header.into(), text, rows, values, signature, out))
}
