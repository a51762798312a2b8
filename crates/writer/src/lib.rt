// The writer (document 01): a seal from its header, text, rows over a values buffer, and raw signature.
#![tactic(auto)]

ghost use Rattle.std.specs.Prelude.{◌≡◌, length};
ghost use Rattle.format.specs.Answers.{told, filled};
ghost use Rattle.write_given.specs.Given.{given};
ghost use Rattle.write_judge.specs.Calls.{writing, writing_of};

mod names;
mod put;

use fields::Header;
use versions::Version;
pub use write_judge::Refused;

// Writes a seal from the start of `out`. The rows are the reader's: tag, place and length of the value in `values`. All
// is judged before the first byte is written, so a refusal leaves `out` as it was.
pub fn write(
    header: Header,
    text: &[u8],
    rows: &[usize],
    values: &[u8],
    signature: &[u8],
    out: &mut [u8],
) -> Result<usize, Refused>
    ensures answer { writing_of result ≡ told (writing
        (given header text.now rows.now values.now signature.now)
        (length out.old)) }
    ensures buffer { out.new ≡ filled (writing
        (given header text.now rows.now values.now signature.now)
        (length out.old)) out.old }
{
    let size = write_judge::judge(header, text, rows, values, signature, out.len())?;
    // the judging passed, so there is a version
    let Ok(version) = Version::from_number(header.version) else {
        return Err(Refused::Version);
    };
    put::put_seal(version, header, text, rows, values, signature, out);
    Ok(size)
}
