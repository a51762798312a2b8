// Text written in C40 bytes (document 01, C40; Doc 9303-13, 2.6).
#![tactic(auto)]

ghost use Rattle.std.specs.Prelude.{◌≡◌, length};
ghost use Rattle.format.specs.Answers.{told, filled};
ghost use Rattle.c40.specs.Calls.{writing, writing_of};

mod encode;
mod turned;

use c40::WriteError;
pub use turned::{Turned, turned_chart};

// Writes text into `out` as C40 bytes, and answers their count: all characters are judged before the room is, and both before the first
// byte is written.
pub fn write(text: &[u8], out: &mut [u8]) -> Result<usize, WriteError>
    ensures answer { writing_of result ≡ told (writing text.now (length out.old)) }
    ensures buffer { out.new ≡ filled (writing text.now (length out.old)) out.old }
{
    let n = text.len();
    if 6144 < n {
        return Err(WriteError::TooLong);
    }
    let values = turned_chart();
    if !values.all_known(text) {
        return Err(WriteError::Stranger(values.known(text)));
    }
    let size = octets::threes(n + 2) * 2;
    if out.len() < size {
        return Err(WriteError::NoRoom);
    }
    values.put(text, out);
    Ok(size)
}
