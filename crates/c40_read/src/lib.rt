// C40 bytes read as text (document 01, C40; Doc 9303-13, 2.6).
#![tactic(auto)]

ghost use Rattle.std.specs.Prelude.{◌≡◌, length};
ghost use Rattle.format.specs.Answers.{told, filled};
ghost use Rattle.c40.specs.Calls.{reading, reading_of};

mod decode;

use c40::ReadError;

// Reads C40 bytes into `out` as text, and answers the count of its characters: all pairs are judged before the room is, and both before
// the first byte is written.
pub fn read(bytes: &[u8], out: &mut [u8]) -> Result<usize, ReadError>
    ensures answer { reading_of result ≡ told (reading bytes.now (length out.old)) }
    ensures buffer { out.new ≡ filled (reading bytes.now (length out.old)) out.old }
{
    let n = bytes.len();
    if 4096 < n {
        return Err(ReadError::TooLong);
    }
    if n & 1 == 1 {
        return Err(ReadError::Odd(n));
    }
    let chart = decode::Chart::new();
    let count = chart.judge(bytes)?;
    if out.len() < count {
        return Err(ReadError::NoRoom);
    }
    chart.put(bytes, out);
    Ok(count)
}
