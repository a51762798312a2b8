// A DER INTEGER of the signed 64-bit range written (document 01, Signatures; X.690, 8.3).
#![tactic(auto)]

ghost use Rattle.std.specs.Prelude.{◌≡◌, length};
ghost use Rattle.format.specs.Answers.{told, filled};
ghost use Rattle.integers.specs.Calls.{writing, writing_of};

mod content;

use octets::NoRoom;

// Writes a number as an INTEGER from the start of `out`.
pub fn write(v: i64, out: &mut [u8]) -> Result<usize, NoRoom>
    ensures answer { writing_of result ≡ told (writing v (length out.old)) }
    ensures buffer { out.new ≡ filled (writing v (length out.old)) out.old }
{
    let bytes = content::bytes_of(content::word(v));
    let start = content::start_of(&bytes);
    let size = 8 - start;
    if out.len() < size + 2 {
        return Err(NoRoom);
    }
    out[0] = 0x02;
    out[1] = size as u8;
    octets::copy(&bytes[start..], out, 2);
    Ok(size + 2)
}
