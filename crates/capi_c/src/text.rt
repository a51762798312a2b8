// C40 text: read and written.
ghost use Rattle.std.specs.Prelude.{◌≡◌, length};
ghost use Rattle.format.specs.Answers.{told, filled};
ghost use Rattle.c40.specs.Calls.{reading, writing};
ghost use Rattle.face.specs.Face.{filled_of};

use face::FrFilled;

// Reads C40 bytes into `out` as text.
#[unsafe(no_mangle)]
pub extern "C" fn fr_c40_read(bytes: &[u8], out: &mut [u8]) -> FrFilled
    ensures answer { result ≡ filled_of (told (reading bytes.now (length out.old))) }
    ensures buffer { out.new ≡ filled (reading bytes.now (length out.old)) out.old }
{
    capi::fr_c40_read(bytes, out)
}

// Writes text into `out` as C40 bytes.
#[unsafe(no_mangle)]
pub extern "C" fn fr_c40_write(text: &[u8], out: &mut [u8]) -> FrFilled
    ensures answer { result ≡ filled_of (told (writing text.now (length out.old))) }
    ensures buffer { out.new ≡ filled (writing text.now (length out.old)) out.old }
{
    capi::fr_c40_write(text, out)
}
