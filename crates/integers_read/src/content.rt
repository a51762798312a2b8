// The number that the content of an INTEGER carries: two's complement, the shortest form.
ghost use Rattle.std.specs.Prelude.{◌≡◌, [], ◌∷◌, ◌<◌, ◌≤◌, length};
ghost use Rattle.integers.specs.Integer.{value_of};
ghost use Rattle.integers.specs.Calls.{content as content_of, reading_of};

use der::is_redundant;
use integers::NotOne;

// The first byte, which has the sign.
fn signed(x: u8) -> i64
    ensures { result ≡ value_of (x ∷ []) }
{
    let value = x as i64;
    if 0x80 <= x {
        return value - 256;
    }
    value
}

// The number that content carries, 1 to 8 bytes of the shortest form; byte by byte without a loop, as a loop over so few costs more to set
// up than it saves.
pub(crate) fn value_of(content: &[u8]) -> Result<i64, NotOne>
    requires { (0 < length content.now) × (length content.now ≤ 8) }
    ensures { reading_of result ≡ content_of content.now }
{
    let n = content.len();
    let v0 = signed(content[0]);
    if n == 1 {
        return Ok(v0);
    }
    if is_redundant(content[0], content[1]) {
        return Err(NotOne);
    }
    let v1 = v0 * 256 + (content[1] as i64);
    if n == 2 {
        return Ok(v1);
    }
    let v2 = v1 * 256 + (content[2] as i64);
    if n == 3 {
        return Ok(v2);
    }
    let v3 = v2 * 256 + (content[3] as i64);
    if n == 4 {
        return Ok(v3);
    }
    let v4 = v3 * 256 + (content[4] as i64);
    if n == 5 {
        return Ok(v4);
    }
    let v5 = v4 * 256 + (content[5] as i64);
    if n == 6 {
        return Ok(v5);
    }
    let v6 = v5 * 256 + (content[6] as i64);
    if n == 7 {
        return Ok(v6);
    }
    Ok(v6 * 256 + (content[7] as i64))
}
