// The content of an INTEGER that carries a number of the signed 64-bit range: two's complement, the shortest form.
ghost use Rattle.std.specs.Prelude.{◌≡◌, ◌<◌, length, drop};
ghost use Rattle.format.specs.BigEndian.{be};
ghost use Rattle.der.specs.Content.{shortest};
ghost use Rattle.integers.specs.Integer.{word as word_of};

use der::is_redundant;
use octets::low;

// A number in two's complement of 64 bits.
pub(crate) fn word(v: i64) -> u64
    ensures { result ≡ word_of v }
{
    if v < 0 {
        let k = -(v + 1);
        return 18446744073709551615 - (k as u64);
    }
    v as u64
}

// Eight bytes of a word, big-endian.
pub(crate) fn bytes_of(w: u64) -> [u8; 8]
    ensures { result ≡ be 8 w }
{
    let n = w as usize;
    [
        low(n >> 56),
        low(n >> 48),
        low(n >> 40),
        low(n >> 32),
        low(n >> 24),
        low(n >> 16),
        low(n >> 8),
        low(n),
    ]
}

// Where the shortest form of eight bytes starts.
pub(crate) fn start_of(bytes: &[u8; 8]) -> usize
    requires { length bytes.now ≡ 8 }
    ensures { (result < 8) × (shortest bytes.now ≡ drop result bytes.now) }
{
    for i in 0..7 {
        if !is_redundant(bytes[i], bytes[i + 1]) {
            return i;
        }
    }
    7
}
