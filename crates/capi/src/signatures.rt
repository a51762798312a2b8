// ECDSA signatures, raw and DER, and the hash that goes with a size.
ghost use Rattle.std.specs.Prelude.{◌≡◌, length};
ghost use Rattle.format.specs.Answers.{told, filled};
ghost use Rattle.ecdsa.specs.Calls.{to_der, to_raw, hash_for};
ghost use Rattle.face.specs.Face.{filled_of, hashed_of};

use face::{FrFilled, FrHashed};

// Writes the DER form of a raw signature from the start of `out`: `ecdsa_to_der::to_der`.
pub fn fr_signature_to_der(n: usize, raw: &[u8], out: &mut [u8]) -> FrFilled
    ensures answer { result ≡ filled_of (told (to_der n raw.now (length out.old))) }
    ensures buffer { out.new ≡ filled (to_der n raw.now (length out.old)) out.old }
{
    answers_signatures::der_written(ecdsa_to_der::to_der(n, raw, out))
}

// Writes the raw form of a DER signature from the start of `out`, r then s, n bytes each: `ecdsa_to_raw::to_raw`.
pub fn fr_signature_to_raw(n: usize, der: &[u8], out: &mut [u8]) -> FrFilled
    ensures answer { result ≡ filled_of (told (to_raw n der.now (length out.old))) }
    ensures buffer { out.new ≡ filled (to_raw n der.now (length out.old)) out.old }
{
    answers_signatures::raw_written(ecdsa_to_raw::to_raw(n, der, out))
}

// The hash by n: `ecdsa::hash_for`.
pub fn fr_hash(n: usize) -> FrHashed
    ensures { result ≡ hashed_of (hash_for n) }
{
    answers_signatures::hash_named(ecdsa::hash_for(n))
}
