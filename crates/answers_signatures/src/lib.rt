// What the calls of ECDSA signatures, raw and DER, and of the hash that goes with a size answer, as the C face tells it: number, place and
// count or bits of every case. Each table stands once, for the exported calls of `capi` and for the cases that are run.
#![tactic(auto)]

ghost use Rattle.std.specs.Prelude.{◌≡◌};
ghost use Rattle.ecdsa.specs.Calls.{to_der_of, to_raw_of, hash_of};
ghost use Rattle.face.specs.Face.{filled_of, hashed_of};

use ecdsa::{Hash, NoSize, ToDerError, ToRawError};
use face::{FrFilled, FrHashed};

// Number and count of a DER form.
pub fn der_written(answer: Result<usize, ToDerError>) -> FrFilled
    ensures { result ≡ filled_of (to_der_of answer) }
{
    match answer {
        Ok(count) => FrFilled::done(count),
        Err(ToDerError::NoSize) => FrFilled::refused(60, 0),
        Err(ToDerError::WrongLength) => FrFilled::refused(61, 0),
        Err(ToDerError::NoRoom) => FrFilled::refused(63, 0),
    }
}

// Number and count of a raw form.
pub fn raw_written(answer: Result<usize, ToRawError>) -> FrFilled
    ensures { result ≡ filled_of (to_raw_of answer) }
{
    match answer {
        Ok(count) => FrFilled::done(count),
        Err(ToRawError::NoSize) => FrFilled::refused(60, 0),
        Err(ToRawError::NotStrict) => FrFilled::refused(62, 0),
        Err(ToRawError::NoRoom) => FrFilled::refused(63, 0),
    }
}

// A hash by its bits, with the answer's number.
pub fn hash_named(answer: Result<Hash, NoSize>) -> FrHashed
    ensures { result ≡ hashed_of (hash_of answer) }
{
    match answer {
        Ok(Hash::Sha224) => FrHashed::of_bits(224),
        Ok(Hash::Sha256) => FrHashed::of_bits(256),
        Ok(Hash::Sha384) => FrHashed::of_bits(384),
        Ok(Hash::Sha512) => FrHashed::of_bits(512),
        Err(NoSize) => FrHashed {
            number: 60,
            place: 0,
            bits: 0,
        },
    }
}
