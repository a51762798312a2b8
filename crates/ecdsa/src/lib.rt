// ECDSA signatures (document 01, Signatures; Doc 9303-13, 2.4 and Appendix B): what the calls on them answer, the sizes
// and the choice of hash.
#![tactic(auto)]

ghost use Rattle.std.specs.Prelude.{◌≡◌};
ghost use Rattle.ecdsa.specs.Signature.{is_size};
ghost use Rattle.ecdsa.specs.Calls.{hash_for, hash_of};

// Why a raw signature has no DER form written; `to_der_of` of specs/Calls.antt gives each case its number.
#[derive(Clone, Copy, Debug, PartialEq, Eq)]
pub enum ToDerError {
    // 60: n is not one of the five sizes
    NoSize,
    // 61: raw length is not 2n
    WrongLength,
    // 63
    NoRoom,
}

// Why a DER signature has no raw form written; `to_raw_of` of specs/Calls.antt gives each case its number.
#[derive(Clone, Copy, Debug, PartialEq, Eq)]
pub enum ToRawError {
    // 60: n is not one of the five sizes
    NoSize,
    // 62: not strict DER, with bytes left over, negative, or too big for n
    NotStrict,
    // 63
    NoRoom,
}

// The digits of an INTEGER at the head of a byte string that is strict, not negative and not too big: where they start, and one past
// their end.
#[derive(Clone, Copy, Debug, PartialEq, Eq)]
pub struct Digits {
    pub start: usize,
    pub end: usize,
}

// The hash that goes with n.
#[derive(Clone, Copy, Debug, PartialEq, Eq)]
pub enum Hash {
    Sha224,
    Sha256,
    Sha384,
    Sha512,
}

// The error of n that is not one of the five sizes: 60, by `hash_of` of specs/Calls.antt.
#[derive(Clone, Copy, Debug, PartialEq, Eq)]
pub struct NoSize;

// Whether n is one of the five sizes.
#[tactic(auto, unfolding(crate::specs::Signature::is_size))]
pub fn is_size(n: usize) -> bool
    ensures { result ≡ is_size n }
{
    matches!(n, 28 | 32 | 48 | 64 | 66)
}

// The hash by n.
pub fn hash_for(n: usize) -> Result<Hash, NoSize>
    ensures { hash_of result ≡ hash_for n }
{
    match n {
        28 => Ok(Hash::Sha224),
        32 => Ok(Hash::Sha256),
        48 => Ok(Hash::Sha384),
        64 => Ok(Hash::Sha512),
        66 => Ok(Hash::Sha512),
        _ => Err(NoSize),
    }
}
