// The length of a raw signature, which reader and writer test alike (document 01, Sizes).
ghost use Rattle.std.specs.Prelude.{◌≡◌};
ghost use Rattle.fields.specs.Signature.{is_signature};

// Whether this is the length of a raw signature: 2n for n of 28, 32, 48, 64 or 66.
pub fn is_signature(size: usize) -> bool
    ensures { result ≡ is_signature size }
{
    matches!(size, 56 | 64 | 96 | 128 | 132)
}
