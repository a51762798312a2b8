// A raw ECDSA signature to its DER form (document 01, Signatures; Doc 9303-13, 2.4 and Appendix B).
#![tactic(auto)]

ghost use Rattle.std.specs.Prelude.{◌≡◌, length};
ghost use Rattle.format.specs.Answers.{told, filled};
ghost use Rattle.ecdsa.specs.Calls.{to_der, to_der_of};

mod der_form;

use ecdsa::ToDerError;

// Writes the DER form of a raw signature from the start of `out`.
pub fn to_der(n: usize, raw: &[u8], out: &mut [u8]) -> Result<usize, ToDerError>
    ensures answer { to_der_of result ≡ told (to_der n raw.now (length out.old)) }
    ensures buffer { out.new ≡ filled (to_der n raw.now (length out.old)) out.old }
{
    if !ecdsa::is_size(n) {
        return Err(ToDerError::NoSize);
    }
    if raw.len() != 2 * n {
        return Err(ToDerError::WrongLength);
    }
    der_form::put_pair(&raw[..n], &raw[n..], out)
}
