// A DER ECDSA signature to its raw form (document 01, Signatures; Doc 9303-13, 2.4 and Appendix B).
#![tactic(auto)]

ghost use Rattle.std.specs.Prelude.{◌≡◌, length};
ghost use Rattle.format.specs.Answers.{told, filled};
ghost use Rattle.ecdsa.specs.Calls.{to_raw, to_raw_of};

mod raw_form;

use ecdsa::ToRawError;

// Writes the raw form of a DER signature from the start of `out`: r then s, n bytes each.
pub fn to_raw(n: usize, der: &[u8], out: &mut [u8]) -> Result<usize, ToRawError>
    ensures answer { to_raw_of result ≡ told (to_raw n der.now (length out.old)) }
    ensures buffer { out.new ≡ filled (to_raw n der.now (length out.old)) out.old }
{
    if !ecdsa::is_size(n) {
        return Err(ToRawError::NoSize);
    }
    let Some(body) = elements::element_of(0x30, der) else {
        return Err(ToRawError::NotStrict);
    };
    if body.end != der.len() {
        return Err(ToRawError::NotStrict);
    }
    raw_form::put_pair(n, &der[body.start..], out)
}
