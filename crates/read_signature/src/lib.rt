// The signature after FF (document 01, Layout): its length, which is a DER length in both versions, and its bytes, with nothing after them.
#![tactic(auto)]

ghost use Rattle.std.specs.Prelude.{◌≡◌};
ghost use Rattle.verdict.specs.Judge.{signature as signature_at};
ghost use Rattle.read_signature.specs.Meaning.{signature_of};

use causes::{Item, Rule};
use read_items::{Cursor, Refusal};

// What the signature says: its size, and where it starts.
#[derive(Clone, Copy, Debug, PartialEq, Eq)]
pub struct Signature {
    pub size: usize,
    pub start: Cursor,
}

// Its size is judged before its bytes are looked for, and nothing follows them.
pub fn read_signature(at: Cursor, seal: &[u8]) -> Result<Signature, Refusal>
    ensures { signature_of result ≡ signature_at at.place seal.now }
{
    let length = at.der_length(seal);
    let Ok((size, start)) = length else {
        return Err(Refusal::unread(Item::SignatureLength, length));
    };
    if !fields::is_signature(size) {
        return Err(Refusal::of(Item::SignatureLength, Rule::SignatureSize, at.place));
    }
    let Some(end) = start.skip(seal, size) else {
        return Err(Refusal::of(Item::Signature, Rule::There, start.place));
    };
    if end.place < seal.len() {
        return Err(Refusal::of(Item::End, Rule::NothingAfter, end.place));
    }
    Ok(Signature { size, start })
}
