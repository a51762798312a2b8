// The judging (document 01, "Reader"): the steps of the reading one after another. A step that is not read ends it,
// with its refusal, which is told at last with the number of the rule that is broken.
#![tactic(auto)]

ghost use Rattle.std.specs.Prelude.{◌≡◌};
ghost use Rattle.verdict.specs.Items.{not};
ghost use Rattle.verdict.specs.Judge.{judge as verdict, judging};
ghost use Rattle.reading.specs.Calls.{judged, judgement_of, Named};
ghost use Rattle.judging.specs.Judged.{FrontRead, HeaderRead, names_over, settled};

use causes::{Item, Rule};
use read_header::Front;
use read_items::{Cursor, Refusal};
use read_signature::Signature;
use reading::{Ends, Header, Judgement, Part, Reading};
use versions::Version;

// A seal that is not good: the number of the rule that is broken, at its place, and beside it why.
fn not_good(why: Refusal) -> Judgement
    ensures { result ≡ judgement_of (not why.why why.place) }
{
    let broken = why.why;
    let rule = broken.rule;
    let number = rule.number();
    Judgement {
        reading: Reading::refused(number, why.place),
        outcome: Err(why),
    }
}

// A seal that is good, and what it says.
fn good(
    version: Version,
    header: Header,
    ends: Ends,
    signature: Signature,
    count: usize,
) -> Judgement
    ensures { result
        ≡ judged version header ends (record { place = signature.start.place; length = signature.size }) count }
{
    let part = Part {
        place: signature.start.place,
        length: signature.size,
    };
    let reading = Reading {
        number: 0,
        place: 0,
        header,
        ends,
        signature: part,
        count,
    };
    Judgement {
        reading,
        outcome: Ok(version),
    }
}

// Judges a seal whose header was read: its features and its signature.
fn judge_message(
    version: Version,
    header: Header,
    message: Cursor,
    seal: &[u8],
) -> Result<Judgement, Refusal>
    requires read { HeaderRead seal.now version header message.place }
    ensures { settled result ≡ judgement_of (judging seal.now) }
{
    let features = read_features::read_features(message, seal, version)?;
    let mark = features.mark.place;
    let signature = read_signature::read_signature(Cursor { place: mark + 1 }, seal)?;
    let ends = Ends {
        header: message.place,
        message: mark,
        seal: seal.len(),
    };
    Ok(good(version, header, ends, signature, features.count))
}

// Judges a seal whose fields before the dates were read.
fn judge_rest(front: Front, country: [u8; 3], seal: &[u8]) -> Result<Judgement, Refusal>
    requires read { FrontRead seal.now front.version country front.length front.next.place }
    ensures { settled result ≡ judgement_of (judging seal.now) }
{
    let rest = read_header::read_rest(front.next, seal)?;
    let header = Header {
        version: front.version.number(),
        country,
        length: front.length,
        issued: rest.issued,
        signed: rest.signed,
        definition: rest.definition,
        category: rest.category,
    };
    judge_message(front.version, header, rest.next, seal)
}

// Judges a seal; signer and reference stand at the start of `names` where they were read, whatever follows them.
fn judge_seal(seal: &[u8], names: &mut [u8; 259]) -> Result<Judgement, Refusal>
    ensures answer { settled result ≡ judgement_of (judging seal.now) }
    ensures text { Named (verdict seal.now) names.new }
    ensures buffer { names.new ≡ names_over names.old seal.now }
{
    if 4096 < seal.len() {
        return Err(Refusal::of(Item::Seal, Rule::NotTooLong, 4096));
    }
    let mut country = [0u8; 3];
    let front = read_header::read_front(seal, &mut country, names)?;
    judge_rest(front, country, seal)
}

// The verdict; signer and reference stand at the start of `names` where they were read, whatever follows them, and on 0 they were.
pub fn judge_names(seal: &[u8], names: &mut [u8; 259]) -> Judgement
    ensures answer { result ≡ judgement_of (judging seal.now) }
    ensures text { Named (verdict seal.now) names.new }
    ensures buffer { names.new ≡ names_over names.old seal.now }
{
    judge_seal(seal, names).unwrap_or_else(not_good)
}
