// Why a seal is refused (document 02, Ticket 11): the item, the rule that it breaks and the bytes judged, by the reader's own judging.
#![tactic(auto)]

ghost use Rattle.std.specs.Prelude.{◌≡◌, ◌-◌, length};
ghost use Rattle.verdict.specs.Items.{not};
ghost use Rattle.rules.specs.Rules.{der_size};
ghost use Rattle.reason.specs.Judged.{item_size, judged_size};
ghost use Rattle.why.specs.Told.{telling, told};

use causes::{Item, Rule};
use octets::wide;
use read_items::Refusal;
pub use reading::Part;

// Why a seal is refused: number and place are the judge's, item and rule are told by their codes, and the bytes judged are a part of
// the seal. For an accepted seal every field is 0.
#[derive(Clone, Copy)]
pub struct Reason {
    pub number: usize,
    pub place: usize,
    pub item: usize,
    pub rule: usize,
    pub judged: Part,
}

// How many bytes of an item are judged where it is judged whole: of a length its first, and one of what is too many.
fn item_size(item: Item) -> usize
    ensures { result ≡ item_size item }
{
    match item {
        Item::Seal => 1,
        Item::Mark => 1,
        Item::Version => 1,
        Item::Country => 2,
        Item::Names => 6,
        Item::SignerAndLength => 4,
        Item::Reference(size) => size,
        Item::Issued => 3,
        Item::Signed => 3,
        Item::Definition => 1,
        Item::Category => 1,
        Item::Tag => 1,
        Item::Length => 1,
        Item::Value => 1,
        Item::SignatureLength => 1,
        Item::Signature => 1,
        Item::End => 1,
    }
}

// How many bytes a DER length has whose first stands at a place.
fn length_size(seal: &[u8], place: usize) -> usize
    ensures { result ≡ der_size seal.now place }
{
    if seal.len() <= place {
        return 1;
    }
    let first = wide(seal[place]);
    if first < 0x80 {
        return 1;
    }
    first - 0x7F
}

// How many bytes there are from a place on.
fn left(seal: &[u8], place: usize) -> usize
    ensures { result ≡ length seal.now - place }
{
    seal.len().saturating_sub(place)
}

// How many bytes were judged, from the place told on.
fn judged_size(item: Item, rule: Rule, place: usize, seal: &[u8]) -> usize
    ensures { result ≡ judged_size seal.now item rule place }
{
    let whole = item_size(item);
    match rule {
        Rule::NotTooLong => whole,
        Rule::There => left(seal, place),
        Rule::IsMark => whole,
        Rule::IsVersion => whole,
        Rule::WellCoded => 2,
        Rule::CountryCode => whole,
        Rule::SignerCharacters => whole,
        Rule::ReferenceCharacters => whole,
        Rule::HexadecimalDigits => whole,
        Rule::NotZero => whole,
        Rule::IsDay => whole,
        Rule::OneTo254 => whole,
        Rule::NotUsedBefore => whole,
        Rule::BeginsLength => whole,
        Rule::RestThere => left(seal, place),
        Rule::Shortest => length_size(seal, place),
        Rule::SignatureSize => length_size(seal, place),
        Rule::NothingAfter => whole,
    }
}

// The reason of a refusal.
fn because(why: Refusal, seal: &[u8]) -> Reason
    ensures { result ≡ telling seal.now (not why.why why.place) }
{
    let broken = why.why;
    let item = broken.item;
    let rule = broken.rule;
    let place = why.place;
    let length = judged_size(item, rule, place, seal);
    Reason {
        number: rule.number(),
        place,
        item: item.code(),
        rule: rule.code(),
        judged: Part { place, length },
    }
}

// Why a seal is refused.
pub fn why(seal: &[u8]) -> Reason
    ensures { result ≡ told seal.now }
{
    let mut names = [0u8; 259];
    let judged = judging::judge_names(seal, &mut names);
    match judged.outcome {
        Ok(_) => Reason {
            number: 0,
            place: 0,
            item: 0,
            rule: 0,
            judged: Part {
                place: 0,
                length: 0,
            },
        },
        Err(why) => because(why, seal),
    }
}
