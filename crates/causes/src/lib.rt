// Why a byte string is no seal (document 01, "The numbers a call answers", Reader): the item that is not read, and the rule that it breaks.
// The number that is answered is the rule's.
#![tactic(auto)]

ghost use Rattle.std.specs.Prelude.{◌≡◌};
ghost use Rattle.causes.specs.Causes.{rule_number, item_code, rule_code};

// The items, in the order in which they are read. Version 3 has one item for signer and reference, version 4 two.
#[derive(Clone, Copy, Debug, PartialEq, Eq)]
pub enum Item {
    // the whole byte string, before its first item is read
    Seal,
    Mark,
    Version,
    Country,
    // version 3: nine characters
    Names,
    // version 4: six characters
    SignerAndLength,
    // version 4: of so many bytes
    Reference(usize),
    Issued,
    Signed,
    Definition,
    Category,
    Tag,
    Length,
    Value,
    SignatureLength,
    Signature,
    // what follows the signature
    End,
}

// The rules, each in the words of what an item keeps; of two that an item breaks the one that stands first is told.
#[derive(Clone, Copy, Debug, PartialEq, Eq)]
pub enum Rule {
    // at most 4,096 bytes
    NotTooLong,
    // all its bytes are there; of a DER length the first
    There,
    // it is DC
    IsMark,
    // 02 or 03
    IsVersion,
    // C40, well coded, of as many characters as the item has
    WellCoded,
    // a letter first, letters and then fillers
    CountryCode,
    // the signer: two letters, then two letters or digits
    SignerCharacters,
    // the reference: letters and digits
    ReferenceCharacters,
    // the reference's length: two upper-case hexadecimal digits
    HexadecimalDigits,
    // and not 00
    NotZero,
    // there is such a day
    IsDay,
    // 1 to 254
    OneTo254,
    // a tag that was not used before
    NotUsedBefore,
    // a DER length: its first byte is not 80 and not 85 to FF
    BeginsLength,
    // a DER length: the bytes that its first one asks for are there
    RestThere,
    // a DER length: the shortest
    Shortest,
    // 56, 64, 96, 128 or 132
    SignatureSize,
    // no byte follows
    NothingAfter,
}

#[derive(Clone, Copy, Debug, PartialEq, Eq)]
pub struct Why {
    pub item: Item,
    pub rule: Rule,
}

impl Item {
    // The code under which callers are told of an item, from 1 on in the order in which items are read.
    pub fn code(self) -> usize
        ensures { result ≡ item_code self }
    {
        match self {
            Item::Seal => 1,
            Item::Mark => 2,
            Item::Version => 3,
            Item::Country => 4,
            Item::Names => 5,
            Item::SignerAndLength => 6,
            Item::Reference(_) => 7,
            Item::Issued => 8,
            Item::Signed => 9,
            Item::Definition => 10,
            Item::Category => 11,
            Item::Tag => 12,
            Item::Length => 13,
            Item::Value => 14,
            Item::SignatureLength => 15,
            Item::Signature => 16,
            Item::End => 17,
        }
    }
}

impl Rule {
    // Document 01's number for an item that breaks this rule.
    pub fn number(self) -> usize
        ensures { result ≡ rule_number self }
    {
        match self {
            Rule::NotTooLong => 1,
            Rule::There => 2,
            Rule::IsMark => 3,
            Rule::IsVersion => 4,
            Rule::WellCoded => 5,
            Rule::CountryCode => 5,
            Rule::SignerCharacters => 5,
            Rule::ReferenceCharacters => 5,
            Rule::HexadecimalDigits => 5,
            Rule::NotZero => 5,
            Rule::IsDay => 6,
            Rule::OneTo254 => 7,
            Rule::NotUsedBefore => 9,
            Rule::BeginsLength => 8,
            Rule::RestThere => 2,
            Rule::Shortest => 8,
            Rule::SignatureSize => 10,
            Rule::NothingAfter => 11,
        }
    }

    // The code under which callers are told of a rule: up to 11 the number, and from 12 on the rules that share one of those.
    pub fn code(self) -> usize
        ensures { result ≡ rule_code self }
    {
        match self {
            Rule::NotTooLong => 1,
            Rule::There => 2,
            Rule::IsMark => 3,
            Rule::IsVersion => 4,
            Rule::WellCoded => 5,
            Rule::CountryCode => 12,
            Rule::SignerCharacters => 13,
            Rule::ReferenceCharacters => 14,
            Rule::HexadecimalDigits => 15,
            Rule::NotZero => 16,
            Rule::IsDay => 6,
            Rule::OneTo254 => 7,
            Rule::NotUsedBefore => 9,
            Rule::BeginsLength => 8,
            Rule::RestThere => 17,
            Rule::Shortest => 18,
            Rule::SignatureSize => 10,
            Rule::NothingAfter => 11,
        }
    }
}
