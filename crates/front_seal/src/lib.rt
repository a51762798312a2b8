// The length of the longest front part of some bytes with which an accepted seal begins (document 02, Ticket 12): one
// pass, item by item, as far as an item can be completed, and behind a whole one as far as what follows can.
#![tactic(auto)]

ghost use Rattle.std.specs.Prelude.{◌≡◌, ◌+◌, ◌≤◌, drop};
ghost use Rattle.grammar.specs.Content.{three};
ghost use Rattle.front_header.specs.Header.{front as front_of, country_front, names_front, length_front, text_front, dates_front, last_front};
ghost use Rattle.front_seal.specs.Steps.{nothing};

use front_days::day_front;
use front_features::message_from;
use front_pairs::{Kind, length_in, pair_front};
use octets::wide;
use versions::Version;

// Definition reference or category: whether the byte there is 1 to 254.
fn last_front(seal: &[u8], at: usize) -> usize
    ensures { result ≡ last_front (drop at seal.now) }
{
    if seal.len() <= at {
        return 0;
    }
    match seal[at] {
        1..=254 => 1,
        _ => 0,
    }
}

// So many letters and digits, by threes.
fn text_front(seal: &[u8], at: usize, size: usize) -> usize
    requires { (at ≤ 4096) × (size ≤ 255) }
    ensures { result ≡ text_front size nothing (drop at seal.now) }
{
    let triples = octets::threes(size);
    for i in 0..triples {
        let triple = pair_front(Kind::Triple, seal, at + 2 * i);
        if triple < 2 {
            return 2 * i + triple;
        }
    }
    let passed = 2 * triples;
    match size - 3 * triples {
        2 => passed + pair_front(Kind::Two, seal, at + passed),
        1 => passed + pair_front(Kind::One, seal, at + passed),
        _ => passed,
    }
}

// From the issue date on, behind the names of a header.
fn dates_front(seal: &[u8], at: usize, version: Version) -> usize
    requires { at ≤ 178 }
    ensures { result ≡ at + dates_front version (at + 8) (drop at seal.now) }
{
    let issued = day_front(seal, at);
    if issued < 3 {
        return at + issued;
    }
    let signed = day_front(seal, at + 3);
    if signed < 3 {
        return at + 3 + signed;
    }
    let definition = last_front(seal, at + 6);
    if definition < 1 {
        return at + 6;
    }
    let category = last_front(seal, at + 7);
    if category < 1 {
        return at + 7;
    }
    message_from(seal, at + 8, version)
}

// Version 3: the signer's last character and the five of the reference, and what follows.
fn six_front(seal: &[u8]) -> usize
    ensures { result ≡ 6 + names_front three (drop 6 seal.now) }
{
    let six = text_front(seal, 6, 6);
    if six < 4 {
        return 6 + six;
    }
    dates_front(seal, 10, Version::Three)
}

// Version 4: the pair that ends with the reference's length, the reference, and what follows.
fn counted_front(seal: &[u8]) -> usize
    ensures { result ≡ 6 + length_front (drop 6 seal.now) }
{
    let length = pair_front(Kind::Length, seal, 6);
    if length < 2 {
        return 6 + length;
    }
    let size = length_in(seal[6], seal[7]);
    let width = octets::threes(size + 2) * 2;
    let reference = text_front(seal, 8, size);
    if reference < width {
        return 8 + reference;
    }
    dates_front(seal, 8 + width, Version::Four)
}

// From the country on.
fn country_front(seal: &[u8], version: Version) -> usize
    ensures { result ≡ 2 + country_front version (drop 2 seal.now) }
{
    let country = pair_front(Kind::Country, seal, 2);
    if country < 2 {
        return 2 + country;
    }
    let signer = pair_front(Kind::Signer, seal, 4);
    if signer < 2 {
        return 4 + signer;
    }
    match version {
        Version::Three => six_front(seal),
        Version::Four => counted_front(seal),
    }
}

// The length of the longest front part of `seal` with which some accepted seal begins.
pub fn front(seal: &[u8]) -> usize
    ensures { result ≡ front_of seal.now }
{
    let n = seal.len();
    if n == 0 {
        return 0;
    }
    if seal[0] != 0xDC {
        return 0;
    }
    if n == 1 {
        return 1;
    }
    let Ok(version) = Version::from_byte(wide(seal[1])) else {
        return 1;
    };
    country_front(seal, version)
}
