// The features, judged up to FF (document 01, Layout, "A repeated tag is judged at the tag").
#![tactic(auto)]

ghost use Rattle.std.specs.Prelude.{◌≡◌, [], length};
ghost use Rattle.read_items.specs.Meaning.{through};
ghost use Rattle.verdict.specs.Judge.{features as featuresFrom};
ghost use Rattle.read_features.specs.Meaning.{features_of};

use causes::{Item, Rule};
use octets::wide;
use read_items::{Cursor, Refusal};
use versions::Version;

// What the features say: how many there are, and the place of FF.
#[derive(Clone, Copy, Debug, PartialEq, Eq)]
pub struct Features {
    pub count: usize,
    pub mark: Cursor,
}

// Judges the features from a place on. The first tag that repeats an earlier one is the one named, so at most 255 tags are kept.
pub fn read_features(start: Cursor, seal: &[u8], version: Version) -> Result<Features, Refusal>
    ensures { features_of result ≡ through length (featuresFrom 256 version [] start.place seal.now) }
{
    let mut tags = [0u8; 255];
    // a bit for each tag, set where it was used: where it is not, no earlier row is looked at, so the inner loop is entered at most once
    let mut marks = [0u64; 4];
    let mut count: usize = 0;
    let mut here = start;
    // a labelled loop, as document 01 asks, left from inside at the first tag that repeats one
    let repeat = 'rows: loop {
        let Some((tag, next)) = here.byte(seal) else {
            return Err(Refusal::of(Item::Tag, Rule::There, here.place));
        };
        if tag == 0xFF {
            return Ok(Features { count, mark: here });
        }
        let word = tag >> 6;
        let bit = tag & 63;
        if (marks[word] >> bit) & 1 == 1 {
            for used in &tags[..count] {
                if wide(*used) == tag {
                    break 'rows here.place;
                }
            }
        }
        let length = next.feature_length(seal, version);
        let Ok((size, value)) = length else {
            return Err(Refusal::unread(Item::Length, length));
        };
        let Some(end) = value.skip(seal, size) else {
            return Err(Refusal::of(Item::Value, Rule::There, value.place));
        };
        tags[count] = tag as u8;
        marks[word] = marks[word] | (1 << bit);
        count += 1;
        here = end;
    };
    Err(Refusal::of(Item::Tag, Rule::NotUsedBefore, repeat))
}
