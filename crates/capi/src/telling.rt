// The words of a number that a call answers, the name of an item of a seal and the words of a rule.
ghost use Rattle.std.specs.Prelude.{◌≡◌, length};
ghost use Rattle.format.specs.Answers.{told, filled};
ghost use Rattle.words.specs.Calls.{saying};
ghost use Rattle.why_words.specs.Calls.{naming, wording};
ghost use Rattle.face.specs.Face.{filled_of};

use face::FrFilled;

// Puts the words of a number down from the start of `out`: `words::put_words`.
pub fn fr_words(number: usize, out: &mut [u8]) -> FrFilled
    ensures answer { result ≡ filled_of (told (saying number (length out.old))) }
    ensures buffer { out.new ≡ filled (saying number (length out.old)) out.old }
{
    answers_text::words_told(words::put_words(number, out))
}

// Puts the name of an item down from the start of `out`: `why_words::put_item_name`.
pub fn fr_item_name(item: usize, out: &mut [u8]) -> FrFilled
    ensures answer { result ≡ filled_of (told (naming item (length out.old))) }
    ensures buffer { out.new ≡ filled (naming item (length out.old)) out.old }
{
    answers_text::name_told(why_words::put_item_name(item, out))
}

// Puts the words of a rule down from the start of `out`: `why_words::put_rule_words`.
pub fn fr_rule_words(rule: usize, out: &mut [u8]) -> FrFilled
    ensures answer { result ≡ filled_of (told (wording rule (length out.old))) }
    ensures buffer { out.new ≡ filled (wording rule (length out.old)) out.old }
{
    answers_text::name_told(why_words::put_rule_words(rule, out))
}
