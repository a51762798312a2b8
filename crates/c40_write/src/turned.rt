// The chart turned round, from character to value (document 01, C40): a writer looks its characters up there, so that the chart decides.
ghost use Rattle.std.specs.Prelude.{◌≡◌, ◌≤◌, get_or};
ghost use Rattle.c40_write.specs.Turned.{turned};

use octets::wide;

// By its code each character has its value, and every other code the mark 128. Lent, as it is made once a call.
#[derive(Clone, Copy)]
pub struct Turned {
    values: [u8; 256],
    ghost is_turned: { values ≡ turned },
}

impl Turned {
    // What stands at a code.
    pub fn entry(&self, code: u8) -> u8
        ensures is { result ≡ get_or turned code 0 }
        ensures most { result ≤ 128 }
    {
        self.values[wide(code)]
    }
}

// The chart, turned round.
pub fn turned_chart() -> Turned
    ensures { result.values ≡ turned }
{
    let chart = pairs::the_chart();
    let mut values = [128u8; 256];
    for v in 3..40 {
        values[wide(chart[v])] = v as u8;
    }
    Turned { values }
}
