// The reader's calls with the front part beside the answer (document 02, Ticket 12).
#![tactic(auto)]

ghost use Rattle.std.specs.Prelude.{◌≡◌, length};
ghost use Rattle.verdict.specs.Judge.{judge as verdict};
ghost use Rattle.reading.specs.Calls.{answer_of, reading, rows_in, text_in, then};
ghost use Rattle.front_reading.specs.Fronted.{fronted};

pub use reading::Reading;

// What a reading answers, and beside it the length of the longest front part of the input with which some accepted seal begins.
#[derive(Clone, Copy)]
pub struct Fronted {
    pub reading: Reading,
    pub front: usize,
}

// The verdict on every byte string. A good seal is its own front part: only a refused one is gone through again.
pub fn judge(seal: &[u8]) -> Fronted
    ensures { result ≡ fronted seal.now (answer_of (verdict seal.now)) }
{
    let judged = reader::judge(seal);
    if judged.number == 0 {
        return Fronted {
            reading: judged,
            front: seal.len(),
        };
    }
    let found = front_seal::front(seal);
    Fronted {
        reading: judged,
        front: found,
    }
}

// Reads a seal: on 0 a row for each feature stands in `table`, and signer and reference in `text`; on any other number
// both stay.
pub fn read(seal: &[u8], table: &mut [usize], text: &mut [u8]) -> Fronted
    ensures answer { result
        ≡ fronted seal.now
        (answer_of (reading seal.now (length table.old) (length text.old))) }
    ensures rows { table.new
        ≡ then (rows_in (reading seal.now (length table.old) (length text.old))) table.old }
    ensures names { text.new
        ≡ then (text_in (reading seal.now (length table.old) (length text.old))) text.old }
{
    let read = reader::read(seal, table, text);
    if read.number == 0 {
        return Fronted {
            reading: read,
            front: seal.len(),
        };
    }
    // too little room for the answer, but the seal is good
    if read.number == 12 {
        return Fronted {
            reading: read,
            front: seal.len(),
        };
    }
    let front = front_seal::front(seal);
    Fronted {
        reading: read,
        front,
    }
}
