// Bytes of one lent slice copied into another, in blocks.
#![tactic(auto)]

ghost use Rattle.std.specs.Prelude.{◌≡◌, ◌+◌, ◌≤◌, length, take, drop};
ghost use Rattle.format.specs.Buffer.{over};
ghost use Rattle.octets.specs.Copy.{copied};

// Eight bytes from a place on copied to a place: all are taken before the first is put down, so that the compiler makes one word of them.
fn copy_eight(from: &[u8], i: usize, out: &mut [u8], at: usize)
    requires { (i + 8 ≤ length from.now) × (at + 8 ≤ length out.old) }
    ensures { out.new ≡ over out.old at (take 8 (drop i from.now)) }
{
    let a = from[i];
    let b = from[i + 1];
    let c = from[i + 2];
    let d = from[i + 3];
    let e = from[i + 4];
    let f = from[i + 5];
    let g = from[i + 6];
    let h = from[i + 7];
    out[at] = a;
    out[at + 1] = b;
    out[at + 2] = c;
    out[at + 3] = d;
    out[at + 4] = e;
    out[at + 5] = f;
    out[at + 6] = g;
    out[at + 7] = h;
}

// Sixteen bytes in the same way.
fn copy_sixteen(from: &[u8], i: usize, out: &mut [u8], at: usize)
    requires { (i + 16 ≤ length from.now) × (at + 16 ≤ length out.old) }
    ensures { out.new ≡ over out.old at (take 16 (drop i from.now)) }
{
    copy_eight(from, i, out, at);
    copy_eight(from, i + 8, out, at + 8);
}

// Copies all of `from` to a place of `out`, where it fits: by sixteen or by eight bytes, the last of them over those before where the
// number does not come out, and a few one by one.
fn put_blocks(from: &[u8], out: &mut [u8], at: usize)
    requires { at + length from.now ≤ length out.old }
    ensures { out.new ≡ over out.old at from.now }
{
    let n = from.len();
    if 16 < n {
        let last = n - 16;
        copy_sixteen(from, 0, out, at);
        // by sixteen: `step_by` would leave the loop in two ways, behind a block and before one
        let mut i: usize = 16;
        while i < last {
            copy_sixteen(from, i, out, at + i);
            i += 16;
        }
        copy_sixteen(from, last, out, at + last);
        return;
    }
    if 8 <= n {
        let last = n - 8;
        copy_eight(from, 0, out, at);
        copy_eight(from, last, out, at + last);
        return;
    }
    for (i, byte) in from.iter().enumerate() {
        out[at + i] = *byte;
    }
}

// Copies all of `from` to the start of `out`, where it fits, and else nothing. Of two lent slices the compiler must take it that they may
// lie over each other, and makes no block copy of a plain loop, as it does for memory of the call's own.
pub fn copy_lent(from: &[u8], out: &mut [u8])
    ensures { out.new ≡ copied from.now out.old 0 }
{
    if out.len() < from.len() {
        return;
    }
    put_blocks(from, out, 0);
}
