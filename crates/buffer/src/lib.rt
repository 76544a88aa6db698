// Bytes into a lent buffer. Every writer is total: it stores what there is room for and hands back the place behind it.
#![tactic(auto)]

ghost use Rattle.std.specs.Prelude.{◌+◌, ◌≤◌, ◌≡◌, [], ◌∷◌, length, take, drop, replicate};
ghost use Rattle.buffer.specs.inner.Store.{Wrote};

// One byte.
pub fn put_byte(out: &mut [u8], at: usize, b: u8) -> usize
    ensures { Wrote out.old at (b ∷ []) out.new result }
{
    if at < out.len() {
        out[at] = b;
        at + 1
    } else {
        at
    }
}

// All of s, where there is room for it: one loop with no test for each byte. `copy_from_slice` calls `memmove`, which
// takes longer for the short strings that most are, and which whoever links the library would have to bring.
fn copy(out: &mut [u8], at: usize, s: &[u8]) -> usize
    requires { at + length s.now ≤ length out.old }
    ensures { Wrote out.old at s.now out.new result }
{
    let mut o = at;
    for &b in s {
        out[o] = b;
        o += 1;
    }
    o
}

// A byte string.
pub fn put_bytes(out: &mut [u8], at: usize, s: &[u8]) -> usize
    ensures { Wrote out.old at s.now out.new result }
{
    if out.len() <= at {
        return at;
    }
    let room = out.len() - at;
    copy(out, at, &s[..room.min(s.len())])
}

// The n bytes of s from a place on, or as many of them as there are.
pub fn put_part(out: &mut [u8], at: usize, s: &[u8], from: usize, n: usize) -> usize
    ensures { Wrote out.old at (take n (drop from s.now)) out.new result }
{
    put_bytes(out, at, scan::part(s, from, n))
}

// Every byte becomes b.
pub fn fill_bytes(out: &mut [u8], b: u8)
    ensures { out.new ≡ replicate (length out.old) b }
{
    out.fill(b);
}
