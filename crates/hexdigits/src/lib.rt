// Lowercase hex: digits and values, bytes and texts.
#![tactic(auto)]

ghost use Rattle.std.specs.Prelude.{◌+◌, ◌*◌, ◌/◌, ◌%◌, ◌≤◌, ◌≡◌, length};
ghost use Rattle.scan.specs.inner.Blocks.{sum_of};
ghost use Rattle.buffer.specs.inner.Store.{Wrote};
ghost use Rattle.hexdigits.specs.Hex.{value_of, digit_of, hexes, unhex, all_digits, goes_as_bytes};
ghost use Rattle.hexdigits.specs.inner.Block.{is_other, values_of, pairs_of};

// A digit's value; 16 where the byte is none of 0-9 a-f.
#[tactic(auto, using(scan::proofs::Step::tests), unfolding(crate::specs::Hex::value_of, scan::specs::Place::within))]
pub fn value_of(b: u8) -> u8
    ensures { result ≡ value_of b }
{
    // one test for each range and no `match` of both, whose tests one by one make the loops for vectors slower
    if matches!(b, b'0'..=b'9') {
        b - b'0'
    } else if matches!(b, b'a'..=b'f') {
        b - b'a' + 10
    } else {
        16
    }
}

// The digit of a value's lower four bits.
pub fn digit_of(v: u8) -> u8
    ensures { result ≡ digit_of (v % 16) }
{
    let d = v % 16;
    if d < 10 { b'0' + d } else { b'a' + d - 10 }
}

// Each byte as two digits, where there is room for all: one loop with no test for each byte.
fn hex_all(out: &mut [u8], at: usize, s: &[u8]) -> usize
    requires { at + 2 * length s.now ≤ length out.old }
    ensures { Wrote out.old at (hexes s.now) out.new result }
{
    for (i, &b) in s.iter().enumerate() {
        out[at + 2 * i] = digit_of(b / 16);
        out[at + 2 * i + 1] = digit_of(b);
    }
    at + 2 * s.len()
}

// Each byte as two digits, written.
pub fn put_hex(out: &mut [u8], at: usize, s: &[u8]) -> usize
    ensures { Wrote out.old at (hexes s.now) out.new result }
{
    if out.len() <= at {
        return at;
    }
    let room = (out.len() - at) / 2;
    if s.len() <= room {
        return hex_all(out, at, s);
    }
    // one digit more where the room is odd; behind it the buffer is full
    let o = hex_all(out, at, &s[..room]);
    buffer::put_byte(out, o, digit_of(s[room] / 16))
}

// The value of each byte as a digit. By its index: the laws of a `zip` are of two slices that are read, and this one
// writes.
#[tactic(auto, unfolding(crate::specs::inner::Block::values_of))]
fn put_values(out: &mut [u8], t: &[u8])
    requires { length t.now ≤ length out.old }
    ensures { Wrote out.old 0 (values_of t.now) out.new (length t.now) }
{
    for (i, &b) in t.iter().enumerate() {
        out[i] = value_of(b);
    }
}

// A byte for each two values. By an index: as chunks of two the pairs would need a law more, and the loop is no
// shorter.
#[tactic(auto, unfolding(crate::specs::inner::Block::pairs_of))]
fn put_pairs(out: &mut [u8], at: usize, v: &[u8]) -> usize
    requires { at + length v.now / 2 ≤ length out.old }
    ensures { Wrote out.old at (pairs_of v.now) out.new result }
{
    let n = v.len() / 2;
    for i in 0..n {
        out[at + i] = 16 * (v[2 * i] % 16) + v[2 * i + 1] % 16;
    }
    at + n
}

// The bytes of up to 64 digits: first all values, then all pairs. Each is a loop for vectors, which one loop over both
// is not.
fn unhex_block(out: &mut [u8], at: usize, t: &[u8]) -> usize
    requires t_len { length t.now ≤ 64 }
    requires at_in_bounds { at + length t.now / 2 ≤ length out.old }
    ensures { Wrote out.old at (unhex t.now) out.new result }
{
    let mut v = [0u8; 64];
    put_values(&mut v, t);
    put_pairs(out, at, &v[..t.len()])
}

// A byte for each two digits, block by block, where there is room for all.
fn unhex_all(out: &mut [u8], at: usize, t: &[u8]) -> usize
    requires { at + length t.now / 2 ≤ length out.old }
    ensures { Wrote out.old at (unhex t.now) out.new result }
{
    let mut o = at;
    let mut left = t;
    while let Some((block, rest)) = left.split_first_chunk::<64>() {
        o = unhex_block(out, o, block);
        left = rest;
    }
    unhex_block(out, o, left)
}

// A byte for each two digits, written.
pub fn put_unhex(out: &mut [u8], at: usize, t: &[u8]) -> usize
    ensures { Wrote out.old at (unhex t.now) out.new result }
{
    if out.len() <= at {
        return at;
    }
    let room = out.len() - at;
    if t.len() / 2 <= room {
        return unhex_all(out, at, t);
    }
    unhex_all(out, at, &t[..2 * room])
}

// 1 for a byte that is no digit, and else 0.
#[tactic(auto, using(scan::proofs::Step::tests), unfolding(crate::specs::inner::Block::is_other))]
fn is_other(b: u8) -> u8
    ensures value { result ≡ is_other b }
    ensures upper_bound { result ≤ 1 }
{
    u8::from(16 <= value_of(b))
}

// How many bytes of a block are no digits. No exit on the way, and a sum in a byte: a loop for vectors.
#[tactic(auto, unfolding(scan::specs::inner::Blocks::sum_of))]
fn others(block: &[u8]) -> u8
    requires { length block.now ≤ 128 }
    ensures { result ≡ sum_of is_other block.now }
{
    let mut n = 0;
    for &b in block {
        n += is_other(b);
    }
    n
}

// Whether every byte is one of 0-9 a-f: block by block. Most texts that are not show it in their first byte.
#[tactic(auto, using(crate::proofs::BlockLaws::digits_counted), unfolding(crate::specs::Hex::all_digits))]
pub fn all_digits(t: &[u8]) -> bool
    ensures { result ≡ all_digits t.now }
{
    if t.first().is_some_and(|&b| value_of(b) == 16) {
        return false;
    }
    let mut left = t;
    while let Some((block, rest)) = left.split_first_chunk::<128>() {
        if others(block) != 0 {
            return false;
        }
        left = rest;
    }
    others(left) == 0
}

// Whether a text goes as bytes in the strict form.
#[tactic(auto, using(scan::proofs::Step::tests), unfolding(crate::specs::Hex::goes_as_bytes))]
pub fn goes_as_bytes(t: &[u8]) -> bool
    ensures { result ≡ goes_as_bytes t.now }
{
    !t.is_empty() && t.len() % 2 == 0 && all_digits(t)
}
