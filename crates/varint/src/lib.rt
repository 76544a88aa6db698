// Varints: ULEB128 in one to ten bytes, as short as can be, read at a place and written.
#![tactic(auto)]

ghost use Rattle.std.specs.Prelude.{◌≤◌, ◌≡◌, length};
ghost use Rattle.buffer.specs.inner.Store.{Wrote};
ghost use Rattle.varint.specs.Uleb.{uleb};
ghost use Rattle.varint.specs.Varint.{varint_at};
ghost use Rattle.event.specs.inner.Told.{read_answer};

use event::{Reason, Refusal};

// The varint at a place, and the place behind it; or the refusal with the varint's place. Most are one byte, which is
// told at once.
pub fn varint(s: &[u8], at: usize) -> Result<(u64, usize), Refusal>
    ensures { read_answer result ≡ varint_at s.now at }
{
    if at < s.len() && s[at] < 128 {
        return Ok((s[at] as u64, at + 1));
    }
    long_varint(s, at)
}

// A refusal with its reason and its place: seven returns say it in one line each.
fn refused(reason: Reason, place: usize) -> Result<(u64, usize), Refusal>
    ensures { result ≡ Err (record { reason = reason; place = place }) }
{
    Err(Refusal { reason, place })
}

// The same, byte by byte: for a number that is seldom below 128. A last byte of 0 behind others is not needed.
pub fn long_varint(s: &[u8], at: usize) -> Result<(u64, usize), Refusal>
    ensures { read_answer result ≡ varint_at s.now at }
{
    if s.len() <= at {
        return refused(Reason::Truncated, at);
    }
    let first = s[at] as u64;
    if first < 128 {
        return Ok((first, at + 1));
    }
    if s.len() <= at + 1 {
        return refused(Reason::VarintUnterminated, at);
    }
    let second = s[at + 1] as u64;
    if second < 128 {
        if second == 0 {
            return refused(Reason::VarintPadded, at);
        }
        return Ok((first - 128 + 128 * second, at + 2));
    }
    let mut value: u64 = first - 128 + 128 * (second - 128);
    let mut scale: u64 = 16384;
    // the third byte to the ninth
    for k in 2..9 {
        let i = at + k;
        if s.len() <= i {
            return refused(Reason::VarintUnterminated, at);
        }
        let b = s[i] as u64;
        if b == 0 {
            return refused(Reason::VarintPadded, at);
        }
        if b < 128 {
            return Ok((value + scale * b, i + 1));
        }
        value += scale * (b - 128);
        scale *= 128;
    }
    if s.len() <= at + 9 {
        return refused(Reason::VarintUnterminated, at);
    }
    let tenth = s[at + 9] as u64;
    if tenth == 0 {
        return refused(Reason::VarintPadded, at);
    }
    if tenth <= 1 {
        return Ok((value + scale * tenth, at + 10));
    }
    refused(Reason::VarintOverflow, at)
}

// The number of bytes of the shortest spelling: one for each seven bits that are begun, and one for 0.
#[tactic(auto, using(crate::proofs::UlebLaws::length_bits, crate::proofs::UlebLaws::length_last))]
pub fn varint_len(n: u64) -> usize
    ensures value { result ≡ length (uleb n) }
    ensures upper_bound { result ≤ 10 }
{
    match n.checked_ilog2() {
        Some(k) => k as usize / 7 + 1,
        None => 1,
    }
}

// The shortest spelling, written. The number is divided, and no place counted.
pub fn put_varint(out: &mut [u8], at: usize, n: u64) -> usize
    ensures { Wrote out.old at (uleb n) out.new result }
{
    let mut o = at;
    let mut rest = n;
    while rest >= 128 {
        o = buffer::put_byte(out, o, 128 + (rest % 128) as u8);
        rest /= 128;
    }
    buffer::put_byte(out, o, rest as u8)
}
