// UTF-8 by RFC 3629: the check of a text, one sequence at a place, and the bytes of a scalar value.
#![tactic(auto)]

mod windows;

ghost use Rattle.std.specs.Prelude.{◌-◌, ◌≤◌, ◌≡◌, length};
ghost use Rattle.scan.specs.Choice.{pick};
ghost use Rattle.scan.specs.Place.{within};
ghost use Rattle.buffer.specs.inner.Store.{Wrote};
ghost use Rattle.utf8.specs.inner.Width.{is_tail, width_of, width_at, is_utf8};
ghost use Rattle.utf8.specs.Encode.{tail_of, encode};

// UTF8-tail = %x80-BF
fn is_tail(b: u8) -> bool
    ensures { result ≡ is_tail b }
{
    scan::is_within(0x80, 0xBF, b)
}

// n where a row's bytes behind its first are as it says, else 0.
fn when(stands: bool, n: usize) -> usize
    ensures { result ≡ pick stands n 0 }
{
    if stands { n } else { 0 }
}

// The width of the sequence that begins with the bytes a, b, c, d; 0 where none does. One arm for each row of RFC 3629,
// section 4, in its order. The tests of a row are made all at once (`&`): one jump, and not one for each byte.
#[tactic(auto, using(crate::proofs::RowLaws::rows))]
fn width_of(a: u8, b: u8, c: u8, d: u8) -> usize
    ensures { result ≡ width_of a b c d }
{
    match a {
        // UTF8-1 = %x00-7F
        0x00..=0x7F => 1,
        // UTF8-2 = %xC2-DF UTF8-tail
        0xC2..=0xDF => when(is_tail(b), 2),
        // UTF8-3 = %xE0 %xA0-BF UTF8-tail /
        0xE0 => when(scan::is_within(0xA0, 0xBF, b) & is_tail(c), 3),
        //          %xE1-EC 2( UTF8-tail ) /
        0xE1..=0xEC => when(is_tail(b) & is_tail(c), 3),
        //          %xED %x80-9F UTF8-tail /
        0xED => when(scan::is_within(0x80, 0x9F, b) & is_tail(c), 3),
        //          %xEE-EF 2( UTF8-tail )
        0xEE..=0xEF => when(is_tail(b) & is_tail(c), 3),
        // UTF8-4 = %xF0 %x90-BF 2( UTF8-tail ) /
        0xF0 => when(scan::is_within(0x90, 0xBF, b) & is_tail(c) & is_tail(d), 4),
        //          %xF1-F3 3( UTF8-tail ) /
        0xF1..=0xF3 => when(is_tail(b) & is_tail(c) & is_tail(d), 4),
        //          %xF4 %x80-8F 2( UTF8-tail )
        0xF4 => when(scan::is_within(0x80, 0x8F, b) & is_tail(c) & is_tail(d), 4),
        _ => 0,
    }
}

// The width of the sequence at a place, 1 to 4; 0 where it is ill-formed, is cut by the end, or where nothing stands.
#[tactic(auto, using(crate::proofs::WidthLaws::width_none, crate::proofs::WidthLaws::width_ascii))]
pub fn width_at(s: &[u8], at: usize) -> usize
    ensures value { result ≡ width_at s.now at }
    ensures upper_bound { result ≤ 4 }
    ensures upper_bound_2 { result ≤ length s.now - at }
{
    if s.len() <= at {
        return 0;
    }
    // ASCII, before any other byte is read
    if s[at] < 0x80 {
        return 1;
    }
    // where four bytes stand, none is asked whether it is there
    if s.len() - at >= 4 {
        return width_of(s[at], s[at + 1], s[at + 2], s[at + 3]);
    }
    width_of(
        s[at],
        scan::byte_at(s, at + 1),
        scan::byte_at(s, at + 2),
        scan::byte_at(s, at + 3),
    )
}

// Whether a text is well-formed, sequence by sequence, from the place on that `windows::pass` surely reached. A `while`,
// since each turn takes as many bytes as the sequence is wide.
#[tactic(auto, using(crate::proofs::WalkLaws::walks))]
fn is_mixed(s: &[u8]) -> bool
    ensures { result ≡ is_utf8 s.now }
{
    let mut at = windows::pass(s);
    while at < s.len() {
        match width_at(s, at) {
            0 => return false,
            w => at += w,
        }
    }
    true
}

// A short text is ASCII most often: a function of its own, since within `is_utf8` it took a third longer (tried).
// `&s[..]` hands on the slice as a new one, which an older kit needed (docs/DECISIONS.md, section 2).
#[tactic(auto, using(crate::proofs::FittingLaws::most_utf8))]
fn is_short(s: &[u8]) -> bool
    ensures { result ≡ is_utf8 s.now }
{
    windows::is_ascii(s) || is_mixed(&s[..])
}

// Whether a text is well-formed.
pub fn is_utf8(s: &[u8]) -> bool
    ensures { result ≡ is_utf8 s.now }
{
    if s.len() <= 128 {
        is_short(s)
    } else {
        is_mixed(&s[..])
    }
}

// 10xxxxxx with the lowest six bits of n.
fn tail_of(n: u32) -> u8
    ensures { result ≡ tail_of n }
{
    (0x80 + n % 64) as u8
}

// How many bytes a scalar value takes; 0 for any other number.
#[tactic(auto, using(crate::proofs::EncodeLaws::rows))]
pub fn scalar_len(n: u32) -> usize
    ensures value { result ≡ length (encode n) }
    ensures upper_bound { result ≤ 4 }
{
    match n {
        0..=0x7F => 1,
        0x80..=0x7FF => 2,
        // a surrogate
        0xD800..=0xDFFF => 0,
        0x800..=0xFFFF => 3,
        0x10000..=0x10FFFF => 4,
        _ => 0,
    }
}

// The bytes of a scalar value; none for any other number. Byte after byte: an array that is handed to `put_bytes` took
// twice as long (tried).
#[tactic(auto, using(crate::proofs::EncodeLaws::rows))]
pub fn put_scalar(out: &mut [u8], at: usize, n: u32) -> usize
    ensures { Wrote out.old at (encode n) out.new result }
{
    match n {
        0..=0x7F => buffer::put_byte(out, at, n as u8),
        0x80..=0x7FF => {
            let b = buffer::put_byte(out, at, (0xC0 + n / 64) as u8);
            buffer::put_byte(out, b, tail_of(n))
        }
        // a surrogate
        0xD800..=0xDFFF => at,
        0x800..=0xFFFF => {
            let b = buffer::put_byte(out, at, (0xE0 + n / 4096) as u8);
            let c = buffer::put_byte(out, b, tail_of(n / 64));
            buffer::put_byte(out, c, tail_of(n))
        }
        0x10000..=0x10FFFF => {
            let b = buffer::put_byte(out, at, (0xF0 + n / 262144) as u8);
            let c = buffer::put_byte(out, b, tail_of(n / 4096));
            let d = buffer::put_byte(out, c, tail_of(n / 64));
            buffer::put_byte(out, d, tail_of(n))
        }
        _ => at,
    }
}
