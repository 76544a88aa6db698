// Base64 by RFC 4648, section 4, with no padding: characters and their six bits, bytes and texts.
#![tactic(auto)]

ghost use Rattle.std.specs.Prelude.{◌+◌, ◌*◌, ◌/◌, ◌%◌, ◌≤◌, ◌≡◌, length, take};
ghost use Rattle.scan.specs.Place.{run_at};
ghost use Rattle.scan.specs.inner.Blocks.{sum_of};
ghost use Rattle.buffer.specs.inner.Store.{Wrote};
ghost use Rattle.base64text.specs.Base64.{character_of, six_bits, in_alphabet, encoded, decoded, ends_whole};
ghost use Rattle.base64text.specs.inner.Tables.{is_outside};

// The characters, in the order of their six bits.
static CHARACTERS: [u8; 64] = *b"ABCDEFGHIJKLMNOPQRSTUVWXYZabcdefghijklmnopqrstuvwxyz0123456789+/";

// The six bits of each byte; 64 for a byte outside the alphabet.
static BITS: [u8; 256] = [
    64, 64, 64, 64, 64, 64, 64, 64, 64, 64, 64, 64, 64, 64, 64, 64, 64, 64, 64, 64, 64, 64, 64, 64,
    64, 64, 64, 64, 64, 64, 64, 64, 64, 64, 64, 64, 64, 64, 64, 64, 64, 64, 64, 62, 64, 64, 64, 63,
    52, 53, 54, 55, 56, 57, 58, 59, 60, 61, 64, 64, 64, 64, 64, 64, 64, 0, 1, 2, 3, 4, 5, 6, 7, 8,
    9, 10, 11, 12, 13, 14, 15, 16, 17, 18, 19, 20, 21, 22, 23, 24, 25, 64, 64, 64, 64, 64, 64, 26,
    27, 28, 29, 30, 31, 32, 33, 34, 35, 36, 37, 38, 39, 40, 41, 42, 43, 44, 45, 46, 47, 48, 49, 50,
    51, 64, 64, 64, 64, 64, 64, 64, 64, 64, 64, 64, 64, 64, 64, 64, 64, 64, 64, 64, 64, 64, 64, 64,
    64, 64, 64, 64, 64, 64, 64, 64, 64, 64, 64, 64, 64, 64, 64, 64, 64, 64, 64, 64, 64, 64, 64, 64,
    64, 64, 64, 64, 64, 64, 64, 64, 64, 64, 64, 64, 64, 64, 64, 64, 64, 64, 64, 64, 64, 64, 64, 64,
    64, 64, 64, 64, 64, 64, 64, 64, 64, 64, 64, 64, 64, 64, 64, 64, 64, 64, 64, 64, 64, 64, 64, 64,
    64, 64, 64, 64, 64, 64, 64, 64, 64, 64, 64, 64, 64, 64, 64, 64, 64, 64, 64, 64, 64, 64, 64, 64,
    64, 64, 64, 64, 64, 64, 64, 64, 64, 64, 64, 64, 64, 64,
];

// The character of the lower six bits.
#[tactic(auto, unfolding(crate::specs::Base64::character_of, crate::specs::Base64::alphabet))]
fn character_of(v: u8) -> u8
    ensures { result ≡ character_of (v % 64) }
{
    CHARACTERS[(v % 64) as usize]
}

// A byte's six bits.
fn six_bits(b: u8) -> u8
    ensures { result ≡ six_bits b }
{
    BITS[b as usize]
}

// ---- bytes into characters

// Groups of three bytes, where there is room for their characters: one loop with no test for each byte.
fn encode_groups(out: &mut [u8], at: usize, s: &[u8]) -> usize
    requires s_len { length s.now % 3 ≡ 0 }
    requires s_in_bounds { at + length s.now / 3 * 4 ≤ length out.old }
    ensures { Wrote out.old at (encoded s.now) out.new result }
{
    let mut left = s;
    let mut o = at;
    while let [a, b, c, rest @ ..] = left {
        // read before the stores, which could be to the same bytes for all that a compiler knows
        let (a, b, c) = (*a, *b, *c);
        out[o] = character_of(a / 4);
        out[o + 1] = character_of(a % 4 * 16 + b / 16);
        out[o + 2] = character_of(b % 16 * 4 + c / 64);
        out[o + 3] = character_of(c);
        o += 4;
        left = rest;
    }
    o
}

// The characters of the first three bytes, or of as many as there are. Ends on the way and no arm for each number of
// bytes: the arms would write the same first characters again.
fn encode_group(out: &mut [u8], at: usize, s: &[u8]) -> usize
    ensures { Wrote out.old at (encoded (take 3 s.now)) out.new result }
{
    if s.is_empty() {
        return at;
    }
    let a = s[0];
    let o = buffer::put_byte(out, at, character_of(a / 4));
    if s.len() == 1 {
        return buffer::put_byte(out, o, character_of(a % 4 * 16));
    }
    let b = s[1];
    let p = buffer::put_byte(out, o, character_of(a % 4 * 16 + b / 16));
    if s.len() == 2 {
        return buffer::put_byte(out, p, character_of(b % 16 * 4));
    }
    let c = s[2];
    let q = buffer::put_byte(out, p, character_of(b % 16 * 4 + c / 64));
    buffer::put_byte(out, q, character_of(c))
}

// The characters of bytes, written.
pub fn put_encoded(out: &mut [u8], at: usize, s: &[u8]) -> usize
    ensures { Wrote out.old at (encoded s.now) out.new result }
{
    if out.len() <= at {
        return at;
    }
    let groups = (s.len() / 3).min((out.len() - at) / 4);
    let cut = 3 * groups;
    let o = encode_groups(out, at, &s[..cut]);
    // a group more, or what is left of the bytes; where there is less room for it, it fills the buffer
    encode_group(out, o, &s[cut..])
}

// How many characters the bytes take.
#[tactic(auto, using(crate::proofs::Texts::length_encoded))]
pub fn encoded_len(s: &[u8]) -> usize
    ensures { result ≡ length (encoded s.now) }
{
    s.len() / 3 * 4 + (s.len() % 3 * 4 + 2) / 3
}

// ---- characters into bytes

// The bytes of groups of four characters, where there is room for them.
fn decode_groups(out: &mut [u8], at: usize, t: &[u8]) -> usize
    requires t_len { length t.now % 4 ≡ 0 }
    requires t_in_bounds { at + length t.now / 4 * 3 ≤ length out.old }
    ensures { Wrote out.old at (decoded t.now) out.new result }
{
    let mut left = t;
    let mut o = at;
    while let [w, x, y, z, rest @ ..] = left {
        let a = six_bits(*w);
        let b = six_bits(*x);
        let c = six_bits(*y);
        let d = six_bits(*z);
        out[o] = a % 64 * 4 + b % 64 / 16;
        out[o + 1] = b % 16 * 16 + c % 64 / 4;
        out[o + 2] = c % 4 * 64 + d % 64;
        o += 3;
        left = rest;
    }
    o
}

// The bytes of the first four characters, or of as many as there are: with ends on the way, as `encode_group`.
fn decode_group(out: &mut [u8], at: usize, t: &[u8]) -> usize
    ensures { Wrote out.old at (decoded (take 4 t.now)) out.new result }
{
    if t.len() < 2 {
        return at;
    }
    let a = six_bits(t[0]);
    let b = six_bits(t[1]);
    let o = buffer::put_byte(out, at, a % 64 * 4 + b % 64 / 16);
    if t.len() == 2 {
        return o;
    }
    let c = six_bits(t[2]);
    let p = buffer::put_byte(out, o, b % 16 * 16 + c % 64 / 4);
    if t.len() == 3 {
        return p;
    }
    let d = six_bits(t[3]);
    buffer::put_byte(out, p, c % 4 * 64 + d % 64)
}

// The bytes of a text, written.
pub fn put_decoded(out: &mut [u8], at: usize, t: &[u8]) -> usize
    ensures { Wrote out.old at (decoded t.now) out.new result }
{
    if out.len() <= at {
        return at;
    }
    let groups = (t.len() / 4).min((out.len() - at) / 3);
    let cut = 4 * groups;
    let o = decode_groups(out, at, &t[..cut]);
    // a group more, or what is left of the text; where there is less room for it, it fills the buffer
    decode_group(out, o, &t[cut..])
}

// How many bytes a text holds.
#[tactic(auto, using(crate::proofs::Texts::length_decoded))]
pub fn decoded_len(t: &[u8]) -> usize
    ensures { result ≡ length (decoded t.now) }
{
    t.len() / 4 * 3 + t.len() % 4 * 3 / 4
}

// ---- is a text base64

// 1 for a byte outside the alphabet, and else 0: by the alphabet's ranges, so that a loop goes in vectors.
#[tactic(auto, using(crate::proofs::Alphabet::outside))]
fn is_outside(b: u8) -> u8
    ensures value { result ≡ is_outside b }
    ensures upper_bound { result ≤ 1 }
{
    // one test for each range and no `match` of all, whose tests one by one make the loop slower
    let inside = matches!(b, b'a'..=b'z')
        || matches!(b, b'A'..=b'Z')
        || matches!(b, b'/'..=b'9')
        || b == b'+';
    u8::from(!inside)
}

// How many bytes of a block are outside the alphabet. No exit on the way, and a sum in a byte: a loop for vectors.
#[tactic(auto, unfolding(scan::specs::inner::Blocks::sum_of))]
fn count_outside(block: &[u8]) -> u8
    requires { length block.now ≤ 128 }
    ensures { result ≡ sum_of is_outside block.now }
{
    let mut n = 0;
    for &b in block {
        n += is_outside(b);
    }
    n
}

// The place of the first byte outside the alphabet from a place on, or the text's end: byte by byte.
fn first_outside(t: &[u8], at: usize) -> usize
    requires { at ≤ length t.now }
    ensures { result ≡ run_at in_alphabet t.now at }
{
    at + t[at..].iter().take_while(|b| is_outside(**b) == 0).count()
}

// The same, block by block; byte by byte only in a block that has one.
pub fn alphabet_end(t: &[u8], at: usize) -> usize
    ensures { result ≡ run_at in_alphabet t.now at }
{
    if t.len() <= at {
        return at;
    }
    let mut i = at;
    for block in t[at..].chunks(128) {
        if count_outside(block) != 0 {
            return first_outside(t, i);
        }
        i += block.len();
    }
    i
}

// Whether a text ends as base64 does: neither with a lone character nor with bits left over that are not zero.
pub fn ends_whole(t: &[u8]) -> bool
    ensures { result ≡ ends_whole t.now }
{
    match t.len() % 4 {
        0 => true,
        1 => false,
        2 => six_bits(t[t.len() - 1]) % 16 == 0,
        _ => six_bits(t[t.len() - 1]) % 4 == 0,
    }
}
