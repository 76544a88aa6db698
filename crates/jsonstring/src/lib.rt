// The strings of JSON at a place, and a fast way for those that are short and plain. What is read is told with the
// place behind it.
#![tactic(auto)]

ghost use Rattle.std.specs.Prelude.{◌+◌, ◌≤◌, ◌≡◌, Some, None, false, MatchResult, drop, min};
ghost use Rattle.std.specs.List.{list_any};
ghost use Rattle.scan.specs.Choice.{pick};
ghost use Rattle.scan.specs.Place.{byte_at};
ghost use Rattle.scan.specs.inner.Blocks.{neighbours, before_stop};
ghost use Rattle.event.specs.inner.Told.{read_answer};
ghost use Rattle.jsontext.specs.Text.{string_at};
ghost use Rattle.jsonstring.specs.inner.Plain.{PlainTo, is_special, plain_end, is_short_plain, PlainText};
ghost use Rattle.jsonstring.specs.inner.Loose.{LooseTo, clash_of};
ghost use Rattle.jsonstring.specs.inner.Answers.{text_read};

use event::{Reason, Refusal};
use jsontext::Spelled;

// A string of at most 80 bytes of plain ASCII, which is its own text; or any other string.
#[derive(Clone, Copy)]
pub enum Text {
    Plain(Spelled),
    Other(Spelled),
}

// ---- blocks of plain ASCII

// Whether a byte is anything but plain ASCII in a string: a control byte, above ASCII, a quote or a backslash. The first
// two stand together, since they are one comparison of a signed byte.
#[tactic(auto, using(scan::proofs::Step::tests), unfolding(crate::specs::inner::Plain::is_special))]
fn is_special(b: u8) -> bool
    ensures { result ≡ is_special b }
{
    b < 0x20 || 0x80 <= b || b == b'"' || b == b'\\'
}

// Whether a block has a special byte. No exit on the way: a loop for vectors.
fn has_special(block: &[u8]) -> bool
    ensures { result ≡ list_any is_special block.now }
{
    let mut any = false;
    for &b in block {
        any |= is_special(b);
    }
    any
}

// How many bytes the blocks of 32 plain bytes take that a text begins with.
fn plain_blocks(t: &[u8]) -> usize
    ensures { PlainTo t.now 0 result }
{
    let mut n = 0;
    for block in t.chunks_exact(32) {
        if has_special(block) {
            break;
        }
        n += 32;
    }
    n
}

// ---- bare bytes and escapes

// 0 where b may stand behind the byte before it in a string: behind a backslash n or a quote, behind any other byte
// neither a quote nor a control byte.
#[tactic(auto, using(scan::proofs::Step::tests), unfolding(crate::specs::inner::Loose::clash_of, scan::specs::inner::Blocks::is_one, scan::specs::inner::Blocks::control_count))]
pub fn clash(before: u8, b: u8) -> u8
    ensures value { result ≡ clash_of before b }
    ensures upper_bound { result ≤ 1 }
{
    u8::from(if before == b'\\' {
        b != b'n' && b != b'"'
    } else {
        b == b'"' || b < 0x20
    })
}

// 0 for a block none of whose bytes clashes with the one before it; the first byte is the one before the block.
// No exit on the way, and a sum in a byte: a loop for vectors.
#[tactic(auto, unfolding(scan::specs::inner::Blocks::neighbours))]
fn clashes(block: &[u8; 33]) -> u8
    ensures { result ≡ neighbours clash_of (byte_at block.now 0) (drop 1 block.now) }
{
    let mut n = 0;
    for i in 1..block.len() {
        n += clash(block[i - 1], block[i]);
    }
    n
}

// Passes blocks of 32 bytes without a clash. A backslash that ends the last of them is left to be read with what it
// escapes; none is begun behind a backslash, which may be the second of two, nor where no byte stands before the place.
fn pass_quoted(s: &[u8], at: usize) -> usize
    ensures { LooseTo s.now at result }
{
    if at == 0 || s.len() < at || s[at - 1] == b'\\' {
        return at;
    }
    let mut i = at;
    // A place, since blocks are lent with the byte before them, which no iterator of the library does.
    while let Some(block) = s[i - 1..].first_chunk() {
        if clashes(block) != 0 {
            break;
        }
        i += 32;
    }
    if s[i - 1] == b'\\' {
        return i - 1;
    }
    i
}

// Passes bare bytes and escapes from a place on, with no look at UTF-8: to the closing quote, a fault, or the end.
#[tactic(auto, using(jsontext::proofs::EscapeLaws::width_fits, crate::proofs::LooseLaws::letter_fits, crate::proofs::LooseLaws::loose_inside, crate::proofs::LooseLaws::loose_onward))]
fn loose_end(s: &[u8], from: usize) -> usize
    ensures { LooseTo s.now from result }
{
    let mut i = from;
    // Places, since an escape takes as many bytes as it is wide.
    while i < s.len() {
        i = pass_quoted(s, i);
        let end = i + (s.len() - i).min(32);
        while i < end {
            let b = s[i];
            if b == b'"' || b < 0x20 {
                return i;
            }
            if b != b'\\' {
                i += 1;
                continue;
            }
            // A letter's escape, which is most of them, with no look at the other kinds.
            if let Some(_) = jsonescape::unescaped_letter(scan::byte_at(s, i + 1)) {
                i += 2;
                continue;
            }
            let Some(e) = jsonescape::escape_at(s, i) else {
                return i;
            };
            i += e.width;
        }
    }
    i
}

// ---- any string

// The string whose opening quote stands at a place. Where its end is found at once and the bytes up to it are UTF-8 it
// is read; in any other case character after character decides.
#[tactic(auto, using(scan::proofs::Fits::next_fits, crate::proofs::LooseLaws::string_loose, crate::proofs::LooseLaws::loose_onward))]
pub fn read_string(s: &[u8], at: usize) -> Result<(Spelled, usize), Refusal>
    ensures { read_answer result ≡ string_at s.now at }
{
    if scan::byte_at(s, at) == b'"' {
        let from = at + 1;
        let end = loose_end(s, from);
        if scan::byte_at(s, end) == b'"' {
            let count = end - from;
            if utf8::is_utf8(scan::part(s, from, count)) {
                return Ok((Spelled { from, count }, end + 1));
            }
        }
    }
    read_slowly(s, at)
}

// The same, character after character; the earliest fault decides. Blocks of plain bytes are passed whole.
#[tactic(auto, using(crate::proofs::Turn::texts))]
fn read_slowly(s: &[u8], at: usize) -> Result<(Spelled, usize), Refusal>
    ensures { read_answer result ≡ string_at s.now at }
{
    let bad = Refusal {
        reason: Reason::TextNotAllowed,
        place: at,
    };
    if scan::byte_at(s, at) != b'"' {
        return Err(bad);
    }
    let from = at + 1;
    let mut i = from;
    // Places, since a character takes as many bytes as it is wide.
    while i < s.len() {
        i += plain_blocks(&s[i..]);
        let end = i + (s.len() - i).min(32);
        while i < end {
            let b = s[i];
            if b == b'"' {
                let count = i - from;
                return Ok((Spelled { from, count }, i + 1));
            }
            if b < 0x20 {
                return Err(bad);
            }
            if b == b'\\' {
                let Some(e) = jsonescape::escape_at(s, i) else {
                    return Err(bad);
                };
                i += e.width;
            } else if b < 0x80 {
                i += 1;
            } else {
                let w = utf8::width_at(s, i);
                if w == 0 {
                    return Err(Refusal {
                        reason: Reason::IllFormedUtf8,
                        place: from,
                    });
                }
                i += w;
            }
        }
    }
    Err(bad)
}

// ---- short plain strings

// How many bytes of a block stand before the first that is special. No exit on the way, and a minimum of bytes: a loop
// for vectors.
fn plain_prefix(block: &[u8; 32]) -> u8
    ensures { result ≡ before_stop is_special block.now }
{
    let n = block.len() as u8;
    let mut m = n;
    for (i, &b) in block.iter().enumerate() {
        let stop = if is_special(b) { i as u8 } else { n };
        m = m.min(stop);
    }
    m
}

// The same of any text.
fn plain_count(t: &[u8]) -> usize
    ensures { result ≡ before_stop is_special t.now }
{
    t.iter().take_while(|b| !is_special(**b)).count()
}

// How many plain bytes a text begins with, of 80 at most. 64 hex digits in front of a quote, an id or a key, are passed
// at once, and so is what ends within 32 bytes.
#[tactic(auto, using(crate::proofs::PlainLaws::len_digits, crate::proofs::PlainLaws::len_block, crate::proofs::PlainLaws::before_take))]
fn plain_len(t: &[u8]) -> usize
    ensures { result ≡ min 80 (before_stop is_special t.now) }
{
    if scan::byte_at(t, 64) == b'"' && hexdigits::all_digits(scan::part(t, 0, 64)) {
        return 64;
    }
    if let Some(block) = t.first_chunk() {
        let m = plain_prefix(block);
        if m < 32 {
            return usize::from(m);
        }
    }
    plain_count(scan::part(t, 0, 80))
}

// The place of the quote that closes a short plain string at a place.
#[tactic(auto, using(scan::proofs::Step::tests, scan::proofs::Fits::next_fits, scan::proofs::Step::rest_whole), unfolding(crate::specs::inner::Plain::is_short_plain, crate::specs::inner::Plain::plain_end))]
fn short_quote(s: &[u8], at: usize) -> Option<usize>
    ensures { result ≡ pick (is_short_plain s.now at) (Some (plain_end s.now (at + 1))) None }
{
    if scan::byte_at(s, at) == b'"' {
        let from = at + 1;
        let end = from + plain_len(&s[from..]);
        if scan::byte_at(s, end) == b'"' {
            return Some(end);
        }
    }
    None
}

// The string at a place. Most are short and plain, which is told at once.
pub fn read_text(s: &[u8], at: usize) -> Result<(Text, usize), Refusal>
    ensures result_value { text_read result ≡ string_at s.now at }
    ensures plain_text { MatchResult result (λ x. PlainText s.now at x.0) (λ _. is_short_plain s.now at ≡ false) }
{
    if let Some(end) = short_quote(s, at) {
        let from = at + 1;
        let count = end - from;
        return Ok((Text::Plain(Spelled { from, count }), end + 1));
    }
    let (p, next) = read_string(s, at)?;
    Ok((Text::Other(p), next))
}
