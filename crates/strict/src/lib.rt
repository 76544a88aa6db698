// The strict form of a packed event: the question whether bytes are it, and the writer.
#![tactic(auto)]

ghost use Rattle.std.specs.Prelude.{◌≡◌};
ghost use Rattle.scan.specs.Choice.{shown};
ghost use Rattle.buffer.specs.inner.Store.{Wrote};
ghost use Rattle.buffer.specs.Entry.{writes, leaves};
ghost use Rattle.event.specs.inner.Told.{answer};
ghost use Rattle.hexdigits.specs.Hex.{hexes};
ghost use Rattle.notepack.specs.Strict.{pack_element, pack_elements, pack_tags, pack};
ghost use Rattle.notepack.specs.Unpack.{text_of, unpack};
ghost use Rattle.notepack.specs.inner.Again.{texts_again, texts_end, tags_again, event_again};
ghost use Rattle.notepack.specs.inner.Answers.{walk_at};
ghost use Rattle.strict.specs.Strict.{strict};
ghost use Rattle.strict.specs.inner.Copy.{packed_head, packed_pieces};

use event::{Reason, Refusal};
use notepack::{Head, Part, Tally};

// Whether the bytes are the strict form of their event, or the reader's refusal.
pub fn is_strict(s: &[u8]) -> Result<bool, Refusal>
    ensures { answer result ≡ strict s.now }
{
    let (_, t) = notepack::walk_packed(s)?;
    Ok(t.len == s.len() && !t.hollow)
}

// The strict element whose text these bytes are.
pub fn put_packed_text(out: &mut [u8], at: usize, t: &[u8]) -> usize
    ensures { Wrote out.old at (pack_element t.now) out.new result }
{
    if hexdigits::goes_as_bytes(t) {
        let n = t.len() / 2;
        let o = varint::put_varint(out, at, 2 * n as u64 + 1);
        return hexdigits::put_unhex(out, o, t);
    }
    let o = varint::put_varint(out, at, 2 * t.len() as u64);
    buffer::put_bytes(out, o, t)
}

// The strict element whose text is the hex of these bytes.
fn put_raw(out: &mut [u8], at: usize, b: &[u8]) -> usize
    ensures { Wrote out.old at (pack_element (hexes b.now)) out.new result }
{
    if b.is_empty() {
        return buffer::put_byte(out, at, 0);
    }
    let o = varint::put_varint(out, at, 2 * b.len() as u64 + 1);
    buffer::put_bytes(out, o, b)
}

// The strict element that has a part's text.
#[tactic(auto, unfolding(notepack::specs::Unpack::text_of))]
fn put_packed_part(out: &mut [u8], at: usize, s: &[u8], p: Part) -> usize
    ensures { Wrote out.old at (pack_element (text_of s.now p)) out.new result }
{
    let bytes = scan::part(s, p.at, p.len);
    if p.raw {
        return put_raw(out, at, bytes);
    }
    put_packed_text(out, at, bytes)
}

// count elements from a place on: the place behind what was written, and the place behind what was read for it.
fn copy_elements(out: &mut [u8], at: usize, s: &[u8], from: usize, count: u64) -> (usize, usize)
    ensures wrote { Wrote out.old at (pack_elements (texts_again count s.now from)) out.new result.0 }
    ensures next_value { result.1 ≡ texts_end count s.now from }
{
    let mut o = at;
    let mut i = from;
    for _ in 0..count {
        let (part, next) = notepack::part_again(s, i);
        o = put_packed_part(out, o, s, part);
        i = next;
    }
    (o, i)
}

// count tags from a place on.
fn copy_tags(out: &mut [u8], at: usize, s: &[u8], from: usize, count: u64) -> usize
    ensures { Wrote out.old at (pack_tags (tags_again count s.now from)) out.new result }
{
    let mut o = at;
    let mut i = from;
    for _ in 0..count {
        let (n, first) = notepack::count_again(s, i);
        o = varint::put_varint(out, o, n);
        (o, i) = copy_elements(out, o, s, first, n);
    }
    o
}

// All in front of the tags.
fn put_packed_head(out: &mut [u8], at: usize, s: &[u8], h: Head) -> usize
    ensures { Wrote out.old at (packed_head s.now h) out.new result }
{
    let content = h.content;
    let a = buffer::put_part(out, at, s, 0, 128);
    let b = varint::put_varint(out, a, h.created_at);
    let c = varint::put_varint(out, b, h.kind);
    let d = varint::put_varint(out, c, content.len as u64);
    let e = buffer::put_part(out, d, s, content.at, content.len);
    varint::put_varint(out, e, h.tag_count)
}

// The strict form of a walked event, piece by piece.
pub fn put_packed(out: &mut [u8], at: usize, s: &[u8], h: Head) -> usize
    ensures { Wrote out.old at (packed_pieces s.now h) out.new result }
{
    let o = put_packed_head(out, at, s, h);
    copy_tags(out, o, s, h.tags_at, h.tag_count)
}

// A walked event into a buffer that has room for its strict form. Bytes that are strict already are copied whole.
fn copy_packed(out: &mut [u8], s: &[u8], h: Head, t: Tally) -> usize
    requires { walk_at s.now ≡ shown (record { head = h; tally = t }) }
    ensures { Wrote out.old 0 (pack (event_again s.now h)) out.new result }
{
    if t.len == s.len() && !t.hollow {
        return buffer::put_bytes(out, 0, s);
    }
    put_packed(out, 0, s, h)
}

// The strict form of a packed event: the reader's refusals, then 11 with the length needed; else written from the
// start.
pub fn write_strict(s: &[u8], out: &mut [u8]) -> Result<usize, Refusal>
    ensures result_value { answer result ≡ writes pack (unpack s.now) out.old }
    ensures out_after { out.new ≡ leaves pack (unpack s.now) out.old }
{
    let (h, t) = notepack::walk_packed(s)?;
    if out.len() < t.len {
        return Err(Refusal {
            reason: Reason::TooLittleRoom,
            place: t.len,
        });
    }
    Ok(copy_packed(out, s, h, t))
}
