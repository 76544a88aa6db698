// The plain JSON reader. The first pass (crate jsonobject) refuses or measures; only then is the strict form written,
// from the places that it found.
#![tactic(auto)]

ghost use Rattle.std.specs.Prelude.{◌≡◌};
ghost use Rattle.buffer.specs.inner.Store.{Wrote};
ghost use Rattle.event.specs.inner.Told.{answer};
ghost use Rattle.hexdigits.specs.Hex.{unhex};
ghost use Rattle.notepack.specs.Strict.{pack_element};
ghost use Rattle.jsonevent.specs.Field.{text_of};
ghost use Rattle.jsonevent.specs.Entries.{json_reads, json_leaves};
ghost use Rattle.jsonevent.specs.inner.Needs.{json_needs};
ghost use Rattle.jsonfields.specs.inner.Spots.{spelled_of};
ghost use Rattle.jsonread.specs.inner.Copy.{said, behind_at, text_end, count_texts, texts_text, json_texts_end, json_tags_text, spot_content, fields_text};
ghost use Rattle.jsonread.specs.inner.Whole.{limited_at};

use event::{Reason, Refusal};
use jsonfields::Spot;
use jsonobject::{Fields, Object};
use jsonstring::Text;

// The place behind what was written, and the place behind what was read for it.
#[derive(Clone, Copy)]
struct Copied {
    out: usize,
    next: usize,
}

// ---- the second pass

// Behind the byte at a place and white space; the end stays.
#[tactic(auto, using(scan::proofs::Step::tests), unfolding(crate::specs::inner::Copy::behind_at))]
fn behind(s: &[u8], at: usize) -> usize
    ensures { result ≡ behind_at s.now at }
{
    if at < s.len() {
        return jsonvalue::skip_space(s, at + 1);
    }
    at
}

// Behind the text at a place; 0 where none is read.
#[tactic(auto, unfolding(crate::specs::inner::Copy::text_end))]
fn text_end(s: &[u8], at: usize) -> usize
    ensures { result ≡ text_end s.now at }
{
    match jsonstring::read_text(s, at) {
        Ok((_, next)) => next,
        Err(_) => 0,
    }
}

// How many texts stand from a place on, up to 255: each but the last has a comma behind it.
fn count_texts(s: &[u8], at: usize) -> u64
    ensures { result ≡ count_texts 255 s.now at }
{
    let mut i = at;
    for count in 0..event::MAX_TEXTS {
        let end = text_end(s, i);
        if end == 0 {
            return count;
        }
        let p = jsonvalue::skip_space(s, end);
        if scan::byte_at(s, p) != b',' {
            return count + 1;
        }
        i = behind(s, p);
    }
    event::MAX_TEXTS
}

// A text as a strict element. Most are their own text.
fn put_text(out: &mut [u8], at: usize, s: &[u8], text: Text) -> usize
    ensures { Wrote out.old at (pack_element (said s.now text)) out.new result }
{
    match text {
        Text::Plain(p) => strict::put_packed_text(out, at, scan::part(s, p.from, p.count)),
        Text::Other(p) => stringelement::put_spelled_element(out, at, s, p.from, p.count),
    }
}

// count texts from a place on, and the place behind what closes them.
fn put_texts(out: &mut [u8], at: usize, s: &[u8], from: usize, count: u64) -> Copied
    ensures wrote { Wrote out.old at (texts_text count s.now from) out.new result.out }
    ensures next_value { result.next ≡ json_texts_end count s.now from }
{
    let mut o = at;
    let mut i = from;
    for _ in 0..count {
        let Ok((text, next)) = jsonstring::read_text(s, i) else {
            return Copied { out: o, next: i };
        };
        o = put_text(out, o, s, text);
        i = behind(s, jsonvalue::skip_space(s, next));
    }
    Copied { out: o, next: i }
}

// count tags from a place on.
fn put_json_tags(out: &mut [u8], at: usize, s: &[u8], from: usize, count: u64) -> usize
    ensures { Wrote out.old at (json_tags_text count s.now from) out.new result }
{
    let mut o = at;
    let mut i = from;
    for _ in 0..count {
        let first = behind(s, i);
        let n = count_texts(s, first);
        o = varint::put_varint(out, o, n);
        let copied = put_texts(out, o, s, first, n);
        o = copied.out;
        i = behind(s, copied.next);
    }
    o
}

// The bytes that a spelled string says in hex.
fn put_hex_spot(out: &mut [u8], at: usize, s: &[u8], p: Spot) -> usize
    ensures { Wrote out.old at (unhex (text_of s.now (spelled_of p))) out.new result }
{
    jsonunescape::put_unescaped_unhex(out, at, s, p.from, p.count)
}

// The text of a spelled string. As long as it is spelled, it is its own text.
fn put_text_spot(out: &mut [u8], at: usize, s: &[u8], p: Spot) -> usize
    ensures { Wrote out.old at (spot_content s.now p) out.new result }
{
    if p.number == p.count as u64 {
        return buffer::put_part(out, at, s, p.from, p.count);
    }
    jsonunescape::put_unescaped(out, at, s, p.from, p.count)
}

// The strict form of the event that the fields say.
fn put_event(out: &mut [u8], at: usize, s: &[u8], f: Fields) -> usize
    ensures { Wrote out.old at (fields_text s.now f) out.new result }
{
    let a = put_hex_spot(out, at, s, f.id);
    let b = put_hex_spot(out, a, s, f.pubkey);
    let c = put_hex_spot(out, b, s, f.sig);
    let d = varint::put_varint(out, c, f.created_at.number);
    let e = varint::put_varint(out, d, f.kind.number);
    let g = varint::put_varint(out, e, f.content.number);
    let h = put_text_spot(out, g, s, f.content);
    let i = varint::put_varint(out, h, f.tags.number);
    put_json_tags(out, i, s, f.tags.from, f.tags.number)
}

// ---- the whole text

// A text that is too long is refused first of all.
#[tactic(auto, unfolding(crate::specs::inner::Whole::whole_spots_at, crate::specs::inner::Whole::limited_at), using(scan::proofs::Step::tests))]
fn read_whole(s: &[u8]) -> Result<Object, Refusal>
    ensures { answer result ≡ limited_at s.now }
{
    if event::MAX_INPUT < s.len() {
        return Err(Refusal {
            reason: Reason::InputTooLong,
            place: 0,
        });
    }
    let (object, next) = jsonobject::read_object(s, jsonvalue::skip_space(s, 0))?;
    let end = jsonvalue::skip_space(s, next);
    if end == s.len() {
        return Ok(object);
    }
    Err(Refusal {
        reason: Reason::AfterTheEnd,
        place: end,
    })
}

// The event that a plain JSON text shows, in strict form from the start of the lent buffer; or the refusal, 11 with the
// length needed.
pub fn read_json(s: &[u8], out: &mut [u8]) -> Result<usize, Refusal>
    ensures result_value { answer result ≡ json_reads s.now out.old }
    ensures out_after { out.new ≡ json_leaves s.now out.old }
{
    let object = read_whole(s)?;
    if out.len() < object.len {
        return Err(Refusal {
            reason: Reason::TooLittleRoom,
            place: object.len,
        });
    }
    Ok(put_event(out, 0, s, object.fields))
}

// The length that the event of a plain JSON text takes in strict form, or the refusal.
pub fn json_len(s: &[u8]) -> Result<usize, Refusal>
    ensures { answer result ≡ json_needs s.now }
{
    let object = read_whole(s)?;
    Ok(object.len)
}
