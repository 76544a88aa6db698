// The canonical text of a packed event: measured first, and written where there is room for it.
#![tactic(auto)]

ghost use Rattle.std.specs.Prelude.{◌+◌, ◌*◌, ◌≤◌, ◌≡◌, map, length};
ghost use Rattle.buffer.specs.inner.Store.{Wrote};
ghost use Rattle.buffer.specs.Entry.{writes, leaves};
ghost use Rattle.event.specs.inner.Told.{answer};
ghost use Rattle.escape.specs.Escape.{canonical_byte};
ghost use Rattle.notepack.specs.Unpack.{text_of, unpack};
ghost use Rattle.notepack.specs.inner.Again.{texts_again, texts_end, tags_again, event_again};
ghost use Rattle.jsontags.specs.TagText.{quoted, commaed, tag_text};
ghost use Rattle.canonical.specs.Canonical.{canonical};
ghost use Rattle.canonical.specs.inner.Opening.{opening};

use escape::Escaping;
use event::{Reason, Refusal};
use notepack::{PackedEvent, Part};

// The pubkey, which goes as its hex.
const PUBKEY: Part = Part {
    at: 32,
    len: 32,
    raw: true,
};

// ---- the length

// The length of a part's text as a string.
#[tactic(auto, using(jsontags::proofs::Texts::length_quoted))]
fn quoted_len(packed: &PackedEvent, p: Part) -> usize
    ensures value { result ≡ length (quoted canonical_byte (text_of packed.now.bytes.now p)) }
    ensures upper_bound { result ≤ 131074 }
{
    jsontags::escaped_part_len(Escaping::Canonical, packed.bytes, p) + 2
}

// The length of count elements from a place on, as strings, and the place behind them.
fn elements_len(packed: &PackedEvent, from: usize, count: u64) -> (usize, usize)
    requires { count ≤ 255 }
    ensures len_value { result.0 ≡ length (commaed (map (quoted canonical_byte) (texts_again count packed.now.bytes.now from))) }
    ensures next_value { result.1 ≡ texts_end count packed.now.bytes.now from }
    ensures len_bound { result.0 ≤ 33424125 }
{
    let mut n = 0;
    let mut at = from;
    for i in 0..count {
        let (part, next) = notepack::part_again(packed.bytes, at);
        n += quoted_len(packed, part) + jsontags::comma_len(count - i - 1);
        at = next;
    }
    (n, at)
}

// The tags, as arrays.
fn tags_len(packed: &PackedEvent) -> usize
    ensures value { result ≡ length (commaed (map (tag_text canonical_byte) (tags_again packed.now.head.tag_count packed.now.bytes.now packed.now.head.tags_at))) }
    ensures upper_bound { result ≤ 33424128000 }
{
    let count = packed.head.tag_count;
    let mut n = 0;
    let mut at = packed.head.tags_at;
    for i in 0..count {
        let (texts, first) = notepack::count_again(packed.bytes, at);
        let (len, next) = elements_len(packed, first, texts);
        n += len + 2 + jsontags::comma_len(count - i - 1);
        at = next;
    }
    n
}

// The length of the whole text.
fn canonical_len(packed: &PackedEvent) -> usize
    ensures { result ≡ length (canonical (event_again packed.now.bytes.now packed.now.head)) }
{
    10 + quoted_len(packed, PUBKEY)
        + decimal::decimal_len(packed.head.created_at)
        + decimal::decimal_len(packed.head.kind)
        + tags_len(packed)
        + quoted_len(packed, packed.head.content)
}

// ---- the text

// All in front of the tags.
fn put_opening(out: &mut [u8], at: usize, packed: &PackedEvent) -> usize
    ensures { Wrote out.old at (opening (event_again packed.now.bytes.now packed.now.head)) out.new result }
{
    let a = buffer::put_bytes(out, at, b"[0,");
    let b = jsontags::put_quoted(Escaping::Canonical, out, a, packed.bytes, PUBKEY);
    let c = buffer::put_bytes(out, b, b",");
    let d = decimal::put_decimal(out, c, packed.head.created_at);
    let e = buffer::put_bytes(out, d, b",");
    let f = decimal::put_decimal(out, e, packed.head.kind);
    buffer::put_bytes(out, f, b",[")
}

// The whole text.
fn put_canonical(out: &mut [u8], at: usize, packed: &PackedEvent) -> usize
    ensures { Wrote out.old at (canonical (event_again packed.now.bytes.now packed.now.head)) out.new result }
{
    let s = packed.bytes;
    let h = packed.head;
    let a = put_opening(out, at, packed);
    let b = jsontags::put_arrays(Escaping::Canonical, out, a, s, h.tags_at, h.tag_count);
    let c = buffer::put_bytes(out, b, b"],");
    let d = jsontags::put_quoted(Escaping::Canonical, out, c, s, h.content);
    buffer::put_bytes(out, d, b"]")
}

// The canonical text of a packed event: the reader's refusals, then 11 with the length needed; else written from the
// start.
pub fn write_canonical(s: &[u8], out: &mut [u8]) -> Result<usize, Refusal>
    ensures result_value { answer result ≡ writes canonical (unpack s.now) out.old }
    ensures out_after { out.new ≡ leaves canonical (unpack s.now) out.old }
{
    let (head, _) = notepack::walk_packed(s)?;
    let packed = &PackedEvent { bytes: s, head };
    // always room enough: nothing is to be measured
    if 3 * s.len() <= out.len() {
        return Ok(put_canonical(out, 0, packed));
    }
    let need = canonical_len(packed);
    if out.len() < need {
        return Err(Refusal {
            reason: Reason::TooLittleRoom,
            place: need,
        });
    }
    Ok(put_canonical(out, 0, packed))
}
