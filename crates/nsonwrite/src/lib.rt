// The NSON of a packed event: measured first, and written where NSON can carry the event and there is room for it.
#![tactic(auto)]

ghost use Rattle.std.specs.Prelude.{◌+◌, ◌*◌, ◌≤◌, ◌≡◌, false, ◌∷◌, IfSome, MatchOption, map, length};
ghost use Rattle.buffer.specs.inner.Store.{Wrote};
ghost use Rattle.hexdigits.specs.Hex.{hexes};
ghost use Rattle.event.specs.Event.{Valid};
ghost use Rattle.event.specs.inner.Told.{answer};
ghost use Rattle.escape.specs.Escape.{nson_byte, escaped};
ghost use Rattle.escape.specs.inner.Controls.{nson_text};
ghost use Rattle.notepack.specs.Unpack.{text_of};
ghost use Rattle.notepack.specs.inner.Again.{texts_again, texts_end, tags_again, event_again};
ghost use Rattle.jsontags.specs.TagText.{quoted, commaed, tag_text};
ghost use Rattle.nson.specs.Nson.{escaped_size, counts, word, words, tag_counts, descriptors, head_text, body_text, nson};
ghost use Rattle.nson.specs.inner.Decision.{fits, all_fit, tags_fit, carries};
ghost use Rattle.nson.specs.Entries.{nson_writes, writer_leaves};
ghost use Rattle.nsonwrite.specs.inner.Measure.{Fitting, Measures, Ready, texts_fit, texts_length};

use escape::{Escaping, Size};
use event::{Reason, Refusal};
use notepack::{Head, Part};

// What NSON can carry: the times, the longest text between two quotes, and the most bytes of descriptors.
const MIN_CREATED_AT: u64 = 1_000_000_000;

const MAX_CREATED_AT: u64 = 9_999_999_999;

const MAX_TEXT: usize = 65_535;

const MAX_DESCRIPTORS: usize = 127;

// ---- the measure: a length, with the descriptors in a buffer of 128 bytes; None where NSON can't carry the event

// The length of what was measured, and the place behind its descriptors.
#[derive(Clone, Copy)]
struct Measured {
    len: usize,
    out: usize,
}

// A count in two bytes, the upper one first.
fn put_word(out: &mut [u8], at: usize, n: usize) -> usize
    requires { n ≤ 65535 }
    ensures { Wrote out.old at (word n) out.new result }
{
    let o = buffer::put_byte(out, at, (n / 256) as u8);
    buffer::put_byte(out, o, (n % 256) as u8)
}

// The length of a part's text between its quotes, and whether it is free of bytes that NSON can't carry. Hex digits
// need no escape: two for each byte.
fn text_size(s: &[u8], p: Part) -> Size
    ensures len_value { result.len ≡ length (escaped nson_byte (text_of s.now p)) }
    ensures fits_value { result.fits ≡ nson_text (text_of s.now p) }
{
    let bytes = scan::part(s, p.at, p.len);
    if p.raw {
        return Size {
            len: 2 * bytes.len(),
            fits: true,
        };
    }
    escape::nson_size(bytes)
}

// The length of a part's text, where NSON can carry it.
#[tactic(auto, using(scan::proofs::Step::tests), unfolding(nson::specs::inner::Decision::fits, nson::specs::Nson::escaped_size))]
fn text_len(s: &[u8], p: Part) -> Option<usize>
    ensures { MatchOption result (fits (text_of s.now p) ≡ false) (Fitting (text_of s.now p)) }
{
    let size = text_size(s, p);
    if size.fits && size.len <= MAX_TEXT {
        Some(size.len)
    } else {
        None
    }
}

// count elements from a place on, as strings, with the place behind them.
fn measure_elements(
    s: &[u8],
    from: usize,
    count: u8,
    d: &mut [u8],
    at: usize,
) -> Option<(Measured, usize)>
    ensures cases { MatchOption result (all_fit (texts_again count s.now from) ≡ false) (λ m. Measures (all_fit (texts_again count s.now from)) (words (map escaped_size (texts_again count s.now from))) (length (commaed (map (quoted nson_byte) (texts_again count s.now from)))) d.old at d.new m.0) }
    ensures next_value { IfSome result (λ m. m.1 ≡ texts_end count s.now from) }
    ensures len_bound { IfSome result (λ m. m.0.len ≤ 16712190) }
{
    let mut len = 0;
    let mut out = at;
    let mut next = from;
    for i in 0..count {
        let (part, behind) = notepack::part_again(s, next);
        let n = text_len(s, part)?;
        len += n + 2 + jsontags::comma_len((count - i - 1) as u64);
        out = put_word(d, out, n);
        next = behind;
    }
    Some((Measured { len, out }, next))
}

// count tags from a place on, as arrays.
fn measure_tags(s: &[u8], from: usize, count: u8, d: &mut [u8], at: usize) -> Option<Measured>
    ensures cases { MatchOption result (tags_fit (tags_again count s.now from) ≡ false) (Measures (tags_fit (tags_again count s.now from)) (tag_counts (map (map escaped_size) (tags_again count s.now from))) (length (commaed (map (tag_text nson_byte) (tags_again count s.now from)))) d.old at d.new) }
    ensures len_bound { IfSome result (λ m. m.len ≤ 4261609215) }
{
    let mut len = 0;
    let mut out = at;
    let mut next = from;
    for i in 0..count {
        let (n, first) = notepack::count_again(s, next);
        let n = n as u8;
        out = buffer::put_byte(d, out, n);
        let (elements, behind) = measure_elements(s, first, n, d, out)?;
        len += elements.len + 2 + jsontags::comma_len((count - i - 1) as u64);
        out = elements.out;
        next = behind;
    }
    Some(Measured { len, out })
}

// The content and the tags. All descriptors go into d, the first ones of the kind and the content.
fn measure_texts(s: &[u8], h: Head, d: &mut [u8; 128]) -> Option<Measured>
    requires { h.tag_count ≤ 255 }
    ensures cases { MatchOption result (texts_fit (event_again s.now h) ≡ false) (Measures (texts_fit (event_again s.now h)) (descriptors (counts (event_again s.now h))) (texts_length (event_again s.now h)) d.old 0 d.new) }
    ensures bounds { IfSome result (λ m. (m.out ≤ 128) × (m.len ≤ 4261674750)) }
{
    let kind = decimal::decimal_len(h.kind);
    let n = text_len(s, h.content)?;
    let a = buffer::put_byte(d, 0, kind as u8);
    let b = put_word(d, a, n);
    let count = h.tag_count as u8;
    let c = buffer::put_byte(d, b, count);
    let tags = measure_tags(s, h.tags_at, count, d, c)?;
    Some(Measured {
        len: n + tags.len,
        out: tags.out,
    })
}

// The whole text. Each tag has a descriptor of its own, so no event has more tags than a byte counts.
fn measure(s: &[u8], h: Head, d: &mut [u8; 128]) -> Option<Measured>
    requires { Valid (event_again s.now h) }
    ensures { MatchOption result (carries (event_again s.now h) ≡ false) (Ready (event_again s.now h) d.new) }
{
    if h.created_at < MIN_CREATED_AT || MAX_CREATED_AT < h.created_at || 255 < h.tag_count {
        return None;
    }
    let texts = measure_texts(s, h, d)?;
    let time = decimal::decimal_len(h.created_at);
    let kind = decimal::decimal_len(h.kind);
    let m = Measured {
        len: 343 + time + 2 * texts.out + kind + texts.len,
        out: texts.out,
    };
    if m.out <= MAX_DESCRIPTORS && m.len <= event::MAX_INPUT {
        Some(m)
    } else {
        None
    }
}

// ---- the text

// Up to and including "nson":".
fn put_nson_head(out: &mut [u8], at: usize, s: &[u8], h: Head) -> usize
    ensures { Wrote out.old at (head_text (event_again s.now h)) out.new result }
{
    let a = buffer::put_bytes(out, at, b"{\"id\":\"");
    let b = hexdigits::put_hex(out, a, scan::part(s, 0, 32));
    let c = buffer::put_bytes(out, b, b"\",\"pubkey\":\"");
    let d = hexdigits::put_hex(out, c, scan::part(s, 32, 32));
    let e = buffer::put_bytes(out, d, b"\",\"sig\":\"");
    let f = hexdigits::put_hex(out, e, scan::part(s, 64, 64));
    let g = buffer::put_bytes(out, f, b"\",\"created_at\":");
    let i = decimal::put_decimal(out, g, h.created_at);
    buffer::put_bytes(out, i, b",\"nson\":\"")
}

// The size, which counts the hex characters behind it, and the descriptors d.
fn put_nson_field(out: &mut [u8], at: usize, d: &[u8]) -> usize
    requires { length d.now ≤ 127 }
    ensures { Wrote out.old at (hexes (2 * length d.now ∷ d.now)) out.new result }
{
    let size = [(2 * d.len()) as u8];
    let a = hexdigits::put_hex(out, at, &size);
    hexdigits::put_hex(out, a, d)
}

// Behind the nson field.
fn put_nson_body(out: &mut [u8], at: usize, s: &[u8], h: Head) -> usize
    ensures { Wrote out.old at (body_text (event_again s.now h)) out.new result }
{
    let a = buffer::put_bytes(out, at, b"\",\"kind\":");
    let b = decimal::put_decimal(out, a, h.kind);
    let c = buffer::put_bytes(out, b, b",\"content\":\"");
    let d = jsontags::put_escaped_part(Escaping::Nson, out, c, s, h.content);
    let e = buffer::put_bytes(out, d, b"\",\"tags\":[");
    let f = jsontags::put_arrays(Escaping::Nson, out, e, s, h.tags_at, h.tag_count);
    buffer::put_bytes(out, f, b"]}")
}

// The whole text, with the descriptors d.
fn put_nson(out: &mut [u8], s: &[u8], h: Head, d: &[u8]) -> usize
    requires d_value { d.now ≡ descriptors (counts (event_again s.now h)) }
    requires d_bound { length d.now ≤ 127 }
    ensures { Wrote out.old 0 (nson (event_again s.now h)) out.new result }
{
    let a = put_nson_head(out, 0, s, h);
    let b = put_nson_field(out, a, d);
    put_nson_body(out, b, s, h)
}

// The NSON of a packed event: the reader's refusals, 17 where NSON can't carry it, then 11 with the length needed; else
// written from the start.
pub fn write_nson(s: &[u8], out: &mut [u8]) -> Result<usize, Refusal>
    ensures result_value { answer result ≡ nson_writes s.now out.old }
    ensures out_after { out.new ≡ writer_leaves s.now out.old }
{
    let (h, _) = notepack::walk_packed(s)?;
    let mut descriptors = [0u8; 128];
    let Some(m) = measure(s, h, &mut descriptors) else {
        return Err(Refusal {
            reason: Reason::NotCarried,
            place: 0,
        });
    };
    if out.len() < m.len {
        return Err(Refusal {
            reason: Reason::TooLittleRoom,
            place: m.len,
        });
    }
    Ok(put_nson(out, s, h, &descriptors[..m.out]))
}
