// The NSON reader: a first pass (crate nsonwalk) refuses or measures; only then is the strict form written, by places.
#![tactic(auto)]

ghost use Rattle.std.specs.Prelude.{◌+◌, ◌*◌, ◌≤◌, ◌≡◌};
ghost use Rattle.buffer.specs.inner.Store.{Wrote};
ghost use Rattle.event.specs.inner.Told.{answer};
ghost use Rattle.nson.specs.Entries.{nson_reads, nson_leaves};
ghost use Rattle.nson.specs.inner.Needs.{nson_needs};
ghost use Rattle.nson.specs.inner.Places.{tag_counts_place};
ghost use Rattle.nsonwalk.specs.inner.Walk.{content_place, tags_place};
ghost use Rattle.nsonread.specs.inner.Copy.{items_text, items_end, nson_tags_text, nson_front_text, strict_of, items_place_most};

use event::{Reason, Refusal};
use nsoncounts::ItemCounts;
use nsonwalk::NsonWalked;

// Behind the nson field: `","kind":` and `,"content":"` around the kind; `","tags":` and a bracket in front of the
// first tag.
const AROUND_KIND: usize = 9 + 12;

const BEFORE_TAGS: usize = 9 + 1;

// The items of the counts, the first with its opening quote at a place. Tells the place behind what was written, and
// the place behind what was read for it.
#[tactic(auto, using(crate::proofs::Writing::item_turns))]
fn put_items(out: &mut [u8], at: usize, s: &[u8], counts: ItemCounts, from: usize) -> (usize, usize)
    requires { from ≤ items_place_most }
    ensures wrote { Wrote out.old at (items_text counts.number s.now counts.at from) out.new result.0 }
    ensures next_value { result.1 ≡ items_end counts.number s.now counts.at from }
    ensures next_bound { result.1 ≤ from + 65538 * counts.number }
{
    let mut o = at;
    let mut place = from;
    for i in 0..counts.number {
        let size = usize::from(counts.size(s, i));
        o = stringelement::put_spelled_element(out, o, s, place + 1, size);
        place += size + 3;
    }
    (o, place)
}

// Where the content stands.
fn content_at(w: NsonWalked) -> usize
    ensures { result ≡ content_place w }
{
    usize::from(w.body_at) + AROUND_KIND + usize::from(w.sizes.kind)
}

// Where the first tag stands.
fn tags_at(w: NsonWalked) -> usize
    ensures { result ≡ tags_place w }
{
    content_at(w) + usize::from(w.sizes.content) + BEFORE_TAGS
}

// All in front of the tags.
fn put_nson_front(out: &mut [u8], at: usize, s: &[u8], w: NsonWalked) -> usize
    ensures { Wrote out.old at (nson_front_text s.now w) out.new result }
{
    let a = hexdigits::put_unhex(out, at, scan::part(s, nsoncounts::ID_AT, 64));
    let b = hexdigits::put_unhex(out, a, scan::part(s, nsoncounts::PUBKEY_AT, 64));
    let c = hexdigits::put_unhex(out, b, scan::part(s, nsoncounts::SIG_AT, 128));
    let d = varint::put_varint(out, c, w.created_at);
    let e = varint::put_varint(out, d, w.kind);
    let f = varint::put_varint(out, e, u64::from(w.content_len));
    let g = jsonunescape::put_unescaped(out, f, s, content_at(w), usize::from(w.sizes.content));
    varint::put_varint(out, g, u64::from(w.sizes.tags))
}

// The tags.
#[tactic(auto, using(crate::proofs::Writing::tag_turns))]
fn put_nson_tags(out: &mut [u8], at: usize, s: &[u8], w: NsonWalked) -> usize
    ensures { Wrote out.old at (nson_tags_text w.sizes.tags s.now tag_counts_place (tags_place w)) out.new result }
{
    let mut o = at;
    let mut count_at = nsoncounts::TAG_COUNTS_AT;
    let mut place = tags_at(w);
    for _ in 0..w.sizes.tags {
        let counts = ItemCounts {
            number: nsoncounts::byte_here(s, count_at as usize),
            at: count_at + 2,
        };
        o = varint::put_varint(out, o, u64::from(counts.number));
        let (behind, next) = put_items(out, o, s, counts, place + 1);
        o = behind;
        place = next + 1;
        count_at = counts.at + 4 * u32::from(counts.number);
    }
    o
}

// The whole strict form.
fn put_strict_of(out: &mut [u8], s: &[u8], w: NsonWalked) -> usize
    ensures { Wrote out.old 0 (strict_of s.now w) out.new result }
{
    let o = put_nson_front(out, 0, s, w);
    put_nson_tags(out, o, s, w)
}

// The event of an NSON text, in strict form: every refusal first, then 11 with the length needed; else written from the
// start.
pub fn read_nson(s: &[u8], out: &mut [u8]) -> Result<usize, Refusal>
    ensures result_value { answer result ≡ nson_reads s.now out.old }
    ensures out_after { out.new ≡ nson_leaves s.now out.old }
{
    let w = nsonwalk::walk_text(s)?;
    if out.len() < w.len {
        return Err(Refusal {
            reason: Reason::TooLittleRoom,
            place: w.len,
        });
    }
    Ok(put_strict_of(out, s, w))
}

// The length that the event of an NSON text takes in strict form, or the refusal.
#[tactic(auto, using(crate::proofs::Whole::needs_walk))]
pub fn nson_len(s: &[u8]) -> Result<usize, Refusal>
    ensures { answer result ≡ nson_needs s.now }
{
    let w = nsonwalk::walk_text(s)?;
    Ok(w.len)
}
