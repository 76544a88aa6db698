// All elements of a packed event in one pass: for each its tag's number, where its payload stands, and its b.
#![tactic(auto)]

ghost use Rattle.std.specs.Prelude.{◌-◌, ◌≡◌, length, take, drop};
ghost use Rattle.buffer.specs.inner.Store.{Wrote};
ghost use Rattle.event.specs.inner.Told.{answer};
ghost use Rattle.notepack.specs.inner.Again.{texts_end};
ghost use Rattle.elements.specs.Elements.{row, rows, elements_told, elements_left};
ghost use Rattle.elements.specs.inner.Again.{tag_again, all_again};

use event::Refusal;
use notepack::Part;

// The bytes that one element takes.
pub const ELEMENT_BYTES: usize = 16;

// How far a listing has come: the place behind what was written, the place behind what was read for it, how many
// elements are still to be left out, and for how many there is room.
#[derive(Clone, Copy)]
struct Listing {
    out: usize,
    next: usize,
    skip: u64,
    room: u64,
}

// What is told of an element.
fn put_row(out: &mut [u8], at: usize, tag: u64, p: Part) -> usize
    ensures { Wrote out.old at (row (record { tag = tag; part = p })) out.new result }
{
    let a = littleendian::put_number(out, at, tag, 4);
    let b = littleendian::put_number(out, a, p.at as u64, 4);
    let c = littleendian::put_number(out, b, p.len as u64, 4);
    littleendian::put_number(out, c, u64::from(p.raw), 4)
}

// count elements of a tag from a place on: the place behind what was written, and the place behind what was read for
// it.
fn put_rows(
    out: &mut [u8],
    at: usize,
    s: &[u8],
    from: usize,
    count: u64,
    tag: u64,
) -> (usize, usize)
    ensures wrote { Wrote out.old at (rows (tag_again count tag s.now from)) out.new result.0 }
    ensures next_value { result.1 ≡ texts_end count s.now from }
{
    let mut o = at;
    let mut i = from;
    for _ in 0..count {
        let (part, next) = notepack::part_again(s, i);
        o = put_row(out, o, tag, part);
        i = next;
    }
    (o, i)
}

// Of count elements of a tag from a place on: all but those to be left out, as many as there is room for.
fn list_tag(
    out: &mut [u8],
    s: &[u8],
    from: usize,
    count: u64,
    tag: u64,
    listing: Listing,
) -> Listing
    ensures wrote { Wrote
        out.old listing.out
        (rows (take listing.room (drop listing.skip (tag_again count tag s.now from))))
        out.new result.out }
    ensures next_value { result.next ≡ texts_end count s.now from }
    ensures skip_value { result.skip ≡ listing.skip - count }
    ensures room_value { result.room ≡ listing.room - (count - listing.skip) }
{
    let before = listing.skip.min(count);
    let behind = count - before;
    let shown = listing.room.min(behind);
    let first = notepack::texts_end(s, from, before);
    let (end, next) = put_rows(out, listing.out, s, first, shown, tag);
    Listing {
        out: end,
        next: notepack::texts_end(s, next, behind - shown),
        skip: listing.skip - before,
        room: listing.room - shown,
    }
}

// Of the elements of count tags from a place on: all but the first `skip`, as many as there is room for.
fn list_tags(out: &mut [u8], s: &[u8], from: usize, count: u64, skip: u64, room: u64) -> usize
    ensures { Wrote out.old 0 (rows (take room (drop skip (all_again count 0 s.now from)))) out.new result }
{
    let mut listing = Listing {
        out: 0,
        next: from,
        skip,
        room,
    };
    for tag in 0..count {
        if listing.room == 0 {
            return listing.out;
        }
        let (n, first) = notepack::count_again(s, listing.next);
        listing = list_tag(out, s, first, n, tag, listing);
    }
    listing.out
}

// The elements of a packed event of either form from element number `first` on, as many as fit whole into the lent
// buffer: how many were told, or the reader's refusal. Places count in the bytes given, so the pass goes over all of
// them.
pub fn list_elements(s: &[u8], bare: bool, first: u64, out: &mut [u8]) -> Result<usize, Refusal>
    ensures result_value { answer result ≡ elements_told bare first s.now out.old }
    ensures out_after { out.new ≡ elements_left bare first s.now out.old }
{
    let h = versioned::read_packed(s, bare)?;
    let room = (out.len() / ELEMENT_BYTES) as u64;
    let end = list_tags(out, s, h.tags_at, h.tag_count, first, room);
    Ok(end / ELEMENT_BYTES)
}
