// The first pass over NSON: the text is followed along its counts, every byte that they count is checked, and the
// strict form is measured. What is read at a place is told with the place behind it.
#![tactic(auto)]

ghost use Rattle.std.specs.Prelude.{◌+◌, ◌*◌, ◌≤◌, ◌≡◌, false, IfOk, length};
ghost use Rattle.event.specs.inner.Told.{answer, read_answer};
ghost use Rattle.jsontext.specs.inner.Escape.{unescape};
ghost use Rattle.notepack.specs.Strict.{pack_element, pack_elements, pack_tag, pack_tags};
ghost use Rattle.nson.specs.inner.Places.{tag_counts_place};
ghost use Rattle.nson.specs.Read.{part_at, piece_at, comma_at, items_at, item_at, tag_at, kind_part_at, tags_part_at, body_read_at};
ghost use Rattle.nsoncounts.specs.inner.Counted.{item_sizes, tag_sizes, counts_of};
ghost use Rattle.nsonwalk.specs.inner.Walk.{turned, sized, content_size_at, element_most, tag_most, tags_place_most, body_size, kept, tags_place, nson_walk_at};

use event::{Reason, Refusal};
use nsoncounts::{ItemCounts, Sizes};

// The kind, the length of the content's text, and the length of the tags' strict form.
#[derive(Clone, Copy)]
struct BodySizes {
    kind: u64,
    content_len: u16,
    tags_len: u32,
}

// What is left to write once nothing is refused any more, and how long it will be.
#[derive(Clone, Copy)]
pub struct NsonWalked {
    pub created_at: u64,
    pub kind: u64,
    pub sizes: Sizes,
    pub body_at: u16,
    pub content_len: u16,
    pub len: usize,
}

// ---- the text that is counted

// A fixed piece; where it is missing, the counts disagree with the text.
fn piece(s: &[u8], at: usize, w: &[u8]) -> Result<usize, Refusal>
    ensures { answer result ≡ piece_at 13 w.now s.now at }
{
    nsoncounts::piece(s, at, w, Reason::CountDisagrees)
}

// The length of the strict element whose text n bytes spell. A text of n bytes has no escape and is taken as it stands.
fn counted_element_len(s: &[u8], from: usize, n: usize, len: usize) -> usize
    requires { len ≡ n → unescape (part_at n s.now from) ≡ part_at n s.now from }
    ensures value { result ≡ length (pack_element (unescape (part_at n s.now from))) }
    ensures upper_bound { result ≤ n + 10 }
{
    if len == n {
        return notepack::packed_text_len(scan::part(s, from, n));
    }
    stringelement::spelled_element_len(s, from, n)
}

// The comma in front of an item that is not the first.
fn comma(s: &[u8], at: usize, later: bool) -> Result<usize, Refusal>
    ensures { answer result ≡ comma_at later s.now at }
{
    if later {
        return piece(s, at, b",");
    }
    Ok(at)
}

// An item, and the length of its strict element.
#[tactic(auto, using(crate::proofs::Sizing::item_sized, nsoncounts::proofs::Spelling::no_escape_lem))]
fn counted_item(s: &[u8], at: usize, n: u16) -> Result<(usize, usize), Refusal>
    ensures result_value { read_answer result ≡ sized pack_element (item_at s.now n at) }
    ensures result_bound { IfOk result (λ x. x.0 ≤ element_most) }
{
    let n = usize::from(n);
    let first = piece(s, at, b"\"")?;
    let (len, behind) = nsoncounts::counted_text(s, first, n)?;
    let next = piece(s, behind, b"\"")?;
    Ok((counted_element_len(s, first, n, len), next))
}

// The items of the counts, and the length of their strict elements.
#[tactic(auto, using(crate::proofs::Turns::item_turns))]
fn counted_items(s: &[u8], at: usize, counts: ItemCounts) -> Result<(usize, usize), Refusal>
    ensures result_value { read_answer result ≡ sized pack_elements (items_at (item_at s.now) false (item_sizes counts.number s.now counts.at) s.now at) }
    ensures result_bound { IfOk result (λ x. x.0 ≤ element_most * counts.number) }
{
    let mut next = at;
    let mut total = 0;
    for i in 0..counts.number {
        let first = comma(s, next, 0 < i)?;
        let (len, behind) = counted_item(s, first, counts.size(s, i))?;
        total += len;
        next = behind;
    }
    Ok((total, next))
}

// A tag, and the length of its strict form.
#[tactic(auto, using(crate::proofs::Sizing::tag_sized))]
fn counted_tag(s: &[u8], at: usize, counts: ItemCounts) -> Result<(usize, usize), Refusal>
    ensures result_value { read_answer result ≡ sized pack_tag (tag_at s.now (item_sizes counts.number s.now counts.at) at) }
    ensures result_bound { IfOk result (λ x. x.0 ≤ tag_most) }
{
    let first = piece(s, at, b"[")?;
    let (len, behind) = counted_items(s, first, counts)?;
    let next = piece(s, behind, b"]")?;
    Ok((varint::varint_len(u64::from(counts.number)) + len, next))
}

// n tags, whose counts stand from TAG_COUNTS_AT on, and the length of their strict form.
#[tactic(auto, using(crate::proofs::Turns::tag_turns))]
fn counted_tags(s: &[u8], at: usize, n: u8) -> Result<(usize, usize), Refusal>
    ensures result_value { read_answer result ≡ sized pack_tags (items_at (tag_at s.now) false (tag_sizes n s.now tag_counts_place) s.now at) }
    ensures result_bound { IfOk result (λ x. x.0 ≤ tag_most * n) }
{
    let mut next = at;
    let mut place = nsoncounts::TAG_COUNTS_AT;
    let mut total = 0;
    for i in 0..n {
        let first = comma(s, next, 0 < i)?;
        let counts = ItemCounts {
            number: nsoncounts::byte_here(s, place as usize),
            at: place + 2,
        };
        let (len, behind) = counted_tag(s, first, counts)?;
        total += len;
        next = behind;
        place = counts.at + 4 * u32::from(counts.number);
    }
    Ok((total, next))
}

// ---- behind the descriptors

// The label and the kind.
#[tactic(auto, unfolding(nson::specs::Read::kind_part_at, nson::specs::Read::kind_at))]
fn kind_part(s: &[u8], at: usize, n: u8) -> Result<(u64, usize), Refusal>
    ensures { read_answer result ≡ kind_part_at n s.now at }
{
    let at = piece(s, at, b"\",\"kind\":")?;
    nsoncounts::counted_number(
        s,
        at,
        usize::from(n),
        event::MAX_KIND,
        Reason::CountDisagrees,
        Reason::KindOutOfRange,
    )
}

// The label and the content, and the length of its text.
#[tactic(auto, unfolding(crate::specs::inner::Walk::content_size_at))]
fn content_part(s: &[u8], at: usize, n: u16) -> Result<(u16, usize), Refusal>
    ensures { read_answer result ≡ content_size_at n s.now at }
{
    let at = piece(s, at, b",\"content\":\"")?;
    let (len, at) = nsoncounts::counted_text(s, at, usize::from(n))?;
    Ok((len as u16, at))
}

// The label, the array of the tags and the closing brace.
#[tactic(auto, using(crate::proofs::Sizing::tags_sized))]
fn tags_part(s: &[u8], at: usize, n: u8) -> Result<(u32, usize), Refusal>
    ensures { read_answer result ≡ sized pack_tags (tags_part_at (tag_sizes n s.now tag_counts_place) s.now at) }
{
    let at = piece(s, at, b"\",\"tags\":")?;
    let at = piece(s, at, b"[")?;
    let (len, at) = counted_tags(s, at, n)?;
    let at = piece(s, at, b"]")?;
    let at = piece(s, at, b"}")?;
    Ok((len as u32, at))
}

// All behind the descriptors.
#[tactic(auto, using(crate::proofs::Sizing::body_sized))]
fn body(s: &[u8], at: usize, z: Sizes) -> Result<(BodySizes, usize), Refusal>
    ensures { read_answer result ≡ turned body_size (body_read_at (counts_of s.now z) s.now at) }
{
    let (kind, at) = kind_part(s, at, z.kind)?;
    let (content_len, at) = content_part(s, at, z.content)?;
    let (tags_len, at) = tags_part(s, at, z.tags)?;
    let sizes = BodySizes {
        kind,
        content_len,
        tags_len,
    };
    Ok((sizes, at))
}

// What is kept of an accepted text, with the length of its strict form.
fn keep(time: u64, z: Sizes, body_at: u16, b: BodySizes) -> NsonWalked
    ensures { result ≡ kept time z body_at b }
{
    let numbers = varint::varint_len(time) + varint::varint_len(b.kind);
    let counts = varint::varint_len(u64::from(b.content_len))
        + varint::varint_len(u64::from(z.tags));
    NsonWalked {
        created_at: time,
        kind: b.kind,
        sizes: z,
        body_at,
        content_len: b.content_len,
        len: 128 + numbers + counts + usize::from(b.content_len) + b.tags_len as usize,
    }
}

// The whole input.
#[tactic(auto, using(crate::proofs::Walking::walk_steps))]
pub fn walk_text(s: &[u8]) -> Result<NsonWalked, Refusal>
    ensures result_value { answer result ≡ nson_walk_at s.now }
    ensures place_bound { IfOk result (λ w. tags_place w ≤ tags_place_most) }
{
    if event::MAX_INPUT < s.len() {
        return Err(Refusal {
            reason: Reason::InputTooLong,
            place: 0,
        });
    }
    let (created_at, _) = nsoncounts::head(s)?;
    let (sizes, body_at) = nsoncounts::counts(s)?;
    let (body, end) = body(s, body_at, sizes)?;
    if end == s.len() {
        return Ok(keep(created_at, sizes, body_at as u16, body));
    }
    Err(Refusal {
        reason: Reason::AfterTheEnd,
        place: end,
    })
}
