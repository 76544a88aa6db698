// Notepack: the form in which the box holds a record. One pass reads it, checks it and measures its strict form.
#![tactic(auto)]

ghost use Rattle.std.specs.Prelude.{◌≤◌, ◌<◌, ◌+◌, ◌-◌, ◌^◌, ◌≡◌, length};
ghost use Rattle.scan.specs.Choice.{and_then, shown};
ghost use Rattle.hexdigits.specs.Hex.{hexes};
ghost use Rattle.notepack.specs.Strict.{pack_element};
ghost use Rattle.notepack.specs.Unpack.{text_of, payload_at, text_at, number_at, content_at, element_at, elements_at, tag_count_at, tag_at, tags_standing, numbers_at, head_at};
ghost use Rattle.notepack.specs.inner.Again.{element_part_at, part_again, count_again, texts_end};
ghost use Rattle.notepack.specs.inner.Tally.{head_len, is_hollow, more, pass_elements, pass_tag, pass_tags};
ghost use Rattle.notepack.specs.Views.{numbers_of, texts_in, element_of, view, content_of};
ghost use Rattle.notepack.specs.inner.Places.{tag_start, element_place};
ghost use Rattle.event.specs.inner.Told.{answer, read_answer, number_of};
ghost use Rattle.notepack.specs.inner.Answers.{walk, walk_at};

use event::{Reason, Refusal};

// A part of the input: raw bytes, whose text is their lowercase hex, or a text itself.
#[derive(Clone, Copy)]
pub struct Part {
    pub at: usize,
    pub len: usize,
    pub raw: bool,
}

// What stands in front of the tags, and where they start.
#[derive(Clone, Copy)]
pub struct Head {
    pub created_at: u64,
    pub kind: u64,
    pub content: Part,
    pub tag_count: u64,
    pub tags_at: usize,
}

// The strict length of what was read so far, and whether an element was raw and empty.
#[derive(Clone, Copy)]
pub struct Tally {
    pub len: usize,
    pub hollow: bool,
}

// How far a pass is: the tally of what was passed over, and the place behind it. The strict form is never longer than
// what was read.
#[derive(Clone, Copy)]
struct Passed {
    tally: Tally,
    at: usize,
    ghost len_bound: { tally.len ≤ at },
}

// What is read at a place is told with the place behind it.

// n bytes. A length beyond the rest is refused at the place of that length.
#[tactic(auto, unfolding(crate::specs::Unpack::payload_at))]
fn read_payload(
    s: &[u8],
    at: usize,
    place: usize,
    raw: bool,
    n: u64,
) -> Result<(Part, usize), Refusal>
    ensures { read_answer result ≡ payload_at place raw n s.now at }
{
    let len = n as usize;
    if len <= scan::rest(s, at) {
        return Ok((Part { at, len, raw }, at + len));
    }
    Err(Refusal {
        reason: Reason::Truncated,
        place,
    })
}

// n bytes of well-formed text.
#[tactic(auto, unfolding(crate::specs::Unpack::text_at))]
fn read_text(s: &[u8], at: usize, place: usize, n: u64) -> Result<(Part, usize), Refusal>
    ensures { read_answer result ≡ text_at place n s.now at }
{
    let (p, next) = read_payload(s, at, place, false, n)?;
    if utf8::is_utf8(scan::part(s, p.at, p.len)) {
        return Ok((p, next));
    }
    Err(Refusal {
        reason: Reason::IllFormedUtf8,
        place: at,
    })
}

// A number up to max; above it the refusal has the reason given.
#[tactic(auto, unfolding(crate::specs::Unpack::number_at))]
pub fn read_number(s: &[u8], at: usize, max: u64, over: Reason) -> Result<(u64, usize), Refusal>
    ensures { read_answer result ≡ number_at max (number_of over) s.now at }
{
    let (n, next) = varint::varint(s, at)?;
    if n <= max {
        return Ok((n, next));
    }
    Err(Refusal {
        reason: over,
        place: at,
    })
}

// The content: its length, then its text.
#[tactic(auto, unfolding(crate::specs::Unpack::content_at))]
pub fn read_content(s: &[u8], at: usize) -> Result<(Part, usize), Refusal>
    ensures { read_answer result ≡ content_at s.now at }
{
    let (n, next) = varint::long_varint(s, at)?;
    read_text(s, next, at, n)
}

// An element: the varint 2 × length + b, then its payload.
#[tactic(auto, unfolding(crate::specs::Unpack::element_at))]
pub fn read_element(s: &[u8], at: usize) -> Result<(Part, usize), Refusal>
    ensures { read_answer result ≡ element_at s.now at }
{
    let (word, next) = varint::varint(s, at)?;
    if word % 2 == 1 {
        return read_payload(s, next, at, true, word / 2);
    }
    read_text(s, next, at, word / 2)
}

// The number of elements of a tag.
#[tactic(auto, unfolding(crate::specs::Unpack::tag_count_at))]
fn read_tag_count(s: &[u8], at: usize) -> Result<(u64, usize), Refusal>
    ensures { read_answer result ≡ tag_count_at s.now at }
{
    let (n, next) = read_number(s, at, event::MAX_TEXTS, Reason::TooMany)?;
    if n == 0 {
        return Err(Refusal {
            reason: Reason::EmptyTag,
            place: at,
        });
    }
    Ok((n, next))
}

impl Passed {
    ghost use Rattle.notepack.specs.inner.Passed.{passed};

    // n bytes more of the strict form, for what was read up to a place.
    fn more(self, n: usize, hollow: bool, at: usize) -> Passed
        requires { self.tally.len + n ≤ at }
        ensures tally_value { result.tally ≡ more self.tally n hollow }
        ensures at_value { result.at ≡ at }
    {
        Passed {
            tally: Tally {
                len: self.tally.len + n,
                hollow: self.tally.hollow || hollow,
            },
            at,
        }
    }

    // count elements more.
    #[tactic(auto, using(crate::proofs::Passing::pass_steps))]
    fn elements(self, s: &[u8], count: u64) -> Result<Passed, Refusal>
        ensures { passed result ≡ and_then (elements_at count s.now self.at) (pass_elements s.now self.tally) }
    {
        let mut sum = self;
        for _ in 0..count {
            let (p, next) = read_element(s, sum.at)?;
            sum = sum.more(packed_part_len(s, p), p.is_hollow(), next);
        }
        Ok(sum)
    }

    // A tag more.
    #[tactic(auto, using(crate::proofs::Passing::pass_steps))]
    fn tag(self, s: &[u8]) -> Result<Passed, Refusal>
        ensures { passed result ≡ and_then (tag_at s.now self.at) (pass_tag s.now self.tally) }
    {
        let (n, next) = read_tag_count(s, self.at)?;
        self.more(varint::varint_len(n), false, next).elements(s, n)
    }

    // count tags more.
    #[tactic(auto, using(crate::proofs::Passing::pass_steps))]
    fn tags(self, s: &[u8], count: u64) -> Result<Passed, Refusal>
        ensures { passed result ≡ and_then (tags_standing count s.now self.at) (pass_tags s.now self.tally) }
    {
        let mut sum = self;
        for _ in 0..count {
            sum = sum.tag(s)?;
        }
        Ok(sum)
    }
}

impl Part {
    // Whether it is raw and empty.
    #[tactic(auto, unfolding(crate::specs::inner::Tally::is_hollow))]
    fn is_hollow(self) -> bool
        ensures { result ≡ is_hollow self }
    {
        self.raw && self.len == 0
    }
}

// The length of the strict element whose text these bytes are.
#[tactic(auto, using(crate::proofs::Lengths::length_as_bytes, crate::proofs::Lengths::length_as_text))]
pub fn packed_text_len(t: &[u8]) -> usize
    ensures value { result ≡ length (pack_element t.now) }
    ensures upper_bound { result ≤ length t.now + 10 }
{
    if hexdigits::goes_as_bytes(t) {
        let n = t.len() / 2;
        return varint::varint_len(2 * n as u64 + 1) + n;
    }
    varint::varint_len(2 * t.len() as u64) + t.len()
}

// The length of the strict element whose text is the hex of these bytes.
fn bytes_len(b: &[u8]) -> usize
    ensures value { result ≡ length (pack_element (hexes b.now)) }
    ensures upper_bound { result ≤ length b.now + 10 }
{
    if b.is_empty() {
        return 1;
    }
    varint::varint_len(2 * b.len() as u64 + 1) + b.len()
}

// The length of the strict element that has a part's text.
#[tactic(auto, unfolding(crate::specs::Unpack::text_of))]
fn packed_part_len(s: &[u8], p: Part) -> usize
    ensures { result ≡ length (pack_element (text_of s.now p)) }
{
    let bytes = scan::part(s, p.at, p.len);
    if p.raw {
        return bytes_len(bytes);
    }
    packed_text_len(bytes)
}

// created_at, kind, the content and the number of tags.
#[tactic(auto, unfolding(crate::specs::Unpack::numbers_at))]
fn read_numbers(s: &[u8]) -> Result<Head, Refusal>
    ensures { answer result ≡ numbers_at s.now }
{
    let (created_at, at) = read_number(s, 128, event::MAX_CREATED_AT, Reason::CreatedAtOutOfRange)?;
    let (kind, at) = read_number(s, at, event::MAX_KIND, Reason::KindOutOfRange)?;
    let (content, at) = read_content(s, at)?;
    let (tag_count, tags_at) = read_number(s, at, event::MAX_TAGS, Reason::TooMany)?;
    Ok(Head {
        created_at,
        kind,
        content,
        tag_count,
        tags_at,
    })
}

// All in front of the tags: id, pubkey and sig first.
#[tactic(auto, unfolding(crate::specs::Unpack::head_at))]
fn read_head(s: &[u8]) -> Result<Head, Refusal>
    ensures { answer result ≡ head_at s.now }
{
    read_payload(s, 0, 0, true, 32)?;
    read_payload(s, 32, 32, true, 32)?;
    read_payload(s, 64, 64, true, 64)?;
    read_numbers(s)
}

// The strict length of all in front of the tags.
#[tactic(auto, unfolding(crate::specs::inner::Tally::head_len))]
fn head_len(h: Head) -> usize
    requires { h.content.len ≤ 65536 }
    ensures { result ≡ head_len h }
{
    let content = h.content;
    128 + varint::varint_len(h.created_at)
        + varint::varint_len(h.kind)
        + varint::varint_len(content.len as u64)
        + content.len
        + varint::varint_len(h.tag_count)
}

// The whole input, checked and measured in one pass: 1 first of all, 10 for a byte after the end.
#[tactic(auto, using(scan::proofs::Step::tests), unfolding(crate::specs::inner::Answers::walk_at, crate::specs::Unpack::packed_at))]
pub fn walk_packed(s: &[u8]) -> Result<(Head, Tally), Refusal>
    ensures { walk result ≡ walk_at s.now }
{
    if event::MAX_INPUT < s.len() {
        return Err(Refusal {
            reason: Reason::InputTooLong,
            place: 0,
        });
    }
    let h = read_head(s)?;
    walk_tags(s, h)
}

// The tags behind what stands in front of them, to the input's end.
fn walk_tags(s: &[u8], h: Head) -> Result<(Head, Tally), Refusal>
    requires { (length s.now ≤ 65536) × (head_at s.now ≡ shown h) }
    ensures { walk result ≡ walk_at s.now }
{
    let front = Passed {
        tally: Tally {
            len: head_len(h),
            hollow: false,
        },
        at: h.tags_at,
    };
    let all = front.tags(s, h.tag_count)?;
    if all.at == s.len() {
        return Ok((h, all.tally));
    }
    Err(Refusal {
        reason: Reason::AfterTheEnd,
        place: all.at,
    })
}

// The numbers of a packed event: created_at, kind, where the content stands, how many tags; or the refusal.
#[tactic(auto, unfolding(crate::specs::Views::numbers_of, crate::specs::inner::Answers::walk_at))]
pub fn read_packed(s: &[u8]) -> Result<Head, Refusal>
    ensures { answer result ≡ numbers_of s.now }
{
    let (h, _) = walk_packed(s)?;
    Ok(h)
}

// The content, a part of the lent slice; empty where the reader refuses.
#[tactic(auto, using(crate::proofs::Viewing::content_numbers))]
pub fn content<'a>(s: &'a [u8]) -> &'a [u8]
    ensures { result.now ≡ view s.now (content_of s.now) }
{
    match read_packed(s) {
        Ok(h) => scan::part(s, h.content.at, h.content.len),
        Err(_) => &s[..0],
    }
}

// The number of texts in tag i, with the place of the first of them.
#[tactic(auto, unfolding(crate::specs::inner::Places::tag_start))]
fn find_tag(s: &[u8], i: u64) -> Result<(u64, usize), Refusal>
    ensures { read_answer result ≡ tag_start i s.now }
{
    let h = read_packed(s)?;
    if i < h.tag_count {
        return skip_to(s, h.tags_at, i);
    }
    Err(Refusal {
        reason: Reason::NoSuch,
        place: 0,
    })
}

// A tally that nothing was added to: where things are passed over and not measured.
const NOTHING: Tally = Tally {
    len: 0,
    hollow: false,
};

// The count of the tag behind i tags.
#[tactic(auto, using(crate::proofs::Viewing::skip_tags))]
fn skip_to(s: &[u8], at: usize, i: u64) -> Result<(u64, usize), Refusal>
    ensures { read_answer result ≡ and_then (tags_standing i s.now at) (λ t. tag_count_at s.now t.next) }
{
    let skipped = Passed { tally: NOTHING, at }.tags(s, i)?;
    read_tag_count(s, skipped.at)
}

// The number of texts in tag i, or the refusal: the reader's, then 19.
pub fn texts_in(s: &[u8], i: u64) -> Result<u64, Refusal>
    ensures { answer result ≡ texts_in i s.now }
{
    let (n, _) = find_tag(s, i)?;
    Ok(n)
}

// The element behind j elements.
#[tactic(auto, using(crate::proofs::Viewing::skip_elements))]
fn skip_elements(s: &[u8], at: usize, j: u64) -> Result<(Part, usize), Refusal>
    ensures { read_answer result ≡ and_then (elements_at j s.now at) (λ e. element_at s.now e.next) }
{
    let skipped = Passed { tally: NOTHING, at }.elements(s, j)?;
    read_element(s, skipped.at)
}

// Element j of tag i, and the place behind it.
#[tactic(auto, unfolding(crate::specs::inner::Places::element_place))]
fn find_part(s: &[u8], i: u64, j: u64) -> Result<(Part, usize), Refusal>
    ensures { read_answer result ≡ element_place i j s.now }
{
    let (n, first) = find_tag(s, i)?;
    if j < n {
        return skip_elements(s, first, j);
    }
    Err(Refusal {
        reason: Reason::NoSuch,
        place: 0,
    })
}

// Element j of tag i, both from 0: where its payload stands and its b; or the refusal: the reader's, then 19.
pub fn find_element(s: &[u8], i: u64, j: u64) -> Result<Part, Refusal>
    ensures { answer result ≡ element_of i j s.now }
{
    let (p, _) = find_part(s, i, j)?;
    Ok(p)
}

// The payload of element j of tag i, a part of the lent slice; empty where there is none.
#[tactic(auto, unfolding(crate::specs::Views::view))]
pub fn element<'a>(s: &'a [u8], i: u64, j: u64) -> &'a [u8]
    ensures { result.now ≡ view s.now (element_of i j s.now) }
{
    match find_element(s, i, j) {
        Ok(p) => scan::part(s, p.at, p.len),
        Err(_) => &s[..0],
    }
}

// ---- going over it again

// A packed event as the reader lets it pass: its bytes, and what stands in front of its tags; neither is more than an
// event may have.
#[derive(Clone, Copy)]
pub struct PackedEvent<'a> {
    pub bytes: &'a [u8],
    pub head: Head,
    pub ghost len_bound: { length bytes.now ≤ 65536 },
    pub ghost tags_bound: { head.tag_count ≤ 1000 },
    pub ghost time_bound: { head.created_at ≤ 9223372036854775 },
}

// An element's part, with no second test of its text.
#[tactic(auto, unfolding(crate::specs::inner::Again::element_part_at))]
fn read_part(s: &[u8], at: usize) -> Result<(Part, usize), Refusal>
    ensures { read_answer result ≡ element_part_at s.now at }
{
    let (word, next) = varint::varint(s, at)?;
    read_payload(s, next, at, word % 2 == 1, word / 2)
}

// The part at a place; where none is read it is empty and the place stays.
#[tactic(auto, unfolding(crate::specs::inner::Again::part_again))]
pub fn part_again(s: &[u8], at: usize) -> (Part, usize)
    ensures part_value { result.0 ≡ (part_again s.now at).value }
    ensures next_value { result.1 ≡ (part_again s.now at).next }
{
    let nothing = Part {
        at,
        len: 0,
        raw: false,
    };
    let (p, next) = read_part(s, at).unwrap_or((nothing, at));
    // Field by field: a copy of the whole has the bytes between the fields too, and waits for the stores before it.
    let part = Part {
        at: p.at,
        len: p.len,
        raw: p.raw,
    };
    (part, next)
}

// A tag's number of texts; 0, and the place stays, where none is read.
#[tactic(auto, unfolding(crate::specs::inner::Again::count_again))]
pub fn count_again(s: &[u8], at: usize) -> (u64, usize)
    ensures count_value { result.0 ≡ (count_again s.now at).value }
    ensures next_value { result.1 ≡ (count_again s.now at).next }
{
    read_number(s, at, event::MAX_TEXTS, Reason::TooMany).unwrap_or((0, at))
}

// The place behind n texts, from part to part.
pub fn texts_end(s: &[u8], at: usize, n: u64) -> usize
    ensures { result ≡ texts_end n s.now at }
{
    let mut i = at;
    for _ in 0..n {
        (_, i) = part_again(s, i);
    }
    i
}
