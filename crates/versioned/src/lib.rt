// The versioned form: the byte 01, then the bare form. Where the bare bytes of a packed input start, what is seen of
// them, and the moves between the two forms. No crate below knows of versions.
#![tactic(auto)]

ghost use Rattle.std.specs.Prelude.{◌+◌, ◌≤◌, ◌<◌, ◌^◌, ◌≡◌, length, drop};
ghost use Rattle.buffer.specs.Entry.{written, filled};
ghost use Rattle.event.specs.inner.Told.{answer, number_of};
ghost use Rattle.notepack.specs.Views.{view};
ghost use Rattle.versioned.specs.Versioned.{start_of};
ghost use Rattle.versioned.specs.Views.{move_part, move_head, numbers_given, texts_given, element_given, content_given};
ghost use Rattle.versioned.specs.Moves.{with_version, versions, version_leaves, bares, bare_leaves};
ghost use Rattle.versioned.specs.inner.Moved.{is_readers, moved_place, moved};

use event::{Reason, Refusal};
use notepack::{Head, Part};

// The version byte of our form.
pub const VERSION: u8 = 1;

// The refusal of an input whose bare bytes have no start.
fn no_start(reason: Reason) -> Result<usize, Refusal>
    ensures { result ≡ Err (record { reason = reason; place = 0 }) }
{
    Err(Refusal { reason, place: 0 })
}

// Where the bare bytes start, or the refusal. The caller says whether the input is bare.
#[tactic(auto, unfolding(crate::specs::Versioned::start_of, crate::specs::Versioned::version_at))]
pub fn start(s: &[u8], bare: bool) -> Result<usize, Refusal>
    ensures { answer result ≡ start_of bare s.now }
{
    if bare {
        return Ok(0);
    }
    if event::MAX_INPUT < s.len() {
        return no_start(Reason::InputTooLong);
    }
    match s {
        [] => no_start(Reason::Truncated),
        [VERSION, ..] => Ok(1),
        _ => no_start(Reason::NotVersioned),
    }
}

// The bytes from a place on, as a part of the lent slice.
pub fn from<'a>(s: &'a [u8], k: usize) -> &'a [u8]
    ensures { result.now ≡ drop k s.now }
{
    &s[k.min(s.len())..]
}

// ---- a refusal of the bare bytes, told of the bytes given

// Whether a reason is one of the notepack reader's: 1 to 10, and 24.
#[tactic(auto, unfolding(crate::specs::inner::Moved::is_readers))]
fn is_readers(reason: Reason) -> bool
    ensures { result ≡ is_readers (number_of reason) }
{
    let n = reason.number();
    1 <= n && n <= 10 || n == 24
}

// Only the reader's places move: what else a refusal names is a length, or no place of the input.
#[tactic(auto, unfolding(crate::specs::inner::Moved::moved_place))]
pub fn moved(bare: bool, r: Refusal) -> Refusal
    ensures { result ≡ record { reason = r.reason; place = moved_place bare (number_of r.reason) r.place } }
{
    if !bare && is_readers(r.reason) && r.place < event::MAX_INPUT {
        return Refusal {
            place: r.place + 1,
            ..r
        };
    }
    r
}

// What was told of the bare bytes.
pub fn moved_answer<A>(bare: bool, told: Result<A, Refusal>) -> Result<A, Refusal>
    ensures { answer result ≡ moved bare (answer told) }
{
    told.map_err(|r| moved(bare, r))
}

// ---- what is seen of a packed event of either form

// A part of the bare bytes that start at place k, as a part of the bytes given.
fn move_part(k: usize, p: Part) -> Part
    requires { p.at + k < 2 ^ 64 }
    ensures { result ≡ move_part k p }
{
    Part { at: p.at + k, ..p }
}

// What stands in front of the tags of such bare bytes, as it stands in the bytes given.
fn move_head(k: usize, h: Head) -> Head
    requires { (h.content.at + k < 2 ^ 64) × (h.tags_at + k < 2 ^ 64) }
    ensures { result ≡ move_head k h }
{
    Head {
        content: move_part(k, h.content),
        tags_at: h.tags_at + k,
        ..h
    }
}

// The numbers of a packed event: created_at, kind, where the content stands, how many tags; or the refusal.
pub fn read_packed(s: &[u8], bare: bool) -> Result<Head, Refusal>
    ensures { answer result ≡ numbers_given bare s.now }
{
    let k = start(s, bare)?;
    let h = moved_answer(bare, notepack::read_packed(from(s, k)))?;
    Ok(move_head(k, h))
}

// The number of texts in tag i, or the refusal: the reader's, then 19.
pub fn texts_in(s: &[u8], bare: bool, i: u64) -> Result<u64, Refusal>
    ensures { answer result ≡ texts_given bare i s.now }
{
    let k = start(s, bare)?;
    moved_answer(bare, notepack::texts_in(from(s, k), i))
}

// Element j of tag i, or the refusal: the reader's, then 19.
pub fn find_element(s: &[u8], bare: bool, i: u64, j: u64) -> Result<Part, Refusal>
    ensures { answer result ≡ element_given bare i j s.now }
{
    let k = start(s, bare)?;
    let p = moved_answer(bare, notepack::find_element(from(s, k), i, j))?;
    Ok(move_part(k, p))
}

// The content, a part of the lent slice; empty where the reader refuses.
#[tactic(auto, using(crate::proofs::Viewing::content_given_lem), unfolding(notepack::specs::Views::view))]
pub fn content<'a>(s: &'a [u8], bare: bool) -> &'a [u8]
    ensures { result.now ≡ view s.now (content_given bare s.now) }
{
    match read_packed(s, bare) {
        Ok(h) => scan::part(s, h.content.at, h.content.len),
        Err(_) => &s[..0],
    }
}

// The payload of element j of tag i, a part of the lent slice; empty where it is refused.
#[tactic(auto, unfolding(notepack::specs::Views::view))]
pub fn element<'a>(s: &'a [u8], bare: bool, i: u64, j: u64) -> &'a [u8]
    ensures { result.now ≡ view s.now (element_given bare i j s.now) }
{
    match find_element(s, bare, i, j) {
        Ok(p) => scan::part(s, p.at, p.len),
        Err(_) => &s[..0],
    }
}

// ---- the moves

// All of b, from the start: 11 with its length, or its length.
pub fn put_all(out: &mut [u8], b: &[u8]) -> Result<usize, Refusal>
    ensures result_value { answer result ≡ written b.now out.old }
    ensures out_after { out.new ≡ filled b.now out.old }
{
    if out.len() < b.len() {
        return Err(Refusal {
            reason: Reason::TooLittleRoom,
            place: b.len(),
        });
    }
    Ok(buffer::put_bytes(out, 0, b))
}

// The same behind the version byte.
fn put_versioned(out: &mut [u8], b: &[u8]) -> Result<usize, Refusal>
    requires { length b.now ≤ 65535 }
    ensures result_value { answer result ≡ written (with_version b.now) out.old }
    ensures out_after { out.new ≡ filled (with_version b.now) out.old }
{
    let n = b.len() + 1;
    if out.len() < n {
        return Err(Refusal {
            reason: Reason::TooLittleRoom,
            place: n,
        });
    }
    let o = buffer::put_byte(out, 0, VERSION);
    Ok(buffer::put_bytes(out, o, b))
}

// The versioned form of bare bytes: 1 for more than 65,535 bytes, the reader's refusals, 11; else written from the
// start.
pub fn to_versioned(s: &[u8], out: &mut [u8]) -> Result<usize, Refusal>
    ensures result_value { answer result ≡ versions s.now out.old }
    ensures out_after { out.new ≡ version_leaves s.now out.old }
{
    if event::MAX_INPUT <= s.len() {
        return Err(Refusal {
            reason: Reason::InputTooLong,
            place: 0,
        });
    }
    notepack::read_packed(s)?;
    put_versioned(out, s)
}

// The bare bytes of a versioned form: 1, 2, 25, the reader's refusals, 11; else written from the start.
pub fn to_bare(s: &[u8], out: &mut [u8]) -> Result<usize, Refusal>
    ensures result_value { answer result ≡ bares s.now out.old }
    ensures out_after { out.new ≡ bare_leaves s.now out.old }
{
    read_packed(s, false)?;
    put_all(out, from(s, 1))
}
