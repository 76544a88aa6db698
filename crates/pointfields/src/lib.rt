// The words, pointers, tables and fields of the pointer form at places of the input, each looked at by itself.
#![tactic(auto)]

ghost use Rattle.std.specs.Prelude.{◌≡◌};
ghost use Rattle.utf8.specs.inner.Width.{is_utf8};
ghost use Rattle.event.specs.inner.Told.{answer};
ghost use Rattle.pointer.specs.Pointer.{word_at, lower, upper, named, is_header, header_at, asked, data_size, piece_at, table_at, pointed_text, tag_table_at, kind_at, time_at, tags_table_at};
ghost use Rattle.pointfields.specs.inner.Answers.{number_of, version_read, time_read};

use event::{Reason, Refusal};
use moment::Millis;
use notepack::Part;

// The two versions of the form. A v0 asks more than a v1.
#[derive(Clone, Copy, PartialEq, Eq)]
pub enum FormVersion {
    V0 = 0,
    V1 = 1,
}

impl FormVersion {
    // The number that a header has for it.
    pub fn number(self) -> u64
        ensures { result ≡ number_of self }
    {
        self as u64
    }
}

// ---- words, the header, pointers

// The number of the eight bytes at a place, the lowest first.
#[tactic(auto, unfolding(pointer::specs::Pointer::word_at))]
pub fn word_at(s: &[u8], at: usize) -> u64
    ensures { result ≡ word_at s.now at }
{
    littleendian::number_at(s, at)
}

// The upper and the lower 32 bits of a word.
fn upper(w: u64) -> u64
    ensures { result ≡ upper w }
{
    w / 4_294_967_296
}

fn lower(w: u64) -> u64
    ensures { result ≡ lower w }
{
    w % 4_294_967_296
}

// What a word names: the upper half is the offset in the data, the lower the length.
fn named(w: u64) -> Part
    ensures { result ≡ named w }
{
    Part {
        at: 72 + upper(w) as usize,
        len: lower(w) as usize,
        raw: false,
    }
}

// What the word at a place names.
pub fn named_at(s: &[u8], at: usize) -> Part
    ensures { result ≡ named (word_at s.now at) }
{
    named(word_at(s, at))
}

// Whether a word is a header: no reserved bit, a version that is known, the length up to the id.
#[tactic(auto, unfolding(pointer::specs::Pointer::is_header))]
fn is_header(w: u64, s: &[u8]) -> bool
    ensures { result ≡ is_header w s.now }
{
    upper(w) / 65_536 == 0
        && upper(w) % 65_536 <= 1
        && 72 <= lower(w)
        && lower(w) + 96 == s.len() as u64
}

// The version, or the refusal, 1 first of all.
#[tactic(auto, unfolding(pointer::specs::Pointer::header_at, pointer::specs::Pointer::is_header))]
pub fn version(s: &[u8]) -> Result<FormVersion, Refusal>
    ensures { version_read result ≡ header_at s.now }
{
    if event::MAX_INPUT < s.len() {
        return Err(Refusal {
            reason: Reason::InputTooLong,
            place: 0,
        });
    }
    let w = word_at(s, 0);
    if !is_header(w, s) {
        return Err(Refusal {
            reason: Reason::BadHeader,
            place: 0,
        });
    }
    if upper(w) % 65_536 == 1 {
        return Ok(FormVersion::V1);
    }
    Ok(FormVersion::V0)
}

// How many bytes of data stand between the first 72 bytes and the last 96.
pub fn data_size(s: &[u8]) -> usize
    ensures { result ≡ data_size s.now }
{
    scan::rest(s, 168)
}

// The piece that the pointer at a place names.
#[tactic(auto, unfolding(pointer::specs::Pointer::piece_at))]
pub fn piece_at(s: &[u8], at: usize) -> Result<Part, Refusal>
    ensures { answer result ≡ piece_at s.now at }
{
    let w = word_at(s, at);
    if upper(w) % 8 == 0 && upper(w) + lower(w) <= data_size(s) as u64 {
        return Ok(named(w));
    }
    Err(Refusal {
        reason: Reason::BadPointer,
        place: at,
    })
}

// The same, of a table: pointers, of eight bytes each.
#[tactic(auto, unfolding(pointer::specs::Pointer::table_at))]
fn table_at(s: &[u8], at: usize) -> Result<Part, Refusal>
    ensures { answer result ≡ table_at s.now at }
{
    let p = piece_at(s, at)?;
    if p.len % 8 == 0 {
        return Ok(p);
    }
    Err(Refusal {
        reason: Reason::BadPointer,
        place: at,
    })
}

// The table of a tag: in a v0 of 1 to 255 texts.
#[tactic(auto, unfolding(pointer::specs::Pointer::tag_table_at))]
pub fn tag_table_at(version: FormVersion, s: &[u8], at: usize) -> Result<Part, Refusal>
    ensures { answer result ≡ tag_table_at (number_of version) s.now at }
{
    let p = table_at(s, at)?;
    let n = (p.len / 8) as u64;
    if version == FormVersion::V0 && event::MAX_TEXTS < n {
        return Err(Refusal {
            reason: Reason::TooMany,
            place: at,
        });
    }
    if version == FormVersion::V0 && n == 0 {
        return Err(Refusal {
            reason: Reason::EmptyTag,
            place: at,
        });
    }
    Ok(p)
}

// The table of the tags: in a v0 at most 1,000.
#[tactic(auto, unfolding(pointer::specs::Pointer::tags_table_at))]
pub fn tags_table_at(version: FormVersion, s: &[u8]) -> Result<Part, Refusal>
    ensures { answer result ≡ tags_table_at (number_of version) s.now }
{
    let p = table_at(s, 64)?;
    if version == FormVersion::V1 || (p.len / 8) as u64 <= event::MAX_TAGS {
        return Ok(p);
    }
    Err(Refusal {
        reason: Reason::TooMany,
        place: 64,
    })
}

// ---- numbers

// The kind: in a v0 at most 65,535.
#[tactic(auto, unfolding(pointer::specs::Pointer::kind_at))]
pub fn kind_at(version: FormVersion, s: &[u8]) -> Result<u64, Refusal>
    ensures { answer result ≡ kind_at (number_of version) s.now }
{
    let w = word_at(s, 40);
    if version == FormVersion::V1 || w <= event::MAX_KIND {
        return Ok(w);
    }
    Err(Refusal {
        reason: Reason::KindOutOfRange,
        place: 40,
    })
}

// The time: in a v0 a whole second, not before 1970.
#[tactic(auto, unfolding(pointer::specs::Pointer::time_at, pointer::specs::Pointer::second_at))]
pub fn time_at(version: FormVersion, s: &[u8]) -> Result<Millis, Refusal>
    ensures { time_read result ≡ time_at (number_of version) s.now }
{
    let m = moment::millis_of(word_at(s, 48));
    if version == FormVersion::V1 || moment::to_seconds(m).is_some() {
        return Ok(m);
    }
    Err(Refusal {
        reason: Reason::SplitSecond,
        place: 48,
    })
}

// ---- texts

// Whether bytes are what the version asks of a text.
fn is_text(version: FormVersion, t: &[u8]) -> bool
    ensures { result ≡ asked (number_of version) (is_utf8 t.now) }
{
    version == FormVersion::V1 || utf8::is_utf8(t)
}

// The text that the pointer at a place names: in a v0 well-formed.
#[tactic(auto, unfolding(pointer::specs::Pointer::pointed_text))]
pub fn text_at(version: FormVersion, s: &[u8], at: usize) -> Result<Part, Refusal>
    ensures { answer result ≡ pointed_text (number_of version) s.now at }
{
    let p = piece_at(s, at)?;
    if is_text(version, scan::part(s, p.at, p.len)) {
        return Ok(p);
    }
    Err(Refusal {
        reason: Reason::IllFormedUtf8,
        place: p.at,
    })
}
