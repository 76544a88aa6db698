// What NSON's counts say: the pieces of its text, all in front of the nson field, and the field itself, checked before
// any text that it counts. What is read at a place is told with the place behind it.
#![tactic(auto)]

ghost use Rattle.std.specs.Prelude.{◌+◌, ◌*◌, ◌-◌, ◌≤◌, ◌≡◌, true, IfOk};
ghost use Rattle.scan.specs.Choice.{and_then, read, many};
ghost use Rattle.event.specs.inner.Told.{number_of, answer, read_answer};
ghost use Rattle.nson.specs.inner.Places.{descriptors_place};
ghost use Rattle.nson.specs.Read.{piece_at, hex_at, labelled_at, decimal_at, keys_at, time_at, head_at, byte_here, word_here, descriptor_at, byte_count_at, word_count_at, kind_count_at, item_count_at, tag_counts_at, counts_at};
ghost use Rattle.nsoncounts.specs.inner.Counted.{next_of, up_to, is_hex, full_width, text_size_at, sizes_of, sizes_to};

use decimal::DecimalError;
use event::{Reason, Refusal};

// Places of the layout, each behind a label and what stands before it (nson/proofs/Places): {"id":" .. ","pubkey":" ..
// ","sig":"
pub const ID_AT: usize = 7;

pub const PUBKEY_AT: usize = ID_AT + 64 + 12;

pub const SIG_AT: usize = PUBKEY_AT + 64 + 9;

// Behind ","created_at": the ten digits of the time, and ,"nson":" stands the size; then the descriptors, the first
// three alone, then those of the tags.
const SIZE_AT: usize = SIG_AT + 128 + 15 + 10 + 9;

const DESCRIPTORS_AT: usize = SIZE_AT + 2;

pub const TAG_COUNTS_AT: u32 = DESCRIPTORS_AT as u32 + 2 + 4 + 2;

// The most that ten digits say.
const TEN_DIGITS: u64 = 9_999_999_999;

// The descriptors pass the end that the size says, or end before it.
const SIZE_DISAGREES: Refusal = Refusal {
    reason: Reason::CountDisagrees,
    place: SIZE_AT,
};

// The counts of the nson field that stand alone: the kind's characters, the content's bytes and the number of tags.
#[derive(Clone, Copy)]
pub struct Sizes {
    pub kind: u8,
    pub content: u16,
    pub tags: u8,
}

// The counts of a tag's items: their number, and where the first stands. A place of 32 bits with what is counted from
// there on never passes a word.
#[derive(Clone, Copy)]
pub struct ItemCounts {
    pub number: u8,
    pub at: u32,
}

// ---- pieces

// A fixed piece. Where another byte or the end stands the reason is `other`.
#[tactic(auto, using(crate::proofs::Laws::piece_fits), unfolding(nson::specs::Read::piece_at))]
pub fn piece(s: &[u8], at: usize, w: &[u8], other: Reason) -> Result<usize, Refusal>
    ensures { answer result ≡ piece_at (number_of other) w.now s.now at }
{
    if scan::stands_at(w, s, at) {
        return Ok(at + w.len());
    }
    Err(Refusal {
        reason: other,
        place: at,
    })
}

// Whether n lowercase hex digits stand at a place.
#[tactic(auto, using(scan::proofs::Step::tests), unfolding(crate::specs::inner::Counted::is_hex))]
fn is_hex(s: &[u8], at: usize, n: usize) -> bool
    ensures { result ≡ is_hex n s.now at }
{
    let l = scan::part(s, at, n);
    l.len() == n && hexdigits::all_digits(l)
}

// n lowercase hex digits.
#[tactic(auto, using(crate::proofs::Laws::hex_steps))]
fn hex_digits(s: &[u8], at: usize, n: usize) -> Result<usize, Refusal>
    ensures { answer result ≡ hex_at n s.now at }
{
    if is_hex(s, at, n) {
        return Ok(at + n);
    }
    Err(Refusal {
        reason: Reason::BadPiece,
        place: at,
    })
}

// A label, then n hex digits.
#[tactic(auto, unfolding(nson::specs::Read::labelled_at))]
fn labelled(s: &[u8], at: usize, w: &[u8], n: usize) -> Result<usize, Refusal>
    ensures { answer result ≡ labelled_at w.now n s.now at }
{
    let at = piece(s, at, w, Reason::BadPiece)?;
    hex_digits(s, at, n)
}

// Whether digits that end at a place are n, with no leading zero unless it is all.
#[tactic(auto, using(scan::proofs::Step::tests), unfolding(crate::specs::inner::Counted::full_width))]
fn is_full_width(l: &[u8], end: usize, n: usize) -> bool
    ensures { result ≡ full_width n l.now end }
{
    end == n && (scan::byte_at(l, 0) != b'0' || n == 1)
}

// A number in n digits, with no leading zero unless it is 0: the reason of another spelling is `other`, that of a
// number above the maximum is `over`.
#[tactic(auto, using(crate::proofs::Decimals::number_steps))]
pub fn counted_number(
    s: &[u8],
    at: usize,
    n: usize,
    max: u64,
    other: Reason,
    over: Reason,
) -> Result<(u64, usize), Refusal>
    ensures { read_answer result ≡ up_to max (number_of over) at (decimal_at (number_of other) n s.now at) }
{
    let l = scan::part(s, at, n);
    match decimal::read_decimal(l, 0, max) {
        Ok((value, end)) if is_full_width(l, end, n) => Ok((value, at + n)),
        Err(DecimalError::Over(end)) if is_full_width(l, end, n) => Err(Refusal {
            reason: over,
            place: at,
        }),
        _ => Err(Refusal {
            reason: other,
            place: at,
        }),
    }
}

// A text that is counted, and the length of what it spells.
#[tactic(auto, using(scan::proofs::Step::tests, crate::proofs::Spelling::text_steps), unfolding(nson::specs::Read::text_at))]
pub fn counted_text(s: &[u8], at: usize, n: usize) -> Result<(usize, usize), Refusal>
    ensures result_value { read_answer result ≡ text_size_at n s.now at }
    ensures result_bound { IfOk result (λ x. x.0 ≤ n) }
{
    let l = scan::part(s, at, n);
    match nsonstring::text_len(l) {
        Ok(len) if l.len() == n => Ok((len, at + n)),
        Ok(_) => Err(Refusal {
            reason: Reason::CountDisagrees,
            place: at,
        }),
        Err(reason) => Err(Refusal { reason, place: at }),
    }
}

// ---- up to the descriptors

// id, pubkey and sig.
#[tactic(auto, unfolding(nson::specs::Read::keys_at))]
fn keys(s: &[u8]) -> Result<usize, Refusal>
    ensures { answer result ≡ keys_at s.now }
{
    let at = labelled(s, 0, b"{\"id\":\"", 64)?;
    let at = labelled(s, at, b"\",\"pubkey\":\"", 64)?;
    labelled(s, at, b"\",\"sig\":\"", 128)
}

// The time: ten digits, the first not 0.
#[tactic(auto, unfolding(nson::specs::Read::time_at))]
fn time(s: &[u8], at: usize) -> Result<(u64, usize), Refusal>
    ensures { read_answer result ≡ time_at s.now at }
{
    let at = piece(s, at, b"\",\"created_at\":", Reason::BadPiece)?;
    counted_number(s, at, 10, TEN_DIGITS, Reason::BadPiece, Reason::BadPiece)
}

// All up to the descriptors, and the time.
#[tactic(auto, unfolding(nson::specs::Read::head_at))]
pub fn head(s: &[u8]) -> Result<(u64, usize), Refusal>
    ensures { read_answer result ≡ head_at s.now }
{
    let at = keys(s)?;
    let (created_at, at) = time(s, at)?;
    let at = piece(s, at, b",\"nson\":\"", Reason::BadPiece)?;
    Ok((created_at, at))
}

// ---- the descriptors: all are checked before the kind

// The byte that two hex digits at a place say.
#[tactic(auto, using(crate::proofs::Laws::byte_part))]
pub fn byte_here(s: &[u8], at: usize) -> u8
    ensures { result ≡ byte_here s.now at }
{
    let l = scan::part(s, at, 2);
    let high = hexdigits::value_of(scan::byte_at(l, 0)) % 16;
    let low = hexdigits::value_of(scan::byte_at(l, 1)) % 16;
    16 * high + low
}

// The count of two bytes at a place.
#[tactic(auto, using(crate::proofs::Laws::word_part))]
pub fn word_here(s: &[u8], at: usize) -> u16
    ensures { result ≡ word_here s.now at }
{
    let l = scan::part(s, at, 4);
    256 * u16::from(byte_here(l, 0)) + u16::from(byte_here(l, 2))
}

impl ItemCounts {
    // How many bytes the item takes that i others stand in front of.
    pub fn size(self, s: &[u8], i: u8) -> u16
        ensures { result ≡ word_here s.now (self.at + 4 * i) }
    {
        word_here(s, self.at as usize + 4 * usize::from(i))
    }
}

// The descriptors up to the end that the size says. From `hex_from` on they are all there and are hex digits: there no
// descriptor needs a look of its own.
#[derive(Clone, Copy)]
struct Field<'a> {
    s: &'a [u8],
    end: usize,
    hex_from: usize,
    ghost digits: { is_hex (end - hex_from) s.now hex_from ≡ true },
}

impl<'a> Field<'a> {
    // The field of a size. Where not all of it is hex digits, nothing is known.
    #[tactic(auto, using(crate::proofs::Fields::sized_steps))]
    fn sized(s: &'a [u8], size: u8) -> Field<'a>
        ensures { (result.s.now ≡ s.now) × (result.end ≡ descriptors_place + size) }
    {
        let size = usize::from(size);
        let end = DESCRIPTORS_AT + size;
        if is_hex(s, DESCRIPTORS_AT, size) {
            return Field {
                s,
                end,
                hex_from: DESCRIPTORS_AT,
            };
        }
        Field {
            s,
            end,
            hex_from: end,
        }
    }

    // A descriptor of n hex digits that ends at the end or before.
    #[tactic(auto, using(crate::proofs::Laws::room_steps, crate::proofs::Fields::field_hex), unfolding(nson::specs::Read::descriptor_at))]
    fn descriptor(&self, at: usize, n: usize) -> Result<usize, Refusal>
        ensures { answer result ≡ descriptor_at n self.now.end self.now.s.now at }
    {
        if self.end < n || self.end - n < at {
            return Err(SIZE_DISAGREES);
        }
        if self.hex_from <= at {
            return Ok(at + n);
        }
        hex_digits(self.s, at, n)
    }

    // A count of one byte.
    #[tactic(auto, unfolding(nson::specs::Read::byte_count_at))]
    fn byte_count(&self, at: usize) -> Result<(u8, usize), Refusal>
        ensures { read_answer result ≡ byte_count_at self.now.end self.now.s.now at }
    {
        let next = self.descriptor(at, 2)?;
        Ok((byte_here(self.s, at), next))
    }

    // A count of two bytes.
    #[tactic(auto, unfolding(nson::specs::Read::word_count_at))]
    fn word_count(&self, at: usize) -> Result<(u16, usize), Refusal>
        ensures { read_answer result ≡ word_count_at self.now.end self.now.s.now at }
    {
        let next = self.descriptor(at, 4)?;
        Ok((word_here(self.s, at), next))
    }

    // Kind characters: 1 to 5.
    #[tactic(auto, using(scan::proofs::Step::tests), unfolding(nson::specs::Read::kind_count_at, scan::specs::Place::within))]
    fn kind_count(&self, at: usize) -> Result<(u8, usize), Refusal>
        ensures result_value { read_answer result ≡ kind_count_at self.now.end self.now.s.now at }
        ensures result_bound { IfOk result (λ x. x.0 ≤ 5) }
    {
        let (n, next) = self.byte_count(at)?;
        if 1 <= n && n <= 5 {
            return Ok((n, next));
        }
        Err(Refusal {
            reason: Reason::CountDisagrees,
            place: at,
        })
    }

    // A tag's number of items: none is an empty tag.
    #[tactic(auto, using(scan::proofs::Step::tests), unfolding(nson::specs::Read::item_count_at))]
    fn item_count(&self, at: usize) -> Result<(u8, usize), Refusal>
        ensures { read_answer result ≡ item_count_at self.now.end self.now.s.now at }
    {
        let (n, next) = self.byte_count(at)?;
        if n == 0 {
            return Err(Refusal {
                reason: Reason::EmptyTag,
                place: at,
            });
        }
        Ok((n, next))
    }

    // n counts of two bytes.
    #[tactic(auto, using(crate::proofs::Counting::loop_steps))]
    fn item_sizes(&self, at: usize, n: u8) -> Result<usize, Refusal>
        ensures { answer result ≡ next_of (many (word_count_at self.now.end self.now.s.now) n at) }
    {
        let mut i = at;
        for _ in 0..n {
            i = self.descriptor(i, 4)?;
        }
        Ok(i)
    }

    // A tag's counts.
    #[tactic(auto, unfolding(nson::specs::Read::tag_counts_at))]
    fn tag_counts(&self, at: usize) -> Result<usize, Refusal>
        ensures { answer result ≡ next_of (tag_counts_at self.now.end self.now.s.now at) }
    {
        let (n, next) = self.item_count(at)?;
        self.item_sizes(next, n)
    }

    // The counts of n tags.
    #[tactic(auto, using(crate::proofs::Counting::loop_steps))]
    fn all_tag_counts(&self, at: usize, n: u8) -> Result<usize, Refusal>
        ensures { answer result ≡ next_of (many (tag_counts_at self.now.end self.now.s.now) n at) }
    {
        let mut i = at;
        for _ in 0..n {
            i = self.tag_counts(i)?;
        }
        Ok(i)
    }

    // The counts that end where the size says.
    #[tactic(auto, using(scan::proofs::Step::tests), unfolding(crate::specs::inner::Counted::sizes_to))]
    fn sizes(&self) -> Result<(Sizes, usize), Refusal>
        ensures result_value { read_answer result ≡ sizes_to self.now.end self.now.s.now descriptors_place }
        ensures kind_bound { IfOk result (λ x. x.0.kind ≤ 5) }
        ensures place_bound { IfOk result (λ x. x.1 ≡ self.now.end) }
    {
        let (kind, at) = self.kind_count(DESCRIPTORS_AT)?;
        let (content, at) = self.word_count(at)?;
        let (tags, at) = self.byte_count(at)?;
        let at = self.all_tag_counts(at, tags)?;
        if at == self.end {
            let sizes = Sizes {
                kind,
                content,
                tags,
            };
            return Ok((sizes, at));
        }
        Err(SIZE_DISAGREES)
    }
}

// The nson field: the size and the descriptors.
#[tactic(auto, using(crate::proofs::Counting::field_again))]
pub fn counts(s: &[u8]) -> Result<(Sizes, usize), Refusal>
    ensures result_value { read_answer result ≡ and_then (counts_at s.now) (λ n. read (sizes_of n.value) n.next) }
    ensures kind_bound { IfOk result (λ x. x.0.kind ≤ 5) }
    ensures place_bound { IfOk result (λ x. x.1 ≤ 575) }
{
    hex_digits(s, SIZE_AT, 2)?;
    Field::sized(s, byte_here(s, SIZE_AT)).sizes()
}
