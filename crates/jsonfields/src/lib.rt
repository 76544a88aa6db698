// The value of each field of an event in plain JSON: read at its first byte, checked, and told by where it stands and
// how it goes into the strict form. What is read is told with the place behind it.
#![tactic(auto)]

ghost use Rattle.std.specs.Prelude.{ℕ, ◌-◌, ◌≤◌, ◌<◌, ◌≡◌, length};
ghost use Rattle.scan.specs.Choice.{Answer, Read};
ghost use Rattle.event.specs.declared.Reason.TheVariants.{TextNotAllowed};
ghost use Rattle.event.specs.inner.Told.{read_answer, number_of};
ghost use Rattle.jsontext.specs.Text.{string_at};
ghost use Rattle.jsontext.specs.Value.{value_at};
ghost use Rattle.jsonevent.specs.Field.{under, text_of, text_at, is_hex_of, whole_of, whole_at, inside_at, tag_at, field_of};
ghost use Rattle.jsonfields.specs.inner.Size.{element_size, tag_size, sized, lengths, Tells, KeepsSmall};
ghost use Rattle.jsonfields.specs.inner.Spots.{field_number, number_spot, text_spot, ignored_spot, hex_spot_at, tags_spot_at, spot_at};
ghost use Rattle.jsonfields.specs.inner.Answers.{name_read, up_to};

use decimal::DecimalError;
use event::{Reason, Refusal};
use jsonstring::Text;
use jsontext::Spelled;

// The seven fields of an event, and any other name.
#[derive(Clone, Copy)]
pub enum Field {
    Id,
    Pubkey,
    Sig,
    CreatedAt,
    Kind,
    Tags,
    Content,
    Other,
}

// Where the value of a field stands, and how it goes into the strict form.
#[derive(Clone, Copy)]
pub struct Spot {
    // where a string begins behind its quote, or the first tag; 1 where its place is not kept
    pub from: usize,
    // the bytes of a string between its quotes
    pub count: usize,
    // the number that it is, or how many bytes or tags it has
    pub number: u64,
    // the length that it takes in the strict form
    pub len: usize,
}

// How many items were read, and the length that they take in the strict form.
#[derive(Clone, Copy)]
struct Sized {
    count: u64,
    len: usize,
}

// Text not allowed at a place.
fn not_allowed(place: usize) -> Refusal
    ensures { result ≡ record { reason = TextNotAllowed; place = place } }
{
    Refusal {
        reason: Reason::TextNotAllowed,
        place,
    }
}

// A value whose place is not kept.
fn unplaced(number: u64, len: usize) -> Spot
    ensures { result ≡ record { from = 1; count = 0; number = number; len = len } }
{
    Spot {
        from: 1,
        count: 0,
        number,
        len,
    }
}

// ---- strings and numbers

// Whether the text of a spelled string is n bytes in lowercase hex. Most are spelled so, with no escape.
#[tactic(auto, using(crate::proofs::Plain::hex_spelled, crate::proofs::Values::hex_so, crate::proofs::Values::hex_not))]
fn spells_hex(s: &[u8], p: Spelled, n: usize) -> bool
    requires n_nonzero { 0 < n }
    requires n_bound { n ≤ 64 }
    ensures { result ≡ is_hex_of n (text_of s.now p) }
{
    let t = scan::part(s, p.from, p.count);
    if t.len() == 2 * n && hexdigits::goes_as_bytes(t) {
        return true;
    }
    jsonunescape::unescaped_len(s, p.from, p.count) == 2 * n
        && jsonunescape::unescaped_goes_as_bytes(s, p.from, p.count)
}

// n bytes in lowercase hex. The whole string is read before 12 is tried.
#[tactic(auto, unfolding(crate::specs::inner::Spots::hex_spot_at))]
fn read_bytes(s: &[u8], at: usize, n: usize) -> Result<(Spot, usize), Refusal>
    requires n_nonzero { 0 < n }
    requires n_bound { n ≤ 64 }
    ensures { read_answer result ≡ hex_spot_at n s.now at }
{
    let (digits, next) = jsonstring::read_string(s, at)?;
    if spells_hex(s, digits, n) {
        let spot = Spot {
            from: digits.from,
            count: digits.count,
            number: n as u64,
            len: n,
        };
        return Ok((spot, next));
    }
    Err(Refusal {
        reason: Reason::BadPiece,
        place: at,
    })
}

// A string.
#[tactic(auto, using(crate::proofs::Strings::part_most))]
fn read_text(s: &[u8], at: usize) -> Result<(Spot, usize), Refusal>
    ensures { read_answer result ≡ under (text_spot s.now) (string_at s.now at) }
{
    let (p, next) = jsonstring::read_string(s, at)?;
    let n = jsonunescape::unescaped_len(s, p.from, p.count);
    let spot = Spot {
        from: p.from,
        count: p.count,
        number: n as u64,
        len: varint::varint_len(n as u64) + n,
    };
    Ok((spot, next))
}

// Digits that spell a number up to a maximum; above it the refusal has the reason given.
#[tactic(auto, unfolding(jsonevent::specs::Field::whole_at))]
fn read_number(s: &[u8], at: usize, max: u64, over: Reason) -> Result<(Spot, usize), Refusal>
    ensures { read_answer result ≡ under number_spot (whole_at max (number_of over) s.now at) }
{
    let next = jsonvalue::skip_number(s, at)?;
    let n = spelled_number(scan::part(s, at, next - at), max, over, at)?;
    Ok((unplaced(n, varint::varint_len(n)), next))
}

// The number that l spells, if it is digits alone.
fn spelled_number(l: &[u8], max: u64, over: Reason, at: usize) -> Result<u64, Refusal>
    requires { 0 < length l.now }
    ensures { (next : ℕ) → up_to next result ≡ whole_of max (number_of over) l.now at next }
{
    match decimal::read_decimal(l, 0, max) {
        Ok((n, end)) if end == l.len() => Ok(n),
        Err(DecimalError::Over(end)) if end == l.len() => Err(Refusal {
            reason: over,
            place: at,
        }),
        _ => Err(not_allowed(at)),
    }
}

// ---- tags

// Items behind an opening bracket and white space, up to `most` of them: how many, and the sum of the lengths that
// `item` tells of each.
fn read_items<F: Fn(usize) -> Result<(usize, usize), Refusal>>(
    s: &[u8],
    at: usize,
    most: u64,
    item: F,
) -> Result<(Sized, usize), Refusal>
    requires callable { F.IsAlwaysCallable item }
    requires some { 0 < most }
    requires few { most ≤ 1000 }
    requires small { KeepsSmall (length s.now) (F.post item) }
    ensures { (tell : ℕ → Answer (Read ℕ)) → Tells tell (F.post item)
        → read_answer result ≡ under lengths (inside_at tell (most - 1) s.now at) }
{
    let mut i = at;
    let mut count: u64 = 0;
    let mut len: usize = 0;
    if scan::byte_at(s, i) == b']' {
        return Ok((Sized { count, len }, i + 1));
    }
    // a place: the bracket behind an item says that it is the last
    loop {
        let (k, next) = item(i)?;
        count += 1;
        len += k;
        let p = jsonvalue::skip_space(s, next);
        let b = scan::byte_at(s, p);
        if b == b']' {
            return Ok((Sized { count, len }, p + 1));
        }
        if b != b',' {
            return Err(not_allowed(p));
        }
        if count == most {
            return Err(Refusal {
                reason: Reason::TooMany,
                place: p,
            });
        }
        i = jsonvalue::skip_space(s, p + 1);
    }
}

// The length of a text of a tag in the strict form.
#[tactic(auto, unfolding(jsonevent::specs::Field::text_at, crate::specs::inner::Size::element_size))]
fn text_len(s: &[u8], at: usize) -> Result<(usize, usize), Refusal>
    ensures { read_answer result ≡ under element_size (text_at s.now at) }
{
    let (text, next) = jsonstring::read_text(s, at)?;
    let n = match text {
        Text::Plain(p) => notepack::packed_text_len(scan::part(s, p.from, p.count)),
        Text::Other(p) => stringelement::spelled_element_len(s, p.from, p.count),
    };
    Ok((n, next))
}

// The texts of a tag, behind its opening bracket and white space.
fn measure_texts(s: &[u8], at: usize) -> Result<(Sized, usize), Refusal>
    ensures { read_answer result ≡ under (sized element_size) (inside_at (text_at s.now) 254 s.now at) }
{
    read_items(s, at, event::MAX_TEXTS, |i| text_len(s, i))
}

// The length of a tag in the strict form: 1 to 255 texts.
fn tag_len(s: &[u8], at: usize) -> Result<(usize, usize), Refusal>
    ensures { read_answer result ≡ under tag_size (tag_at s.now at) }
{
    if scan::byte_at(s, at) != b'[' {
        return Err(not_allowed(at));
    }
    let first = jsonvalue::skip_space(s, at + 1);
    let (t, next) = measure_texts(s, first)?;
    if t.count == 0 {
        return Err(Refusal {
            reason: Reason::EmptyTag,
            place: at,
        });
    }
    Ok((varint::varint_len(t.count) + t.len, next))
}

// The tags, behind their opening bracket and white space.
fn measure_tags(s: &[u8], at: usize) -> Result<(Sized, usize), Refusal>
    ensures { read_answer result ≡ under (sized tag_size) (inside_at (tag_at s.now) 999 s.now at) }
{
    read_items(s, at, event::MAX_TAGS, |i| tag_len(s, i))
}

// The tags: 0 to 1,000.
#[tactic(auto, using(scan::proofs::Step::tests), unfolding(crate::specs::inner::Spots::tags_spot_at))]
fn read_tags(s: &[u8], at: usize) -> Result<(Spot, usize), Refusal>
    ensures { read_answer result ≡ tags_spot_at s.now at }
{
    if scan::byte_at(s, at) != b'[' {
        return Err(not_allowed(at));
    }
    let first = jsonvalue::skip_space(s, at + 1);
    let (t, next) = measure_tags(s, first)?;
    let spot = Spot {
        from: first,
        count: 0,
        number: t.count,
        len: varint::varint_len(t.count) + t.len,
    };
    Ok((spot, next))
}

// ---- names, and the value of each field

// The field that has a name.
#[tactic(auto, using(scan::proofs::CompareLaws::same_eq), unfolding(jsonevent::specs::Field::field_of, jsonevent::specs::Field::index_in))]
fn field_named(t: &[u8]) -> Field
    ensures { field_number result ≡ field_of t.now }
{
    if t == b"id".as_slice() {
        Field::Id
    } else if t == b"pubkey".as_slice() {
        Field::Pubkey
    } else if t == b"sig".as_slice() {
        Field::Sig
    } else if t == b"created_at".as_slice() {
        Field::CreatedAt
    } else if t == b"kind".as_slice() {
        Field::Kind
    } else if t == b"tags".as_slice() {
        Field::Tags
    } else if t == b"content".as_slice() {
        Field::Content
    } else {
        Field::Other
    }
}

// The field whose name a string spells. No name is longer than ten bytes.
fn field_spelled(s: &[u8], p: Spelled) -> Field
    ensures { field_number result ≡ field_of (text_of s.now p) }
{
    if jsonunescape::unescaped_len(s, p.from, p.count) > 10 {
        return Field::Other;
    }
    let mut name = [0u8; 10];
    let end = jsonunescape::put_unescaped(&mut name, 0, s, p.from, p.count);
    field_named(scan::part(&name, 0, end))
}

// A name, as its field.
#[tactic(auto, unfolding(jsonevent::specs::Field::text_at))]
pub fn read_name(s: &[u8], at: usize) -> Result<(Field, usize), Refusal>
    ensures { name_read result ≡ under field_of (text_at s.now at) }
{
    let (text, next) = jsonstring::read_text(s, at)?;
    let field = match text {
        Text::Plain(p) => field_named(scan::part(s, p.from, p.count)),
        Text::Other(p) => field_spelled(s, p),
    };
    Ok((field, next))
}

// A value that is ignored: nothing of it is kept.
fn read_ignored(s: &[u8], at: usize) -> Result<(Spot, usize), Refusal>
    ensures { read_answer result ≡ under (λ x. ignored_spot) (value_at 16 s.now at) }
{
    let next = jsonvalue::skip_value(s, at, event::MAX_DEPTH)?;
    Ok((unplaced(0, 0), next))
}

// The value of a field.
#[tactic(auto, unfolding(crate::specs::inner::Spots::spot_at))]
pub fn read_value(s: &[u8], at: usize, field: Field) -> Result<(Spot, usize), Refusal>
    ensures { read_answer result ≡ spot_at (field_number field) s.now at }
{
    match field {
        Field::Id | Field::Pubkey => read_bytes(s, at, 32),
        Field::Sig => read_bytes(s, at, 64),
        Field::CreatedAt => read_number(s, at, event::MAX_CREATED_AT, Reason::CreatedAtOutOfRange),
        Field::Kind => read_number(s, at, event::MAX_KIND, Reason::KindOutOfRange),
        Field::Tags => read_tags(s, at),
        Field::Content => read_text(s, at),
        Field::Other => read_ignored(s, at),
    }
}
