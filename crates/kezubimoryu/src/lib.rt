// The C entries: thin and total over the crates below. Each takes numbers and byte buffers and answers two numbers.
#![tactic(auto, using(crate::proofs::Itself::by_itself))]

ghost use Rattle.std.specs.Prelude.{ℕ, ◌≡◌, true, false, length};
ghost use Rattle.scan.specs.Choice.{pick, and_then, shown};
ghost use Rattle.event.specs.Answers.{two_numbers};
ghost use Rattle.event.specs.inner.Told.{answer, number_of};
ghost use Rattle.buffer.specs.Entry.{written, filled, writes, leaves};
ghost use Rattle.notepack.specs.Strict.{pack};
ghost use Rattle.notepack.specs.Unpack.{unpack};
ghost use Rattle.elements.specs.Elements.{elements_told, elements_left};
ghost use Rattle.strict.specs.Strict.{strict};
ghost use Rattle.versioned.specs.Versioned.{given};
ghost use Rattle.versioned.specs.Views.{numbers_given, texts_given, element_given};
ghost use Rattle.versioned.specs.Moves.{versions, version_leaves, bares, bare_leaves};
ghost use Rattle.stringform.specs.StringForm.{event_string, read_string, itself};
ghost use Rattle.canonical.specs.Canonical.{canonical};
ghost use Rattle.moment.specs.Moment.{word_of};
ghost use Rattle.pointer.specs.Pointer.{form_at};
ghost use Rattle.pointer.specs.Entries.{pointer_texts, pointer_element, within65536, convertible};
ghost use Rattle.pointer.specs.Written.{pointer_form};
ghost use Rattle.nson.specs.Nson.{nson};
ghost use Rattle.nson.specs.Entries.{nson_reads, nson_leaves, carried};
ghost use Rattle.jsonevent.specs.Entries.{json_reads, json_leaves};
ghost use Rattle.bothreaders.specs.Both.{both, both_first, both_second};
ghost use Rattle.versionedrivals.specs.Rivals.{rivals_given};
ghost use Rattle.table.specs.Offer.{outcome_of, cells_after};
ghost use Rattle.tablebytes.specs.Entries.{table_offer_of, bytes_after, table_slot, sized, zeroed};
ghost use Rattle.sha256.specs.Pieces.{started};
ghost use Rattle.sha256bytes.specs.StateBytes.{bytes_of_state, add_in, finish_in};
ghost use Rattle.identity.specs.Identity.{belongs};
ghost use Rattle.kezubimoryu.specs.Entries.{is_bare, ok, yes_no, lent, kept_number, kept_answer, outcome_number, outcome_told};
ghost use Rattle.kezubimoryu.specs.inner.Shown.{told_by};

use archive::Outcome;
use event::Refusal;
use rivals::{Kept, RefusedInput};

// `kez_answer` of the header: refusal 0 and a value, or the number of refusal and its place.
#[repr(C)]
#[derive(Clone, Copy)]
pub struct KezAnswer {
    pub refusal: u64,
    pub value: u64,
}

// What an entry shows, as the number that C gets.
trait AsNumber {
    ghost number: { Self → ℕ };

    fn number(self) -> u64
        ensures { result ≡ number self };
}

impl AsNumber for u64 {
    ghost number = { λ n. n };

    fn number(self) -> u64 {
        self
    }
}

// a length
impl AsNumber for usize {
    ghost number = { λ n. n };

    fn number(self) -> u64 {
        self as u64
    }
}

// yes is 1, no is 0
impl AsNumber for bool {
    ghost number = { λ b. pick b 1 0 };

    fn number(self) -> u64 {
        u64::from(self)
    }
}

// which record is kept: not rivals is 0, the first is 1, the second is 2
impl AsNumber for Kept {
    ghost number = { kept_number };

    fn number(self) -> u64 {
        match self {
            Kept::NotRivals => 0,
            Kept::First => 1,
            Kept::Second => 2,
        }
    }
}

// what an offer comes to
impl AsNumber for Outcome {
    ghost number = { outcome_number };

    fn number(self) -> u64 {
        match self {
            Outcome::New => 0,
            Outcome::Replaced => 1,
            Outcome::Loses => 2,
            Outcome::Held => 3,
            Outcome::NotKept => 4,
        }
    }
}

fn refused(r: Refusal) -> KezAnswer
    ensures { result ≡ record { refusal = number_of r.reason; value = r.place } }
{
    KezAnswer {
        refusal: u64::from(r.reason.number()),
        value: r.place as u64,
    }
}

fn shown(value: u64) -> KezAnswer
    ensures { result ≡ record { refusal = 0; value = value } }
{
    KezAnswer { refusal: 0, value }
}

// What was shown, or the refusal.
fn told<T: AsNumber>(found: Result<T, Refusal>) -> KezAnswer
    ensures { (result.refusal, result.value) ≡ two_numbers (told_by T.number (answer found)) }
{
    match found {
        Ok(a) => shown(a.number()),
        Err(r) => refused(r),
    }
}

// The caller's word whether a packed input is bare: 0 is no, any other number yes.
fn is_bare(bare: u64) -> bool
    ensures { result ≡ is_bare bare }
{
    bare != 0
}

#[unsafe(no_mangle)]
pub extern "C" fn kez_notepack_read(
    packed: &[u8],
    bare: u64,
    created_at: &mut u64,
    kind: &mut u64,
    content_at: &mut u64,
    content_len: &mut u64,
    tag_count: &mut u64,
) -> KezAnswer
    ensures value_value { (result.refusal, result.value) ≡ two_numbers (ok (numbers_given (is_bare bare) packed.now)) }
    ensures created_at_after { created_at.new ≡ lent (numbers_given (is_bare bare) packed.now) (λ h. h.created_at) created_at.old }
    ensures kind_after { kind.new ≡ lent (numbers_given (is_bare bare) packed.now) (λ h. h.kind) kind.old }
    ensures content_at_after { content_at.new ≡ lent (numbers_given (is_bare bare) packed.now) (λ h. h.content.at) content_at.old }
    ensures content_len_after { content_len.new ≡ lent (numbers_given (is_bare bare) packed.now) (λ h. h.content.len) content_len.old }
    ensures tag_count_after { tag_count.new ≡ lent (numbers_given (is_bare bare) packed.now) (λ h. h.tag_count) tag_count.old }
{
    match versioned::read_packed(packed, is_bare(bare)) {
        Ok(h) => {
            *created_at = h.created_at;
            *kind = h.kind;
            *content_at = h.content.at as u64;
            *content_len = h.content.len as u64;
            *tag_count = h.tag_count;
            shown(0)
        }
        Err(r) => refused(r),
    }
}

#[unsafe(no_mangle)]
pub extern "C" fn kez_notepack_is_strict(packed: &[u8], bare: u64) -> KezAnswer
    ensures { (result.refusal, result.value) ≡ two_numbers (yes_no (given (is_bare bare) strict packed.now)) }
{
    told(eitherform::is_strict(packed, is_bare(bare)))
}

#[unsafe(no_mangle)]
pub extern "C" fn kez_notepack_write(packed: &[u8], bare: u64, out: &mut [u8]) -> KezAnswer
    ensures value_value { (result.refusal, result.value) ≡ two_numbers (writes pack (given (is_bare bare) unpack packed.now) out.old) }
    ensures out_after { out.new ≡ leaves pack (given (is_bare bare) unpack packed.now) out.old }
{
    told(eitherform::write_strict(packed, is_bare(bare), out))
}

#[unsafe(no_mangle)]
pub extern "C" fn kez_notepack_tag_len(packed: &[u8], bare: u64, tag: u64) -> KezAnswer
    ensures { (result.refusal, result.value) ≡ two_numbers (texts_given (is_bare bare) tag packed.now) }
{
    told(versioned::texts_in(packed, is_bare(bare), tag))
}

#[unsafe(no_mangle)]
pub extern "C" fn kez_notepack_element(
    packed: &[u8],
    bare: u64,
    tag: u64,
    element: u64,
    at: &mut u64,
    len: &mut u64,
    is_bytes: &mut u64,
) -> KezAnswer
    ensures value_value { (result.refusal, result.value) ≡ two_numbers (ok (element_given (is_bare bare) tag element packed.now)) }
    ensures at_after { at.new ≡ lent (element_given (is_bare bare) tag element packed.now) (λ p. p.at) at.old }
    ensures len_after { len.new ≡ lent (element_given (is_bare bare) tag element packed.now) (λ p. p.len) len.old }
    ensures is_bytes_after { is_bytes.new ≡ lent (element_given (is_bare bare) tag element packed.now) (λ p. pick p.raw 1 0) is_bytes.old }
{
    match versioned::find_element(packed, is_bare(bare), tag, element) {
        Ok(p) => {
            *at = p.at as u64;
            *len = p.len as u64;
            *is_bytes = u64::from(p.raw);
            shown(0)
        }
        Err(r) => refused(r),
    }
}

#[unsafe(no_mangle)]
pub extern "C" fn kez_notepack_string_write(packed: &[u8], bare: u64, out: &mut [u8]) -> KezAnswer
    ensures value_value { (result.refusal, result.value) ≡ two_numbers (writes (event_string (is_bare bare)) (given (is_bare bare) unpack packed.now) out.old) }
    ensures out_after { out.new ≡ leaves (event_string (is_bare bare)) (given (is_bare bare) unpack packed.now) out.old }
{
    told(stringform::write_string(packed, is_bare(bare), out))
}

#[unsafe(no_mangle)]
pub extern "C" fn kez_notepack_string_read(text: &[u8], out: &mut [u8]) -> KezAnswer
    ensures value_value { (result.refusal, result.value) ≡ two_numbers (writes itself (read_string true text.now) out.old) }
    ensures out_after { out.new ≡ leaves itself (read_string true text.now) out.old }
{
    told(stringform::read_string(text, true, out))
}

// The string form of the versioned form.
#[unsafe(no_mangle)]
pub extern "C" fn kez_notepack_string_read_versioned(text: &[u8], out: &mut [u8]) -> KezAnswer
    ensures value_value { (result.refusal, result.value) ≡ two_numbers (writes itself (read_string false text.now) out.old) }
    ensures out_after { out.new ≡ leaves itself (read_string false text.now) out.old }
{
    told(stringform::read_string(text, false, out))
}

#[unsafe(no_mangle)]
pub extern "C" fn kez_versioned_from_bare(packed: &[u8], out: &mut [u8]) -> KezAnswer
    ensures value_value { (result.refusal, result.value) ≡ two_numbers (versions packed.now out.old) }
    ensures out_after { out.new ≡ version_leaves packed.now out.old }
{
    told(versioned::to_versioned(packed, out))
}

#[unsafe(no_mangle)]
pub extern "C" fn kez_bare_from_versioned(packed: &[u8], out: &mut [u8]) -> KezAnswer
    ensures value_value { (result.refusal, result.value) ≡ two_numbers (bares packed.now out.old) }
    ensures out_after { out.new ≡ bare_leaves packed.now out.old }
{
    told(versioned::to_bare(packed, out))
}

#[unsafe(no_mangle)]
pub extern "C" fn kez_canonical_write(packed: &[u8], bare: u64, out: &mut [u8]) -> KezAnswer
    ensures value_value { (result.refusal, result.value) ≡ two_numbers (writes canonical (given (is_bare bare) unpack packed.now) out.old) }
    ensures out_after { out.new ≡ leaves canonical (given (is_bare bare) unpack packed.now) out.old }
{
    told(eitherform::write_canonical(packed, is_bare(bare), out))
}

#[unsafe(no_mangle)]
pub extern "C" fn kez_nson_write(packed: &[u8], bare: u64, out: &mut [u8]) -> KezAnswer
    ensures value_value { (result.refusal, result.value) ≡ two_numbers (writes nson (carried (given (is_bare bare) unpack packed.now)) out.old) }
    ensures out_after { out.new ≡ leaves nson (carried (given (is_bare bare) unpack packed.now)) out.old }
{
    told(eitherform::write_nson(packed, is_bare(bare), out))
}

#[unsafe(no_mangle)]
pub extern "C" fn kez_nson_read(text: &[u8], out: &mut [u8]) -> KezAnswer
    ensures value_value { (result.refusal, result.value) ≡ two_numbers (nson_reads text.now out.old) }
    ensures out_after { out.new ≡ nson_leaves text.now out.old }
{
    told(nsonread::read_nson(text, out))
}

#[unsafe(no_mangle)]
pub extern "C" fn kez_json_read(text: &[u8], out: &mut [u8]) -> KezAnswer
    ensures value_value { (result.refusal, result.value) ≡ two_numbers (json_reads text.now out.old) }
    ensures out_after { out.new ≡ json_leaves text.now out.old }
{
    told(jsonread::read_json(text, out))
}

// The plain JSON reader's refusal; else 1 where it alone shows the event, 2 where the NSON reader shows it too.
#[unsafe(no_mangle)]
pub extern "C" fn kez_read_both(
    text: &[u8],
    first: &mut [u8],
    second: &mut [u8],
    written: &mut u64,
) -> KezAnswer
    ensures value_value { (result.refusal, result.value) ≡ two_numbers (and_then (both text.now first.old second.old) (λ c. shown c.which)) }
    ensures written_after { written.new ≡ lent (both text.now first.old second.old) (λ c. c.len) written.old }
    ensures first_after { first.new ≡ both_first text.now first.old second.old }
    ensures second_after { second.new ≡ both_second text.now first.old second.old }
{
    match bothreaders::read_both(text, first, second) {
        Ok((which, n)) => {
            *written = n as u64;
            shown(which as u64)
        }
        Err(r) => refused(r),
    }
}

#[unsafe(no_mangle)]
pub extern "C" fn kez_notepack_elements(
    packed: &[u8],
    bare: u64,
    first: u64,
    out: &mut [u8],
) -> KezAnswer
    ensures value_value { (result.refusal, result.value) ≡ two_numbers (elements_told (is_bare bare) first packed.now out.old) }
    ensures out_after { out.new ≡ elements_left (is_bare bare) first packed.now out.old }
{
    told(elements::list_elements(packed, is_bare(bare), first, out))
}

#[unsafe(no_mangle)]
pub extern "C" fn kez_rivals(
    first: &[u8],
    first_bare: u64,
    second: &[u8],
    second_bare: u64,
) -> KezAnswer
    ensures { (result.refusal, result.value) ≡ two_numbers (kept_answer (rivals_given first.now (is_bare first_bare) second.now (is_bare second_bare))) }
{
    match versionedrivals::compare(first, is_bare(first_bare), second, is_bare(second_bare)) {
        Ok(k) => shown(k.number()),
        Err(RefusedInput::First(r) | RefusedInput::Second(r)) => refused(r),
    }
}

#[unsafe(no_mangle)]
pub extern "C" fn kez_sha256_start(state: &mut [u8]) -> KezAnswer
    ensures value_value { (result.refusal, result.value) ≡ two_numbers (written (bytes_of_state started) state.old) }
    ensures state_after { state.new ≡ filled (bytes_of_state started) state.old }
{
    told(sha256bytes::start_in(state))
}

#[unsafe(no_mangle)]
pub extern "C" fn kez_sha256_add(state: &mut [u8], piece: &[u8]) -> KezAnswer
    ensures value_value { (result.refusal, result.value) ≡ two_numbers (writes bytes_of_state (add_in state.old piece.now) state.old) }
    ensures state_after { state.new ≡ leaves bytes_of_state (add_in state.old piece.now) state.old }
{
    told(sha256bytes::add_in(state, piece))
}

#[unsafe(no_mangle)]
pub extern "C" fn kez_sha256_finish(state: &[u8], out: &mut [u8]) -> KezAnswer
    ensures value_value { (result.refusal, result.value) ≡ two_numbers (writes itself (finish_in state.now) out.old) }
    ensures out_after { out.new ≡ leaves itself (finish_in state.now) out.old }
{
    told(sha256bytes::finish_in(state, out))
}

// Whether the id is the SHA-256 of the canonical text.
#[unsafe(no_mangle)]
pub extern "C" fn kez_id_belongs(packed: &[u8], bare: u64) -> KezAnswer
    ensures { (result.refusal, result.value) ≡ two_numbers (yes_no (given (is_bare bare) belongs packed.now)) }
{
    told(eitherform::id_belongs(packed, is_bare(bare)))
}

// What a pointer form shows. The milliseconds are the word that stands there, in two's complement.
#[unsafe(no_mangle)]
pub extern "C" fn kez_pointer_read(
    bytes: &[u8],
    version: &mut u64,
    kind: &mut u64,
    milliseconds: &mut u64,
    content_at: &mut u64,
    content_len: &mut u64,
    tag_count: &mut u64,
) -> KezAnswer
    ensures value_value { (result.refusal, result.value) ≡ two_numbers (ok (form_at bytes.now)) }
    ensures version_after { version.new ≡ lent (form_at bytes.now) (λ f. f.version) version.old }
    ensures kind_after { kind.new ≡ lent (form_at bytes.now) (λ f. f.kind) kind.old }
    ensures milliseconds_after { milliseconds.new ≡ lent (form_at bytes.now) (λ f. word_of f.time) milliseconds.old }
    ensures content_at_after { content_at.new ≡ lent (form_at bytes.now) (λ f. f.content.at) content_at.old }
    ensures content_len_after { content_len.new ≡ lent (form_at bytes.now) (λ f. f.content.len) content_len.old }
    ensures tag_count_after { tag_count.new ≡ lent (form_at bytes.now) (λ f. length f.tags) tag_count.old }
{
    match pointread::read_form(bytes) {
        Ok(f) => {
            *version = f.version.number();
            *kind = f.kind;
            *milliseconds = moment::word_of(f.time);
            *content_at = f.content.at as u64;
            *content_len = f.content.len as u64;
            *tag_count = f.tag_count;
            shown(0)
        }
        Err(r) => refused(r),
    }
}

#[unsafe(no_mangle)]
pub extern "C" fn kez_pointer_tag_len(bytes: &[u8], tag: u64) -> KezAnswer
    ensures { (result.refusal, result.value) ≡ two_numbers (pointer_texts tag bytes.now) }
{
    told(pointread::texts_in(bytes, tag))
}

#[unsafe(no_mangle)]
pub extern "C" fn kez_pointer_element(
    bytes: &[u8],
    tag: u64,
    element: u64,
    at: &mut u64,
    len: &mut u64,
) -> KezAnswer
    ensures value_value { (result.refusal, result.value) ≡ two_numbers (ok (pointer_element tag element bytes.now)) }
    ensures at_after { at.new ≡ lent (pointer_element tag element bytes.now) (λ p. p.at) at.old }
    ensures len_after { len.new ≡ lent (pointer_element tag element bytes.now) (λ p. p.len) len.old }
{
    match pointread::find_element(bytes, tag, element) {
        Ok(p) => {
            *at = p.at as u64;
            *len = p.len as u64;
            shown(0)
        }
        Err(r) => refused(r),
    }
}

#[unsafe(no_mangle)]
pub extern "C" fn kez_pointer_convert(bytes: &[u8], out: &mut [u8]) -> KezAnswer
    ensures value_value { (result.refusal, result.value) ≡ two_numbers (writes pack (convertible bytes.now) out.old) }
    ensures out_after { out.new ≡ leaves pack (convertible bytes.now) out.old }
{
    told(pointconvert::convert(bytes, out))
}

#[unsafe(no_mangle)]
pub extern "C" fn kez_pointer_write(packed: &[u8], bare: u64, out: &mut [u8]) -> KezAnswer
    ensures value_value { (result.refusal, result.value) ≡ two_numbers (writes pointer_form (within65536 pointer_form (given (is_bare bare) unpack packed.now)) out.old) }
    ensures out_after { out.new ≡ leaves pointer_form (within65536 pointer_form (given (is_bare bare) unpack packed.now)) out.old }
{
    told(eitherform::write_pointer(packed, is_bare(bare), out))
}

// The version as one number: 10,000 for a major one, 100 for a minor one, 1 for a patch.
#[unsafe(no_mangle)]
pub extern "C" fn kez_version() -> u64
    ensures { result ≡ 1200 }
{
    1200
}

#[unsafe(no_mangle)]
pub extern "C" fn kez_table_empty(slots: &mut [u8], cells: &mut [u8]) -> KezAnswer
    ensures value_value { (result.refusal, result.value) ≡ two_numbers (sized slots.old cells.old) }
    ensures slots_after { slots.new ≡ zeroed (sized slots.old cells.old) slots.old }
    ensures cells_after { cells.new ≡ zeroed (sized slots.old cells.old) cells.old }
{
    told(bytetable::empty(slots, cells))
}

#[unsafe(no_mangle)]
pub extern "C" fn kez_table_offer(
    slots: &mut [u8],
    cells: &mut [u8],
    packed: &[u8],
    bare: u64,
) -> KezAnswer
    ensures value_value { (result.refusal, result.value) ≡ two_numbers (outcome_told (outcome_of (table_offer_of slots.old cells.old (given (is_bare bare) unpack packed.now)))) }
    ensures slots_after { slots.new ≡ bytes_after (table_offer_of slots.old cells.old (given (is_bare bare) unpack packed.now)) slots.old }
    ensures cells_after { cells.new ≡ cells_after (table_offer_of slots.old cells.old (given (is_bare bare) unpack packed.now)) cells.old }
{
    told(eitherform::offer(slots, cells, packed, is_bare(bare)))
}

#[unsafe(no_mangle)]
pub extern "C" fn kez_table_slot(
    slots: &[u8],
    cells: &[u8],
    n: u64,
    at: &mut u64,
    len: &mut u64,
) -> KezAnswer
    ensures value_value { (result.refusal, result.value) ≡ two_numbers (ok (table_slot slots.now cells.now n)) }
    ensures at_after { at.new ≡ lent (table_slot slots.now cells.now n) (λ p. p.at) at.old }
    ensures len_after { len.new ≡ lent (table_slot slots.now cells.now n) (λ p. p.len) len.old }
{
    match bytetable::find_slot(slots, cells, n) {
        Ok((place, bytes)) => {
            *at = place as u64;
            *len = bytes as u64;
            shown(0)
        }
        Err(r) => refused(r),
    }
}
