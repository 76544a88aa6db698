// A packed input of either form, bare or versioned, as the caller says: the strict question, the writers, the id
// question, an offer to a table. Each asks the function for bare bytes and moves the place of its refusal.
#![tactic(auto)]

ghost use Rattle.std.specs.Prelude.{◌≡◌};
ghost use Rattle.buffer.specs.Entry.{writes, leaves};
ghost use Rattle.event.specs.inner.Told.{answer, number_of};
ghost use Rattle.notepack.specs.Strict.{pack};
ghost use Rattle.notepack.specs.Unpack.{unpack};
ghost use Rattle.strict.specs.Strict.{strict};
ghost use Rattle.canonical.specs.Canonical.{canonical};
ghost use Rattle.nson.specs.Nson.{nson};
ghost use Rattle.nson.specs.Entries.{carried};
ghost use Rattle.pointer.specs.Entries.{within65536};
ghost use Rattle.pointer.specs.Written.{pointer_form};
ghost use Rattle.identity.specs.Identity.{belongs};
ghost use Rattle.table.specs.Offer.{outcome_of, cells_after};
ghost use Rattle.tablebytes.specs.Entries.{table_offer_of, bytes_after};
ghost use Rattle.versioned.specs.Versioned.{given};
ghost use Rattle.eitherform.specs.inner.Nothing.{nothing_offered};

use archive::Outcome;
use event::{Reason, Refusal};

// ---- the questions

// Whether the bare bytes are strict, or the refusal.
pub fn is_strict(s: &[u8], bare: bool) -> Result<bool, Refusal>
    ensures { answer result ≡ given bare strict s.now }
{
    let k = versioned::start(s, bare)?;
    versioned::moved_answer(bare, strict::is_strict(versioned::from(s, k)))
}

// Whether the id is the SHA-256 of the canonical text, or the refusal.
pub fn id_belongs(s: &[u8], bare: bool) -> Result<bool, Refusal>
    ensures { answer result ≡ given bare belongs s.now }
{
    let k = versioned::start(s, bare)?;
    versioned::moved_answer(bare, identity::id_belongs(versioned::from(s, k)))
}

// ---- the writers: the refusals of the input, then each writer's own; else written from the start

// The strict bare form.
pub fn write_strict(s: &[u8], bare: bool, out: &mut [u8]) -> Result<usize, Refusal>
    ensures result_value { answer result ≡ writes pack (given bare unpack s.now) out.old }
    ensures out_after { out.new ≡ leaves pack (given bare unpack s.now) out.old }
{
    let k = versioned::start(s, bare)?;
    versioned::moved_answer(bare, strict::write_strict(versioned::from(s, k), out))
}

// The canonical text.
pub fn write_canonical(s: &[u8], bare: bool, out: &mut [u8]) -> Result<usize, Refusal>
    ensures result_value { answer result ≡ writes canonical (given bare unpack s.now) out.old }
    ensures out_after { out.new ≡ leaves canonical (given bare unpack s.now) out.old }
{
    let k = versioned::start(s, bare)?;
    versioned::moved_answer(bare, canonical::write_canonical(versioned::from(s, k), out))
}

// NSON.
pub fn write_nson(s: &[u8], bare: bool, out: &mut [u8]) -> Result<usize, Refusal>
    ensures result_value { answer result ≡ writes nson (carried (given bare unpack s.now)) out.old }
    ensures out_after { out.new ≡ leaves nson (carried (given bare unpack s.now)) out.old }
{
    let k = versioned::start(s, bare)?;
    versioned::moved_answer(bare, nsonwrite::write_nson(versioned::from(s, k), out))
}

// The pointer form's v0.
pub fn write_pointer(s: &[u8], bare: bool, out: &mut [u8]) -> Result<usize, Refusal>
    ensures result_value { answer result ≡ writes pointer_form (within65536 pointer_form (given bare unpack s.now)) out.old }
    ensures out_after { out.new ≡ leaves pointer_form (within65536 pointer_form (given bare unpack s.now)) out.old }
{
    let k = versioned::start(s, bare)?;
    versioned::moved_answer(bare, pointwrite::write_pointer(versioned::from(s, k), out))
}

// ---- an offer to a table

// An offer of no bytes changes nothing; its 34 comes before the refusal of the start.
fn nothing_offered(told: Result<Outcome, Refusal>, r: Refusal) -> Result<Outcome, Refusal>
    ensures { answer result ≡ nothing_offered (answer told) (number_of r.reason) r.place }
{
    match told {
        Err(t) if t.reason == Reason::BadTable => Err(t),
        _ => Err(r),
    }
}

// What the offer comes to, or the refusal: 34, then those of the input.
pub fn offer(slots: &mut [u8], cells: &mut [u8], s: &[u8], bare: bool) -> Result<Outcome, Refusal>
    ensures result_value { answer result ≡ outcome_of (table_offer_of slots.old cells.old (given bare unpack s.now)) }
    ensures slots_after { slots.new ≡ bytes_after (table_offer_of slots.old cells.old (given bare unpack s.now)) slots.old }
    ensures cells_after { cells.new ≡ cells_after (table_offer_of slots.old cells.old (given bare unpack s.now)) cells.old }
{
    match versioned::start(s, bare) {
        Err(r) => nothing_offered(bytetable::offer(slots, cells, &s[..0]), r),
        Ok(k) => versioned::moved_answer(
            bare,
            bytetable::offer(slots, cells, versioned::from(s, k)),
        ),
    }
}
