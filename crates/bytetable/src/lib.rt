// A table in two lent buffers of bytes, 1,024 of slots and 65,536 of cells: emptying, an offer, and the event
// of a slot.
#![tactic(auto)]

ghost use Rattle.std.specs.Prelude.{◌≡◌};
ghost use Rattle.event.specs.inner.Told.{answer};
ghost use Rattle.table.specs.Offer.{outcome_of, cells_after};
ghost use Rattle.tableslot.specs.inner.Answers.{slot_read};
ghost use Rattle.tablebytes.specs.Entries.{table_offer, bytes_after, table_slot, sized, zeroed};
ghost use Rattle.bytetable.specs.inner.Lent.{lent_slots};

use archive::Outcome;
use event::{Reason, Refusal};
use slots::Slot;

// A buffer has not the size of a table's.
const BAD_TABLE: Refusal = Refusal {
    reason: Reason::BadTable,
    place: 0,
};

// The slots that the lent bytes are.
fn lent_slots(slots: &[u8]) -> Result<[Slot; 64], Refusal>
    ensures { answer result ≡ lent_slots slots.now }
{
    if slots.len() != 1024 {
        return Err(BAD_TABLE);
    }
    Ok(slotbytes::slots_in(slots))
}

// An offer of a packed event. Nothing is stored before the last refusal is ruled out.
pub fn offer(slots: &mut [u8], cells: &mut [u8], packed: &[u8]) -> Result<Outcome, Refusal>
    ensures result_value { answer result ≡ outcome_of (table_offer slots.old cells.old packed.now) }
    ensures slots_after { slots.new ≡ bytes_after (table_offer slots.old cells.old packed.now) slots.old }
    ensures cells_after { cells.new ≡ cells_after (table_offer slots.old cells.old packed.now) cells.old }
{
    let mut t = lent_slots(slots)?;
    let outcome = lenttable::offer(&mut t, cells, packed)?;
    slotbytes::put_slots(slots, &t);
    Ok(outcome)
}

// Every byte of both buffers becomes zero, if they have the sizes of a table: so every slot is free.
pub fn empty(slots: &mut [u8], cells: &mut [u8]) -> Result<usize, Refusal>
    ensures result_value { answer result ≡ sized slots.old cells.old }
    ensures slots_after { slots.new ≡ zeroed (sized slots.old cells.old) slots.old }
    ensures cells_after { cells.new ≡ zeroed (sized slots.old cells.old) cells.old }
{
    if slots.len() != 1024 || cells.len() != 65536 {
        return Err(BAD_TABLE);
    }
    buffer::fill_bytes(slots, 0);
    buffer::fill_bytes(cells, 0);
    Ok(0)
}

// Where the event of slot i stands in the cells and how long it is: 34, then 19.
#[tactic(auto, using(crate::proofs::Laws::slot_lent))]
pub fn find_slot(slots: &[u8], cells: &[u8], i: u64) -> Result<(usize, usize), Refusal>
    ensures { slot_read result ≡ table_slot slots.now cells.now i }
{
    let t = lent_slots(slots)?;
    tableslot::find_slot(t, cells, i)
}
