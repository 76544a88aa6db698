// A table lent as a slice of slots: an offer to it, changed one slot at a time, and emptying.
#![tactic(auto)]

ghost use Rattle.std.specs.Prelude.{◌≡◌};
ghost use Rattle.event.specs.inner.Told.{answer};
ghost use Rattle.table.specs.Offer.{offer as offerTo, outcome_of, slots_after, cells_after};
ghost use Rattle.lenttable.specs.inner.Changed.{changed};
ghost use Rattle.lenttable.specs.Empty.{is_table, emptied, slots_emptied, cells_emptied};

use archive::Outcome;
use event::{Reason, Refusal};
use slots::Slot;

// What an offer comes to, or its refusal, and the slots after it.
#[derive(Clone, Copy)]
pub struct Offered {
    pub answer: Result<Outcome, Refusal>,
    pub slots: [Slot; 64],
}

const FREE: Slot = Slot {
    mark: 0,
    spare: 0,
    len: 0,
};

// A table has another size.
const BAD_TABLE: Refusal = Refusal {
    reason: Reason::BadTable,
    place: 0,
};

// The slot that changes, if one does, becomes what it is to be.
fn change_slot(slots: &mut [Slot], change: Option<(usize, Slot)>)
    ensures { slots.new ≡ changed change slots.old }
{
    if let Some((i, s)) = change {
        slots::set_slot(slots, i, s);
    }
}

// An offer of a packed event: 34, the reader's refusals, 22, 23, or what it comes to. A refusal changes nothing; of a
// table that is not refused one slot and its cell change, or none.
#[tactic(auto, unfolding(table::specs::Offer::offer_of, table::specs::Table::entries_of))]
pub fn offer(slots: &mut [Slot], cells: &mut [u8], packed: &[u8]) -> Result<Outcome, Refusal>
    ensures result_value { answer result ≡ outcome_of (offerTo slots.old cells.old packed.now) }
    ensures slots_after { slots.new ≡ slots_after (offerTo slots.old cells.old packed.now) slots.old }
    ensures cells_after { cells.new ≡ cells_after (offerTo slots.old cells.old packed.now) cells.old }
{
    let Some(t) = slots.as_array() else {
        return Err(BAD_TABLE);
    };
    let d = tableoffer::decide(t, cells, packed)?;
    change_slot(slots, d.change);
    Ok(d.outcome)
}

// The same for a table by value, which is lent for the call.
pub fn offer_in(t: [Slot; 64], cells: &mut [u8], packed: &[u8]) -> Offered
    ensures answer_value { answer result.answer ≡ outcome_of (offerTo t cells.old packed.now) }
    ensures slots_value { result.slots ≡ slots_after (offerTo t cells.old packed.now) t }
    ensures cells_after { cells.new ≡ cells_after (offerTo t cells.old packed.now) cells.old }
{
    let mut slots = t;
    let answer = offer(&mut slots, cells, packed);
    Offered { answer, slots }
}

// ---- emptying

#[tactic(auto, unfolding(crate::specs::Empty::is_table))]
fn is_table(n: usize, m: usize) -> bool
    ensures { result ≡ is_table n m }
{
    n == 64 && m == 65536
}

// Every slot is free and every byte 0: 0 bytes are told to be written. 34 for another size, which changes nothing.
pub fn empty(slots: &mut [Slot], cells: &mut [u8]) -> Result<usize, Refusal>
    ensures result_value { answer result ≡ emptied slots.old cells.old }
    ensures slots_after { slots.new ≡ slots_emptied (emptied slots.old cells.old) slots.old }
    ensures cells_after { cells.new ≡ cells_emptied (emptied slots.old cells.old) cells.old }
{
    if !is_table(slots.len(), cells.len()) {
        return Err(BAD_TABLE);
    }
    slots::fill(slots, FREE);
    buffer::fill_bytes(cells, 0);
    Ok(0)
}
