// The event that a slot of a table holds, as a part of the lent cells.
#![tactic(auto)]

ghost use Rattle.std.specs.Prelude.{◌≡◌};
ghost use Rattle.table.specs.Standing.{stand_of};
ghost use Rattle.tableslot.specs.inner.Answers.{slot_read, stand_bytes};

use event::{Reason, Refusal};
use slots::Slot;
use tableread::Known;

// Where the event of slot i stands and how long it is: 34, then 19.
pub fn find_slot(t: [Slot; 64], cells: &[u8], i: u64) -> Result<(usize, usize), Refusal>
    ensures { slot_read result ≡ stand_of t cells.now i }
{
    let ks = tableread::know_all(cells, &t);
    tableread::refuse_bad(cells, &ks)?;
    // past the end is nothing, as in a free slot
    let k = ks.get(i as usize).copied().unwrap_or(Known::Free);
    match k {
        Known::Good(a) => Ok((a.at, a.len)),
        Known::Free | Known::Bad => Err(Refusal {
            reason: Reason::NoSuch,
            place: 0,
        }),
    }
}

// The event of slot i, a part of the lent cells; empty where there is none.
pub fn slot_event<'a>(t: [Slot; 64], cells: &'a [u8], i: u64) -> &'a [u8]
    ensures { result.now ≡ stand_bytes cells.now (stand_of t cells.now i) }
{
    match find_slot(t, cells, i) {
        Ok((at, len)) => scan::part(cells, at, len),
        Err(_) => &cells[..0],
    }
}
