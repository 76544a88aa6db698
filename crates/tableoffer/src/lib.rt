// An offer to a table of 64 slots, by value, and its lent cells: what it comes to, and the one cell that changes.
#![tactic(auto)]

ghost use Rattle.std.specs.Prelude.{◌<◌, ◌≡◌, length};
ghost use Rattle.event.specs.inner.Told.{answer};
ghost use Rattle.table.specs.Offer.{offer, cells_after};
ghost use Rattle.tableoffer.specs.inner.Decision.{decided};
ghost use Rattle.tableoffer.specs.inner.Plan.{beside_stored, plan_for, place_number, decision_by, cells_by, good_decision, good_cells};

use archive::Outcome;
use event::{Reason, Refusal};
use keys::KeyPlace;
use notepack::Head;
use rivals::Kept;
use slots::Slot;
use tableread::{Known, Stored};

// What an offer does: the event is put into a slot, or the table stays, or there is no room.
#[derive(Clone, Copy)]
enum Plan {
    Put(usize, Outcome),
    Stays(Outcome),
    Full,
}

// What an offer comes to, and the slot that changes, if one does, with what it becomes.
#[derive(Clone, Copy)]
pub struct Decision {
    pub outcome: Outcome,
    pub change: Option<(usize, Slot)>,
}

// ---- what an offer does

// The event s beside the one that slot i holds under its name; b is its strict form.
#[tactic(auto, unfolding(crate::specs::inner::Plan::beside_stored))]
fn beside(
    cells: &[u8],
    i: usize,
    a: Stored,
    s: &[u8],
    created_at: u64,
    key: Option<KeyPlace>,
    b: &[u8],
) -> Plan
    ensures { result ≡ beside_stored cells.now i a s.now created_at key b.now }
{
    if key.is_none() {
        return Plan::Stays(Outcome::Held);
    }
    let own = scan::part(cells, a.at, a.len);
    if rivals::kept_of(own, a.created_at, s, created_at) == Kept::Second {
        return Plan::Put(i, Outcome::Replaced);
    }
    if scan::same_bytes(own, b) {
        return Plan::Stays(Outcome::Held);
    }
    Plan::Stays(Outcome::Loses)
}

// What the offer of s does, of which h was read; b is its strict form.
#[tactic(auto, unfolding(crate::specs::inner::Plan::plan_for))]
fn plan_offer(cells: &[u8], ks: &[Known], s: &[u8], h: Head, b: &[u8]) -> Plan
    ensures { result ≡ plan_for cells.now ks.now s.now h b.now }
{
    if tableread::is_ephemeral(h.kind) {
        return Plan::Stays(Outcome::NotKept);
    }
    let key = keys::key_at(s, h);
    let print = tableread::print_name(s, key);
    if let Some((i, a)) = tableread::find(cells, ks, s, key, print) {
        return beside(cells, i, a, s, h.created_at, key, b);
    }
    match tableread::first_free(ks) {
        Some(i) => Plan::Put(i, Outcome::New),
        None => Plan::Full,
    }
}

// ---- and the cell that changes

// What was planned is done: the strict form b goes into its cell.
fn carry_out(cells: &mut [u8], p: Plan, b: &[u8]) -> Result<Decision, Refusal>
    requires { place_number p < 64 }
    ensures value { answer result ≡ decision_by p (length b.now) }
    ensures cells_after { cells.new ≡ cells_by p b.now cells.old }
{
    match p {
        Plan::Put(i, outcome) => {
            buffer::put_bytes(cells, 1024 * i, b);
            let used = Slot {
                mark: 1,
                spare: 0,
                len: b.len() as u64,
            };
            Ok(Decision {
                outcome,
                change: Some((i, used)),
            })
        }
        Plan::Stays(outcome) => Ok(Decision {
            outcome,
            change: None,
        }),
        Plan::Full => Err(Refusal {
            reason: Reason::TableFull,
            place: 0,
        }),
    }
}

// An offer to a table without a bad slot.
#[tactic(auto, unfolding(crate::specs::inner::Plan::good_decision, crate::specs::inner::Plan::good_cells))]
fn decide_good(ks: &[Known; 64], cells: &mut [u8], packed: &[u8]) -> Result<Decision, Refusal>
    ensures value { answer result ≡ good_decision cells.old ks.now packed.now }
    ensures cells_after { cells.new ≡ good_cells cells.old ks.now packed.now }
{
    let (h, t) = notepack::walk_packed(packed)?;
    if 1024 < t.len {
        return Err(Refusal {
            reason: Reason::OverACell,
            place: 0,
        });
    }
    let mut scratch = [0u8; 1024];
    let n = strict::put_packed(&mut scratch, 0, packed, h);
    let b = scan::part(&scratch, 0, n);
    let p = plan_offer(cells, ks, packed, h, b);
    carry_out(cells, p, b)
}

// An offer to a table of these slots. Nothing is stored before the last refusal is ruled out.
pub fn decide(t: &[Slot; 64], cells: &mut [u8], packed: &[u8]) -> Result<Decision, Refusal>
    ensures value { answer result ≡ decided (offer t.now cells.old packed.now) }
    ensures cells_after { cells.new ≡ cells_after (offer t.now cells.old packed.now) cells.old }
{
    let ks = tableread::know_all(cells, t);
    tableread::refuse_bad(cells, &ks)?;
    decide_good(&ks, cells, packed)
}
