// A table's 64 slots as 1,024 lent bytes.
#![tactic(auto)]

ghost use Rattle.std.specs.Prelude.{◌<◌, ◌*◌, ◌≡◌, take, drop};
ghost use Rattle.buffer.specs.inner.Store.{Wrote};
ghost use Rattle.slotbytes.specs.SlotBytes.{slot_of, slots_in, slot_bytes, slots_bytes};

use slots::Slot;

// The slot that the first 16 bytes are.
#[tactic(auto, using(crate::proofs::Turns::slot_made))]
fn slot_of(b: &[u8]) -> Slot
    ensures { result ≡ slot_of b.now }
{
    Slot {
        mark: scan::byte_at(b, 0),
        spare: littleendian::number_of(scan::part(b, 1, 7)),
        len: littleendian::number_of(scan::part(b, 8, 8)),
    }
}

// The 64 slots of a lent buffer.
pub fn slots_in(b: &[u8]) -> [Slot; 64]
    ensures { result ≡ slots_in 64 b.now }
{
    let mut t = [Slot {
        mark: 0,
        spare: 0,
        len: 0,
    }; 64];
    for (i, slot) in t.iter_mut().enumerate() {
        *slot = slot_of(scan::part(b, 16 * i, 16));
    }
    t
}

// The 16 bytes of a slot.
fn put_slot(out: &mut [u8], at: usize, s: Slot) -> usize
    ensures { Wrote out.old at (slot_bytes s) out.new result }
{
    let a = buffer::put_byte(out, at, s.mark);
    let b = littleendian::put_number(out, a, s.spare, 7);
    littleendian::put_number(out, b, s.len, 8)
}

// All slots of a table, one after the other.
pub fn put_slots(out: &mut [u8], t: &[Slot; 64]) -> usize
    ensures { Wrote out.old 0 (slots_bytes t.now) out.new result }
{
    let mut o = 0;
    for s in t {
        o = put_slot(out, o, *s);
    }
    o
}
