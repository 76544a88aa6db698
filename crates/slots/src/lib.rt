// A lent table of slots, changed one slot at a time. No function here names a field of a slot.
#![tactic(auto)]

ghost use Rattle.std.specs.Prelude.{◌≡◌, length, set, replicate};
ghost use Rattle.slots.specs.Slots.{whole};

// What a table says of one slot.
#[derive(Clone, Copy)]
pub struct Slot {
    // 0: free; any other number: used
    pub mark: u8,
    // the bytes behind the mark, as a number: nobody looks at them
    pub spare: u64,
    // the length of the event that a used slot holds
    pub len: u64,
}

// One slot becomes s; past the end nothing changes.
pub fn set_slot(slots: &mut [Slot], i: usize, s: Slot)
    ensures { slots.new ≡ set slots.old i s }
{
    if i < slots.len() {
        slots[i] = s;
    }
}

// Every slot becomes s.
pub fn fill(slots: &mut [Slot], s: Slot)
    ensures { slots.new ≡ replicate (length slots.old) s }
{
    slots.fill(s);
}

// The slots of a table of 64, by value; of any other table, t.
#[tactic(auto, using(crate::proofs::Facts::whole_read))]
pub fn table_of(slots: &[Slot], t: [Slot; 64]) -> [Slot; 64]
    ensures { result ≡ whole slots.now t }
{
    slots.as_array().copied().unwrap_or(t)
}
