// Two packed records of one length on standard input: what is seen of the first, which is kept, and what a table holds
// after both were offered.
#![tactic(auto)]

use slots::Slot;
use std::io;

// Bytes as hex, as many as have room.
fn say_hex(rt: &impl Print, bytes: &[u8]) -> io::Result<()> {
    let mut text = [0u8; 128];
    let k = hexdigits::put_hex(&mut text, 0, bytes);
    rt.write_all(scan::part(&text, 0, k))
}

// The content of a record.
fn content(rt: &impl Print, label: &[u8], s: &[u8]) -> io::Result<()> {
    rt.write_all(label)?;
    rt.write_all(notepack::content(s))?;
    rt.write_all(b"\n")
}

// The payload of element j of tag i, as hex.
fn element(rt: &impl Print, label: &[u8], s: &[u8], i: u64, j: u64) -> io::Result<()> {
    rt.write_all(label)?;
    say_hex(rt, notepack::element(s, i, j))?;
    rt.write_all(b"\n")
}

// The content of that one of two records which is kept.
fn kept<'a>(rt: &impl Print, label: &[u8], s: &'a [u8], t: &'a [u8]) -> io::Result<()> {
    content(rt, label, rivals::choose(s, t))
}

// What is seen of the versioned form of a record: its content, an element, and the first byte of what is kept beside a
// bare one, which is handed back as it was lent.
fn other_form(rt: &impl Print, label: &[u8], s: &[u8], t: &[u8]) -> io::Result<()> {
    let mut form = [0u8; 65537];
    let n = versioned::to_versioned(s, &mut form).unwrap_or(0);
    let v = scan::part(&form, 0, n);
    rt.write_all(label)?;
    rt.write_all(versioned::content(v, false))?;
    rt.write_all(b", ")?;
    say_hex(rt, versioned::element(v, false, 0, 1))?;
    rt.write_all(b", ")?;
    say_hex(
        rt,
        scan::part(versionedrivals::choose(v, false, t, true), 0, 1),
    )?;
    rt.write_all(b"\n")
}

// A table after an offer: as it was where the offer is refused.
fn after(t: [Slot; 64], cells: &mut [u8], s: &[u8]) -> [Slot; 64] {
    lenttable::offer_in(t, cells, s).slots
}

// The content of what slot 0 of a table holds after two records were offered to it.
fn tabled(rt: &impl Print, label: &[u8], s: &[u8], t: &[u8]) -> io::Result<()> {
    let mut cells = [0u8; 65536];
    let free = Slot {
        mark: 0,
        spare: 0,
        len: 0,
    };
    let once = after([free; 64], &mut cells, s);
    let twice = after(once, &mut cells, t);
    content(rt, label, tableslot::slot_event(twice, &cells, 0))
}

// A read or a write that fails ends the program with the error.
fn main(rt: HostRuntime) -> io::Result<()> {
    let mut input = [0u8; 65537];
    let n = fullread::read_full(&mut rt.stdin(), &mut input)?;
    let half = n / 2;
    let first = scan::part(&input, 0, half);
    let second = scan::part(&input, half, half);
    content(&rt, b"content: ", first)?;
    element(&rt, b"tag 0, element 0: ", first, 0, 0)?;
    element(&rt, b"tag 0, element 1: ", first, 0, 1)?;
    element(&rt, b"no element 2: ", first, 0, 2)?;
    element(&rt, b"no tag 1: ", first, 1, 0)?;
    kept(&rt, b"first and second: ", first, second)?;
    kept(&rt, b"second and first: ", second, first)?;
    kept(&rt, b"first and itself: ", first, first)?;
    kept(
        &rt,
        b"cut short and second: ",
        scan::part(first, 0, 127),
        second,
    )?;
    other_form(&rt, b"the first versioned: ", first, second)?;
    other_form(&rt, b"the second versioned: ", second, first)?;
    tabled(&rt, b"a table, first and second: ", first, second)?;
    tabled(&rt, b"a table, second and first: ", second, first)
}
