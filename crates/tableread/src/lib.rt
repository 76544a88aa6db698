// What the slots of a table hold, each read once: the bad ones, the free ones, and the one with a name.
#![tactic(auto)]

ghost use Rattle.std.specs.Prelude.{◌<◌, ◌≡◌};
ghost use Rattle.hexdigits.specs.Hex.{hexes};
ghost use Rattle.event.specs.inner.Told.{answer};
ghost use Rattle.archive.specs.Archive.{same_name, is_ephemeral};
ghost use Rattle.tableread.specs.inner.Prints.{mixed, folded, print_of};
ghost use Rattle.tableread.specs.inner.Known.{name_there, known_bytes, known_at, known_from, good_known, holds_name, some_holds, lowest_from, find_from, free_from};

use event::{Reason, Refusal};
use keys::KeyPlace;
use slots::Slot;

// An event that a slot holds: where its bytes stand, what decides between rivals, its key, and a print of its name.
#[derive(Clone, Copy)]
pub struct Stored {
    pub at: usize,
    pub len: usize,
    pub created_at: u64,
    pub key: Option<KeyPlace>,
    pub print: u64,
}

// What is known of a slot once its cell has been read.
#[derive(Clone, Copy)]
pub enum Known {
    Free,
    Bad,
    Good(Stored),
}

// ---- a print of a name: two names with different prints differ

#[tactic(auto, unfolding(crate::specs::inner::Prints::mixed))]
fn mix(h: u64, b: u8) -> u64
    ensures { result ≡ mixed h b }
{
    (h % 4294967296 * 31 + b as u64) % 4294967296
}

fn mix_bytes(h: u64, s: &[u8]) -> u64
    ensures { result ≡ folded h s.now }
{
    let mut r = h;
    for b in s {
        r = mix(r, *b);
    }
    r
}

fn mix_hex(h: u64, s: &[u8]) -> u64
    ensures { result ≡ folded h (hexes s.now) }
{
    let mut r = h;
    for b in s {
        r = mix(r, hexdigits::digit_of(*b / 16));
        r = mix(r, hexdigits::digit_of(*b));
    }
    r
}

// The print of the name of a packed event that has this key.
#[tactic(auto, unfolding(crate::specs::inner::Prints::print_of, notepack::specs::Unpack::text_of))]
pub fn print_name(s: &[u8], key: Option<KeyPlace>) -> u64
    ensures { result ≡ print_of (name_there s.now key) }
{
    let Some(k) = key else {
        return mix_bytes(0, scan::part(s, 0, 32));
    };
    let h = mix_bytes(k.kind, scan::part(s, 32, 32));
    let text = scan::part(s, k.label.at, k.label.len);
    if k.label.raw {
        mix_hex(h, text)
    } else {
        mix_bytes(h, text)
    }
}

// Whether two packed events that have these keys have one name.
fn same_name(s: &[u8], a: Option<KeyPlace>, t: &[u8], b: Option<KeyPlace>) -> bool
    ensures { result ≡ same_name (name_there s.now a) (name_there t.now b) }
{
    match (a, b) {
        (None, None) => scan::same_bytes(scan::part(s, 0, 32), scan::part(t, 0, 32)),
        _ => keys::same_key(s, a, t, b),
    }
}

// ---- the slots, each read once

#[tactic(auto, unfolding(archive::specs::Archive::is_ephemeral, scan::specs::Place::within))]
pub fn is_ephemeral(kind: u64) -> bool
    ensures { result ≡ is_ephemeral kind }
{
    matches!(kind, 20000..=29999)
}

// What the bytes of a used slot hold.
#[tactic(auto, unfolding(crate::specs::inner::Known::known_bytes, crate::specs::inner::Known::stored_at))]
fn know_bytes(cells: &[u8], at: usize, len: usize) -> Known
    ensures { result ≡ known_bytes cells.now at len }
{
    let b = scan::part(cells, at, len);
    let Ok((h, t)) = notepack::walk_packed(b) else {
        return Known::Bad;
    };
    if t.len != b.len() || t.hollow || is_ephemeral(h.kind) {
        return Known::Bad;
    }
    let key = keys::key_at(b, h);
    Known::Good(Stored {
        at,
        len,
        created_at: h.created_at,
        key,
        print: print_name(b, key),
    })
}

// What slot i holds.
#[tactic(auto, unfolding(crate::specs::inner::Known::known_at))]
fn know(cells: &[u8], i: usize, s: Slot) -> Known
    requires { i < 64 }
    ensures { result ≡ known_at cells.now i s }
{
    if s.mark == 0 {
        return Known::Free;
    }
    if 1024 < s.len {
        return Known::Bad;
    }
    know_bytes(cells, 1024 * i, s.len as usize)
}

// What all slots hold.
pub fn know_all(cells: &[u8], t: &[Slot; 64]) -> [Known; 64]
    ensures { result ≡ known_from cells.now 0 t.now }
{
    let mut ks = [Known::Free; 64];
    for (i, s) in t.iter().enumerate() {
        ks[i] = know(cells, i, *s);
    }
    ks
}

// Whether a slot holds an event with the name of s, which has this key and this print.
#[tactic(auto, unfolding(crate::specs::inner::Known::holds_name))]
fn holds_name(cells: &[u8], k: &Known, s: &[u8], key: Option<KeyPlace>, print: u64) -> bool
    ensures { result ≡ holds_name cells.now s.now key print k.now }
{
    let Known::Good(a) = k else {
        return false;
    };
    a.print == print && same_name(s, key, scan::part(cells, a.at, a.len), a.key)
}

// Whether one of the slots does.
fn some_holds(cells: &[u8], ks: &[Known], s: &[u8], key: Option<KeyPlace>, print: u64) -> bool
    ensures { result ≡ some_holds cells.now s.now key print ks.now }
{
    ks.iter().any(|k| holds_name(cells, k, s, key, print))
}

// The lowest slot that is bad by itself, or has a name that a later slot has too.
pub fn lowest_bad(cells: &[u8], ks: &[Known]) -> Option<usize>
    ensures { result ≡ lowest_from cells.now 0 ks.now }
{
    for (i, k) in ks.iter().enumerate() {
        match k {
            Known::Free => {}
            Known::Bad => return Some(i),
            Known::Good(a) => {
                let s = scan::part(cells, a.at, a.len);
                if some_holds(cells, &ks[i + 1..], s, a.key, a.print) {
                    return Some(i);
                }
            }
        }
    }
    None
}

// Refuses a table of another size, and one with a bad slot at the lowest of them: 34. ks is what its slots hold; it is
// lent, since a table of what is known is 5 KB of stack.
#[tactic(auto, using(scan::proofs::Step::tests), unfolding(crate::specs::inner::Known::good_known))]
pub fn refuse_bad(cells: &[u8], ks: &[Known; 64]) -> Result<(), Refusal>
    ensures { answer result ≡ good_known cells.now ks.now }
{
    if cells.len() != 65536 {
        return Err(Refusal {
            reason: Reason::BadTable,
            place: 0,
        });
    }
    match lowest_bad(cells, ks) {
        Some(place) => Err(Refusal {
            reason: Reason::BadTable,
            place,
        }),
        None => Ok(()),
    }
}

// The slot that holds an event with the name of s, which has this key and this print, and that event.
pub fn find(
    cells: &[u8],
    ks: &[Known],
    s: &[u8],
    key: Option<KeyPlace>,
    print: u64,
) -> Option<(usize, Stored)>
    ensures { result ≡ find_from cells.now s.now key print 0 ks.now }
{
    for (i, k) in ks.iter().enumerate() {
        if let Known::Good(a) = k {
            if holds_name(cells, k, s, key, print) {
                return Some((i, *a));
            }
        }
    }
    None
}

// The lowest free slot.
pub fn first_free(ks: &[Known]) -> Option<usize>
    ensures { result ≡ free_from 0 ks.now }
{
    ks.iter().position(|k| matches!(k, Known::Free))
}
