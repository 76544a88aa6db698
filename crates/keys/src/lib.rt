// The key of a packed event, by which its versions are known: author, kind and, for some kinds, a label.
#![tactic(auto)]

ghost use Rattle.std.specs.Prelude.{◌≡◌, Some};
ghost use Rattle.scan.specs.Compare.{same_bytes};
ghost use Rattle.hexdigits.specs.Hex.{hexes};
ghost use Rattle.notepack.specs.Unpack.{text_of};
ghost use Rattle.keys.specs.Key.{is_replaceable, is_labelled, same_key};
ghost use Rattle.keys.specs.inner.Place.{is_d, second_at, label_at, key_at, key_there};

use notepack::{Head, Part};

// A key's kind, and where its label stands; a missing one has the place 0 and no bytes. The author's 32 bytes stand at
// place 32 of every packed event.
#[derive(Clone, Copy)]
pub struct KeyPlace {
    pub kind: u64,
    pub label: Part,
}

// Whether a text is the lowercase hex of the bytes a.
fn is_hex_of(a: &[u8], t: &[u8]) -> bool
    ensures { result ≡ same_bytes (hexes a.now) t.now }
{
    let mut rest = t;
    for b in a {
        let [high, low, behind @ ..] = rest else {
            return false;
        };
        if *high != hexdigits::digit_of(*b / 16) || *low != hexdigits::digit_of(*b) {
            return false;
        }
        rest = behind;
    }
    rest.is_empty()
}

// Whether two parts of two inputs have the same text, whichever way each is stored.
fn same_text(s: &[u8], p: Part, t: &[u8], q: Part) -> bool
    ensures { result ≡ same_bytes (text_of s.now p) (text_of t.now q) }
{
    let a = scan::part(s, p.at, p.len);
    let b = scan::part(t, q.at, q.len);
    if p.raw == q.raw {
        scan::same_bytes(a, b)
    } else if p.raw {
        is_hex_of(a, b)
    } else {
        is_hex_of(b, a)
    }
}

// Whether the first of n texts is `d`.
#[tactic(auto, unfolding(crate::specs::inner::Place::is_d))]
fn is_d(n: u64, s: &[u8], p: Part) -> bool
    ensures { result ≡ is_d n s.now p }
{
    0 < n && !p.raw && scan::same_bytes(scan::part(s, p.at, p.len), b"d")
}

// A part with no bytes: its text is empty.
const EMPTY: Part = Part {
    at: 0,
    len: 0,
    raw: false,
};

// The second of n texts, where the first ends at a place.
#[tactic(auto, unfolding(crate::specs::inner::Place::second_at))]
fn second_text(s: &[u8], at: usize, n: u64) -> Part
    ensures { result ≡ second_at n s.now at }
{
    if 1 < n {
        notepack::part_again(s, at).0
    } else {
        EMPTY
    }
}

// The label among count tags from a place on: the text behind `d`, in the first tag with `d` in front; where there is
// none, no bytes.
fn find_label(s: &[u8], at: usize, count: u64) -> Part
    ensures { result ≡ label_at count s.now at }
{
    let mut i = at;
    for _ in 0..count {
        let (n, first) = notepack::count_again(s, i);
        let (part, second) = notepack::part_again(s, first);
        if is_d(n, s, part) {
            return second_text(s, second, n);
        }
        i = notepack::texts_end(s, first, n);
    }
    EMPTY
}

// Whether the key of a kind is its author and itself, with no label.
#[tactic(auto, unfolding(crate::specs::Key::is_replaceable, scan::specs::Place::within))]
pub fn is_replaceable(kind: u64) -> bool
    ensures { result ≡ is_replaceable kind }
{
    matches!(kind, 0 | 3 | 10000..=19999)
}

#[tactic(auto, unfolding(crate::specs::Key::is_labelled, scan::specs::Place::within))]
fn is_labelled(kind: u64) -> bool
    ensures { result ≡ is_labelled kind }
{
    matches!(kind, 30000..=39999)
}

// The key of a packed event of which h was read, where its kind has one.
#[tactic(auto, unfolding(crate::specs::inner::Place::key_at))]
pub fn key_at(s: &[u8], h: Head) -> Option<KeyPlace>
    ensures { result ≡ key_at s.now h }
{
    let label = if is_replaceable(h.kind) {
        EMPTY
    } else if is_labelled(h.kind) {
        find_label(s, h.tags_at, h.tag_count)
    } else {
        return None;
    };
    Some(KeyPlace {
        kind: h.kind,
        label,
    })
}

// Whether two keys in two packed events are the same: the texts are compared, not how they are stored.
pub fn same_key(s: &[u8], a: Option<KeyPlace>, t: &[u8], b: Option<KeyPlace>) -> bool
    ensures { result ≡ same_key (key_there s.now a) (key_there t.now b) }
{
    match (a, b) {
        (Some(k), Some(l)) => same_places(s, k, t, l),
        _ => false,
    }
}

fn same_places(s: &[u8], k: KeyPlace, t: &[u8], l: KeyPlace) -> bool
    ensures { result ≡ same_key (key_there s.now (Some k)) (key_there t.now (Some l)) }
{
    k.kind == l.kind
        && scan::same_bytes(scan::part(s, 32, 32), scan::part(t, 32, 32))
        && same_text(s, k.label, t, l.label)
}
