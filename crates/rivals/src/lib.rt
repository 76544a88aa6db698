// Which of two records is kept: the current one is the one that is shown.
#![tactic(auto)]

ghost use Rattle.std.specs.Prelude.{◌≡◌, take};
ghost use Rattle.keys.specs.Key.{same_key};
ghost use Rattle.keys.specs.inner.Place.{key_at, key_there};
ghost use Rattle.rivals.specs.Rivals.{keeps_by, rivals};
ghost use Rattle.rivals.specs.inner.Answers.{rivals_read, kept_there, kept_bytes};

use event::Refusal;
use notepack::Head;

#[derive(Clone, Copy, Debug, PartialEq, Eq)]
pub enum Kept {
    First,
    Second,
    NotRivals,
}

// Which input is refused, and why: all of the first input's refusals come before any of the second's.
#[derive(Clone, Copy, Debug, PartialEq, Eq)]
pub enum RefusedInput {
    First(Refusal),
    Second(Refusal),
}

// Which of two rivals is kept, by the created_at of each and its packed bytes.
#[tactic(auto, unfolding(crate::specs::Rivals::keeps_by))]
pub fn kept_of(s: &[u8], time: u64, t: &[u8], other: u64) -> Kept
    ensures { result ≡ keeps_by time other (take 32 s.now) (take 32 t.now) }
{
    if time < other || time == other && scan::is_lower(scan::part(t, 0, 32), scan::part(s, 0, 32)) {
        Kept::Second
    } else {
        Kept::First
    }
}

// Whether two packed events have the same key. A replaceable kind's is told by kind and author, with no look at the
// tags.
fn same_keys(s: &[u8], h: Head, t: &[u8], k: Head) -> bool
    ensures { result ≡ same_key (key_there s.now (key_at s.now h)) (key_there t.now (key_at t.now k)) }
{
    if h.kind == k.kind && keys::is_replaceable(h.kind) {
        return scan::same_bytes(scan::part(s, 32, 32), scan::part(t, 32, 32));
    }
    keys::same_key(s, keys::key_at(s, h), t, keys::key_at(t, k))
}

// Which of two packed events is kept, of which h and k were read.
#[tactic(auto, unfolding(crate::specs::inner::Answers::kept_there))]
pub fn kept_there(s: &[u8], h: Head, t: &[u8], k: Head) -> Kept
    ensures { result ≡ kept_there s.now h t.now k }
{
    if same_keys(s, h, t, k) {
        return kept_of(s, h.created_at, t, k.created_at);
    }
    Kept::NotRivals
}

// Which of two packed events is kept: first, second, not rivals; or a refusal.
pub fn compare(s: &[u8], t: &[u8]) -> Result<Kept, RefusedInput>
    ensures { rivals_read result ≡ rivals s.now t.now }
{
    let h = notepack::read_packed(s).map_err(RefusedInput::First)?;
    let k = notepack::read_packed(t).map_err(RefusedInput::Second)?;
    Ok(kept_there(s, h, t, k))
}

// The input that is kept, by what was told of the two; empty where none is.
pub fn part_kept<'a>(s: &'a [u8], t: &'a [u8], told: Result<Kept, RefusedInput>) -> &'a [u8]
    ensures { result.now ≡ kept_bytes s.now t.now (rivals_read told) }
{
    match told {
        Ok(Kept::First) => s,
        Ok(Kept::Second) => t,
        Ok(Kept::NotRivals) | Err(_) => &s[..0],
    }
}

// The record that is kept, of the two; empty where none is.
pub fn choose<'a>(s: &'a [u8], t: &'a [u8]) -> &'a [u8]
    ensures { result.now ≡ kept_bytes s.now t.now (rivals s.now t.now) }
{
    part_kept(s, t, compare(s, t))
}
