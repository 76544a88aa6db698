// Bytes at a place of a lent input. Every function is total: a place past the end reads as the end.
#![tactic(auto)]

ghost use Rattle.std.specs.Prelude.{◌-◌, ◌≤◌, ◌≡◌, length, take, drop};
ghost use Rattle.scan.specs.Choice.{pick};
ghost use Rattle.scan.specs.Place.{byte_at, stands_at, within, run_at};
ghost use Rattle.scan.specs.Compare.{same_bytes, lower};
ghost use Rattle.scan.specs.inner.Blocks.{is_one, control_count};

// The byte at a place, and 0 past the end.
pub fn byte_at(s: &[u8], at: usize) -> u8
    ensures { result ≡ byte_at s.now at }
{
    s.get(at).copied().unwrap_or(0)
}

// The n bytes from a place on, or as many of them as there are, as a part of the lent slice.
pub fn part<'a>(s: &'a [u8], from: usize, n: usize) -> &'a [u8]
    ensures { result.now ≡ take n (drop from s.now) }
{
    let behind = &s[from.min(s.len())..];
    &behind[..n.min(behind.len())]
}

// How many bytes stand from a place on.
pub fn rest(s: &[u8], at: usize) -> usize
    ensures { result ≡ length s.now - at }
{
    s.len().saturating_sub(at)
}

// Whether the byte string w stands at a place. Byte by byte, since w is short and mostly a constant, which is then
// compared in place: `==` of slices is a call.
pub fn stands_at(w: &[u8], s: &[u8], at: usize) -> bool
    ensures { result ≡ stands_at w.now s.now at }
{
    if rest(s, at) < w.len() {
        return false;
    }
    for (j, &b) in w.iter().enumerate() {
        if b != s[at + j] {
            return false;
        }
    }
    true
}

// Whether a byte is from low to high, both included.
#[tactic(auto, unfolding(crate::specs::Place::within))]
pub fn is_within(low: u8, high: u8, b: u8) -> bool
    ensures { result ≡ within low high b }
{
    low <= b && b <= high
}

// The end of the run of bytes from low to high that starts at a place.
pub fn run_end(s: &[u8], at: usize, low: u8, high: u8) -> usize
    ensures { result ≡ run_at (within low high) s.now at }
{
    let behind = &s[at.min(s.len())..];
    at + behind
        .iter()
        .take_while(|b| is_within(low, high, **b))
        .count()
}

// Whether two byte strings are the same.
#[tactic(auto, using(crate::proofs::CompareLaws::same_eq))]
pub fn same_bytes(a: &[u8], b: &[u8]) -> bool
    ensures { result ≡ same_bytes a.now b.now }
{
    a == b
}

// Whether a is lower than b as bytes.
pub fn is_lower(a: &[u8], b: &[u8]) -> bool
    ensures { result ≡ lower a.now b.now }
{
    a < b
}

// ---- a byte's part in what a loop over a block counts: no jump, so that the loop goes in vectors

// The loops stand where they are used, six lines each: a generic one would take what it counts as a trait with a ghost
// function and an `impl` for each, which is longer. A block is short, so that the sum has room in a byte.

// 1 where b is x, and else 0.
#[tactic(auto, unfolding(crate::specs::inner::Blocks::is_one))]
pub fn is_one(b: u8, x: u8) -> u8
    ensures value { result ≡ is_one b x }
    ensures upper_bound { result ≤ 1 }
{
    u8::from(b == x)
}

// 1 where b is a control byte, and else 0.
#[tactic(auto, unfolding(crate::specs::inner::Blocks::control_count))]
pub fn control_count(b: u8) -> u8
    ensures value { result ≡ control_count b }
    ensures upper_bound { result ≤ 1 }
{
    u8::from(b < 0x20)
}

// a where the test holds, and else b.
pub fn pick_byte(t: bool, a: u8, b: u8) -> u8
    ensures { result ≡ pick t a b }
{
    if t { a } else { b }
}
