// Where well-formed text stops, for every text that starts at a multiple of 8: found once for all, in one pass.
#![tactic(auto)]

ghost use Rattle.std.specs.Prelude.{◌+◌, ◌%◌, ◌≤◌, ◌<◌, ◌≡◌, true, ◌++◌, length, drop};
ghost use Rattle.utf8stops.specs.Stops.{stop_at, ends_at, words, stop_list, has_room, stops_left};
ghost use Rattle.utf8stops.specs.inner.Pass.{Told, Ascii};

// Whether a text that ends at a place is well-formed, where the sequences from its start on stop at `stop`.
#[tactic(auto, unfolding(crate::specs::Stops::ends_at))]
pub fn ends_at(d: &[u8], stop: usize, end: usize) -> bool
    ensures { result ≡ ends_at d.now stop end }
{
    end <= stop && (end == stop || !scan::is_within(0x80, 0xBF, scan::byte_at(d, end)))
}

// Whether eight bytes of ASCII stand at a place. All tests are made at once (`&`), as one of 64 bits: `all` would jump
// at each byte.
fn are_ascii(d: &[u8], at: usize) -> bool
    requires { at ≤ length d.now }
    ensures { result ≡ true → Ascii d.now at 8 }
{
    d.len() - at >= 8
        && (d[at] < 128)
            & (d[at + 1] < 128)
            & (d[at + 2] < 128)
            & (d[at + 3] < 128)
            & (d[at + 4] < 128)
            & (d[at + 5] < 128)
            & (d[at + 6] < 128)
            & (d[at + 7] < 128)
}

// The stop from a multiple of 8 on, where the table has it: its entry, or the end.
#[tactic(auto, using(crate::proofs::StopLaws::stop_end, crate::proofs::Pass::told_entry))]
fn entry_at(stops: &[u16], d: &[u8], at: usize) -> usize
    requires { Told d.now at stops.now × (at % 8 ≡ 0) }
    ensures { result ≡ stop_at d.now at }
{
    if at < d.len() {
        usize::from(stops[at / 8])
    } else {
        at
    }
}

// The stop from a place on, where the table has all behind it: sequence by sequence to a multiple of 8. All walks
// together are linear: a multiple of 8 that a walk passes lies inside a sequence, so the walk from there ends at once,
// and long walks do not overlap.
#[tactic(auto, using(crate::proofs::Pass::walks))]
fn walk(stops: &[u16], d: &[u8], at: usize) -> usize
    requires { Told d.now (at + 1) stops.now × (at < length d.now) }
    ensures { result ≡ stop_at d.now at }
{
    let mut p = at;
    // a step is as wide as the sequence, and the table ends the walk
    loop {
        match utf8::width_at(d, p) {
            0 => return p,
            w => p += w,
        }
        if p % 8 == 0 {
            return entry_at(stops, d, p);
        }
    }
}

// The same of a multiple of 8. Over eight bytes of ASCII in one step.
#[tactic(auto, using(crate::proofs::Low::steps, crate::proofs::Pass::told_later))]
fn stop_of(stops: &[u16], d: &[u8], at: usize) -> usize
    requires { Told d.now (at + 1) stops.now × (at < length d.now) × (at % 8 ≡ 0) }
    ensures value { result ≡ stop_at d.now at }
    ensures upper_bound { result ≤ length d.now }
{
    if are_ascii(d, at) {
        return entry_at(stops, d, at + 8);
    }
    walk(stops, d, at)
}

// Backwards, so that each word finds the table told behind it.
#[tactic(auto, using(crate::proofs::Turns::turns))]
fn fill(stops: &mut [u16], d: &[u8])
    requires { (length d.now ≤ 65_535) × (words d.now ≤ length stops.old) }
    ensures { stops.new ≡ stop_list (words d.now) d.now 0 ++ drop (words d.now) stops.old }
{
    for i in (0..(d.len() + 7) / 8).rev() {
        stops[i] = stop_of(stops, d, 8 * i) as u16;
    }
}

// Whether the table has an entry for each word, and an entry takes every place.
#[tactic(auto, unfolding(crate::specs::Stops::has_room))]
fn has_room(stops: &[u16], d: &[u8]) -> bool
    ensures { result ≡ has_room d.now stops.now }
{
    d.len() <= 65535 && (d.len() + 7) / 8 <= stops.len()
}

// Entry i becomes the place where the sequences from 8 * i on stop, for each i with 8 * i below d's length. Without
// room nothing changes.
#[tactic(auto, using(crate::proofs::Table::room))]
pub fn fill_stops(stops: &mut [u16], d: &[u8])
    ensures { stops.new ≡ stops_left d.now stops.old }
{
    if has_room(stops, d) {
        fill(stops, d);
    }
}
