// Which of two records is kept, where each may be bare or versioned: the caller says of each which it is.
#![tactic(auto)]

ghost use Rattle.std.specs.Prelude.{◌≡◌};
ghost use Rattle.event.specs.inner.Told.{answer};
ghost use Rattle.rivals.specs.inner.Answers.{rivals_read, kept_bytes};
ghost use Rattle.versionedrivals.specs.Rivals.{rivals_given};
ghost use Rattle.versionedrivals.specs.inner.Read.{read_given};

use event::Refusal;
use notepack::Head;
use rivals::{Kept, RefusedInput};

// Where the bare bytes of an input start, and what was read of them.
fn read(s: &[u8], bare: bool) -> Result<(usize, Head), Refusal>
    ensures { answer result ≡ read_given bare s.now }
{
    let k = versioned::start(s, bare)?;
    let h = versioned::moved_answer(bare, notepack::read_packed(versioned::from(s, k)))?;
    Ok((k, h))
}

// Which of two packed events is kept: first, second, not rivals; or a refusal.
pub fn compare(s: &[u8], bare: bool, t: &[u8], second_bare: bool) -> Result<Kept, RefusedInput>
    ensures { rivals_read result ≡ rivals_given s.now bare t.now second_bare }
{
    let (k, h) = read(s, bare).map_err(RefusedInput::First)?;
    let (m, g) = read(t, second_bare).map_err(RefusedInput::Second)?;
    Ok(rivals::kept_there(versioned::from(s, k), h, versioned::from(t, m), g))
}

// The record that is kept, of the two, as it was lent; empty where none is.
pub fn choose<'a>(s: &'a [u8], bare: bool, t: &'a [u8], second_bare: bool) -> &'a [u8]
    ensures { result.now ≡ kept_bytes s.now t.now (rivals_given s.now bare t.now second_bare) }
{
    rivals::part_kept(s, t, compare(s, bare, t, second_bare))
}
