// Unix seconds and signed milliseconds: two types, and one function from each to the other. No other code has the
// number 1,000 for them.
#![tactic(auto)]

ghost use Rattle.std.specs.Prelude.{◌≡◌};
ghost use Rattle.moment.specs.Moment.{signed_of, word_of, seconds_of, seconds_read, millis_for, millis_read};

#[derive(Clone, Copy)]
pub struct Seconds(pub u64);

#[derive(Clone, Copy)]
pub struct Millis(pub i64);

// The milliseconds that a word spells in two's complement.
#[tactic(auto, unfolding(crate::specs::Moment::signed_of))]
pub fn millis_of(word: u64) -> Millis
    ensures { result.0 ≡ signed_of word }
{
    Millis(word.cast_signed())
}

// And the word that spells milliseconds.
#[tactic(auto, unfolding(crate::specs::Moment::word_of))]
pub fn word_of(m: Millis) -> u64
    ensures { result ≡ word_of m.0 }
{
    m.0.cast_unsigned()
}

// The second that milliseconds say: whole, and not before 1970.
#[tactic(auto, unfolding(crate::specs::Moment::seconds_of))]
pub fn to_seconds(m: Millis) -> Option<Seconds>
    ensures { seconds_read result ≡ seconds_of m.0 }
{
    let n = u64::try_from(m.0).ok()?;
    (n % 1000 == 0).then_some(Seconds(n / 1000))
}

// The milliseconds of a second, where they fit.
#[tactic(auto, unfolding(crate::specs::Moment::millis_for, crate::specs::Moment::millis_of))]
pub fn to_millis(s: Seconds) -> Option<Millis>
    ensures { millis_read result ≡ millis_for s.0 }
{
    let n = s.0.checked_mul(1000)?;
    Some(Millis(i64::try_from(n).ok()?))
}
