// The rest of JSON at a place: white space, literals, numbers, and values, which are read over. What is told is the
// place behind them.
#![tactic(auto)]

ghost use Rattle.std.specs.Prelude.{◌<◌, ◌≡◌, length};
ghost use Rattle.event.specs.declared.Reason.TheVariants.{TextNotAllowed};
ghost use Rattle.jsontext.specs.Token.{is_space, space_at, word_at, digits_or, minus_at, sign_at, int_at, frac_at, is_e, exp_at, skip_number};
ghost use Rattle.jsontext.specs.Value.{skip_item, skip_member, value_at};
ghost use Rattle.jsontext.specs.inner.Walk.{skip_walk};
ghost use Rattle.jsonvalue.specs.inner.Answers.{skipped};

use event::{Reason, Refusal};

// Text not allowed at a place.
fn not_allowed(place: usize) -> Refusal
    ensures { result ≡ record { reason = TextNotAllowed; place = place } }
{
    Refusal {
        reason: Reason::TextNotAllowed,
        place,
    }
}

// ---- white space and literals

#[tactic(auto, using(scan::proofs::Step::tests), unfolding(jsontext::specs::Token::is_space))]
fn is_space(b: u8) -> bool
    ensures { result ≡ is_space b }
{
    b == b' ' || b == b'\n' || b == b'\r' || b == b'\t'
}

// Behind the white space.
pub fn skip_space(s: &[u8], at: usize) -> usize
    ensures { result ≡ space_at s.now at }
{
    let behind = &s[at.min(s.len())..];
    at + behind.iter().take_while(|b| is_space(**b)).count()
}

// Behind the literal w.
#[tactic(auto, unfolding(jsontext::specs::Token::word_at))]
fn skip_word(w: &[u8], s: &[u8], at: usize) -> Result<usize, Refusal>
    ensures { skipped result ≡ word_at w.now s.now at }
{
    if scan::stands_at(w, s, at) {
        return Ok(at + w.len());
    }
    Err(not_allowed(at))
}

// ---- numbers

// Behind the digits at a place, or another place where there is none.
#[tactic(auto, unfolding(jsontext::specs::Token::digits_or))]
fn digits_or(s: &[u8], at: usize, other: usize) -> usize
    ensures { result ≡ digits_or s.now at other }
{
    if scan::is_within(b'0', b'9', scan::byte_at(s, at)) {
        return scan::run_end(s, at, b'0', b'9');
    }
    other
}

#[tactic(auto, using(scan::proofs::Step::tests, scan::proofs::Fits::next_fits), unfolding(jsontext::specs::Token::minus_at))]
fn after_minus(s: &[u8], at: usize) -> usize
    ensures { result ≡ minus_at s.now at }
{
    if scan::byte_at(s, at) == b'-' {
        return at + 1;
    }
    at
}

#[tactic(auto, using(scan::proofs::Step::tests, scan::proofs::Fits::next_fits), unfolding(jsontext::specs::Token::sign_at))]
fn after_sign(s: &[u8], at: usize) -> usize
    ensures { result ≡ sign_at s.now at }
{
    if scan::byte_at(s, at) == b'+' {
        return at + 1;
    }
    after_minus(s, at)
}

// Behind the digits before the point; the same place where there is none.
#[tactic(auto, using(scan::proofs::Step::tests, scan::proofs::Fits::next_fits), unfolding(jsontext::specs::Token::int_at))]
fn after_int(s: &[u8], at: usize) -> usize
    ensures { result ≡ int_at s.now at }
{
    if scan::byte_at(s, at) == b'0' {
        return at + 1;
    }
    digits_or(s, at, at)
}

#[tactic(auto, using(scan::proofs::Step::tests, scan::proofs::Fits::next_fits), unfolding(jsontext::specs::Token::frac_at))]
fn after_frac(s: &[u8], at: usize) -> usize
    ensures { result ≡ frac_at s.now at }
{
    if scan::byte_at(s, at) == b'.' {
        return digits_or(s, at + 1, at);
    }
    at
}

#[tactic(auto, using(scan::proofs::Step::tests), unfolding(jsontext::specs::Token::is_e))]
fn is_e(b: u8) -> bool
    ensures { result ≡ is_e b }
{
    b == b'e' || b == b'E'
}

#[tactic(auto, unfolding(jsontext::specs::Token::exp_at))]
fn after_exp(s: &[u8], at: usize) -> usize
    ensures { result ≡ exp_at s.now at }
{
    if is_e(scan::byte_at(s, at)) {
        return digits_or(s, after_sign(s, at + 1), at);
    }
    at
}

// Behind the number: the longest prefix that is one.
#[tactic(auto, using(scan::proofs::Step::tests), unfolding(jsontext::specs::Token::skip_number, jsontext::specs::Token::unsigned_from, jsontext::specs::Token::number_from))]
pub fn skip_number(s: &[u8], at: usize) -> Result<usize, Refusal>
    ensures { skipped result ≡ skip_number s.now at }
{
    let i = after_minus(s, at);
    let j = after_int(s, i);
    if j == i {
        return Err(not_allowed(at));
    }
    Ok(after_exp(s, after_frac(s, j)))
}

// ---- values: a value calls the walk of an array or an object, which calls it again, with less depth and further on

// Behind the value, in which at most `depth` arrays and objects stand inside one another.
#[tactic(auto, using(scan::proofs::Step::tests, jsontext::proofs::ValueComplete::value_open), unfolding(jsontext::specs::Value::skip_value_by))]
#[cycle(skip_item_skip_member_skip_value_skip_walk)]
pub fn skip_value(s: &[u8], at: usize, depth: usize) -> Result<usize, Refusal>
    ensures { skipped result ≡ value_at depth s.now at }
{
    match scan::byte_at(s, at) {
        // no `?`: it stores a refusal's reason by itself, and then every answer here is copied in pieces, for which
        // the caller waits
        b'"' => jsonstring::read_string(s, at).map(|(_, next)| next),
        b'{' => skip_walk(s, at, depth, b'}'),
        b'[' => skip_walk(s, at, depth, b']'),
        b't' => skip_word(b"true", s, at),
        b'f' => skip_word(b"false", s, at),
        b'n' => skip_word(b"null", s, at),
        _ => skip_number(s, at),
    }
}

// Behind the array or the object whose opening bracket stands at a place, and which `close` closes.
#[tactic(auto, using(crate::proofs::Walk::walks))]
#[cycle(skip_item_skip_member_skip_value_skip_walk)]
fn skip_walk(s: &[u8], at: usize, depth: usize, close: u8) -> Result<usize, Refusal>
    requires at_in_bounds { at < length s.now }
    requires close_nonzero { 0 < close }
    ensures { skipped result ≡ skip_walk depth close s.now at }
{
    if depth == 0 {
        return Err(Refusal {
            reason: Reason::TooDeep,
            place: at,
        });
    }
    let mut i = skip_space(s, at + 1);
    if scan::byte_at(s, i) == close {
        return Ok(i + 1);
    }
    // a place: the bracket behind an item says that it is the last
    loop {
        let next = skip_item(s, i, depth - 1, close)?;
        let p = skip_space(s, next);
        let b = scan::byte_at(s, p);
        if b == close {
            return Ok(p + 1);
        }
        if b != b',' {
            return Err(not_allowed(p));
        }
        i = skip_space(s, p + 1);
    }
}

// Behind a member of an object or a value of an array.
#[tactic(auto, using(scan::proofs::Step::tests), unfolding(jsontext::specs::Value::skip_item))]
#[cycle(skip_item_skip_member_skip_value_skip_walk)]
fn skip_item(s: &[u8], at: usize, depth: usize, close: u8) -> Result<usize, Refusal>
    ensures { skipped result ≡ skip_item close (value_at depth s.now) s.now at }
{
    if close == b'}' {
        return skip_member(s, at, depth);
    }
    skip_value(s, at, depth)
}

// Behind a name, a colon and a value.
#[tactic(auto, using(scan::proofs::Step::tests), unfolding(jsontext::specs::Value::skip_member, jsontext::specs::Value::skip_colon))]
#[cycle(skip_item_skip_member_skip_value_skip_walk)]
fn skip_member(s: &[u8], at: usize, depth: usize) -> Result<usize, Refusal>
    ensures { skipped result ≡ skip_member (value_at depth s.now) s.now at }
{
    let (_, next) = jsonstring::read_string(s, at)?;
    let p = skip_space(s, next);
    if scan::byte_at(s, p) != b':' {
        return Err(not_allowed(p));
    }
    skip_value(s, skip_space(s, p + 1), depth)
}
