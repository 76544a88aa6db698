// The escapes of JSON's strings.
#![tactic(auto)]

ghost use Rattle.std.specs.Prelude.{◌-◌, ◌^◌, ◌≤◌, ◌<◌, ◌≡◌, length, unwrap_or, IfSome};
ghost use Rattle.jsontext.specs.inner.Escape.{hex_value, unit_of, unit_at, unescaped_letter, no_escape, pair_of, unicode_at, escape_at};

use jsontext::Escape;

// The value of a hex digit in either case.
#[tactic(auto, using(scan::proofs::Step::tests), unfolding(jsontext::specs::inner::Escape::hex_value, hexdigits::specs::Hex::value_of, scan::specs::Place::within))]
fn hex_value(b: u8) -> Option<u8>
    ensures value { unwrap_or result 16 ≡ hex_value b }
    ensures upper_bound { IfSome result (λ v. v < 16) }
{
    match b {
        b'0'..=b'9' => Some(b - b'0'),
        b'A'..=b'F' => Some(b - b'A' + 10),
        b'a'..=b'f' => Some(b - b'a' + 10),
        _ => None,
    }
}

// The number that four hex digits say.
#[tactic(auto, using(scan::proofs::Step::tests), unfolding(jsontext::specs::inner::Escape::unit_of))]
fn unit_of(a: u8, b: u8, c: u8, d: u8) -> Option<u16>
    ensures { unwrap_or result 0x10000 ≡ unit_of a b c d }
{
    let x = u16::from(hex_value(a)?);
    let y = u16::from(hex_value(b)?);
    let z = u16::from(hex_value(c)?);
    let w = u16::from(hex_value(d)?);
    Some(((x * 16 + y) * 16 + z) * 16 + w)
}

// The number that \uXXXX at a place says.
#[tactic(auto, using(scan::proofs::Step::tests), unfolding(jsontext::specs::inner::Escape::unit_at))]
fn unit_at(s: &[u8], at: usize) -> Option<u16>
    requires { at < 2 ^ 64 - 5 }
    ensures { unwrap_or result 0x10000 ≡ unit_at s.now at }
{
    if scan::byte_at(s, at) != b'\\' || scan::byte_at(s, at + 1) != b'u' {
        return None;
    }
    unit_of(
        scan::byte_at(s, at + 2),
        scan::byte_at(s, at + 3),
        scan::byte_at(s, at + 4),
        scan::byte_at(s, at + 5),
    )
}

// The character of a letter behind the backslash.
#[tactic(auto, using(scan::proofs::Step::tests), unfolding(jsontext::specs::inner::Escape::unescaped_letter))]
pub fn unescaped_letter(c: u8) -> Option<u8>
    ensures value { unwrap_or result 0 ≡ unescaped_letter c }
    ensures nonzero { IfSome result (λ b. 0 < b) }
{
    match c {
        b'"' | b'\\' | b'/' => Some(c),
        b'b' => Some(0x08),
        b'f' => Some(0x0C),
        b'n' => Some(b'\n'),
        b'r' => Some(b'\r'),
        b't' => Some(b'\t'),
        _ => None,
    }
}

// A high surrogate and the unit behind it.
#[tactic(auto, using(scan::proofs::Step::tests), unfolding(jsontext::specs::inner::Escape::pair_of))]
fn pair_of(u: u16, v: u16) -> Option<Escape>
    requires u_bound { u < 0xDC00 }
    requires le_u { 0xD800 ≤ u }
    ensures value { unwrap_or result no_escape ≡ pair_of u v }
    ensures lower_bound { IfSome result (λ e. 1 ≤ e.width) }
{
    match v {
        0xDC00..=0xDFFF => Some(Escape {
            width: 12,
            scalar: 0x10000 + u32::from(u - 0xD800) * 0x400 + u32::from(v - 0xDC00),
        }),
        _ => None,
    }
}

// The escape at a place whose four digits say u.
#[tactic(auto, using(scan::proofs::Step::tests), unfolding(jsontext::specs::inner::Escape::unicode_at, jsontext::specs::inner::Escape::pair_of))]
fn unicode_at(s: &[u8], at: usize, u: u16) -> Option<Escape>
    requires { at < length s.now }
    ensures value { unwrap_or result no_escape ≡ unicode_at s.now at u }
    ensures lower_bound { IfSome result (λ e. 1 ≤ e.width) }
{
    match u {
        0xD800..=0xDBFF => pair_of(u, unit_at(s, at + 6)?),
        0xDC00..=0xDFFF => None,
        _ => Some(Escape {
            width: 6,
            scalar: u32::from(u),
        }),
    }
}

// The escape whose backslash stands at a place; past the end there is none.
#[tactic(auto, using(scan::proofs::Step::tests, jsontext::proofs::EscapeLaws::escape_none), unfolding(jsontext::specs::inner::Escape::escape_at, jsontext::specs::inner::Escape::unicode_at, jsontext::specs::inner::Escape::letter_escape))]
pub fn escape_at(s: &[u8], at: usize) -> Option<Escape>
    ensures value { unwrap_or result no_escape ≡ escape_at s.now at }
    ensures lower_bound { IfSome result (λ e. 1 ≤ e.width) }
{
    if s.len() <= at {
        return None;
    }
    let c = scan::byte_at(s, at + 1);
    if c == b'u' {
        return unicode_at(s, at, unit_at(s, at)?);
    }
    let b = unescaped_letter(c)?;
    Some(Escape {
        width: 2,
        scalar: u32::from(b),
    })
}
