// Decimal numbers without leading zeros, written; and a run of digits read up to a maximum.
#![tactic(auto)]

ghost use Rattle.std.specs.Prelude.{◌+◌, ◌*◌, ◌≤◌, ◌≡◌, length, leb};
ghost use Rattle.buffer.specs.inner.Store.{Wrote};
ghost use Rattle.decimal.specs.Decimal.{decimal};
ghost use Rattle.decimal.specs.inner.Run.{digits_at, decimal_read};

// Why no number was read: no digit stands there, or the digits, up to the place given, spell more than the maximum.
#[derive(Clone, Copy, Debug, PartialEq, Eq)]
pub enum DecimalError {
    NoDigit,
    Over(usize),
}

// Whether value with the digit d written behind it is at most max. No number on the way is above max.
fn fits_behind(value: u64, d: u64, max: u64) -> bool
    ensures { result ≡ leb (value * 10 + d) max }
{
    d <= max && value <= (max - d) / 10
}

// The run of digits at a place, as a number up to max, and the place behind it. A run of any length is read to its end.
pub fn read_decimal(s: &[u8], at: usize, max: u64) -> Result<(u64, usize), DecimalError>
    ensures { decimal_read result ≡ digits_at max s.now at }
{
    let end = scan::run_end(s, at, b'0', b'9');
    if end == at {
        return Err(DecimalError::NoDigit);
    }
    let mut value: u64 = 0;
    for &b in scan::part(s, at, end - at) {
        let d = (b - b'0') as u64;
        if !fits_behind(value, d, max) {
            return Err(DecimalError::Over(end));
        }
        value = value * 10 + d;
    }
    Ok((value, end))
}

// The number of digits: one, and one for each power of ten that the number reaches.
#[tactic(auto, using(crate::proofs::Spelling::length_power, crate::proofs::Spelling::length_last))]
pub fn decimal_len(n: u64) -> usize
    ensures value { result ≡ length (decimal n) }
    ensures upper_bound { result ≤ 20 }
{
    match n.checked_ilog10() {
        Some(k) => k as usize + 1,
        None => 1,
    }
}

// The digits, written.
pub fn put_decimal(out: &mut [u8], at: usize, n: u64) -> usize
    ensures { Wrote out.old at (decimal n) out.new result }
{
    let mut digits = [0u8; 20];
    let mut k: usize = 20;
    let mut rest = n;
    // k is where the digits start, which the copy needs: a `for` over the places would have to tell it out of the loop
    while 10 <= rest {
        k -= 1;
        digits[k] = 48 + (rest % 10) as u8;
        rest /= 10;
    }
    k -= 1;
    digits[k] = 48 + rest as u8;
    buffer::put_bytes(out, at, &digits[k..])
}
