// The bytes between two quotes of NSON: whether they are free of faults, in a fast look; and which fault is the
// earliest.
#![tactic(auto)]

ghost use Rattle.std.specs.Prelude.{◌+◌, ◌<◌, ◌≤◌, ◌^◌, ◌≡◌, true, IfOk, IfSome, length, drop};
ghost use Rattle.scan.specs.Bytes.{All};
ghost use Rattle.scan.specs.Place.{byte_at};
ghost use Rattle.scan.specs.inner.Blocks.{neighbours};
ghost use Rattle.escape.specs.inner.Quoted.{Quoted, NsonBare, NsonLetter};
ghost use Rattle.jsontext.specs.inner.Escape.{unescape};
ghost use Rattle.jsonstring.specs.inner.Loose.{clash_of};
ghost use Rattle.nsonstring.specs.Counted.{is_letter, fault_in};
ghost use Rattle.nsonstring.specs.inner.Simple.{slash_of, high_of, Simple, Grown};
ghost use Rattle.nsonstring.specs.inner.Answers.{fault_of};

use event::Reason;

// Whether a byte behind a backslash makes an escape.
#[tactic(auto, using(scan::proofs::Step::tests), unfolding(crate::specs::Counted::is_letter))]
fn is_letter(b: u8) -> bool
    ensures { result ≡ is_letter b }
{
    b == b'n' || b == b'"' || b == b'\\'
}

// Whether none of the bytes is a quote, a backslash or below 20: nothing grows where nothing is escaped.
#[tactic(auto, using(escape::proofs::QuotedLaws::bare_text))]
fn is_bare(t: &[u8]) -> bool
    ensures { result ≡ true → All NsonBare t.now }
{
    let size = escape::nson_size(t);
    size.len == t.len() && size.fits
}

// Whether the bytes are bare ones and escapes: from backslash to backslash.
#[tactic(auto, using(crate::proofs::Runs::runs))]
fn is_spelled(t: &[u8]) -> bool
    ensures { result ≡ true → Quoted NsonBare NsonLetter t.now }
{
    let mut i = 0;
    // Places, since a turn takes all up to a backslash and its letter.
    while i < t.len() {
        let e = jsonunescape::next_backslash(t, i);
        if !is_bare(scan::part(t, i, e - i)) {
            return false;
        }
        if t.len() <= e {
            return true;
        }
        if !is_letter(scan::byte_at(t, e + 1)) {
            return false;
        }
        i = e + 2;
    }
    true
}

// The earliest fault, character after character.
#[tactic(auto, using(crate::proofs::Turns::turns))]
fn first_fault(t: &[u8]) -> Result<(), Reason>
    ensures { fault_of result ≡ fault_in t.now }
{
    let mut i = 0;
    // Places, since a character takes as many bytes as it is wide.
    while i < t.len() {
        let b = t[i];
        if b == b'"' {
            return Err(Reason::CountDisagrees);
        }
        if b < 0x20 {
            return Err(Reason::TextNotAllowed);
        }
        if b == b'\\' {
            if !is_letter(scan::byte_at(t, i + 1)) {
                return Err(Reason::TextNotAllowed);
            }
            i += 2;
        } else {
            let w = utf8::width_at(t, i);
            if w == 0 {
                return Err(Reason::IllFormedUtf8);
            }
            i += w;
        }
    }
    Ok(())
}

// Whether the bytes have no fault; else the earliest.
#[tactic(auto, using(crate::proofs::Faults::faultless, utf8::proofs::Laws::is_utf8_lem))]
fn check_text(t: &[u8]) -> Result<(), Reason>
    ensures { fault_of result ≡ fault_in t.now }
{
    if is_spelled(t) && utf8::is_utf8(t) {
        return Ok(());
    }
    first_fault(t)
}

// ---- the fault and the length in one look: most texts have no escape but \n and \"

// What the bytes of a block add up to: clashes with the byte before, backslashes before, bytes above ASCII.
#[derive(Clone, Copy)]
struct Sums {
    clashes: u8,
    slashes: u8,
    high: u8,
}

// The sums of a block that is lent with the byte before it as its first. No exit on the way, and sums in bytes: a loop
// for vectors.
fn look_at(block: &[u8]) -> Sums
    requires { (1 ≤ length block.now) × (length block.now ≤ 129) }
    ensures clashes_value { result.clashes ≡ neighbours clash_of (byte_at block.now 0) (drop 1 block.now) }
    ensures slashes_value { result.slashes ≡ neighbours slash_of (byte_at block.now 0) (drop 1 block.now) }
    ensures high_value { result.high ≡ neighbours high_of (byte_at block.now 0) (drop 1 block.now) }
    ensures slashes_in_bounds { (result.slashes < length block.now) × (result.high < length block.now) }
{
    let mut clashes = 0;
    let mut slashes = 0;
    let mut high = 0;
    for i in 1..block.len() {
        clashes += jsonstring::clash(block[i - 1], block[i]);
        slashes += scan::is_one(block[i - 1], b'\\');
        high += block[i] / 128;
    }
    Sums {
        clashes,
        slashes,
        high,
    }
}

// How many escapes a text has that are \n and \" alone, and how many bytes above ASCII.
#[derive(Clone, Copy)]
struct Count {
    slashes: usize,
    high: usize,
}

impl Count {
    // The count with what a block adds that is lent with the byte before it; none where a byte of it clashes.
    fn with(self, block: &[u8]) -> Option<Count>
        requires block_len { (1 ≤ length block.now) × (length block.now ≤ 129) }
        requires room { (self.slashes + 129 < 2 ^ 64) × (self.high + 129 < 2 ^ 64) }
        ensures { IfSome result (λ k. Grown block.now self.slashes self.high k.slashes k.high) }
    {
        let x = look_at(block);
        if x.clashes != 0 {
            return None;
        }
        Some(Count {
            slashes: self.slashes + usize::from(x.slashes),
            high: self.high + usize::from(x.high),
        })
    }
}

// The count of a text that is not empty: its first byte stands as behind a space, its last is no backslash; then block
// by block. None where another escape or a fault stands.
#[tactic(auto, using(crate::proofs::Counting::counting))]
fn count_simple(t: &[u8]) -> Option<Count>
    requires { 1 ≤ length t.now }
    ensures { IfSome result (λ k. Simple t.now k.slashes k.high) }
{
    if jsonstring::clash(b' ', t[0]) != 0 || t[t.len() - 1] == b'\\' {
        return None;
    }
    let mut k = Count {
        slashes: 0,
        high: usize::from(t[0] / 128),
    };
    let mut i = 1;
    // A place, since blocks are lent with the byte before them, which no iterator of the library does.
    while t.len() - i >= 128 {
        k = k.with(&t[i - 1..i + 128])?;
        i += 128;
    }
    k.with(&t[i - 1..])
}

// The length of the text that the bytes between two quotes spell; or their earliest fault. Both in one look where the
// escapes are simple; else each by its own function. The slice is handed on as a new one, as in `utf8::is_utf8`.
#[tactic(auto, using(crate::proofs::Simple::seen))]
pub fn text_len(t: &[u8]) -> Result<usize, Reason>
    ensures fault_value { fault_of result ≡ fault_in t.now }
    ensures len_value { IfOk result (λ n. n ≡ length (unescape t.now)) }
{
    if t.len() == 0 {
        return Ok(0);
    }
    if let Some(k) = count_simple(t) {
        if k.high == 0 || utf8::is_utf8(&t[..]) {
            return Ok(t.len() - k.slashes);
        }
    }
    check_text(&t[..])?;
    Ok(jsonunescape::unescaped_len(&t[..], 0, t.len()))
}

// The earliest fault of the bytes between two quotes, or none; and the length of the text that they spell, which is
// told where a fault stands too.
#[derive(Clone, Copy)]
pub struct Seen {
    pub fault: Result<(), Reason>,
    pub len: usize,
}

// Both, whether a fault stands or not.
pub fn look(t: &[u8]) -> Seen
    ensures fault_value { fault_of result.fault ≡ fault_in t.now }
    ensures len_value { result.len ≡ length (unescape t.now) }
{
    match text_len(t) {
        Ok(len) => Seen { fault: Ok(()), len },
        Err(fault) => Seen {
            fault: Err(fault),
            len: jsonunescape::unescaped_len(t, 0, t.len()),
        },
    }
}
