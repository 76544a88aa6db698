// The text of a spelled string: its length, written, as digits, unhexed.
// A private function takes the spelled bytes as t.
#![tactic(auto)]

ghost use Rattle.std.specs.Prelude.{◌-◌, ◌≤◌, ◌<◌, ◌≡◌, None, [], ◌∷◌, length, get_or, take, drop, unwrap_or};
ghost use Rattle.std.specs.Option.{ForSome};
ghost use Rattle.scan.specs.inner.Blocks.{sum_of, neighbours};
ghost use Rattle.buffer.specs.inner.Store.{Wrote};
ghost use Rattle.utf8.specs.Encode.{encode};
ghost use Rattle.hexdigits.specs.Hex.{unhex, all_digits, goes_as_bytes};
ghost use Rattle.jsontext.specs.inner.Escape.{escape_at, or_itself, unescape};
ghost use Rattle.jsonunescape.specs.inner.Run.{backslash_at, is_slash, stop_of};
ghost use Rattle.jsonunescape.specs.inner.Short.{odd_of, even_pairs};
ghost use Rattle.jsonunescape.specs.inner.Half.{held, half_behind};

use jsontext::Escape;

// 0 for a byte that is neither a control byte nor a quote nor a backslash. The backslash alone would do, but a loop
// over 32 bytes with one comparison is unrolled, and not made of vectors.
#[tactic(auto, unfolding(crate::specs::inner::Run::stop_of, crate::specs::inner::Run::is_slash))]
fn stop_of(b: u8) -> u8
    ensures value { result ≡ stop_of b }
    ensures upper_bound { result ≤ 3 }
{
    scan::control_count(b) + scan::is_one(b, b'"') + scan::is_one(b, b'\\')
}

// 0 for a block of such bytes. No exit on the way, and a sum in a byte, so that a block has few bytes: a loop for
// vectors, and for fewer of them than whether there is one, as a bool, takes.
#[tactic(auto, unfolding(scan::specs::inner::Blocks::sum_of))]
fn stops(block: &[u8]) -> u8
    requires { length block.now ≤ 32 }
    ensures { result ≡ sum_of stop_of block.now }
{
    let mut n = 0;
    for &b in block {
        n += stop_of(b);
    }
    n
}

// Passes blocks of 32 such bytes from a place on: none of them is a backslash.
fn pass_blocks(t: &[u8], at: usize) -> usize
    requires { at ≤ length t.now }
    ensures at_value { backslash_at t.now at ≡ backslash_at t.now result }
    ensures lower_bound { at ≤ result }
    ensures upper_bound { result ≤ length t.now }
{
    let mut i = at;
    for block in t[at..].chunks_exact(32) {
        if stops(block) != 0 {
            break;
        }
        i += 32;
    }
    i
}

// Passes four bytes a turn while none of them is a backslash.
fn pass_fours(t: &[u8], at: usize) -> usize
    requires { at ≤ length t.now }
    ensures at_value { backslash_at t.now at ≡ backslash_at t.now result }
    ensures lower_bound { at ≤ result }
    ensures upper_bound { result ≤ length t.now }
{
    let mut i = at;
    for four in t[at..].chunks_exact(4) {
        if four.contains(&b'\\') {
            break;
        }
        i += 4;
    }
    i
}

// The place of the next backslash from a place on, or the end.
pub fn next_backslash(t: &[u8], at: usize) -> usize
    ensures { result ≡ backslash_at t.now at }
{
    if t.len() <= at {
        return at;
    }
    // One escape right behind another: no block is looked at.
    if t[at] == b'\\' {
        return at;
    }
    let i = pass_fours(t, pass_blocks(t, at));
    i + t[i..].iter().take_while(|b| **b != b'\\').count()
}

// The escape at a place, or the backslash itself where it begins none.
#[tactic(auto, using(scan::proofs::Step::tests), unfolding(jsontext::specs::inner::Escape::or_itself))]
fn escape_or_itself(t: &[u8], at: usize) -> Escape
    ensures { result ≡ or_itself (escape_at t.now at) }
{
    jsonescape::escape_at(t, at).unwrap_or(Escape {
        width: 1,
        scalar: 0x5C,
    })
}

// How many bytes of a block are backslashes. No exit on the way, and a sum in a byte, so that a block has few bytes: a
// loop for vectors.
#[tactic(auto, unfolding(crate::specs::inner::Run::is_slash, scan::specs::inner::Blocks::sum_of))]
fn backslashes(block: &[u8]) -> u8
    requires { length block.now ≤ 128 }
    ensures value { result ≡ sum_of is_slash block.now }
    ensures upper_bound { result ≤ length block.now }
{
    let mut n = 0;
    for &b in block {
        n += scan::is_one(b, b'\\');
    }
    n
}

// How many bytes of t are backslashes, block by block.
fn slashes(t: &[u8]) -> usize
    ensures value { result ≡ sum_of is_slash t.now }
    ensures upper_bound { result ≤ length t.now }
{
    let mut n = 0;
    let mut left = t;
    while let Some((block, rest)) = left.split_first_chunk::<128>() {
        n += usize::from(backslashes(block));
        left = rest;
    }
    n + usize::from(backslashes(left))
}

// 1 for a byte behind a backslash that is neither n nor a quote, and else 0. By reckoning: with tests and && (tried)
// the loop over a short block is slower.
#[tactic(auto, using(scan::proofs::BlockLaws::one_of_two), unfolding(crate::specs::inner::Short::odd_of, scan::specs::inner::Blocks::is_one))]
fn odd_of(before: u8, b: u8) -> u8
    ensures value { result ≡ odd_of before b }
    ensures upper_bound { result ≤ 1 }
{
    scan::pick_byte(
        before == b'\\',
        1 - scan::is_one(b, b'n') - scan::is_one(b, b'"'),
        0,
    )
}

// How many such bytes a block has behind its first. No exit on the way, and a sum in a byte, so that a block has few
// bytes: a loop for vectors.
#[tactic(auto, unfolding(scan::specs::inner::Blocks::neighbours))]
fn odd_pairs(block: &[u8]) -> u8
    requires { length block.now ≤ 129 }
    ensures { result ≡ neighbours odd_of (get_or block.now 0 0) (drop 1 block.now) }
{
    let mut n = 0;
    for i in 1..block.len() {
        n += odd_of(block[i - 1], block[i]);
    }
    n
}

// Whether every backslash of t but a last one is followed by n or a quote.
fn even_pairs(t: &[u8]) -> bool
    ensures { result ≡ even_pairs t.now }
{
    let mut i = 0;
    // A place, since blocks are lent with the byte before them, which no iterator of the library does.
    while let Some(block) = t[i..].first_chunk::<129>() {
        if odd_pairs(block) != 0 {
            return false;
        }
        i += 128;
    }
    odd_pairs(&t[i..]) == 0
}

// The length of the text, run by run.
#[tactic(auto, using(crate::proofs::Unescape::steps))]
fn spelled_len_by_runs(t: &[u8]) -> usize
    ensures value { result ≡ length (unescape t.now) }
    ensures upper_bound { result ≤ length t.now }
{
    let mut i = 0;
    let mut n = 0;
    // A place, since an escape takes as many bytes as it is wide.
    while i < t.len() {
        let e = next_backslash(t, i);
        n += e - i;
        if t.len() <= e {
            return n;
        }
        let x = escape_or_itself(t, e);
        n += utf8::scalar_len(x.scalar);
        i = e + x.width;
    }
    n
}

// The length of the text. Where every backslash begins \n or \", the text is shorter than its spelling by one byte
// for each of them.
fn spelled_len(t: &[u8]) -> usize
    ensures value { result ≡ length (unescape t.now) }
    ensures upper_bound { result ≤ length t.now }
{
    let n = t.len();
    if n == 0 {
        return 0;
    }
    if t[n - 1] != b'\\' && even_pairs(t) {
        return n - slashes(t);
    }
    spelled_len_by_runs(t)
}

// The text, written run by run. A letter's escape, which is most of them, is one byte with no look at the other kinds.
#[tactic(auto, using(crate::proofs::Unescape::steps, crate::proofs::Letters::letter_steps))]
fn put_spelled(out: &mut [u8], at: usize, t: &[u8]) -> usize
    ensures { Wrote out.old at (unescape t.now) out.new result }
{
    let mut i = 0;
    let mut o = at;
    // A place, since an escape takes as many bytes as it is wide.
    while i < t.len() {
        let e = next_backslash(t, i);
        o = buffer::put_bytes(out, o, &t[i..e]);
        if t.len() <= e {
            return o;
        }
        if let Some(b) = jsonescape::unescaped_letter(scan::byte_at(t, e + 1)) {
            o = buffer::put_byte(out, o, b);
            i = e + 2;
            continue;
        }
        let x = escape_or_itself(t, e);
        o = utf8::put_scalar(out, o, x.scalar);
        i = e + x.width;
    }
    o
}

// Whether the bytes of a scalar value are digits.
fn scalar_digits(n: u32) -> bool
    ensures { result ≡ all_digits (encode n) }
{
    let mut bytes = [0u8; 4];
    let k = utf8::put_scalar(&mut bytes, 0, n);
    hexdigits::all_digits(scan::part(&bytes, 0, k))
}

// Whether every byte of the text is one of 0-9 a-f.
#[tactic(auto, using(crate::proofs::Unescape::steps))]
fn spelled_digits(t: &[u8]) -> bool
    ensures { result ≡ all_digits (unescape t.now) }
{
    let mut i = 0;
    // A place, since an escape takes as many bytes as it is wide.
    while i < t.len() {
        let e = next_backslash(t, i);
        if !hexdigits::all_digits(&t[i..e]) {
            return false;
        }
        if t.len() <= e {
            return true;
        }
        let x = escape_or_itself(t, e);
        if !scalar_digits(x.scalar) {
            return false;
        }
        i = e + x.width;
    }
    true
}

// A place of the output, and the upper half of the byte that goes there, where it is read already.
#[derive(Clone, Copy)]
struct Half {
    at: usize,
    value: Option<u8>,
    ghost value_bound: { ForSome value (λ h. h < 16) },
}

impl Half {
    // No digit is read yet.
    fn starting(at: usize) -> Half
        ensures { (result.at ≡ at) × (result.value ≡ None) }
    {
        Half { at, value: None }
    }

    // The place behind what is written. By a method: a loop that reads a field of a half has to keep the bound itself.
    fn end(self) -> usize
        ensures { result ≡ self.at }
    {
        self.at
    }

    // A digit more: with the half that is read it is a byte, which is written; by itself it is the half.
    fn put_digit(self, out: &mut [u8], b: u8) -> Half
        ensures wrote { Wrote out.old self.at (unhex (held (unwrap_or self.value 16) (b ∷ []))) out.new result.at }
        ensures value_value { unwrap_or result.value 16 ≡ half_behind (unwrap_or self.value 16) (b ∷ []) }
    {
        let v = hexdigits::value_of(b) % 16;
        match self.value {
            Some(h) => Half {
                at: buffer::put_byte(out, self.at, 16 * h + v),
                value: None,
            },
            None => Half {
                at: self.at,
                value: Some(v),
            },
        }
    }

    // A byte for each two digits of t, the first behind the half that is read already.
    fn put_digits(self, out: &mut [u8], t: &[u8]) -> Half
        ensures wrote { Wrote out.old self.at (unhex (held (unwrap_or self.value 16) t.now)) out.new result.at }
        ensures value_value { unwrap_or result.value 16 ≡ half_behind (unwrap_or self.value 16) t.now }
    {
        let mut half = self;
        for &b in t {
            half = half.put_digit(out, b);
        }
        half
    }

    // The same of a scalar value's bytes.
    fn put_scalar(self, out: &mut [u8], n: u32) -> Half
        ensures wrote { Wrote out.old self.at (unhex (held (unwrap_or self.value 16) (encode n))) out.new result.at }
        ensures value_value { unwrap_or result.value 16 ≡ half_behind (unwrap_or self.value 16) (encode n) }
    {
        let mut bytes = [0u8; 4];
        let k = utf8::put_scalar(&mut bytes, 0, n);
        self.put_digits(out, scan::part(&bytes, 0, k))
    }
}

// A byte for each two digits of the text, written.
#[tactic(auto, using(crate::proofs::Unescape::steps))]
fn put_spelled_unhex(out: &mut [u8], at: usize, t: &[u8]) -> usize
    ensures { Wrote out.old at (unhex (unescape t.now)) out.new result }
{
    let mut i = 0;
    let mut half = Half::starting(at);
    // A place, since an escape takes as many bytes as it is wide.
    while i < t.len() {
        let e = next_backslash(t, i);
        half = half.put_digits(out, &t[i..e]);
        if t.len() <= e {
            return half.end();
        }
        let x = escape_or_itself(t, e);
        half = half.put_scalar(out, x.scalar);
        i = e + x.width;
    }
    half.end()
}

// The length of the text that the n bytes of s from a place on spell.
pub fn unescaped_len(s: &[u8], from: usize, n: usize) -> usize
    ensures value { result ≡ length (unescape (take n (drop from s.now))) }
    ensures upper_bound { result ≤ n }
{
    spelled_len(scan::part(s, from, n))
}

// That text, written.
pub fn put_unescaped(out: &mut [u8], at: usize, s: &[u8], from: usize, n: usize) -> usize
    ensures { Wrote out.old at (unescape (take n (drop from s.now))) out.new result }
{
    put_spelled(out, at, scan::part(s, from, n))
}

// Whether it goes as bytes in the strict form.
#[tactic(auto, using(scan::proofs::Step::tests), unfolding(hexdigits::specs::Hex::goes_as_bytes))]
pub fn unescaped_goes_as_bytes(s: &[u8], from: usize, n: usize) -> bool
    ensures { result ≡ goes_as_bytes (unescape (take n (drop from s.now))) }
{
    let k = unescaped_len(s, from, n);
    k != 0 && k % 2 == 0 && spelled_digits(scan::part(s, from, n))
}

// A byte for each two digits of it, written.
#[tactic(auto, using(crate::proofs::Unescape::unescape_whole))]
pub fn put_unescaped_unhex(out: &mut [u8], at: usize, s: &[u8], from: usize, n: usize) -> usize
    ensures { Wrote out.old at (unhex (unescape (take n (drop from s.now)))) out.new result }
{
    let t = scan::part(s, from, n);
    if next_backslash(t, 0) < t.len() {
        return put_spelled_unhex(out, at, t);
    }
    hexdigits::put_unhex(out, at, t)
}
