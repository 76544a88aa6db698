// A fast pass in front of the rows: how far a text surely is well-formed. It refuses nothing. Where it finds less than
// there is, the rows (`width_of`) decide. What is `pub` here reaches this crate alone.
ghost use Rattle.std.specs.Prelude.{◌+◌, ◌≤◌, ◌≡◌, true, false, length};
ghost use Rattle.utf8.specs.inner.Windows.{WellTo, Most, Fits, Fitting, padded};

// A number that no byte of a block is above. No exit on the way: a loop for vectors.
fn highest(block: &[u8]) -> u8
    ensures { Most block.now result }
{
    let mut top = 0;
    for &b in block {
        top = top.max(b);
    }
    top
}

// Whether a text of 16 to 32 bytes is all ASCII, by its first and its last 16 bytes.
#[tactic(auto, using(crate::proofs::FittingLaws::most_ends))]
fn ends_ascii(s: &[u8]) -> bool
    requires { (16 ≤ length s.now) × (length s.now ≤ 32) }
    ensures { result ≡ true → Most s.now 0x7F }
{
    let m = s.len() - 16;
    highest(&s[..16]) < 128 && highest(&s[m..]) < 128
}

// Whether a text is all ASCII.
pub fn is_ascii(s: &[u8]) -> bool
    ensures { result ≡ true → Most s.now 0x7F }
{
    match s.len() {
        16..=32 => ends_ascii(s),
        _ => highest(s) < 128,
    }
}

// Whether d cannot stand behind a, b, c.
fn misfit(a: u8, b: u8, c: u8, d: u8) -> bool
    ensures { result ≡ false → Fits a b c d }
{
    // a tail exactly if a first byte of two, three or four asks for one
    d / 128 != d / 192 + c / 192 + b / 224 + a / 240
        // F5 to FF, C0 and C1: never a byte of UTF-8
        || (0xF5 <= d) | (d / 2 == 0x60)
        // the second byte of an overlong form, a surrogate, an overlong form, past 10FFFF
        || 0xE0 <= c
            && (c == 0xE0) & (d < 0xA0)
                | (c == 0xED) & (0xA0 <= d)
                | (c == 0xF0) & (d < 0x90)
                | (c == 0xF4) & (0x90 <= d)
}

// Whether one of the bytes behind the places at to e misfits, three on from each. No exit on the way: a loop for
// vectors. By the places and no `windows(4)`, whose slices of four ask for their length in each turn.
fn has_misfit(s: &[u8], at: usize, e: usize) -> bool
    requires { (at ≤ e) × (e + 3 ≤ length s.now) }
    ensures { result ≡ false → Fitting s.now at e }
{
    let mut found = false;
    for i in at..e {
        found |= misfit(s[i], s[i + 1], s[i + 2], s[i + 3]);
    }
    found
}

// The same. A block that is all ASCII has none.
#[tactic(auto, using(crate::proofs::FittingLaws::fitting_ascii))]
fn is_bad_block(s: &[u8], at: usize, e: usize) -> bool
    requires { (at ≤ e) × (e + 3 ≤ length s.now) }
    ensures { result ≡ false → Fitting s.now at e }
{
    // `&&` in place of this return cost a tenth of the time that ASCII takes (tried)
    if highest(&s[at..e + 3]) < 128 {
        return false;
    }
    has_misfit(s, at, e)
}

// Whether one of the first three bytes misfits, with nothing before them.
#[tactic(auto, using(crate::proofs::FittingLaws::fitting_first))]
fn begins_badly(s: &[u8]) -> bool
    requires { 3 ≤ length s.now }
    ensures { result ≡ false → Fitting (padded s.now) 0 3 }
{
    misfit(0, 0, 0, s[0]) || misfit(0, 0, s[0], s[1]) || misfit(0, s[0], s[1], s[2])
}

// A place behind the first three bytes up to which no byte misfits: block after block, until one does. The last block
// stands apart, so that the length of the others is known where their loop is made into vectors. Neither `chunks` nor
// `step_by`: a block is read with the three bytes behind it, and the last is as long as what is left.
#[tactic(auto, using(crate::proofs::FittingLaws::fitting_block))]
fn fitting_end(s: &[u8]) -> usize
    requires { (3 ≤ length s.now) × Fitting (padded s.now) 0 3 }
    ensures fitting { Fitting (padded s.now) 0 result }
    ensures lower_bound { (3 ≤ result) × (result ≤ length s.now) }
{
    let last = s.len() - 3;
    let mut i = 0;
    while last - i >= 128 {
        let e = i + 128;
        if is_bad_block(s, i, e) {
            return i + 3;
        }
        i = e;
    }
    if is_bad_block(s, i, last) {
        return i + 3;
    }
    s.len()
}

// The end of the last whole sequence before e: e itself, or the first byte that asks for a tail at e or past it.
fn whole_end(s: &[u8], e: usize) -> usize
    requires { (3 ≤ e) × ((e ≤ length s.now) × Fitting (padded s.now) 0 e) }
    ensures { WellTo s.now result }
{
    if 0xC0 <= s[e - 1] {
        return e - 1;
    }
    if 0xE0 <= s[e - 2] {
        return e - 2;
    }
    if 0xF0 <= s[e - 3] {
        return e - 3;
    }
    e
}

// A place up to which the text surely is well-formed; 0 where nothing is sure.
#[tactic(auto, using(crate::proofs::WindowLaws::reach_none))]
pub fn pass(s: &[u8]) -> usize
    ensures { WellTo s.now result }
{
    if s.len() < 32 || begins_badly(s) {
        return 0;
    }
    let e = fitting_end(s);
    whole_end(s, e)
}
