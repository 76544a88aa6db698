// The escapings of texts, in the canonical text and in NSON: how long an escaped text is, and the text.
#![tactic(auto)]

ghost use Rattle.std.specs.Prelude.{◌+◌, ◌*◌, ◌≤◌, ◌≡◌, length};
ghost use Rattle.buffer.specs.inner.Store.{Wrote};
ghost use Rattle.escape.specs.Escape.{nson_byte, escaped};
ghost use Rattle.escape.specs.inner.Controls.{is_uncarried, controls, nson_text};
ghost use Rattle.escape.specs.inner.Which.{byte_of, growth};
ghost use Rattle.escape.specs.inner.Block.{is_escaped, escape_letter, run_of};

// Which escaping.
#[derive(Clone, Copy)]
pub enum Escaping {
    Canonical,
    Nson,
}

// Whether the byte becomes two.
#[tactic(auto, using(scan::proofs::Step::tests), unfolding(crate::specs::inner::Block::is_escaped))]
fn is_escaped(k: Escaping, b: u8) -> bool
    ensures { result ≡ is_escaped k b }
{
    b == b'"'
        || b == b'\\'
        || match k {
            Escaping::Canonical => scan::is_within(0x08, 0x0D, b) && b != 0x0B,
            Escaping::Nson => b == b'\n',
        }
}

// The letter behind the backslash, of a byte that becomes two.
#[tactic(auto, using(scan::proofs::Step::tests), unfolding(crate::specs::inner::Block::escape_letter))]
fn escape_letter(b: u8) -> u8
    ensures { result ≡ escape_letter b }
{
    match b {
        b'\n' => b'n',
        b'\r' => b'r',
        b'\t' => b't',
        0x08 => b'b',
        0x0C => b'f',
        _ => b,
    }
}

// ---- the length

// How many bytes of a block become two. No exit on the way, and a sum in a byte: a loop for vectors.
fn escapes(k: Escaping, block: &[u8]) -> u8
    requires { length block.now ≤ 128 }
    ensures { result + length block.now ≡ length (escaped (byte_of k) block.now) }
{
    let mut n = 0;
    for &b in block {
        n += u8::from(is_escaped(k, b));
    }
    n
}

// The length of an escaped text, block by block.
pub fn escaped_len(k: Escaping, s: &[u8]) -> usize
    ensures value { result ≡ length (escaped (byte_of k) s.now) }
    ensures upper_bound { result ≤ growth k * length s.now }
{
    let mut n = s.len();
    for block in s.chunks(128) {
        n += usize::from(escapes(k, block));
    }
    n
}

// ---- the text

// One byte, as one or as two.
fn put_one(k: Escaping, out: &mut [u8], at: usize, b: u8) -> usize
    ensures { Wrote out.old at (byte_of k b) out.new result }
{
    if is_escaped(k, b) {
        let o = buffer::put_byte(out, at, b'\\');
        buffer::put_byte(out, o, escape_letter(b))
    } else {
        buffer::put_byte(out, at, b)
    }
}

fn put_each(k: Escaping, out: &mut [u8], at: usize, s: &[u8]) -> usize
    ensures { Wrote out.old at (escaped (byte_of k) s.now) out.new result }
{
    let mut o = at;
    for &b in s {
        o = put_one(k, out, o, b);
    }
    o
}

// How many bytes of a block stand before the first that becomes two. No exit on the way, and a minimum of bytes: a loop
// for vectors.
fn bare_run(k: Escaping, block: &[u8]) -> u8
    requires { length block.now ≤ 64 }
    ensures value { result ≡ run_of k block.now }
    ensures upper_bound { result ≤ 64 }
{
    let n = block.len() as u8;
    let mut m = n;
    for (i, &b) in block.iter().enumerate() {
        let stop = if is_escaped(k, b) { i as u8 } else { n };
        m = m.min(stop);
    }
    m
}

// A text of any length; one of a block or less that needs no escape goes whole.
fn put_rest(k: Escaping, out: &mut [u8], at: usize, s: &[u8]) -> usize
    ensures { Wrote out.old at (escaped (byte_of k) s.now) out.new result }
{
    if s.len() <= 64 && escapes(k, s) == 0 {
        buffer::put_bytes(out, at, s)
    } else {
        put_each(k, out, at, s)
    }
}

// An escaped text, block by block, while there is room for a block and an escape. A block is copied whole; what stands
// behind its first escape is then written over. No `chunks`: the next block begins right behind the escape.
pub fn put_escaped(k: Escaping, out: &mut [u8], at: usize, s: &[u8]) -> usize
    ensures { Wrote out.old at (escaped (byte_of k) s.now) out.new result }
{
    if out.len() <= at {
        return at;
    }
    let mut rest = s;
    let mut o = at;
    while rest.len() >= 64 && out.len() - o >= 66 {
        let (block, behind) = rest.split_at(64);
        buffer::put_bytes(out, o, block);
        let m = bare_run(k, block) as usize;
        o += m;
        if m == 64 {
            rest = behind;
        } else {
            out[o] = b'\\';
            out[o + 1] = escape_letter(rest[m]);
            o += 2;
            rest = &rest[m + 1..];
        }
    }
    put_rest(k, out, o, rest)
}

// ---- what NSON can carry

// 1 for a byte that NSON can't carry.
#[tactic(auto, using(scan::proofs::Step::tests), unfolding(crate::specs::inner::Controls::is_uncarried))]
fn is_uncarried(b: u8) -> u8
    ensures value { result ≡ is_uncarried b }
    ensures upper_bound { result ≤ 1 }
{
    u8::from(b < 0x20 && b != b'\n')
}

// How many bytes of a block become two in NSON, and how many it can't carry.
#[derive(Clone, Copy)]
struct Sums {
    escapes: u8,
    controls: u8,
}

fn count_block(block: &[u8]) -> Sums
    requires { length block.now ≤ 128 }
    ensures block_value { result.escapes + length block.now ≡ length (escaped nson_byte block.now) }
    ensures controls_value { result.controls ≡ controls block.now }
    ensures controls_in_bounds { result.controls ≤ length block.now }
{
    let mut escapes = 0;
    let mut controls = 0;
    for &b in block {
        escapes += u8::from(is_escaped(Escaping::Nson, b));
        controls += is_uncarried(b);
    }
    Sums { escapes, controls }
}

// The length of a text in NSON, and whether NSON can carry it: no byte below 20 other than 0A. No Option: the length is
// promised where the text can't be carried too.
#[derive(Clone, Copy)]
pub struct Size {
    pub len: usize,
    pub fits: bool,
}

// Both in one pass.
pub fn nson_size(s: &[u8]) -> Size
    ensures len_value { result.len ≡ length (escaped nson_byte s.now) }
    ensures fits_value { result.fits ≡ nson_text s.now }
    ensures len_bound { result.len ≤ 2 * length s.now }
{
    let mut len = s.len();
    let mut controls = 0;
    for block in s.chunks(128) {
        let x = count_block(block);
        len += usize::from(x.escapes);
        controls += usize::from(x.controls);
    }
    Size {
        len,
        fits: controls == 0,
    }
}
