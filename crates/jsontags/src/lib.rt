// The tags of a packed event as arrays of strings, without white space.
#![tactic(auto)]

ghost use Rattle.std.specs.Prelude.{◌*◌, ◌≤◌, ◌≡◌, map, length};
ghost use Rattle.buffer.specs.inner.Store.{Wrote};
ghost use Rattle.escape.specs.Escape.{escaped};
ghost use Rattle.escape.specs.inner.Which.{byte_of, growth};
ghost use Rattle.notepack.specs.Unpack.{text_of};
ghost use Rattle.notepack.specs.inner.Again.{texts_again, texts_end, tags_again};
ghost use Rattle.jsontags.specs.TagText.{quoted, commaed, tag_text};
ghost use Rattle.jsontags.specs.inner.Comma.{comma};

use escape::Escaping;
use notepack::Part;

// ---- lengths. The sums over elements and tags are the formats' own, since they end where the input's limit is known.

// The length of the comma that stands behind an item where more are left.
pub fn comma_len(left: u64) -> usize
    ensures value { result ≡ length (comma left) }
    ensures upper_bound { result ≤ 1 }
{
    usize::from(0 < left)
}

// The length of a part's text between its quotes. Hex digits need no escape.
pub fn escaped_part_len(k: Escaping, s: &[u8], p: Part) -> usize
    ensures value { result ≡ length (escaped (byte_of k) (text_of s.now p)) }
    ensures upper_bound { result ≤ growth k * length s.now }
{
    let bytes = scan::part(s, p.at, p.len);
    if p.raw {
        return 2 * bytes.len();
    }
    escape::escaped_len(k, bytes)
}

// ---- texts

fn put_comma(out: &mut [u8], at: usize, left: u64) -> usize
    ensures { Wrote out.old at (comma left) out.new result }
{
    if 0 < left {
        return buffer::put_byte(out, at, b',');
    }
    at
}

// A part's text, escaped. Hex digits need no escape.
pub fn put_escaped_part(k: Escaping, out: &mut [u8], at: usize, s: &[u8], p: Part) -> usize
    ensures { Wrote out.old at (escaped (byte_of k) (text_of s.now p)) out.new result }
{
    let bytes = scan::part(s, p.at, p.len);
    if p.raw {
        return hexdigits::put_hex(out, at, bytes);
    }
    escape::put_escaped(k, out, at, bytes)
}

// A part's text as a string.
pub fn put_quoted(k: Escaping, out: &mut [u8], at: usize, s: &[u8], p: Part) -> usize
    ensures { Wrote out.old at (quoted (byte_of k) (text_of s.now p)) out.new result }
{
    let a = buffer::put_byte(out, at, b'"');
    let b = put_escaped_part(k, out, a, s, p);
    buffer::put_byte(out, b, b'"')
}

// count elements from a place on, as strings with a comma between each two: the place behind what was written, and the
// place behind what was read for it.
fn put_strings(
    k: Escaping,
    out: &mut [u8],
    at: usize,
    s: &[u8],
    from: usize,
    count: u64,
) -> (usize, usize)
    ensures wrote { Wrote out.old at (commaed (map (quoted (byte_of k)) (texts_again count s.now from))) out.new result.0 }
    ensures next_value { result.1 ≡ texts_end count s.now from }
{
    let mut o = at;
    let mut i = from;
    for n in 0..count {
        let (part, next) = notepack::part_again(s, i);
        o = put_quoted(k, out, o, s, part);
        o = put_comma(out, o, count - n - 1);
        i = next;
    }
    (o, i)
}

// count tags from a place on, as arrays with a comma between each two.
pub fn put_arrays(
    k: Escaping,
    out: &mut [u8],
    at: usize,
    s: &[u8],
    from: usize,
    count: u64,
) -> usize
    ensures { Wrote out.old at (commaed (map (tag_text (byte_of k)) (tags_again count s.now from))) out.new result }
{
    let mut o = at;
    let mut i = from;
    for n in 0..count {
        let (texts, first) = notepack::count_again(s, i);
        o = buffer::put_byte(out, o, b'[');
        (o, i) = put_strings(k, out, o, s, first, texts);
        o = buffer::put_byte(out, o, b']');
        o = put_comma(out, o, count - n - 1);
    }
    o
}
