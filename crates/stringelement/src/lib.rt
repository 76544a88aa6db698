// The strict element whose text a spelled string stands for: its length, and the element written. Most strings have no
// escape and are taken as they stand.
#![tactic(auto)]

ghost use Rattle.std.specs.Prelude.{◌+◌, ◌≤◌, ◌≡◌, length, take, drop};
ghost use Rattle.buffer.specs.inner.Store.{Wrote};
ghost use Rattle.jsontext.specs.inner.Escape.{unescape};
ghost use Rattle.notepack.specs.Strict.{pack_element};

// The length of the strict element, where the string has escapes.
fn escaped_element_len(s: &[u8], from: usize, n: usize) -> usize
    ensures value { result ≡ length (pack_element (unescape (take n (drop from s.now)))) }
    ensures upper_bound { result ≤ n + 10 }
{
    let k = jsonunescape::unescaped_len(s, from, n);
    if jsonunescape::unescaped_goes_as_bytes(s, from, n) {
        return varint::varint_len(2 * (k / 2) as u64 + 1) + k / 2;
    }
    varint::varint_len(2 * k as u64) + k
}

// The length of the strict element whose text the n bytes of s from a place on spell. Hex is asked for first: digits
// are no backslash.
pub fn spelled_element_len(s: &[u8], from: usize, n: usize) -> usize
    ensures value { result ≡ length (pack_element (unescape (take n (drop from s.now)))) }
    ensures upper_bound { result ≤ n + 10 }
{
    let t = scan::part(s, from, n);
    if hexdigits::goes_as_bytes(t) {
        let k = t.len() / 2;
        return varint::varint_len(2 * k as u64 + 1) + k;
    }
    if t.len() <= jsonunescape::next_backslash(t, 0) {
        return varint::varint_len(2 * t.len() as u64) + t.len();
    }
    escaped_element_len(s, from, n)
}

// The strict element, where the string has escapes.
fn put_escaped_element(out: &mut [u8], at: usize, s: &[u8], from: usize, n: usize) -> usize
    ensures { Wrote out.old at (pack_element (unescape (take n (drop from s.now)))) out.new result }
{
    let k = jsonunescape::unescaped_len(s, from, n);
    if jsonunescape::unescaped_goes_as_bytes(s, from, n) {
        let o = varint::put_varint(out, at, 2 * (k / 2) as u64 + 1);
        return jsonunescape::put_unescaped_unhex(out, o, s, from, n);
    }
    let o = varint::put_varint(out, at, 2 * k as u64);
    jsonunescape::put_unescaped(out, o, s, from, n)
}

// The strict element whose text they spell, written. Hex is asked for first here too.
pub fn put_spelled_element(out: &mut [u8], at: usize, s: &[u8], from: usize, n: usize) -> usize
    ensures { Wrote out.old at (pack_element (unescape (take n (drop from s.now)))) out.new result }
{
    let t = scan::part(s, from, n);
    if hexdigits::goes_as_bytes(t) {
        let k = t.len() / 2;
        let o = varint::put_varint(out, at, 2 * k as u64 + 1);
        return hexdigits::put_unhex(out, o, t);
    }
    if t.len() <= jsonunescape::next_backslash(t, 0) {
        let o = varint::put_varint(out, at, 2 * t.len() as u64);
        return buffer::put_bytes(out, o, t);
    }
    put_escaped_element(out, at, s, from, n)
}
