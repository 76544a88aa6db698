// Numbers of fixed width, the lowest byte first.
#![tactic(auto)]

ghost use Rattle.std.specs.Prelude.{◌+◌, ◌*◌, ◌<◌, ◌^◌, ◌≡◌, take, drop};
ghost use Rattle.buffer.specs.inner.Store.{Wrote};
ghost use Rattle.littleendian.specs.LittleEndian.{number_of, low_first};

// The number of the first eight bytes, or of as many as there are.
pub fn number_of(s: &[u8]) -> u64
    ensures { result ≡ number_of (take 8 s.now) }
{
    match s.first_chunk() {
        Some(eight) => u64::from_le_bytes(*eight),
        None => {
            let mut bytes = [0; 8];
            buffer::put_bytes(&mut bytes, 0, s);
            u64::from_le_bytes(bytes)
        }
    }
}

// The same of the bytes from a place on.
pub fn number_at(s: &[u8], at: usize) -> u64
    ensures { result ≡ number_of (take 8 (drop at s.now)) }
{
    number_of(scan::part(s, at, 8))
}

// The n lowest bytes of a number, the lowest first.
pub fn put_number(out: &mut [u8], at: usize, v: u64, n: usize) -> usize
    ensures { Wrote out.old at (low_first n v) out.new result }
{
    let mut o = at;
    let mut rest = v;
    for _ in 0..n {
        o = buffer::put_byte(out, o, (rest % 256) as u8);
        rest /= 256;
    }
    o
}

// The eight lowest bytes of a number, as one byte string.
pub fn put_eight(out: &mut [u8], at: usize, v: u64) -> usize
    ensures { Wrote out.old at (low_first 8 v) out.new result }
{
    buffer::put_bytes(out, at, &v.to_le_bytes())
}
