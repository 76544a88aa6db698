// The lister: bare notepack on standard input, its numbers or the refusal on standard output.
#![tactic(auto)]

ghost use Rattle.std.specs.Prelude.{◌≤◌, ◌≡◌, length, take};
ghost use Rattle.buffer.specs.inner.Store.{Wrote};
ghost use Rattle.event.specs.inner.Told.{number_of};
ghost use Rattle.notepack.specs.Views.{numbers_of};
ghost use Rattle.lister.specs.Listing.{numbers_text, refusal_text, listing};

use event::Refusal;
use notepack::Head;
use std::io;

// The four lines of an event's numbers.
fn put_numbers(out: &mut [u8], at: usize, h: Head) -> usize
    ensures { Wrote out.old at (numbers_text h) out.new result }
{
    let a = buffer::put_bytes(out, at, b"created_at ");
    let b = decimal::put_decimal(out, a, h.created_at);
    let c = buffer::put_bytes(out, b, b"\nkind ");
    let d = decimal::put_decimal(out, c, h.kind);
    let e = buffer::put_bytes(out, d, b"\ncontent ");
    let f = decimal::put_decimal(out, e, h.content.len as u64);
    let g = buffer::put_bytes(out, f, b"\ntags ");
    let i = decimal::put_decimal(out, g, h.tag_count);
    buffer::put_bytes(out, i, b"\n")
}

// The line of a refusal.
fn put_refusal(out: &mut [u8], at: usize, r: Refusal) -> usize
    ensures { Wrote out.old at (refusal_text (number_of r.reason) r.place) out.new result }
{
    let a = buffer::put_bytes(out, at, b"refused ");
    let b = decimal::put_decimal(out, a, r.reason.number() as u64);
    let c = buffer::put_bytes(out, b, b" at ");
    let d = decimal::put_decimal(out, c, r.place as u64);
    buffer::put_bytes(out, d, b"\n")
}

// What is printed of packed bytes, whole: no text of the lister is longer than 128 bytes.
fn list(out: &mut [u8], s: &[u8]) -> usize
    requires { 128 ≤ length out.old }
    ensures value { result ≡ length (listing (numbers_of s.now)) }
    ensures out_after { take result out.new ≡ listing (numbers_of s.now) }
{
    match notepack::read_packed(s) {
        Ok(h) => put_numbers(out, 0, h),
        Err(r) => put_refusal(out, 0, r),
    }
}

// One byte more than the limit is read, so that a longer input is refused with 1 and the program still ends. A read or
// a write that fails ends it with the error.
fn main(rt: HostRuntime) -> io::Result<()> {
    let mut input = [0u8; 65537];
    let n = fullread::read_full(&mut rt.stdin(), &mut input)?;
    let mut text = [0u8; 128];
    let k = list(&mut text, scan::part(&input, 0, n));
    rt.write_all(scan::part(&text, 0, k))
}
