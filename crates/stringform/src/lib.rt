// The string form of a packed event, bare or versioned: its writer and its reader. The caller says which of the two.
#![tactic(auto)]

ghost use Rattle.std.specs.Prelude.{◌≤◌, ◌<◌, ◌^◌, ◌≡◌, ◌++◌, length};
ghost use Rattle.scan.specs.Place.{stands_at};
ghost use Rattle.buffer.specs.inner.Store.{Wrote};
ghost use Rattle.buffer.specs.Entry.{written, filled, writes, leaves};
ghost use Rattle.event.specs.inner.Told.{answer};
ghost use Rattle.base64text.specs.Base64.{decoded};
ghost use Rattle.notepack.specs.Unpack.{unpack};
ghost use Rattle.strict.specs.inner.Copy.{packed_pieces};
ghost use Rattle.versioned.specs.Versioned.{given};
ghost use Rattle.versioned.specs.Moves.{accepted};
ghost use Rattle.versioned.specs.inner.Moved.{moved};
ghost use Rattle.stringform.specs.StringForm.{prefix, front, string_form, event_string, read_string, itself};

use event::{Reason, Refusal};
use notepack::Head;

// What every string form of a form starts with.
#[tactic(auto, unfolding(crate::specs::StringForm::prefix))]
fn prefix(bare: bool) -> &'static [u8]
    ensures value { result.now ≡ prefix bare }
    ensures upper_bound { length result.now ≤ 10 }
{
    if bare { b"notepack_" } else { b"notepack1_" }
}

// Whether a text starts with the prefix.
#[tactic(auto, unfolding(crate::specs::StringForm::prefix))]
fn is_prefixed(t: &[u8], bare: bool) -> bool
    ensures { result ≡ stands_at (prefix bare) t.now 0 }
{
    scan::stands_at(prefix(bare), t, 0)
}

// What stands in front of the bare bytes.
#[tactic(auto, unfolding(crate::specs::StringForm::front))]
fn front(bare: bool) -> &'static [u8]
    ensures { result.now ≡ front bare }
{
    if bare { b"" } else { &[versioned::VERSION] }
}

// ---- the writer

// The prefix, from the start.
#[tactic(auto, unfolding(crate::specs::StringForm::prefix))]
fn put_prefix(out: &mut [u8], bare: bool) -> usize
    ensures { Wrote out.old 0 (prefix bare) out.new result }
{
    buffer::put_bytes(out, 0, prefix(bare))
}

// The string form of bytes: 11 with the length needed, or the length written.
fn put_string(out: &mut [u8], bare: bool, b: &[u8]) -> Result<usize, Refusal>
    ensures result_value { answer result ≡ written (string_form bare b.now) out.old }
    ensures out_after { out.new ≡ filled (string_form bare b.now) out.old }
{
    let n = prefix(bare).len() + base64text::encoded_len(b);
    if out.len() < n {
        return Err(Refusal {
            reason: Reason::TooLittleRoom,
            place: n,
        });
    }
    let o = put_prefix(out, bare);
    Ok(base64text::put_encoded(out, o, b))
}

// The string form of a walked event, by way of a scratch of N bytes that has room for its strict bytes and what stands
// in front of them.
// No type says of a const parameter how large it is: `size` stands here.
fn put_event_string<const N: usize>(
    bare: bool,
    b: &[u8],
    h: Head,
    out: &mut [u8],
) -> Result<usize, Refusal>
    requires room { length (front bare ++ packed_pieces b.now h) ≤ N }
    requires size { N < 2 ^ 63 }
    ensures result_value { answer result ≡ written (string_form bare (front bare ++ packed_pieces b.now h)) out.old }
    ensures out_after { out.new ≡ filled (string_form bare (front bare ++ packed_pieces b.now h)) out.old }
{
    let mut scratch = [0u8; N];
    let o = buffer::put_bytes(&mut scratch, 0, front(bare));
    let n = strict::put_packed(&mut scratch, o, b, h);
    put_string(out, bare, scan::part(&scratch, 0, n))
}

// The string form of a packed event s, whose bare bytes are b. Bytes that are strict already are taken as they stand.
// The scratch is about as long as the bytes: clearing a large one takes longer than writing a short record.
fn write_bare(s: &[u8], bare: bool, b: &[u8], out: &mut [u8]) -> Result<usize, Refusal>
    requires { s.now ≡ front bare ++ b.now }
    ensures result_value { answer result ≡ writes (event_string bare) (moved bare (unpack b.now)) out.old }
    ensures out_after { out.new ≡ leaves (event_string bare) (moved bare (unpack b.now)) out.old }
{
    let (h, t) = versioned::moved_answer(bare, notepack::walk_packed(b))?;
    if t.len == b.len() && !t.hollow {
        return put_string(out, bare, s);
    }
    if t.len < 512 {
        put_event_string::<512>(bare, b, h, out)
    } else if t.len < 8192 {
        put_event_string::<8192>(bare, b, h, out)
    } else {
        put_event_string::<65537>(bare, b, h, out)
    }
}

// The string form of a packed event, of its own form: the reader's refusals, then 11 with the length needed; else
// written from the start.
pub fn write_string(s: &[u8], bare: bool, out: &mut [u8]) -> Result<usize, Refusal>
    ensures result_value { answer result ≡ writes (event_string bare) (given bare unpack s.now) out.old }
    ensures out_after { out.new ≡ leaves (event_string bare) (given bare unpack s.now) out.old }
{
    let k = versioned::start(s, bare)?;
    write_bare(s, bare, versioned::from(s, k), out)
}

// ---- the reader

// The bytes of a base64 text, where the notepack reader accepts them; a scratch of N bytes has room for them.
// No type says of a const parameter how large it is: `size` stands here.
fn read_held<const N: usize>(t: &[u8], bare: bool, out: &mut [u8]) -> Result<usize, Refusal>
    requires room { length (decoded t.now) ≤ N }
    requires size { N < 2 ^ 63 }
    ensures result_value { answer result ≡ writes itself (accepted bare (decoded t.now)) out.old }
    ensures out_after { out.new ≡ leaves itself (accepted bare (decoded t.now)) out.old }
{
    let mut scratch = [0u8; N];
    let n = base64text::put_decoded(&mut scratch, 0, t);
    let bytes = scan::part(&scratch, 0, n);
    versioned::read_packed(bytes, bare)?;
    versioned::put_all(out, bytes)
}

// The same with a scratch of about the bytes' number.
fn read_all(text: &[u8], bare: bool, out: &mut [u8]) -> Result<usize, Refusal>
    ensures result_value { answer result ≡ writes itself (accepted bare (decoded text.now)) out.old }
    ensures out_after { out.new ≡ leaves itself (accepted bare (decoded text.now)) out.old }
{
    let n = base64text::decoded_len(text);
    if n <= 512 {
        read_held::<512>(text, bare, out)
    } else if n <= 8192 {
        read_held::<8192>(text, bare, out)
    } else if n <= event::MAX_INPUT {
        read_held::<65536>(text, bare, out)
    } else {
        Err(Refusal {
            reason: Reason::InputTooLong,
            place: 0,
        })
    }
}

// The bytes that a string form holds, left in the buffer as they were decoded: 20, 21, the notepack reader's refusals
// with places in these bytes, 11 with their number.
pub fn read_string(t: &[u8], bare: bool, out: &mut [u8]) -> Result<usize, Refusal>
    ensures result_value { answer result ≡ writes itself (read_string bare t.now) out.old }
    ensures out_after { out.new ≡ leaves itself (read_string bare t.now) out.old }
{
    if !is_prefixed(t, bare) {
        return Err(Refusal {
            reason: Reason::NoPrefix,
            place: 0,
        });
    }
    let prefix = prefix(bare);
    let end = base64text::alphabet_end(t, prefix.len());
    if end < t.len() {
        return Err(Refusal {
            reason: Reason::NoBase64,
            place: end,
        });
    }
    let text = &t[prefix.len()..];
    if !base64text::ends_whole(text) {
        return Err(Refusal {
            reason: Reason::NoBase64,
            place: t.len(),
        });
    }
    read_all(text, bare, out)
}
