// Whether the id of a packed event is the SHA-256 of its canonical text.
#![tactic(auto)]

ghost use Rattle.std.specs.Prelude.{◌*◌, ◌≤◌, ◌<◌, ◌^◌, ◌≡◌, length};
ghost use Rattle.scan.specs.Compare.{same_bytes};
ghost use Rattle.event.specs.inner.Told.{answer};
ghost use Rattle.sha256.specs.Message.{digest};
ghost use Rattle.identity.specs.Identity.{belongs};

use event::Refusal;

// Whether the digest of a text is these bytes.
fn is_digest(id: &[u8], text: &[u8]) -> bool
    requires { length text.now < 2 ^ 61 }
    ensures { result ≡ same_bytes id.now (digest text.now) }
{
    match sha256::finish(sha256::add(sha256::start(), text)) {
        Some(words) => {
            let mut own = [0u8; 32];
            sha256::put_words(&mut own, 0, words);
            scan::same_bytes(id, &own)
        }
        None => false,
    }
}

// The id question, by way of a scratch of N bytes that has room for the text.
// No type says of a const parameter how large it is: `size` stands here.
fn belongs_by<const N: usize>(s: &[u8]) -> Result<bool, Refusal>
    requires room { length s.now ≤ 65536 → 3 * length s.now ≤ N }
    requires size { N < 2 ^ 63 }
    ensures { answer result ≡ belongs s.now }
{
    let mut scratch = [0u8; N];
    let n = canonical::write_canonical(s, &mut scratch)?;
    Ok(is_digest(scan::part(s, 0, 32), scan::part(&scratch, 0, n)))
}

// The id question: the reader's refusals alone. The scratch has one of three sizes: a small record does not pay for
// clearing a large one.
pub fn id_belongs(s: &[u8]) -> Result<bool, Refusal>
    ensures { answer result ≡ belongs s.now }
{
    if s.len() <= 512 {
        belongs_by::<1536>(s)
    } else if s.len() <= 8192 {
        belongs_by::<24576>(s)
    } else {
        belongs_by::<196608>(s)
    }
}
