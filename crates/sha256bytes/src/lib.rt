// A SHA-256 state in 104 lent bytes: starting, one piece more, finishing.
#![tactic(auto)]

ghost use Rattle.std.specs.Prelude.{◌+◌, ◌≤◌, ◌≡◌, length};
ghost use Rattle.buffer.specs.inner.Store.{Wrote};
ghost use Rattle.buffer.specs.Entry.{written, filled, writes, leaves};
ghost use Rattle.event.specs.inner.Told.{answer};
ghost use Rattle.sha256.specs.Pieces.{started};
ghost use Rattle.sha256bytes.specs.StateBytes.{state_word, chain_of, state_of, bytes_of_state, add_in, finish_in, lent_state};

use event::{Reason, Refusal};
use sha256::{Hash, Words};

// The bytes of a state.
const STATE: usize = 104;
// The bytes of a digest.
const DIGEST: usize = 32;

const NO_STATE: Refusal = Refusal {
    reason: Reason::TooLittleRoom,
    place: STATE,
};

const TOO_LONG: Refusal = Refusal {
    reason: Reason::MessageTooLong,
    place: 0,
};

// The word of four bytes from a place on, the first the highest.
#[tactic(auto, unfolding(crate::specs::StateBytes::state_word))]
fn word_at(b: &[u8], at: usize) -> u32
    requires { at + 4 ≤ length b.now }
    ensures { result ≡ state_word b.now at }
{
    sha256::word_of(b[at], b[at + 1], b[at + 2], b[at + 3])
}

// The eight words of the first 32 bytes.
#[tactic(auto, unfolding(crate::specs::StateBytes::chain_of))]
fn chain_of(b: &[u8]) -> Words
    requires { 32 ≤ length b.now }
    ensures { result ≡ chain_of b.now }
{
    Words {
        a: word_at(b, 0),
        b: word_at(b, 4),
        c: word_at(b, 8),
        d: word_at(b, 12),
        e: word_at(b, 16),
        f: word_at(b, 20),
        g: word_at(b, 24),
        h: word_at(b, 28),
    }
}

// The state that lent bytes are: words, count, pending bytes.
#[tactic(auto, using(crate::proofs::Entries::state_made))]
fn state_of(b: &[u8]) -> Hash
    requires { 104 ≤ length b.now }
    ensures { result ≡ state_of b.now }
{
    let mut pending = [0u8; 64];
    pending.copy_from_slice(&b[40..104]);
    Hash {
        chain: chain_of(b),
        pending,
        count: littleendian::number_of(&b[32..40]),
    }
}

// The state in a lent buffer, or 11 with 104.
#[tactic(auto, unfolding(crate::specs::StateBytes::lent_state))]
fn lent_state(b: &[u8]) -> Result<Hash, Refusal>
    ensures { answer result ≡ lent_state b.now }
{
    if b.len() < STATE {
        return Err(NO_STATE);
    }
    Ok(state_of(b))
}

// The 104 bytes of a state, from the start.
fn put_state(out: &mut [u8], s: Hash) -> usize
    ensures { Wrote out.old 0 (bytes_of_state s) out.new result }
{
    let a = sha256::put_words(out, 0, s.chain);
    let b = littleendian::put_number(out, a, s.count, 8);
    buffer::put_bytes(out, b, &s.pending)
}

// The state before the first piece: 11 with 104, or 104.
pub fn start_in(state: &mut [u8]) -> Result<usize, Refusal>
    ensures result_value { answer result ≡ written (bytes_of_state started) state.old }
    ensures state_after { state.new ≡ filled (bytes_of_state started) state.old }
{
    if state.len() < STATE {
        return Err(NO_STATE);
    }
    Ok(put_state(state, sha256::start()))
}

// One piece more: 11 with 104, 35 at 0 where the message would be too long, or 104. A refusal changes nothing.
pub fn add_in(state: &mut [u8], piece: &[u8]) -> Result<usize, Refusal>
    ensures result_value { answer result ≡ writes bytes_of_state (add_in state.old piece.now) state.old }
    ensures state_after { state.new ≡ leaves bytes_of_state (add_in state.old piece.now) state.old }
{
    // no `lent_state`: a state in a `Result` is copied twice, which short pieces feel
    if state.len() < STATE {
        return Err(NO_STATE);
    }
    let s = state_of(state);
    if sha256::is_too_long(s, piece.len()) {
        return Err(TOO_LONG);
    }
    Ok(put_state(state, sha256::add(s, piece)))
}

// The digest: 11 with 104 for a short state, 35 at 0, 11 with 32 for a short buffer, or 32.
pub fn finish_in(state: &[u8], out: &mut [u8]) -> Result<usize, Refusal>
    ensures result_value { answer result ≡ writes (λ d. d) (finish_in state.now) out.old }
    ensures out_after { out.new ≡ leaves (λ d. d) (finish_in state.now) out.old }
{
    let words = sha256::finish(lent_state(state)?).ok_or(TOO_LONG)?;
    if out.len() < DIGEST {
        return Err(Refusal {
            reason: Reason::TooLittleRoom,
            place: DIGEST,
        });
    }
    Ok(sha256::put_words(out, 0, words))
}
