// SHA-256 (FIPS 180-4) of a message that comes in consecutive pieces.
#![tactic(auto)]

ghost use Rattle.std.specs.Prelude.{◌≡◌, ◌+◌, ◌^◌, ◌<◌, ◌≤◌, ◌++◌, length, take};
ghost use Rattle.buffer.specs.inner.Store.{Wrote};
ghost use Rattle.sha256.specs.Operations.{Ch, Maj, Σ0, Σ1, σ0, σ1};
ghost use Rattle.sha256.specs.Compression.{word_of, words_of, next_word, schedule};
ghost use Rattle.sha256.specs.Compression.{round, rounds, add_words, compress};
ghost use Rattle.sha256.specs.Message.{word_bytes, long_bytes, digest_bytes, hashed};
ghost use Rattle.sha256.specs.Pieces.{zero_filled, started, is_too_long, added_to, final_words, finish_of, settled};
ghost use Rattle.sha256.specs.inner.Answers.{finish_told};

// The 64 constants (4.2.2).
static K: [u32; 64] = [
    0x428a2f98, 0x71374491, 0xb5c0fbcf, 0xe9b5dba5, 0x3956c25b, 0x59f111f1, 0x923f82a4, 0xab1c5ed5,
    0xd807aa98, 0x12835b01, 0x243185be, 0x550c7dc3, 0x72be5d74, 0x80deb1fe, 0x9bdc06a7, 0xc19bf174,
    0xe49b69c1, 0xefbe4786, 0x0fc19dc6, 0x240ca1cc, 0x2de92c6f, 0x4a7484aa, 0x5cb0a9dc, 0x76f988da,
    0x983e5152, 0xa831c66d, 0xb00327c8, 0xbf597fc7, 0xc6e00bf3, 0xd5a79147, 0x06ca6351, 0x14292967,
    0x27b70a85, 0x2e1b2138, 0x4d2c6dfc, 0x53380d13, 0x650a7354, 0x766a0abb, 0x81c2c92e, 0x92722c85,
    0xa2bfe8a1, 0xa81a664b, 0xc24b8b70, 0xc76c51a3, 0xd192e819, 0xd6990624, 0xf40e3585, 0x106aa070,
    0x19a4c116, 0x1e376c08, 0x2748774c, 0x34b0bcb5, 0x391c0cb3, 0x4ed8aa4a, 0x5b9cca4f, 0x682e6ff3,
    0x748f82ee, 0x78a5636f, 0x84c87814, 0x8cc70208, 0x90befffa, 0xa4506ceb, 0xbef9a3f7, 0xc67178f2,
];

// Two to the power 61: a message is shorter, so that its length in bits has 64 bits.
const LIMIT: u64 = 1 << 61;

// The eight words of a hash value, or of the working variables. No array: a round reads as the standard's lines, by
// name.
#[derive(Clone, Copy)]
pub struct Words {
    pub a: u32,
    pub b: u32,
    pub c: u32,
    pub d: u32,
    pub e: u32,
    pub f: u32,
    pub g: u32,
    pub h: u32,
}

// 4.1.2: the six functions.
#[tactic(auto, unfolding(crate::specs::Operations::Ch))]
fn ch(x: u32, y: u32, z: u32) -> u32
    ensures { result ≡ Ch x y z }
{
    (x & y) ^ (!x & z)
}

#[tactic(auto, unfolding(crate::specs::Operations::Maj))]
fn maj(x: u32, y: u32, z: u32) -> u32
    ensures { result ≡ Maj x y z }
{
    (x & y) ^ (x & z) ^ (y & z)
}

fn big0(x: u32) -> u32
    ensures { result ≡ Σ0 x }
{
    x.rotate_right(2) ^ x.rotate_right(13) ^ x.rotate_right(22)
}

fn big1(x: u32) -> u32
    ensures { result ≡ Σ1 x }
{
    x.rotate_right(6) ^ x.rotate_right(11) ^ x.rotate_right(25)
}

fn small0(x: u32) -> u32
    ensures { result ≡ σ0 x }
{
    x.rotate_right(7) ^ x.rotate_right(18) ^ (x >> 3)
}

fn small1(x: u32) -> u32
    ensures { result ≡ σ1 x }
{
    x.rotate_right(17) ^ x.rotate_right(19) ^ (x >> 10)
}

// 6.2.2, step 1: word t of the schedule, from the words t - 2, t - 7, t - 15 and t - 16.
#[tactic(auto, unfolding(crate::specs::Compression::next_word))]
fn next_word(w2: u32, w7: u32, w15: u32, w16: u32) -> u32
    ensures { result ≡ next_word w2 w7 w15 w16 }
{
    small1(w2)
        .wrapping_add(w7)
        .wrapping_add(small0(w15))
        .wrapping_add(w16)
}

// 6.2.2, step 3: one round, with its constant and its word.
#[tactic(auto, unfolding(crate::specs::Compression::round))]
fn one_round(v: Words, k: u32, w: u32) -> Words
    ensures { result ≡ round v k w }
{
    let t1 = v
        .h
        .wrapping_add(big1(v.e))
        .wrapping_add(ch(v.e, v.f, v.g))
        .wrapping_add(k)
        .wrapping_add(w);
    let t2 = big0(v.a).wrapping_add(maj(v.a, v.b, v.c));
    Words {
        a: t1.wrapping_add(t2),
        b: v.a,
        c: v.b,
        d: v.c,
        e: v.d.wrapping_add(t1),
        f: v.e,
        g: v.f,
        h: v.g,
    }
}

// 5.2.1: the word that four bytes are, the first the highest.
#[tactic(auto, unfolding(crate::specs::Compression::word_of))]
pub fn word_of(a: u8, b: u8, c: u8, d: u8) -> u32
    ensures { result ≡ word_of a b c d }
{
    u32::from_be_bytes([a, b, c, d])
}

// 6.2.2, step 1: the first sixteen words of the schedule are those of the block.
fn load(w: &mut [u32; 64], block: &[u8])
    requires { length block.now ≡ 64 }
    ensures { take 16 w.new ≡ words_of block.now }
{
    for (t, &[a, b, c, d]) in block.as_chunks::<4>().0.iter().enumerate() {
        w[t] = word_of(a, b, c, d);
    }
}

// 6.2.2, step 1: eight more, from word t on, each from those before it.
fn extend_eight(w: &mut [u32; 64], t: usize)
    requires from { 16 ≤ t }
    requires to { t + 8 ≤ 64 }
    ensures { take (t + 8) w.new ≡ schedule 8 (take t w.old) }
{
    for i in t..t + 8 {
        w[i] = next_word(w[i - 2], w[i - 7], w[i - 15], w[i - 16]);
    }
}

// 6.2.2, step 3: eight rounds from round t on.
fn eight_rounds(w: &[u32; 64], t: usize, v: Words) -> Words
    requires { t + 8 ≤ 64 }
    ensures { result ≡ rounds w.now 8 t v }
{
    let mut v = v;
    for i in t..t + 8 {
        v = one_round(v, K[i], w[i]);
    }
    v
}

// All 64, over the sixteen words that are loaded. The others are made eight at a time, sixteen in front of the rounds
// that take them: so neither waits for the other. All words first, and then all rounds, was tried: a fifth slower.
fn all_rounds(w: &mut [u32; 64], v: Words) -> Words
    ensures { result ≡ rounds (schedule 48 (take 16 w.old)) 64 0 v }
{
    let mut v = v;
    for i in 0..6 {
        extend_eight(w, 8 * i + 16);
        v = eight_rounds(w, 8 * i, v);
    }
    let v = eight_rounds(w, 48, v);
    eight_rounds(w, 56, v)
}

// 6.2.2, step 4: word by word.
#[tactic(auto, unfolding(crate::specs::Compression::add_words))]
fn add_words(x: Words, y: Words) -> Words
    ensures { result ≡ add_words x y }
{
    Words {
        a: x.a.wrapping_add(y.a),
        b: x.b.wrapping_add(y.b),
        c: x.c.wrapping_add(y.c),
        d: x.d.wrapping_add(y.d),
        e: x.e.wrapping_add(y.e),
        f: x.f.wrapping_add(y.f),
        g: x.g.wrapping_add(y.g),
        h: x.h.wrapping_add(y.h),
    }
}

// 6.2.2: what one block does to the hash value.
#[tactic(auto, unfolding(crate::specs::Compression::compress))]
fn compress_block(w: &mut [u32; 64], h: Words, block: &[u8]) -> Words
    requires { length block.now ≡ 64 }
    ensures { result ≡ compress h block.now }
{
    load(w, block);
    let v = all_rounds(w, h);
    add_words(v, h)
}

// The whole blocks of s, one after the other.
fn whole_blocks(h: Words, s: &[u8]) -> Words
    ensures { result ≡ hashed h s.now }
{
    let mut h = h;
    let mut w = [0u32; 64];
    for block in s.chunks_exact(64) {
        h = compress_block(&mut w, h, block);
    }
    h
}

// The four bytes of a word, the highest first.
#[tactic(auto, unfolding(crate::specs::Message::word_bytes))]
fn put_word(out: &mut [u8], at: usize, x: u32) -> usize
    ensures { Wrote out.old at (word_bytes x) out.new result }
{
    buffer::put_bytes(out, at, &x.to_be_bytes())
}

// The 32 bytes of a hash value.
pub fn put_words(out: &mut [u8], at: usize, v: Words) -> usize
    ensures { Wrote out.old at (digest_bytes v) out.new result }
{
    let b = put_word(out, at, v.a);
    let c = put_word(out, b, v.b);
    let d = put_word(out, c, v.c);
    let e = put_word(out, d, v.d);
    let f = put_word(out, e, v.e);
    let g = put_word(out, f, v.f);
    let h = put_word(out, g, v.g);
    put_word(out, h, v.h)
}

// The eight bytes of a number, the highest first.
#[tactic(auto, unfolding(crate::specs::Message::long_bytes, crate::specs::Message::word_bytes))]
fn put_long(out: &mut [u8], at: usize, n: u64) -> usize
    ensures { Wrote out.old at (long_bytes n) out.new result }
{
    buffer::put_bytes(out, at, &n.to_be_bytes())
}

// The state between the pieces of a message of `count` bytes so far. Of `pending` the first `count % 64` bytes wait for
// their block.
#[derive(Clone, Copy)]
pub struct Hash {
    pub chain: Words,
    pub pending: [u8; 64],
    pub count: u64,
}

// 5.3.3: the state before the first piece.
#[tactic(auto, unfolding(crate::specs::Pieces::started, crate::specs::Constants::initial))]
pub fn start() -> Hash
    ensures { result ≡ started }
{
    Hash {
        chain: Words {
            a: 0x6a09e667,
            b: 0xbb67ae85,
            c: 0x3c6ef372,
            d: 0xa54ff53a,
            e: 0x510e527f,
            f: 0x9b05688c,
            g: 0x1f83d9ab,
            h: 0x5be0cd19,
        },
        pending: [0; 64],
        count: 0,
    }
}

// Whether n bytes more would bring the message to the limit or past it.
#[tactic(auto, using(crate::proofs::Filling::long_shift), unfolding(crate::specs::Pieces::is_too_long))]
pub fn is_too_long(s: Hash, n: usize) -> bool
    ensures { result ≡ is_too_long s n }
{
    s.count >= LIMIT || n as u64 >= LIMIT - s.count
}

// Two parts, and zeros behind them.
fn block_of(front: &[u8], piece: &[u8]) -> [u8; 64]
    requires { length front.now + length piece.now ≤ 64 }
    ensures { result ≡ zero_filled (front.now ++ piece.now) }
{
    let mut block = [0u8; 64];
    let a = buffer::put_bytes(&mut block, 0, front);
    buffer::put_bytes(&mut block, a, piece);
    block
}

// The state behind the bytes of l, where h was before them: whole blocks are hashed, and the rest waits.
fn settle(h: Words, l: &[u8], count: u64) -> Hash
    ensures { result ≡ settled h l.now count }
{
    let done = l.len() / 64 * 64;
    Hash {
        chain: whole_blocks(h, l),
        pending: block_of(&l[done..], &[]),
        count,
    }
}

// One piece more; the state as it was where the message would be too long.
pub fn add(s: Hash, piece: &[u8]) -> Hash
    ensures { result ≡ added_to s piece.now }
{
    if is_too_long(s, piece.len()) {
        return s;
    }
    let waits = (s.count % 64) as usize;
    let count = s.count + piece.len() as u64;
    if waits == 0 {
        return settle(s.chain, piece, count);
    }
    let room = 64 - waits;
    if piece.len() < room {
        return Hash {
            pending: block_of(&s.pending[..waits], piece),
            count,
            ..s
        };
    }
    let (front, rest) = piece.split_at(room);
    let block = block_of(&s.pending[..waits], front);
    settle(whole_blocks(s.chain, &block), rest, count)
}

// 5.1.1: the bytes that wait and the padding, which are the last block or the last two.
fn finish_words(s: Hash) -> Words
    requires { s.count < 2 ^ 61 }
    ensures { result ≡ final_words s }
{
    let waits = (s.count % 64) as usize;
    let zeros = [0u8; 64];
    let mut buf = [0u8; 128];
    let a = buffer::put_bytes(&mut buf, 0, &s.pending[..waits]);
    let b = buffer::put_byte(&mut buf, a, 128);
    let n = (119 - waits) % 64;
    let c = buffer::put_bytes(&mut buf, b, &zeros[..n]);
    let d = put_long(&mut buf, c, 8 * s.count);
    whole_blocks(s.chain, &buf[..d])
}

// The hash value of all pieces, or none where the message is too long.
#[tactic(auto, unfolding(crate::specs::Pieces::finish_of, crate::specs::Pieces::finished))]
pub fn finish(s: Hash) -> Option<Words>
    ensures { finish_told result ≡ finish_of s }
{
    if is_too_long(s, 0) {
        None
    } else {
        Some(finish_words(s))
    }
}
