// The v0 of a packed event in the pointer form: measured first, and written where it has at most 65,536 bytes and there
// is room for it.
#![tactic(auto)]

ghost use Rattle.std.specs.Prelude.{◌+◌, ◌*◌, ◌≤◌, ◌≡◌, length};
ghost use Rattle.buffer.specs.inner.Store.{Wrote};
ghost use Rattle.buffer.specs.Entry.{writes, leaves};
ghost use Rattle.moment.specs.Moment.{millis_of};
ghost use Rattle.event.specs.inner.Told.{answer};
ghost use Rattle.notepack.specs.Unpack.{text_of, unpack};
ghost use Rattle.notepack.specs.inner.Again.{texts_again, texts_end, tags_again, event_again};
ghost use Rattle.pointer.specs.Layout.{pointer, word};
ghost use Rattle.pointer.specs.Written.{filling, padded_text, padded_texts, text_pointers, tag_piece, tag_size, tag_pieces, tag_pointers, pointer_data, pointer_form};
ghost use Rattle.pointer.specs.Entries.{within65536};
ghost use Rattle.pointwrite.specs.inner.Pieces.{tag_texts, tag_end, tags_size, data_length, form_front};

use event::{Reason, Refusal};
use moment::Seconds;
use notepack::{PackedEvent, Part};

// A pointer's offset stands in the upper half of its word.
const OFFSET: u64 = 4_294_967_296;

// ---- the measure

// A tag: how many bytes its table takes, how many the table and the texts, and the place behind it.
#[derive(Clone, Copy)]
struct TagMeasured {
    table: usize,
    len: usize,
    next: usize,
}

// The length of a part's text: two digits for each raw byte.
#[tactic(auto, using(hexdigits::proofs::Texts::length_hexes), unfolding(notepack::specs::Unpack::text_of))]
fn text_len(packed: &PackedEvent, p: Part) -> usize
    ensures value { result ≡ length (text_of packed.now.bytes.now p) }
    ensures upper_bound { result ≤ 131072 }
{
    let bytes = scan::part(packed.bytes, p.at, p.len);
    if p.raw {
        return 2 * bytes.len();
    }
    bytes.len()
}

// How many zeros stand behind n bytes.
#[tactic(auto, using(pointer::proofs::Filled::length_filling))]
fn filling_len(n: usize) -> usize
    ensures value { result ≡ length (filling n) }
    ensures upper_bound { result ≤ 7 }
{
    (8 - n % 8) % 8
}

// The length of a part's text with its filling.
#[tactic(auto, using(crate::proofs::Lengths::length_padded))]
fn padded_len(packed: &PackedEvent, p: Part) -> usize
    ensures value { result ≡ length (padded_text (text_of packed.now.bytes.now p)) }
    ensures upper_bound { result ≤ 131079 }
{
    let n = text_len(packed, p);
    n + filling_len(n)
}

// The length of count texts from a place on, each with its filling, and the place behind what was read for them.
fn measure_texts(packed: &PackedEvent, from: usize, count: u64) -> (usize, usize)
    requires { count ≤ 255 }
    ensures len_value { result.0 ≡ length (padded_texts (texts_again count packed.now.bytes.now from)) }
    ensures next_value { result.1 ≡ texts_end count packed.now.bytes.now from }
    ensures len_bound { result.0 ≤ 33425145 }
{
    let mut len = 0;
    let mut i = from;
    for _ in 0..count {
        let (part, next) = notepack::part_again(packed.bytes, i);
        len += padded_len(packed, part);
        i = next;
    }
    (len, i)
}

// The tag at a place.
fn measure_tag(packed: &PackedEvent, at: usize) -> TagMeasured
    ensures table_value { result.table ≡ 8 * length (tag_texts packed.now.bytes.now at) }
    ensures len_value { result.len ≡ tag_size (tag_texts packed.now.bytes.now at) }
    ensures next_value { result.next ≡ tag_end packed.now.bytes.now at }
    ensures len_bound { result.len ≤ 33427185 }
{
    let (count, first) = notepack::count_again(packed.bytes, at);
    let table = 8 * count as usize;
    let (texts, next) = measure_texts(packed, first, count);
    TagMeasured {
        table,
        len: table + texts,
        next,
    }
}

// The tags, without the pointers to their tables.
fn measure_tags(packed: &PackedEvent) -> usize
    ensures value { result ≡ tags_size (tags_again packed.now.head.tag_count packed.now.bytes.now packed.now.head.tags_at) }
    ensures upper_bound { result ≤ 33427185000 }
{
    let mut len = 0;
    let mut next = packed.head.tags_at;
    for _ in 0..packed.head.tag_count {
        let tag = measure_tag(packed, next);
        len += tag.len;
        next = tag.next;
    }
    len
}

// The data: the content, the table of tags, the tags.
#[tactic(auto, using(crate::proofs::Whole::data_parts))]
fn data_len(packed: &PackedEvent) -> usize
    ensures value { result ≡ data_length (event_again packed.now.bytes.now packed.now.head) }
    ensures upper_bound { result ≤ 33427324079 }
{
    let content = padded_len(packed, packed.head.content);
    let tags = measure_tags(packed);
    content + 8 * packed.head.tag_count as usize + tags
}

// ---- the pieces

// A word, the lowest byte first.
fn put_word(out: &mut [u8], at: usize, w: u64) -> usize
    ensures { Wrote out.old at (word w) out.new result }
{
    littleendian::put_eight(out, at, w)
}

// A pointer to len bytes of the data from an offset on.
fn put_pointer(out: &mut [u8], at: usize, offset: usize, len: usize) -> usize
    requires { offset + len ≤ 65536 }
    ensures { Wrote out.old at (word (pointer offset len)) out.new result }
{
    put_word(out, at, OFFSET * offset as u64 + len as u64)
}

// The zeros behind n bytes, as the lowest bytes of 0: a part of an array of zeros becomes a call of `memset`, which
// takes longer for so few.
#[tactic(auto, using(crate::proofs::Lengths::filling_zeros))]
fn put_filling(out: &mut [u8], at: usize, n: usize) -> usize
    ensures { Wrote out.old at (filling n) out.new result }
{
    littleendian::put_number(out, at, 0, filling_len(n))
}

// A part's text.
#[tactic(auto, unfolding(notepack::specs::Unpack::text_of))]
fn put_text(out: &mut [u8], at: usize, packed: &PackedEvent, p: Part) -> usize
    ensures { Wrote out.old at (text_of packed.now.bytes.now p) out.new result }
{
    let bytes = scan::part(packed.bytes, p.at, p.len);
    if p.raw {
        return hexdigits::put_hex(out, at, bytes);
    }
    buffer::put_bytes(out, at, bytes)
}

// A part's text with its filling.
fn put_padded(out: &mut [u8], at: usize, packed: &PackedEvent, p: Part) -> usize
    ensures { Wrote out.old at (padded_text (text_of packed.now.bytes.now p)) out.new result }
{
    let o = put_text(out, at, packed, p);
    put_filling(out, o, text_len(packed, p))
}

// ---- a tag

// How far the writing is: the place behind what was written, the offset in the data behind what was pointed to or
// written, and the place behind what was read for it.
#[derive(Clone, Copy)]
struct Reached {
    out: usize,
    offset: usize,
    next: usize,
}

// The pointers to count texts, which stand in the data from the offset on.
#[tactic(auto, using(crate::proofs::Turns::text_steps))]
fn put_text_pointers(out: &mut [u8], from: Reached, packed: &PackedEvent, count: u64) -> Reached
    requires { from.offset + length (padded_texts (texts_again count packed.now.bytes.now from.next)) ≤ 65536 }
    ensures wrote { Wrote out.old from.out (text_pointers from.offset (texts_again count packed.now.bytes.now from.next)) out.new result.out }
    ensures offset_value { result.offset ≡ from.offset + length (padded_texts (texts_again count packed.now.bytes.now from.next)) }
    ensures next_value { result.next ≡ texts_end count packed.now.bytes.now from.next }
{
    let mut reached = from;
    for _ in 0..count {
        let (part, next) = notepack::part_again(packed.bytes, reached.next);
        reached = Reached {
            out: put_pointer(out, reached.out, reached.offset, text_len(packed, part)),
            offset: reached.offset + padded_len(packed, part),
            next,
        };
    }
    reached
}

// count texts from a place on, each with its filling.
#[tactic(auto, using(crate::proofs::Turns::text_steps))]
fn put_texts(out: &mut [u8], at: usize, packed: &PackedEvent, from: usize, count: u64) -> usize
    ensures { Wrote out.old at (padded_texts (texts_again count packed.now.bytes.now from)) out.new result }
{
    let mut o = at;
    let mut i = from;
    for _ in 0..count {
        let (part, next) = notepack::part_again(packed.bytes, i);
        o = put_padded(out, o, packed, part);
        i = next;
    }
    o
}

// The tag at a place: its table, then its texts. It stands in the data from the offset on.
fn put_tag(out: &mut [u8], from: Reached, packed: &PackedEvent) -> Reached
    requires { from.offset + tag_size (tag_texts packed.now.bytes.now from.next) ≤ 65536 }
    ensures wrote { Wrote out.old from.out (tag_piece from.offset (tag_texts packed.now.bytes.now from.next)) out.new result.out }
    ensures offset_value { result.offset ≡ from.offset + tag_size (tag_texts packed.now.bytes.now from.next) }
    ensures next_value { result.next ≡ tag_end packed.now.bytes.now from.next }
{
    let (count, first) = notepack::count_again(packed.bytes, from.next);
    let texts = Reached {
        out: from.out,
        offset: from.offset + 8 * count as usize,
        next: first,
    };
    let pointed = put_text_pointers(out, texts, packed, count);
    Reached {
        out: put_texts(out, pointed.out, packed, first, count),
        ..pointed
    }
}

// ---- the tags

// The pointers to the tables of the tags, which stand in the data from the offset on.
#[tactic(auto, using(crate::proofs::Turns::tag_steps))]
fn put_tag_pointers(out: &mut [u8], from: Reached, packed: &PackedEvent) -> usize
    requires { from.offset + tags_size (tags_again packed.now.head.tag_count packed.now.bytes.now from.next) ≤ 65536 }
    ensures { Wrote out.old from.out (tag_pointers from.offset (tags_again packed.now.head.tag_count packed.now.bytes.now from.next)) out.new result }
{
    let mut reached = from;
    for _ in 0..packed.head.tag_count {
        let tag = measure_tag(packed, reached.next);
        reached = Reached {
            out: put_pointer(out, reached.out, reached.offset, tag.table),
            offset: reached.offset + tag.len,
            next: tag.next,
        };
    }
    reached.out
}

// The tags, one after the other in the data from the offset on.
#[tactic(auto, using(crate::proofs::Turns::tag_steps))]
fn put_tags(out: &mut [u8], from: Reached, packed: &PackedEvent) -> usize
    requires { from.offset + tags_size (tags_again packed.now.head.tag_count packed.now.bytes.now from.next) ≤ 65536 }
    ensures { Wrote out.old from.out (tag_pieces from.offset (tags_again packed.now.head.tag_count packed.now.bytes.now from.next)) out.new result }
{
    let mut reached = from;
    for _ in 0..packed.head.tag_count {
        reached = put_tag(out, reached, packed);
    }
    reached.out
}

// ---- the whole

// The word of a second's milliseconds. The reader lets no later second pass.
#[tactic(auto, unfolding(moment::specs::Moment::millis_for, moment::specs::Moment::millis_of, moment::specs::Moment::word_of))]
fn time_word(seconds: Seconds) -> u64
    requires { seconds.0 ≤ 9223372036854775 }
    ensures { result ≡ millis_of seconds.0 }
{
    moment::word_of(moment::to_millis(seconds).unwrap())
}

// The form of a packed event: how many bytes its data has, each of which has an offset.
#[derive(Clone, Copy)]
struct Form<'a> {
    packed: PackedEvent<'a>,
    data_len: usize,
    ghost len_value: { data_len ≡ data_length (event_again packed.bytes.now packed.head) },
    ghost len_bound: { data_len ≤ 65536 },
}

// All in front of the data.
fn put_front(out: &mut [u8], at: usize, form: &Form) -> usize
    ensures { Wrote out.old at (form_front (event_again form.now.packed.bytes.now form.now.packed.head)) out.new result }
{
    let h = form.packed.head;
    let content = text_len(&form.packed, h.content);
    let tags = padded_len(&form.packed, h.content);
    let a = put_word(out, at, 72 + form.data_len as u64);
    let b = buffer::put_part(out, a, form.packed.bytes, 32, 32);
    let c = put_word(out, b, h.kind);
    let d = put_word(out, c, time_word(Seconds(h.created_at)));
    let e = put_pointer(out, d, 0, content);
    put_pointer(out, e, tags, 8 * h.tag_count as usize)
}

// The data.
fn put_data(out: &mut [u8], at: usize, form: &Form) -> usize
    ensures { Wrote out.old at (pointer_data (event_again form.now.packed.bytes.now form.now.packed.head)) out.new result }
{
    let h = form.packed.head;
    let offset = padded_len(&form.packed, h.content) + 8 * h.tag_count as usize;
    let a = put_padded(out, at, &form.packed, h.content);
    let tags = Reached {
        out: a,
        offset,
        next: h.tags_at,
    };
    let b = put_tag_pointers(out, tags, &form.packed);
    put_tags(out, Reached { out: b, ..tags }, &form.packed)
}

// The whole form: id and sig last.
fn put_form(out: &mut [u8], form: &Form) -> usize
    ensures { Wrote out.old 0 (pointer_form (event_again form.now.packed.bytes.now form.now.packed.head)) out.new result }
{
    let a = put_front(out, 0, form);
    let b = put_data(out, a, form);
    let c = buffer::put_part(out, b, form.packed.bytes, 0, 32);
    buffer::put_part(out, c, form.packed.bytes, 64, 64)
}

// The v0 of a packed event: the reader's refusals, 29 where it would pass 65,536 bytes, then 11 with the length needed;
// else written from the start.
pub fn write_pointer(s: &[u8], out: &mut [u8]) -> Result<usize, Refusal>
    ensures result_value { answer result ≡ writes pointer_form (within65536 pointer_form (unpack s.now)) out.old }
    ensures out_after { out.new ≡ leaves pointer_form (within65536 pointer_form (unpack s.now)) out.old }
{
    let (head, _) = notepack::walk_packed(s)?;
    let packed = PackedEvent { bytes: s, head };
    let data = data_len(&packed);
    let len = 168 + data;
    if event::MAX_INPUT < len {
        return Err(Refusal {
            reason: Reason::FormTooLong,
            place: 0,
        });
    }
    if out.len() < len {
        return Err(Refusal {
            reason: Reason::TooLittleRoom,
            place: len,
        });
    }
    let form = Form {
        packed,
        data_len: data,
    };
    Ok(put_form(out, &form))
}
