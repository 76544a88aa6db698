// A v0 of the pointer form, written as the strict form of its event.
#![tactic(auto)]

ghost use Rattle.std.specs.Prelude.{◌+◌, ◌*◌, ◌≤◌, ◌≡◌, length};
ghost use Rattle.scan.specs.Choice.{shown};
ghost use Rattle.buffer.specs.inner.Store.{Wrote};
ghost use Rattle.buffer.specs.Entry.{writes, leaves};
ghost use Rattle.event.specs.inner.Told.{answer};
ghost use Rattle.notepack.specs.Strict.{pack_elements, pack_tags, pack};
ghost use Rattle.pointer.specs.Pointer.{header_at, entries_in};
ghost use Rattle.pointer.specs.Named.{part_named};
ghost use Rattle.pointer.specs.Entries.{within65536, convertible};
ghost use Rattle.pointer.specs.inner.Again.{texts_from, tags_from};
ghost use Rattle.pointread.specs.inner.Answers.{fields_in};
ghost use Rattle.pointconvert.specs.inner.Again.{form_event, packed_front, Holds};
ghost use Rattle.pointconvert.specs.inner.Fitting.{fitting};

use event::{Reason, Refusal};
use moment::Seconds;
use pointfields::FormVersion;
use pointread::Outline;

// A length, where it is at most 65,536.
fn fitting(len: usize) -> Option<usize>
    ensures { result ≡ fitting len }
{
    (len <= event::MAX_INPUT).then_some(len)
}

// The table that a pointer names: n pointers, from a place on. A word has 64 bits, so neither number is large; what the
// pointers name may be anything, and may be shared.
#[derive(Clone, Copy)]
struct Table<'a> {
    s: &'a [u8],
    at: usize,
    n: usize,
    ghost near: { at ≤ 4_294_967_368 },
    ghost few: { n ≤ 536_870_912 },
}

impl<'a> Table<'a> {
    // The table that the pointer at a place names.
    #[tactic(auto, using(crate::proofs::Turns::place_small, crate::proofs::Turns::few_named, scan::proofs::AllLaws::all_places))]
    fn named(s: &'a [u8], at: usize) -> Table<'a>
        ensures { (result.s.now ≡ s.now) × (result.at ≡ (part_named s.now at).at) × (result.n ≡ entries_in (part_named s.now at)) }
    {
        let p = pointfields::named_at(s, at);
        Table {
            s,
            at: p.at,
            n: p.len / 8,
        }
    }

    // ---- the length of the strict form, or none where it passes 65,536 bytes

    // A sum of lengths, and the texts that the table names. It stops once it passes 65,536: a text may be named by any
    // number of pointers.
    #[tactic(auto, using(crate::proofs::Turns::texts_measured))]
    fn measure_texts(&self, sum: usize) -> Option<usize>
        requires { sum ≤ 65_536 }
        ensures { result ≡ fitting (sum + length (pack_elements (texts_from self.now.n self.now.s.now self.now.at))) }
    {
        let mut total = sum;
        for i in 0..self.n {
            let p = pointfields::named_at(self.s, self.at + 8 * i);
            let len = notepack::packed_text_len(scan::part(self.s, p.at, p.len));
            total = fitting(total + len)?;
        }
        Some(total)
    }

    // The same of the tags whose tables it names.
    #[tactic(auto, using(crate::proofs::Turns::tags_measured))]
    fn measure_tags(&self, sum: usize) -> Option<usize>
        requires { sum ≤ 65_536 }
        ensures { result ≡ fitting (sum + length (pack_tags (tags_from self.now.n self.now.s.now self.now.at))) }
    {
        let mut total = sum;
        for i in 0..self.n {
            let tag = Table::named(self.s, self.at + 8 * i);
            let before = fitting(total + varint::varint_len(tag.n as u64))?;
            total = tag.measure_texts(before)?;
        }
        Some(total)
    }

    // ---- writing

    // The texts.
    #[tactic(auto, using(crate::proofs::Turns::texts_written))]
    fn put_texts(&self, out: &mut [u8], at: usize) -> usize
        ensures { Wrote out.old at (pack_elements (texts_from self.now.n self.now.s.now self.now.at)) out.new result }
    {
        let mut o = at;
        for i in 0..self.n {
            let p = pointfields::named_at(self.s, self.at + 8 * i);
            o = strict::put_packed_text(out, o, scan::part(self.s, p.at, p.len));
        }
        o
    }

    // The tags.
    #[tactic(auto, using(crate::proofs::Turns::tags_written))]
    fn put_tags(&self, out: &mut [u8], at: usize) -> usize
        ensures { Wrote out.old at (pack_tags (tags_from self.now.n self.now.s.now self.now.at)) out.new result }
    {
        let mut o = at;
        for i in 0..self.n {
            let tag = Table::named(self.s, self.at + 8 * i);
            o = varint::put_varint(out, o, tag.n as u64);
            o = tag.put_texts(out, o);
        }
        o
    }
}

// A v0 that was read, with the second that its time says.
#[derive(Clone, Copy)]
struct Form<'a> {
    s: &'a [u8],
    outline: Outline,
    second: Seconds,
    ghost holds: { Holds s.now (fields_in outline) },
}

impl<'a> Form<'a> {
    // The length of all in front of the tags.
    #[tactic(auto, using(crate::proofs::Event::front_length))]
    fn front_len(&self) -> usize
        ensures { result ≡ length (packed_front self.now.s.now (fields_in self.now.outline) self.now.second.0) }
    {
        let outline = self.outline;
        let content = outline.content;
        128 + varint::varint_len(self.second.0)
            + varint::varint_len(outline.kind)
            + varint::varint_len(content.len as u64)
            + content.len
            + varint::varint_len(outline.tag_count)
    }

    // The length of the whole strict form, or none.
    #[tactic(auto, using(crate::proofs::Event::measured, crate::proofs::Turns::fits_most))]
    fn measure(&self) -> Option<usize>
        ensures { result ≡ fitting (length (pack (form_event self.now.s.now (fields_in self.now.outline) self.now.second.0))) }
    {
        let front = fitting(self.front_len())?;
        Table::named(self.s, 64).measure_tags(front)
    }

    // All in front of the tags.
    fn put_front(&self, out: &mut [u8]) -> usize
        ensures { Wrote out.old 0 (packed_front self.now.s.now (fields_in self.now.outline) self.now.second.0) out.new result }
    {
        let s = self.s;
        let outline = self.outline;
        let content = outline.content;
        let a = buffer::put_part(out, 0, s, s.len() - 96, 32);
        let b = buffer::put_part(out, a, s, 8, 32);
        let c = buffer::put_part(out, b, s, s.len() - 64, 64);
        let d = varint::put_varint(out, c, self.second.0);
        let e = varint::put_varint(out, d, outline.kind);
        let g = varint::put_varint(out, e, content.len as u64);
        let h = buffer::put_part(out, g, s, content.at, content.len);
        varint::put_varint(out, h, outline.tag_count)
    }

    // The whole strict form.
    fn put_event(&self, out: &mut [u8]) -> usize
        ensures { Wrote out.old 0 (pack (form_event self.now.s.now (fields_in self.now.outline) self.now.second.0)) out.new result }
    {
        let o = self.put_front(out);
        Table::named(self.s, 64).put_tags(out, o)
    }

    // The event: 29 where its strict form would pass 65,536 bytes, then 11 with the length needed; else written from
    // the start.
    fn write_event(&self, out: &mut [u8]) -> Result<usize, Refusal>
        ensures result_value { answer result ≡ writes pack (within65536 pack (shown (form_event self.now.s.now (fields_in self.now.outline) self.now.second.0))) out.old }
        ensures out_after { out.new ≡ leaves pack (within65536 pack (shown (form_event self.now.s.now (fields_in self.now.outline) self.now.second.0))) out.old }
    {
        let Some(n) = self.measure() else {
            return Err(Refusal {
                reason: Reason::FormTooLong,
                place: 0,
            });
        };
        if out.len() < n {
            return Err(Refusal {
                reason: Reason::TooLittleRoom,
                place: n,
            });
        }
        Ok(self.put_event(out))
    }
}

// ---- converting

// A v0: what reading refuses, then as its event is written.
#[tactic(auto, using(crate::proofs::Converting::no_form, crate::proofs::Converting::form_holds, crate::proofs::Converting::event_shown))]
fn convert_first(s: &[u8], out: &mut [u8]) -> Result<usize, Refusal>
    requires { header_at s.now ≡ shown 0 }
    ensures result_value { answer result ≡ writes pack (convertible s.now) out.old }
    ensures out_after { out.new ≡ leaves pack (convertible s.now) out.old }
{
    let outline = pointread::read_form(s)?;
    let Some(second) = moment::to_seconds(outline.time) else {
        return Err(Refusal {
            reason: Reason::SplitSecond,
            place: 48,
        });
    };
    let form = Form { s, outline, second };
    form.write_event(out)
}

// The strict form of a v0's event. A v1 is 26 before any field is read.
#[tactic(auto, using(crate::proofs::Converting::no_header, crate::proofs::Converting::not_first))]
pub fn convert(s: &[u8], out: &mut [u8]) -> Result<usize, Refusal>
    ensures result_value { answer result ≡ writes pack (convertible s.now) out.old }
    ensures out_after { out.new ≡ leaves pack (convertible s.now) out.old }
{
    if pointfields::version(s)? == FormVersion::V1 {
        return Err(Refusal {
            reason: Reason::BadHeader,
            place: 0,
        });
    }
    convert_first(s, out)
}
