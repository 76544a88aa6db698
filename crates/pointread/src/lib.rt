// The reader of the pointer form, in time linear in the input, although pointers may share what they name. The tags are
// walked plainly first, as long as what they name is together no longer than the data. Past that, two tables of the
// data's words, each filled backwards once, answer for each text and each tag in constant time.
#![tactic(auto)]

ghost use Rattle.std.specs.Prelude.{◌+◌, ◌*◌, ◌/◌, ◌≤◌, ◌≡◌, length};
ghost use Rattle.scan.specs.Choice.{and_then, shown};
ghost use Rattle.utf8.specs.inner.Width.{is_utf8};
ghost use Rattle.event.specs.inner.Told.{answer};
ghost use Rattle.notepack.specs.Unpack.{bytes_of};
ghost use Rattle.notepack.specs.Views.{view};
ghost use Rattle.pointer.specs.Pointer.{header_at, asked, data_size, form_at};
ghost use Rattle.pointer.specs.Entries.{pointer_texts, pointer_element};
ghost use Rattle.pointer.specs.inner.Data.{data_in};
ghost use Rattle.pointfields.specs.inner.Answers.{number_of};
ghost use Rattle.pointread.specs.inner.Answers.{fields_of, outline_read, checked, Says};
ghost use Rattle.pointread.specs.inner.Tables.{Lies, Stopped, is_good, Filled};
ghost use Rattle.pointread.specs.inner.Walk.{front_at, pointed_tag, texts_fault, tag_fault, tags_fault, tag_table};
ghost use Rattle.pointread.specs.inner.Once.{shown_once};

use event::{Reason, Refusal};
use moment::Millis;
use notepack::Part;
use pointfields::FormVersion;

// What a form has besides its tags. The content stands in the bytes given.
#[derive(Clone, Copy)]
pub struct Outline {
    pub version: FormVersion,
    pub kind: u64,
    pub time: Millis,
    pub content: Part,
    pub tag_count: u64,
}

// The bytes of a form, and the version that its header says. It is small, and goes in by value, as the structs over it:
// then the machine code is that of its fields as parameters.
#[derive(Clone, Copy)]
struct Form<'a> {
    s: &'a [u8],
    version: FormVersion,
    ghost header: { header_at s.now ≡ shown (number_of version) } by { shown_once (header_at s.now) (number_of version) },
}

// n pointers, from a place on: the texts of a tag, or the tags.
#[derive(Clone, Copy)]
struct Table<'a> {
    form: Form<'a>,
    at: usize,
    n: usize,
    ghost inside: { at + 8 * n ≤ length form.s.now },
}

// ---- tags, plainly. A walk finds nothing wrong and tells how many bytes may still be walked; or it is given up, since
// more was named than may be walked; or it tells the refusal.

impl<'a> Table<'a> {
    // Texts, one after the other, of together at most so many bytes.
    #[tactic(auto, using(crate::proofs::Turns::texts))]
    fn walk_texts(self, most: usize) -> Result<Option<usize>, Refusal>
        ensures { Says result (texts_fault (number_of self.entry.form.version) self.entry.form.s.now self.entry.n self.entry.at) }
    {
        let mut rest = most;
        for i in 0..self.n {
            let p = pointfields::text_at(self.form.version, self.form.s, self.at + 8 * i)?;
            let Some(left) = rest.checked_sub(p.len) else {
                return Ok(None);
            };
            rest = left;
        }
        Ok(Some(rest))
    }

    // Tags, one after the other.
    #[tactic(auto, using(crate::proofs::Turns::tags_by_fault))]
    fn walk_tags(self, most: usize) -> Result<Option<usize>, Refusal>
        ensures { Says result (tags_fault (number_of self.entry.form.version) self.entry.form.s.now self.entry.n self.entry.at) }
    {
        let mut rest = most;
        for i in 0..self.n {
            let Some(left) = self.form.walk_tag(self.at + 8 * i, rest)? else {
                return Ok(None);
            };
            rest = left;
        }
        Ok(Some(rest))
    }
}

impl<'a> Form<'a> {
    // A tag: its table, then its texts.
    #[tactic(auto, using(crate::proofs::Turns::tag, crate::proofs::Tags::tag_ends, crate::proofs::Forms::header_long))]
    fn walk_tag(self, at: usize, most: usize) -> Result<Option<usize>, Refusal>
        ensures { Says result (tag_fault (number_of self.entry.version) self.entry.s.now at) }
    {
        let p = pointfields::tag_table_at(self.version, self.s, at)?;
        let Some(left) = most.checked_sub(p.len) else {
            return Ok(None);
        };
        let texts = Table {
            form: self,
            at: p.at,
            n: p.len / 8,
        };
        texts.walk_texts(left)
    }
}

// ---- texts and words, by the table of stops

impl<'a> Form<'a> {
    // The data.
    fn data(self) -> &'a [u8]
        ensures { result.now ≡ data_in self.entry.s.now }
    {
        scan::part(self.s, 72, pointfields::data_size(self.s))
    }

    // The table of stops, as the version needs it: a v1 asks no text.
    #[tactic(auto, using(crate::proofs::Texts::stops_none, crate::proofs::Forms::header_long))]
    fn prepare(self, stops: &mut [u16])
        requires { (data_size self.s.now + 7) / 8 ≤ length stops.old }
        ensures { Stopped (number_of self.entry.version) self.entry.s.now stops.new }
    {
        if self.version == FormVersion::V0 {
            utf8stops::fill_stops(stops, self.data());
        }
    }
}

// A form, and the table of its stops: from each word of the data on, where a text that starts there stops.
#[derive(Clone, Copy)]
struct Stops<'a> {
    form: Form<'a>,
    stops: &'a [u16],
    ghost stopped: { Stopped (number_of form.version) form.s.now stops.now },
}

impl<'a> Stops<'a> {
    // Whether a part of the data is what the version asks of a text. An empty one may stand at the data's end.
    #[tactic(auto, using(crate::proofs::Texts::parts, crate::proofs::Forms::header_short))]
    fn is_text(self, p: Part) -> bool
        requires { Lies self.form.s.now p }
        ensures { result ≡ asked (number_of self.entry.form.version) (is_utf8 (bytes_of self.entry.form.s.now p)) }
    {
        if self.form.version == FormVersion::V1 || p.len == 0 {
            return true;
        }
        let offset = p.at - 72;
        utf8stops::ends_at(
            self.form.data(),
            self.stops[offset / 8] as usize,
            offset + p.len,
        )
    }

    // Whether word i of the data points to a text.
    #[tactic(auto, using(crate::proofs::Texts::words))]
    fn is_good(self, i: u16) -> bool
        ensures { result ≡ is_good (number_of self.entry.form.version) self.entry.form.s.now i }
    {
        match pointfields::piece_at(self.form.s, 72 + 8 * i as usize) {
            Ok(p) => self.is_text(p),
            Err(_) => false,
        }
    }

    // Backwards: the first bad word from i on is i, or the first from i + 1 on.
    #[tactic(auto, using(crate::proofs::Bad::fill_none, crate::proofs::Bad::none_bad, crate::proofs::Forms::header_short))]
    fn fill_bad(self, bad: &mut [u16])
        requires { data_size self.form.s.now / 8 ≤ length bad.old }
        ensures { Filled (number_of self.entry.form.version) self.entry.form.s.now (data_size self.entry.form.s.now / 8) 0 bad.new }
    {
        let n = (pointfields::data_size(self.form.s) / 8) as u16;
        let mut first = n;
        for i in (0..n).rev() {
            if !self.is_good(i) {
                first = i;
            }
            bad[i as usize] = first;
        }
    }
}

// ---- tags, by the table of the first bad words

// The tags of a form, and the table of the first bad words: from each word of the data on, the first that points to no
// text.
#[derive(Clone, Copy)]
struct Shared<'a> {
    table: Table<'a>,
    bad: &'a [u16],
    ghost filled: { Filled (number_of table.form.version) table.form.s.now (data_size table.form.s.now / 8) 0 bad.now },
}

impl<'a> Shared<'a> {
    // A tag: its table, and none of its words is bad.
    #[tactic(auto, using(crate::proofs::Tags::tables))]
    fn tag_at(self, at: usize) -> Result<Part, Refusal>
        ensures { answer result ≡ pointed_tag (number_of self.entry.table.form.version) self.entry.table.form.s.now at }
    {
        let form = self.table.form;
        let p = pointfields::tag_table_at(form.version, form.s, at)?;
        let n = p.len / 8;
        if n == 0 {
            return Ok(p);
        }
        let w = (p.at - 72) / 8;
        let b = self.bad[w] as usize;
        if b < w + n {
            return pointfields::text_at(form.version, form.s, 72 + 8 * b);
        }
        Ok(p)
    }

    // All of them, one after the other.
    #[tactic(auto, using(crate::proofs::Turns::tags))]
    fn check(self) -> Result<(), Refusal>
        ensures { checked result ≡ tags_fault (number_of self.entry.table.form.version) self.entry.table.form.s.now self.entry.table.n self.entry.table.at }
    {
        for i in 0..self.table.n {
            self.tag_at(self.table.at + 8 * i)?;
        }
        Ok(())
    }
}

// ---- the whole form

impl<'a> Table<'a> {
    // Tags, from two tables that have an entry for each word of 65,536 bytes.
    #[tactic(auto, using(crate::proofs::Forms::header_short))]
    fn check_shared(self) -> Result<(), Refusal>
        ensures { checked result ≡ tags_fault (number_of self.entry.form.version) self.entry.form.s.now self.entry.n self.entry.at }
    {
        let mut stops = [0u16; 8192];
        let mut bad = [0u16; 8192];
        let form = self.form;
        form.prepare(&mut stops);
        let texts = Stops {
            form,
            stops: &stops,
        };
        texts.fill_bad(&mut bad);
        let tags = Shared {
            table: self,
            bad: &bad,
        };
        tags.check()
    }

    // Tags: plainly, and by the tables where the plain walk is given up.
    fn check_walk(self) -> Result<(), Refusal>
        ensures { checked result ≡ tags_fault (number_of self.entry.form.version) self.entry.form.s.now self.entry.n self.entry.at }
    {
        match self.walk_tags(pointfields::data_size(self.form.s))? {
            Some(_) => Ok(()),
            None => self.check_shared(),
        }
    }
}

impl<'a> Form<'a> {
    // All fields, and of the tags how many they are.
    #[tactic(auto, unfolding(crate::specs::inner::Walk::front_at))]
    fn front(self) -> Result<Outline, Refusal>
        ensures { outline_read result ≡ front_at (number_of self.entry.version) self.entry.s.now }
    {
        let Form { s, version } = self;
        let kind = pointfields::kind_at(version, s)?;
        let time = pointfields::time_at(version, s)?;
        let content = pointfields::text_at(version, s, 56)?;
        let tags = pointfields::tags_table_at(version, s)?;
        Ok(Outline {
            version,
            kind,
            time,
            content,
            tag_count: (tags.len / 8) as u64,
        })
    }

    // The form behind its header.
    #[tactic(auto, using(crate::proofs::Forms::walk_refused, crate::proofs::Forms::tags_fit_lem))]
    fn read(self) -> Result<Outline, Refusal>
        ensures { outline_read result ≡ and_then (form_at self.entry.s.now) (λ f. shown (fields_of f)) }
    {
        let o = self.front()?;
        let tags = Table {
            form: self,
            at: pointfields::named_at(self.s, 64).at,
            n: o.tag_count as usize,
        };
        tags.check_walk()?;
        Ok(o)
    }
}

// The outline of a form of either version, or the refusal.
#[tactic(auto, unfolding(pointer::specs::Pointer::form_at))]
pub fn read_form(s: &[u8]) -> Result<Outline, Refusal>
    ensures { outline_read result ≡ and_then (form_at s.now) (λ f. shown (fields_of f)) }
{
    let version = pointfields::version(s)?;
    let form = Form { s, version };
    form.read()
}

// ---- questions

// The content, a part of the lent slice; empty where the reader refuses.
#[tactic(auto, using(crate::proofs::Asking::unread, crate::proofs::Asking::content_outline))]
pub fn content<'a>(s: &'a [u8]) -> &'a [u8]
    ensures { result.now ≡ view s.now (and_then (form_at s.now) (λ f. shown f.content)) }
{
    match read_form(s) {
        Ok(o) => scan::part(s, o.content.at, o.content.len),
        Err(_) => &s[..0],
    }
}

// The table of tag i, or the refusal: the reader's, then 19.
#[tactic(auto, using(crate::proofs::Asking::unread, crate::proofs::Elements::tables), unfolding(crate::specs::inner::Walk::tag_table))]
fn find_tag(s: &[u8], i: u64) -> Result<Part, Refusal>
    ensures { answer result ≡ tag_table i s.now }
{
    let o = read_form(s)?;
    if i < o.tag_count {
        let tags = pointfields::named_at(s, 64);
        return Ok(pointfields::named_at(s, tags.at + 8 * i as usize));
    }
    Err(Refusal {
        reason: Reason::NoSuch,
        place: 0,
    })
}

// The number of texts in tag i, or the refusal: the reader's, then 19.
#[tactic(auto, using(crate::proofs::Elements::texts))]
pub fn texts_in(s: &[u8], i: u64) -> Result<u64, Refusal>
    ensures { answer result ≡ pointer_texts i s.now }
{
    let p = find_tag(s, i)?;
    Ok((p.len / 8) as u64)
}

// Text j of tag i, both from 0: where it stands; or the refusal: the reader's, then 19.
#[tactic(auto, using(crate::proofs::Elements::elements, crate::proofs::Elements::place_small, scan::proofs::AllLaws::all_places))]
pub fn find_element(s: &[u8], i: u64, j: u64) -> Result<Part, Refusal>
    ensures { answer result ≡ pointer_element i j s.now }
{
    let p = find_tag(s, i)?;
    if j < (p.len / 8) as u64 {
        return Ok(pointfields::named_at(s, p.at + 8 * j as usize));
    }
    Err(Refusal {
        reason: Reason::NoSuch,
        place: 0,
    })
}

// The bytes of text j of tag i, a part of the lent slice; empty where there is none.
#[tactic(auto, unfolding(notepack::specs::Views::view))]
pub fn element<'a>(s: &'a [u8], i: u64, j: u64) -> &'a [u8]
    ensures { result.now ≡ view s.now (pointer_element i j s.now) }
{
    match find_element(s, i, j) {
        Ok(p) => scan::part(s, p.at, p.len),
        Err(_) => &s[..0],
    }
}
