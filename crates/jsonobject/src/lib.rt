// An event's object in plain JSON: its members in any order, each of the seven fields once, and the length that the
// event takes in the strict form. What is read at a place is told with the place behind it.
#![tactic(auto)]

ghost use Rattle.std.specs.Prelude.{◌^◌, ◌≤◌, ◌<◌, ◌≡◌, length};
ghost use Rattle.scan.specs.Choice.{and_then, read};
ghost use Rattle.event.specs.inner.Told.{answer, read_answer, number_of};
ghost use Rattle.jsonfields.specs.inner.Spots.{field_number};
ghost use Rattle.jsonobject.specs.inner.Spotted.{spot_of, with_spot, none_found, all_found, measured, colon_spots_at, member_spots_at, members_spots_at, object_spots_at};

use event::{Reason, Refusal};
use jsonfields::{Field, Spot};

// The seven fields, each by its spot.
#[derive(Clone, Copy)]
pub struct Fields {
    pub id: Spot,
    pub pubkey: Spot,
    pub sig: Spot,
    pub created_at: Spot,
    pub kind: Spot,
    pub tags: Spot,
    pub content: Spot,
}

// An event's object: its fields, and the length of the event's strict form.
#[derive(Clone, Copy)]
pub struct Object {
    pub fields: Fields,
    pub len: usize,
}

// The fields that were found so far.
#[derive(Clone, Copy)]
struct Found {
    id: Option<Spot>,
    pubkey: Option<Spot>,
    sig: Option<Spot>,
    created_at: Option<Spot>,
    kind: Option<Spot>,
    tags: Option<Spot>,
    content: Option<Spot>,
}

const NONE_FOUND: Found = Found {
    id: None,
    pubkey: None,
    sig: None,
    created_at: None,
    kind: None,
    tags: None,
    content: None,
};

fn refused(reason: Reason, place: usize) -> Refusal
    ensures { result ≡ record { reason = reason; place = place } }
{
    Refusal { reason, place }
}

// ---- the fields

impl Found {
    // What was found of a field. Of any other name nothing is kept.
    fn spot(&self, field: Field) -> Option<Spot>
        ensures { result ≡ spot_of self.now (field_number field) }
    {
        match field {
            Field::Id => self.id,
            Field::Pubkey => self.pubkey,
            Field::Sig => self.sig,
            Field::CreatedAt => self.created_at,
            Field::Kind => self.kind,
            Field::Tags => self.tags,
            Field::Content => self.content,
            Field::Other => None,
        }
    }

    // One more is found.
    fn set(&mut self, field: Field, p: Spot)
        ensures { self.new ≡ with_spot self.old (field_number field) p }
    {
        match field {
            Field::Id => self.id = Some(p),
            Field::Pubkey => self.pubkey = Some(p),
            Field::Sig => self.sig = Some(p),
            Field::CreatedAt => self.created_at = Some(p),
            Field::Kind => self.kind = Some(p),
            Field::Tags => self.tags = Some(p),
            Field::Content => self.content = Some(p),
            Field::Other => {}
        }
    }

    // All seven, where none is missing.
    #[tactic(auto, unfolding(crate::specs::inner::Spotted::all_found))]
    fn all(&self) -> Option<Fields>
        ensures { result ≡ all_found self.now }
    {
        Some(Fields {
            id: self.id?,
            pubkey: self.pubkey?,
            sig: self.sig?,
            created_at: self.created_at?,
            kind: self.kind?,
            tags: self.tags?,
            content: self.content?,
        })
    }
}

impl Fields {
    // The length of the strict form.
    #[tactic(auto, unfolding(crate::specs::inner::Spotted::measured))]
    fn strict_len(&self) -> usize
        requires { measured self.now < 2 ^ 64 }
        ensures { result ≡ measured self.now }
    {
        self.id.len
            + self.pubkey.len
            + self.sig.len
            + self.created_at.len
            + self.kind.len
            + self.content.len
            + self.tags.len
    }
}

// ---- the object

// Behind the name of a field: a colon, then its value.
#[tactic(auto, using(scan::proofs::Step::tests, scan::proofs::Fits::next_fits), unfolding(crate::specs::inner::Spotted::colon_spots_at))]
fn read_after_name(s: &[u8], at: usize, field: Field) -> Result<(Spot, usize), Refusal>
    ensures { read_answer result ≡ colon_spots_at (field_number field) s.now at }
{
    if scan::byte_at(s, at) != b':' {
        return Err(refused(Reason::TextNotAllowed, at));
    }
    let first = jsonvalue::skip_space(s, at + 1);
    jsonfields::read_value(s, first, field)
}

// A member: its name, which is 16 where the field has been found before, and its value.
#[tactic(auto, using(scan::proofs::Step::tests), unfolding(crate::specs::inner::Spotted::member_spots_at))]
fn read_member(s: &[u8], at: usize, found: &mut Found) -> Result<usize, Refusal>
    ensures { and_then (answer result) (λ next. read found.new next) ≡ member_spots_at found.old s.now at }
{
    let (field, next) = jsonfields::read_name(s, at)?;
    if found.spot(field).is_some() {
        return Err(refused(Reason::FieldTwice, at));
    }
    let (p, next) = read_after_name(s, jsonvalue::skip_space(s, next), field)?;
    found.set(field, p);
    Ok(next)
}

// The members, behind the opening brace and white space.
#[tactic(auto, using(crate::proofs::Members::member_steps))]
fn read_members(s: &[u8], at: usize) -> Result<(Object, usize), Refusal>
    requires at_nonzero { 0 < at }
    requires at_in_bounds { at ≤ length s.now }
    ensures { read_answer result ≡ members_spots_at (length s.now) none_found s.now at }
{
    let mut found = NONE_FOUND;
    let mut i = at;
    // a place: the brace behind a member says that it is the last
    loop {
        let next = read_member(s, i, &mut found)?;
        let p = jsonvalue::skip_space(s, next);
        let b = scan::byte_at(s, p);
        if b == b'}' {
            let Some(fields) = found.all() else {
                return Err(refused(Reason::FieldMissing, p));
            };
            let len = fields.strict_len();
            return Ok((Object { fields, len }, p + 1));
        }
        if b != b',' {
            return Err(refused(Reason::TextNotAllowed, p));
        }
        i = jsonvalue::skip_space(s, p + 1);
    }
}

// The event's object at a place. Its spots are places in the whole text.
#[tactic(auto, using(scan::proofs::Step::tests, scan::proofs::Fits::next_fits, crate::proofs::Members::object_first), unfolding(crate::specs::inner::Spotted::object_spots_at, crate::specs::inner::Spotted::inside_spots_at))]
pub fn read_object(s: &[u8], at: usize) -> Result<(Object, usize), Refusal>
    ensures { read_answer result ≡ object_spots_at s.now at }
{
    if scan::byte_at(s, at) != b'{' {
        return Err(refused(Reason::TextNotAllowed, at));
    }
    let first = jsonvalue::skip_space(s, at + 1);
    if scan::byte_at(s, first) == b'}' {
        return Err(refused(Reason::FieldMissing, first));
    }
    read_members(s, first)
}
