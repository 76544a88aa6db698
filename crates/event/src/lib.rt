// What every reader and writer shares: how a refusal is told, and the limits (docs/RULES.md, parts 1 and 10).
#![tactic(auto)]

ghost use Rattle.std.specs.Prelude.{◌≡◌};
ghost use Rattle.event.specs.inner.Told.{number_of};

// Why something was refused. Each reason has the number that docs/RULES.md, part 10, gives it.
#[derive(Clone, Copy, Debug, PartialEq, Eq)]
pub enum Reason {
    // input over 65,536 bytes
    InputTooLong = 1,
    // notepack: truncated; a length beyond the rest
    Truncated = 2,
    VarintOverflow = 3,
    VarintUnterminated = 4,
    IllFormedUtf8 = 5,
    KindOutOfRange = 6,
    CreatedAtOutOfRange = 7,
    // too many tags or elements
    TooMany = 8,
    EmptyTag = 9,
    // something after the end
    AfterTheEnd = 10,
    // lent buffer shorter than needed; the place is the length needed
    TooLittleRoom = 11,
    // NSON: a piece in front of the descriptors' end, or a descriptor, is wrong. JSON: an id, pubkey or sig that is not
    // the right number of lowercase hex digits (rule 10.12)
    BadPiece = 12,
    // NSON: counts disagree with the text
    CountDisagrees = 13,
    // JSON or a string that is wrong: its syntax, a value's type, an escape, a bare byte below 20 (rule 10.14)
    TextNotAllowed = 14,
    FieldMissing = 15,
    FieldTwice = 16,
    // NSON can't carry it
    NotCarried = 17,
    TooDeep = 18,
    // no such tag or element
    NoSuch = 19,
    // string form: another prefix
    NoPrefix = 20,
    // string form: a byte outside the alphabet of base64, or an end that base64 does not have
    NoBase64 = 21,
    // table: the strict form is longer than a cell
    OverACell = 22,
    // table: no free slot for an event that needs a new one
    TableFull = 23,
    // varint: more bytes than its number needs
    VarintPadded = 24,
    // versioned form: another first byte than 01
    NotVersioned = 25,
    // pointer form: its header or length; converting a v1
    BadHeader = 26,
    // pointer form: a pointer past the data or to no multiple of 8; a table whose length is not divisible by 8
    BadPointer = 27,
    // pointer form: a v0's time is negative or no whole second
    SplitSecond = 28,
    // the form to be written would pass 65,536 bytes
    FormTooLong = 29,
    // table: another size, or a bad slot, which is the place
    BadTable = 34,
    // hash: the message would have 2 to the power 61 bytes or more
    MessageTooLong = 35,
}

impl Reason {
    pub fn number(self) -> u8
        ensures { result ≡ number_of self }
    {
        self as u8
    }
}

// A refusal has its reason and its place.
#[derive(Clone, Copy, Debug, PartialEq, Eq)]
pub struct Refusal {
    pub reason: Reason,
    pub place: usize,
}

// The limits.

pub const MAX_INPUT: usize = 65_536;

pub const MAX_CREATED_AT: u64 = 9_223_372_036_854_775;

pub const MAX_KIND: u64 = 65_535;

pub const MAX_TAGS: u64 = 1_000;

pub const MAX_TEXTS: u64 = 255;
// arrays and objects inside one another in a value that the plain JSON reader ignores
pub const MAX_DEPTH: usize = 16;
