// JSON by RFC 8259 alone: its grammar, its reading at a place, and that the two agree.
// The code stands in jsonescape, jsonstring, jsonunescape and jsonvalue.
#![tactic(auto)]

// The bytes of a string between its quotes, as spelled.
#[derive(Clone, Copy)]
pub struct Spelled {
    pub from: usize,
    pub count: usize,
}

// An escape: how many bytes it takes, and the character that it stands for. No escape takes 0 bytes.
#[derive(Clone, Copy)]
pub struct Escape {
    pub width: usize,
    pub scalar: u32,
}
