// What is kept of the events that are offered to a table: definitions and theorems, and the names of the outcomes.
#![tactic(auto)]

// What an offer comes to.
#[derive(Clone, Copy, Debug, PartialEq, Eq)]
pub enum Outcome {
    // kept in a free slot
    New,
    // kept in its rival's slot
    Replaced,
    // its rival stays
    Loses,
    // it is kept already
    Held,
    // its kind is not kept
    NotKept,
}
