// The pointer form: definitions and theorems alone (specs/, proofs/). Its reader is crate pointread, its writer
// pointwrite.
#![tactic(auto)]
