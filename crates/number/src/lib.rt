// No code: the document's ceilings that several crates know.
#![tactic(auto)]

pub mod bound;
