// Whether the places of a record lie inside a value.
#![tactic(auto)]

pub mod media;
mod parts;
pub mod reference;
