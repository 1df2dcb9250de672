// The notation of a record, put at the front of lent room. A byte that does not fit is counted and not stored.
#![tactic(auto)]

mod media;
mod parts;
mod reference;

pub use media::note_media_clock_source;
pub use reference::note_reference_clock;
