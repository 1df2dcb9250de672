// The report of a whole text: definitions and theorems (specs/, proofs/), and the types that they share with the code above.
#![tactic(auto)]

// What a line is: a clock line with an accepted value, or with a refused one; another line; or one over 4,096 bytes.
#[derive(Debug, Clone, Copy, PartialEq, Eq)]
pub enum Kind {
    Accepted,
    Refused,
    Other,
    Long,
}

// How many lines there are, in all and of each kind.
#[derive(Debug, Default, Clone, Copy, PartialEq, Eq)]
pub struct Totals {
    pub lines: u32,
    pub ok: u32,
    pub no: u32,
    pub other: u32,
    pub long: u32,
}
