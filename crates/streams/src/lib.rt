// The census of streams as a plain list of them: what every call and question answers, in specs/, and the types and limits that the code above it shares.
#![tactic(auto)]

ghost use Rattle.std.specs.Prelude.{◌≡◌};
ghost use Rattle.streams.specs.Calls.{refusal_number};

// How many clocks may have streams at once.
pub const MOST_CLOCKS: u16 = 255;

// How many bytes must be lent.
pub const LEAST_MEMORY: usize = 270000;

// How many streams there may be, those of refused values among them.
pub const MOST_STREAMS: u32 = u32::MAX;

// Why a call is refused, with the number of the reason: the lent memory is too short; there are as many streams as may be; as many clocks; nothing
// there that is named.
#[derive(Clone, Copy, Debug, PartialEq, Eq)]
pub enum Uncounted {
    NoMemory = 24,
    TotalFull = 26,
    ClocksFull = 25,
    NoStream = 27,
}

// The number of a refusal.
#[tactic(auto, unfolding(crate::specs::Calls::refusal_number))]
pub fn refusal_number(why: Uncounted) -> u8
    ensures { result ≡ refusal_number why }
{
    why as u8
}
