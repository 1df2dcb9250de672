// The replies that need no record: that of a refused value, and that of a line which is seen at once to be no clock line. Each is put at the
// front of lent room.
#![tactic(auto)]

ghost use Rattle.std.specs.Prelude.{◌≡◌, [], ◌∷◌, ◌++◌};
ghost use Rattle.number.specs.Decimal.{decimal};
ghost use Rattle.room.specs.Put.{Put};
ghost use Rattle.report.specs.Reply.{no_reply};
ghost use Rattle.briefreply.specs.Gives.{Gives};
ghost use Rattle.briefreply.specs.Plain.{plain, plain_reply};
ghost use Rattle.briefreply.specs.Private.Known.{reply_of};

use clock::Refusal;
use report::Kind;

// How many bytes a line may have.
pub const MOST_LINE_BYTES: usize = 4096;

// A line's kind, and the length of what is printed for it: it was printed where the room has so many bytes.
#[derive(Debug, Clone, Copy, PartialEq, Eq)]
pub struct ReplySize {
    pub kind: Kind,
    pub len: usize,
}

// A text that is known, its LF included.
fn say(kind: Kind, text: &[u8], room: &mut [u8]) -> ReplySize
    ensures { Gives (reply_of kind text.now) room.old result room.new }
{
    let len = text.len();
    if len <= room.len() {
        room::put_bytes(room, 0, text);
    }
    ReplySize { kind, len }
}

// A number, and the byte that stands behind it.
fn put_number(room: &mut [u8], at: usize, n: u64, behind: u8) -> usize
    ensures { Put 21 room.old at (decimal n ++ behind ∷ []) result room.new }
{
    let to = digits::put_decimal_u64(room, at, n);
    room::put_byte(room, to, behind)
}

// The text of a refused value: at most 66 bytes, as `no ` has 3 and each of three numbers of at most 20 digits one behind it.
pub fn put_refusal(room: &mut [u8], refusal: Refusal) -> usize
    ensures { Put 66 room.old 0 (no_reply refusal).says result room.new }
{
    let place = refusal.place;
    let number = room::put_bytes(room, 0, b"no ");
    let start = put_number(room, number, u64::from(refusal.number), b' ');
    let len = put_number(room, start, place.start as u64, b' ');
    put_number(room, len, place.len as u64, b'\n')
}

pub fn reply_to_refusal(refusal: Refusal, room: &mut [u8]) -> ReplySize
    ensures { Gives (no_reply refusal) room.old result room.new }
{
    let mut text = [0u8; 66];
    let len = put_refusal(&mut text, refusal);
    say(Kind::Refused, &text[..len], room)
}

// Whether a line is seen at once to be no clock line and not long: it does not begin as the clock lines do. A CR at its end changes nothing.
#[tactic(auto, unfolding(crate::specs::Plain::plain))]
pub fn is_plain(line: &[u8]) -> bool
    ensures { result ≡ plain line.now }
{
    line.len() <= MOST_LINE_BYTES
        && !text::has_prefix(line, b"a=t")
        && !text::has_prefix(line, b"a=m")
}

// The answer to a line that is neither a clock line nor long.
pub fn reply_to_plain(room: &mut [u8]) -> ReplySize
    ensures { Gives plain_reply room.old result room.new }
{
    say(Kind::Other, b"--\n", room)
}
