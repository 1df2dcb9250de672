// The reader of lines: a small state beside lent memory, that takes a text in fragments of any length. Each call prints into lent room what the
// lines that end in it are answered with, or is refused and changes nothing.
#![tactic(auto)]

ghost use Rattle.std.specs.Prelude.{◌≡◌, [], ◌^◌, ◌≤◌, leb, length, replicate};
ghost use Rattle.report.specs.Lines.{without_cr, ended_from};
ghost use Rattle.report.specs.Report.{printed, totals_text};
ghost use Rattle.report.specs.Reader.{reader_of};
ghost use Rattle.briefreply.specs.Plain.{plain_reply};
ghost use Rattle.lines.specs.View.{state_of};
ghost use Rattle.lines.specs.Number.{unfed_number};
ghost use Rattle.lines.specs.Call.{Feeds, Closes};
ghost use Rattle.lines.specs.Private.Steps.{Prints, Replied, Replies, Keeps, Ends, Runs, finish_text, Finishes};

use briefreply::ReplySize;
use report::Totals;

// How many bytes of the open line are kept: a line of so many is long whatever follows.
const MOST_KEPT: usize = 4098;

// How many bytes a text may have.
pub const MOST_READ: usize = 4294967295;

// The open line has `len` bytes at the memory's front; `totals` are those of the lines before it.
#[derive(Clone, Copy)]
pub struct State {
    pub len: usize,
    pub totals: Totals,
    pub read: u32,
    pub closed: bool,
}

// Why a call is refused: it comes after the closing one; the text would be too long; the room is too short.
#[derive(Clone, Copy)]
pub enum Unfed {
    Closed,
    OverLimit,
    NoRoom,
}

#[derive(Clone, Copy)]
pub struct Fed {
    pub filling: Result<usize, Unfed>,
    pub state: State,
}

// The place behind what was printed, and the totals so far.
#[derive(Clone, Copy)]
struct Progress {
    at: usize,
    totals: Totals,
}

// What a fragment leaves: the length of the open line, and how far it came.
#[derive(Clone, Copy)]
struct Ran {
    len: usize,
    past: Progress,
}

// A line without its end is answered. Where the room ends before the place, the answer is only measured.
fn put_line(line: &[u8], room: &mut [u8], at: usize) -> ReplySize
    ensures { Replies line.now room.old at result room.new }
{
    let from = text::least(at, room.len());
    reply::reply_to_line(line, &mut room[from..])
}

// The same of a line that is seen at once to be no clock line.
fn put_plain(room: &mut [u8], at: usize) -> ReplySize
    ensures { Replied plain_reply room.old at result room.new }
{
    let from = text::least(at, room.len());
    briefreply::reply_to_plain(&mut room[from..])
}

// A line that an LF ended is answered.
fn put_ended(raw: &[u8], room: &mut [u8], at: usize) -> ReplySize
    ensures { Replies (without_cr raw.now) room.old at result room.new }
{
    let n = lineend::length_without_cr(raw);
    put_line(&raw[..n], room, at)
}

// The open line grows by a part, of which as much is kept as the memory has room for. The line's new length is answered.
fn keep(memory: &mut [u8], len: usize, part: &[u8]) -> usize
    requires { (length memory.old ≡ 4098) × (len ≤ 4098) }
    ensures { Keeps memory.old len part.now result memory.new }
{
    let n = text::least(part.len(), MOST_KEPT - len);
    room::put_bytes(memory, len, &part[..n])
}

// The open line ends with a part. Where all of it lies in the part, it is answered where it lies; most lines are plain, and cost no call then.
fn end_line(memory: &mut [u8], len: usize, part: &[u8], room: &mut [u8], at: usize) -> ReplySize
    requires { (length memory.old ≡ 4098) × (len ≤ 4098) }
    ensures { Ends memory.old len part.now room.old at result memory.new room.new }
{
    if len == 0 {
        if briefreply::is_plain(part) {
            return put_plain(room, at);
        }
        return put_ended(part, room, at);
    }
    let n = keep(memory, len, part);
    put_ended(&memory[..n], room, at)
}

// A fragment is read: its lines are answered from the room's front on and counted, and what is open behind the last one is kept.
fn run(memory: &mut [u8], begun: usize, text: &[u8], room: &mut [u8], before: Totals) -> Ran
    requires { (length memory.old ≡ 4098) × (begun ≤ 4098) × (length text.now ≤ 4294967295) }
    ensures { Runs memory.old begun text.now room.old before result memory.new room.new }
{
    let mut totals = before;
    let mut at: usize = 0;
    let mut len = begun;
    let mut i = 0;
    loop {
        let e = i + search::find_far(&text[i..], b'\n');
        if text.len() <= e {
            break;
        }
        let answered = end_line(memory, len, &text[i..e], room, at);
        let kind = answered.kind;
        at += answered.len;
        totals = tally::count(totals, kind);
        len = 0;
        i = e + 1;
    }
    let n = keep(memory, len, &text[i..]);
    Ran {
        len: n,
        past: Progress { at, totals },
    }
}

// The line of the totals is put behind what was printed.
fn put_totals(room: &mut [u8], at: usize, totals: Totals) -> usize
    requires { at ≤ 2 ^ 46 }
    ensures { Prints (totals_text totals) room.old at result room.new }
{
    let from = text::least(at, room.len());
    at + tally::put_totals(totals, &mut room[from..])
}

// The last line is answered, where there is one, and the totals follow.
fn finish(last: &[u8], room: &mut [u8], totals: Totals) -> Progress
    requires { length last.now ≤ 4098 }
    ensures { Finishes last.now room.old totals result room.new }
{
    if last.len() == 0 {
        let end = put_totals(room, 0, totals);
        return Progress { at: end, totals };
    }
    let answered = put_line(last, room, 0);
    let kind = answered.kind;
    let all = tally::count(totals, kind);
    let end = put_totals(room, answered.len, all);
    Progress {
        at: end,
        totals: all,
    }
}

// How many bytes that prints, found by printing into no room.
fn finish_length(last: &[u8], totals: Totals) -> usize
    requires { length last.now ≤ 4098 }
    ensures { result ≡ length (finish_text last.now totals) }
{
    let mut none = [0u8; 1];
    let measured = finish(last, &mut none[..0], totals);
    measured.at
}

// Whether so many bytes of room are enough for what a fragment prints. Where they are not surely enough, the fragment is run into no room, with
// a copy of the open line.
fn fits(begun: &[u8], text: &[u8], totals: Totals, room: usize) -> bool
    requires { (length begun.now ≤ 4098) × (length text.now ≤ 4294967295) }
    ensures { result ≡ leb (length (printed (ended_from begun.now text.now))) room }
{
    // no reply has more than six bytes for each byte of its line and of the line's end
    let most = 6 * (begun.len() + text.len());
    if most <= room {
        return true;
    }
    let mut copy = open_line();
    let mut none = [0u8; 1];
    let scratch: &mut [u8] = &mut copy;
    let len = keep(scratch, 0, begun);
    let ran = run(scratch, len, text, &mut none[..0], totals);
    ran.past.at <= room
}

// The number of a refusal.
#[tactic(auto, unfolding(crate::specs::Number::unfed_number))]
pub fn refusal_number(why: Unfed) -> u8
    ensures { result ≡ unfed_number why }
{
    match why {
        Unfed::Closed => 28,
        Unfed::OverLimit => 37,
        Unfed::NoRoom => 24,
    }
}

// Memory for the open line: zeros, though it may hold anything.
pub fn open_line() -> [u8; 4098]
    ensures { (result ≡ replicate 4098 0) × (4098 ≡ length result) }
{
    [0; 4098]
}

// The state before any text, beside memory of any contents.
pub fn start() -> State
    ensures { result ≡ state_of (reader_of []) }
{
    State {
        len: 0,
        totals: Totals {
            lines: 0,
            ok: 0,
            no: 0,
            other: 0,
            long: 0,
        },
        read: 0,
        closed: false,
    }
}

// A fragment of the text.
pub fn feed(state: State, memory: &mut [u8; 4098], text: &[u8], room: &mut [u8]) -> Fed
    ensures { Feeds state memory.old text.now room.old result memory.new room.new }
{
    let closed = state.closed;
    if closed {
        let filling = Err(Unfed::Closed);
        return Fed { filling, state };
    }
    let all = state.read as usize + text.len();
    if MOST_READ < all {
        let filling = Err(Unfed::OverLimit);
        return Fed { filling, state };
    }
    let read = all as u32;
    let line: &mut [u8] = memory;
    let len = text::least(state.len, MOST_KEPT);
    let totals = state.totals;
    if fits(&line[..len], text, totals, room.len()) {
        let ran = run(line, len, text, room, totals);
        let past = ran.past;
        let after = past.totals;
        return Fed {
            filling: Ok(past.at),
            state: State {
                len: ran.len,
                totals: after,
                read,
                closed: false,
            },
        };
    }
    let filling = Err(Unfed::NoRoom);
    Fed { filling, state }
}

// The end of the text: the last line, where there is one, and the totals.
pub fn close(state: State, memory: &[u8; 4098], room: &mut [u8]) -> Fed
    ensures { Closes state memory.now room.old result room.new }
{
    let closed = state.closed;
    if closed {
        let filling = Err(Unfed::Closed);
        return Fed { filling, state };
    }
    let line: &[u8] = memory;
    let len = text::least(state.len, MOST_KEPT);
    let totals = state.totals;
    if room.len() < finish_length(&line[..len], totals) {
        let filling = Err(Unfed::NoRoom);
        return Fed { filling, state };
    }
    let done = finish(&line[..len], room, totals);
    let after = done.totals;
    Fed {
        filling: Ok(done.at),
        state: State {
            len: 0,
            totals: after,
            read: state.read,
            closed: true,
        },
    }
}
