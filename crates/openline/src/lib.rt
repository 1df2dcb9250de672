// The open line of a text that comes in fragments: it stands at the front of lent memory, and what a fragment or the end of the text prints goes into
// lent room. Where the room is too short nothing is done.
#![tactic(auto)]

ghost use Rattle.std.specs.Prelude.{◌≡◌, ◌^◌, ◌≤◌, leb, length};
ghost use Rattle.report.specs.Lines.{without_cr, ended_from};
ghost use Rattle.report.specs.Report.{printed, totals_text};
ghost use Rattle.briefreply.specs.Plain.{plain_reply};
ghost use Rattle.openline.specs.Advance.{GoesOn, EndsText};
ghost use Rattle.openline.specs.Private.Steps.{Prints, Replied, Replies, Keeps, Ends, Runs, finish_text, Finishes};

use briefreply::ReplySize;
use report::Totals;

// How many bytes of the open line are kept: a line of so many is long whatever follows.
const MOST_KEPT: usize = 4098;

// How many bytes of a fragment are read: as many as a text may have.
pub const MOST_READ: usize = 4294967295;

// How many bytes of the room were filled, the length of the open line then, and the totals of the lines before it.
#[derive(Clone, Copy)]
pub struct Advanced {
    pub filled: usize,
    pub len: usize,
    pub totals: Totals,
}

// The place behind what was printed, and the totals so far.
#[derive(Clone, Copy)]
struct Progress {
    at: usize,
    totals: Totals,
}

// What a fragment leaves: the length of the open line, and how far it came.
#[derive(Clone, Copy)]
struct Ran {
    len: usize,
    past: Progress,
}

// A line without its end is answered. Where the room ends before the place, the answer is only measured.
fn put_line(line: &[u8], room: &mut [u8], at: usize) -> ReplySize
    ensures { Replies line.now room.old at result room.new }
{
    let from = text::least(at, room.len());
    reply::reply_to_line(line, &mut room[from..])
}

// The same of a line that is seen at once to be no clock line.
fn put_plain(room: &mut [u8], at: usize) -> ReplySize
    ensures { Replied plain_reply room.old at result room.new }
{
    let from = text::least(at, room.len());
    briefreply::reply_to_plain(&mut room[from..])
}

// A line that an LF ended is answered.
fn put_ended(raw: &[u8], room: &mut [u8], at: usize) -> ReplySize
    ensures { Replies (without_cr raw.now) room.old at result room.new }
{
    let n = lineend::length_without_cr(raw);
    put_line(&raw[..n], room, at)
}

// The open line grows by a part, of which as much is kept as the memory has room for. The line's new length is answered.
fn keep(memory: &mut [u8], len: usize, part: &[u8]) -> usize
    requires { (length memory.old ≡ 4098) × (len ≤ 4098) }
    ensures { Keeps memory.old len part.now result memory.new }
{
    let n = text::least(part.len(), MOST_KEPT - len);
    room::put_bytes(memory, len, &part[..n])
}

// The open line ends with a part. Where all of it lies in the part, it is answered where it lies; most lines are plain, and cost no call then.
fn end_line(memory: &mut [u8], len: usize, part: &[u8], room: &mut [u8], at: usize) -> ReplySize
    requires { (length memory.old ≡ 4098) × (len ≤ 4098) }
    ensures { Ends memory.old len part.now room.old at result memory.new room.new }
{
    if len == 0 {
        if briefreply::is_plain(part) {
            return put_plain(room, at);
        }
        return put_ended(part, room, at);
    }
    let n = keep(memory, len, part);
    put_ended(&memory[..n], room, at)
}

// A fragment is read: its lines are answered from the room's front on and counted, and what is open behind the last one is kept.
fn run(memory: &mut [u8], begun: usize, text: &[u8], room: &mut [u8], before: Totals) -> Ran
    requires { (length memory.old ≡ 4098) × (begun ≤ 4098) × (length text.now ≤ 4294967295) }
    ensures { Runs memory.old begun text.now room.old before result memory.new room.new }
{
    let mut totals = before;
    let mut at: usize = 0;
    let mut len = begun;
    let mut i = 0;
    loop {
        let e = i + search::find_far(&text[i..], b'\n');
        if text.len() <= e {
            break;
        }
        let answered = end_line(memory, len, &text[i..e], room, at);
        let kind = answered.kind;
        at += answered.len;
        totals = tally::count(totals, kind);
        len = 0;
        i = e + 1;
    }
    let n = keep(memory, len, &text[i..]);
    Ran {
        len: n,
        past: Progress { at, totals },
    }
}

// The line of the totals is put behind what was printed.
fn put_totals(room: &mut [u8], at: usize, totals: Totals) -> usize
    requires { at ≤ 2 ^ 46 }
    ensures { Prints (totals_text totals) room.old at result room.new }
{
    let from = text::least(at, room.len());
    at + tally::put_totals(totals, &mut room[from..])
}

// The last line is answered, where there is one, and the totals follow.
fn finish(last: &[u8], room: &mut [u8], totals: Totals) -> Progress
    requires { length last.now ≤ 4098 }
    ensures { Finishes last.now room.old totals result room.new }
{
    if last.len() == 0 {
        let end = put_totals(room, 0, totals);
        return Progress { at: end, totals };
    }
    let answered = put_line(last, room, 0);
    let kind = answered.kind;
    let all = tally::count(totals, kind);
    let end = put_totals(room, answered.len, all);
    Progress {
        at: end,
        totals: all,
    }
}

// How many bytes that prints, found by printing into no room.
fn finish_length(last: &[u8], totals: Totals) -> usize
    requires { length last.now ≤ 4098 }
    ensures { result ≡ length (finish_text last.now totals) }
{
    let mut none = [0u8; 1];
    let measured = finish(last, &mut none[..0], totals);
    measured.at
}

// Memory for a copy of the open line.
fn zeros() -> [u8; 4098]
    ensures { 4098 ≡ length result }
{
    [0; 4098]
}

// Whether so many bytes of room are enough for what a fragment prints. Where they are not surely enough, the fragment is run into no room, with
// a copy of the open line.
fn fits(begun: &[u8], text: &[u8], totals: Totals, room: usize) -> bool
    requires { (length begun.now ≤ 4098) × (length text.now ≤ 4294967295) }
    ensures { result ≡ leb (length (printed (ended_from begun.now text.now))) room }
{
    // no reply has more than six bytes for each byte of its line and of the line's end
    let most = 6 * (begun.len() + text.len());
    if most <= room {
        return true;
    }
    let mut copy = zeros();
    let mut none = [0u8; 1];
    let scratch: &mut [u8] = &mut copy;
    let len = keep(scratch, 0, begun);
    let ran = run(scratch, len, text, &mut none[..0], totals);
    ran.past.at <= room
}

// A fragment of the text: its lines are answered and counted, and what is open behind the last of them is kept. `len` is the length of the open line, at
// most that of the memory.
pub fn go_on(
    memory: &mut [u8; 4098],
    len: usize,
    text: &[u8],
    room: &mut [u8],
    totals: Totals,
) -> Option<Advanced>
    ensures { GoesOn memory.old len text.now room.old totals result memory.new room.new }
{
    let line: &mut [u8] = memory;
    let begun = text::least(len, MOST_KEPT);
    let most = text::least(text.len(), MOST_READ);
    if fits(&line[..begun], &text[..most], totals, room.len()) {
        let ran = run(line, begun, &text[..most], room, totals);
        let past = ran.past;
        let after = past.totals;
        return Some(Advanced {
            filled: past.at,
            len: ran.len,
            totals: after,
        });
    }
    None
}

// The end of the text: the last line, where there is one, is answered and counted, and the totals follow. No line is open then.
pub fn end_text(
    memory: &[u8; 4098],
    len: usize,
    room: &mut [u8],
    totals: Totals,
) -> Option<Advanced>
    ensures { EndsText memory.now len room.old totals result room.new }
{
    let line: &[u8] = memory;
    let begun = text::least(len, MOST_KEPT);
    if room.len() < finish_length(&line[..begun], totals) {
        return None;
    }
    let done = finish(&line[..begun], room, totals);
    let after = done.totals;
    Some(Advanced {
        filled: done.at,
        len: 0,
        totals: after,
    })
}
