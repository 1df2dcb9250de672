// The totals of a report: a line counted, and the line that says them all.
#![tactic(auto, using(room::proofs::Laws::puts))]

ghost use Rattle.std.specs.Prelude.{◌≡◌, ◌≤◌, ◌++◌, length};
ghost use Rattle.text.specs.Word.{word};
ghost use Rattle.number.specs.Decimal.{decimal};
ghost use Rattle.room.specs.Put.{Put};
ghost use Rattle.report.specs.Report.{totals_text};
ghost use Rattle.report.specs.Reader.{counted};

use report::{Kind, Totals};

// The totals with a line more, of that kind.
#[tactic(auto, unfolding(report::specs::Reader::counted))]
pub fn count(before: Totals, kind: Kind) -> Totals
    ensures { result ≡ counted before kind }
{
    let mut all = before;
    all.lines = all.lines.wrapping_add(1);
    match kind {
        Kind::Accepted => all.ok = all.ok.wrapping_add(1),
        Kind::Refused => all.no = all.no.wrapping_add(1),
        Kind::Other => all.other = all.other.wrapping_add(1),
        Kind::Long => all.long = all.long.wrapping_add(1),
    }
    all
}

// A word of at most 7 bytes, and a number of at most 10 digits behind it. It is called five times, once a text: one copy of it is enough.
#[inline(never)]
fn put_item(room: &mut [u8], at: usize, word: &[u8], n: u32) -> usize
    requires { length word.now ≤ 7 }
    ensures { Put 17 room.old at (word.now ++ decimal n) result room.new }
{
    let number = room::put_bytes(room, at, word);
    digits::put_decimal(room, number, n)
}

// The front of the line of the totals, as far as the refused lines: three items of at most 17 bytes.
fn put_front(all: Totals, room: &mut [u8]) -> usize
    ensures { Put 51 room.old 0
        (word "lines " ++ decimal all.lines ++ word " ok " ++ decimal all.ok ++ word " no " ++ decimal all.no) result room.new }
{
    let ok = put_item(room, 0, b"lines ", all.lines);
    let no = put_item(room, ok, b" ok ", all.ok);
    put_item(room, no, b" no ", all.no)
}

// The line of the totals, from the room's front on: five items and the LF.
#[tactic(auto, using(room::proofs::Laws::puts), unfolding(report::specs::Report::totals_text))]
pub fn put_totals(all: Totals, room: &mut [u8]) -> usize
    ensures { Put 86 room.old 0 (totals_text all) result room.new }
{
    let other = put_front(all, room);
    let long = put_item(room, other, b" other ", all.other);
    let end = put_item(room, long, b" long ", all.long);
    room::put_byte(room, end, b'\n')
}
