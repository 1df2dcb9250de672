// The slots of a census in lent memory, 1,036 bytes each: how many streams a clock has, its fingerprint, and the value that it was first counted with,
// as it came. A slot without streams is free. Memory of any contents and any length is answered for: what lies behind its end counts as 0, and is not
// stored.
#![tactic(auto)]

ghost use Rattle.std.specs.Prelude.{◌≡◌, not, ◌+◌, ◌*◌, ◌≤◌, length, take};
ghost use Rattle.std.proofs.lemmas.List.Edits.{sets};
ghost use Rattle.text.specs.Place.{PartAt};
ghost use Rattle.room.specs.Put.{Put};
ghost use Rattle.meaning.specs.Meaning.{ref_meaning};
ghost use Rattle.equal.specs.Decides.{Decides};
ghost use Rattle.equal.specs.Fingerprint.{host_print, fingerprint as printOf};
ghost use Rattle.quads.specs.Quad.{quad};
ghost use Rattle.streams.specs.Streams.{bit};
ghost use Rattle.slots.specs.Slot.{slot_size, most_value, slot_bytes, streams_at, print_at, value_place, is_free, free_slot, taken_slots, stream_sum};
ghost use Rattle.slots.specs.Find.{OfClock, SlotOf};
ghost use Rattle.slots.specs.Private.Start.{Start};

use clock::ReferenceClock;
use text::Place;

// How many bytes a slot has.
const SLOT_SIZE: usize = 1036;

// How many of them are for the value.
const MOST_VALUE: usize = 1024;

// Where a slot begins.
fn start(i: u16) -> usize
    ensures { Start i result }
{
    i as usize * SLOT_SIZE
}

// The streams of a slot.
pub fn streams_at(memory: &[u8], i: u16) -> u32
    ensures { result ≡ streams_at memory.now i }
{
    quads::number_at(memory, start(i))
}

// The fingerprint of a slot.
pub fn print_at(memory: &[u8], i: u16) -> u32
    ensures { result ≡ print_at memory.now i }
{
    let at = start(i);
    quads::number_at(memory, at + 4)
}

// The value of a slot.
pub fn value_at(memory: &[u8], i: u16) -> &[u8]
    ensures { PartAt memory.entry (value_place memory.now i) result }
{
    let at = start(i);
    let told = quads::number_at(memory, at + 8) as usize;
    let len = text::least(told, MOST_VALUE);
    text::part(
        memory,
        Place {
            start: at + 12,
            len,
        },
    )
}

// Whether a slot has streams of the clock that `clock` names over v. A value is read again only where the fingerprints agree.
fn is_of_clock(memory: &[u8], i: u16, v: &[u8], clock: ReferenceClock, print: u32) -> bool
    requires { print ≡ printOf host_print (ref_meaning v.now clock) }
    ensures { Decides result (OfClock memory.now (ref_meaning v.now clock) i) }
{
    if print_at(memory, i) != print {
        return false;
    }
    if streams_at(memory, i) == 0 {
        return false;
    }
    let w = value_at(memory, i);
    let read = refclk::read_reference_clock(w);
    let Ok(there) = read else {
        return false;
    };
    equal::same_reference_clocks(v, clock, w, there)
}

// The slot of a clock, among the first so many; or their number, where there is none.
pub fn find(memory: &[u8], used: u16, v: &[u8], clock: ReferenceClock) -> u16
    ensures { SlotOf memory.now (ref_meaning v.now clock) used result }
{
    let print = equal::fingerprint(v, clock);
    let mut i: u16 = 0;
    while i < used {
        if is_of_clock(memory, i, v, clock, print) {
            return i;
        }
        i += 1;
    }
    i
}

// The first slot without streams, among the first so many; or their number, where there is none.
pub fn find_free(memory: &[u8], used: u16) -> u16
    ensures { result ≡ free_slot memory.now used }
{
    let mut i: u16 = 0;
    while i < used {
        if streams_at(memory, i) == 0 {
            return i;
        }
        i += 1;
    }
    i
}

// A slot gets another number of streams.
pub fn set_streams(memory: &mut [u8], i: u16, n: u32)
    ensures { memory.new ≡ sets memory.old (i * slot_size) (quad n) }
{
    quads::put_number(memory, start(i), n);
}

// Or another fingerprint.
pub fn set_print(memory: &mut [u8], i: u16, print: u32)
    ensures { memory.new ≡ sets memory.old (i * slot_size + 4) (quad print) }
{
    let at = start(i);
    quads::put_number(memory, at + 4, print);
}

// The bytes of a slot are put from a place on.
fn put_slot(memory: &mut [u8], at: usize, v: &[u8], print: u32, n: u32) -> usize
    requires { length v.now ≤ most_value }
    ensures { Put slot_size memory.old at (slot_bytes n print v.now) result memory.new }
{
    let len = v.len() as u32;
    let second = quads::put_number(memory, at, n);
    let third = quads::put_number(memory, second, print);
    let fourth = quads::put_number(memory, third, len);
    room::put_bytes(memory, fourth, v)
}

// A slot becomes that of a clock with n streams, whose value is v: its first 1,024 bytes, and no accepted value has more.
pub fn set_slot(memory: &mut [u8], i: u16, v: &[u8], print: u32, n: u32)
    ensures { memory.new ≡ sets memory.old (i * slot_size) (slot_bytes n print (take most_value v.now)) }
{
    let all = Place {
        start: 0,
        len: MOST_VALUE,
    };
    put_slot(memory, start(i), text::part(v, all), print, n);
}

// 1 for a slot that has streams.
fn taken(memory: &[u8], i: u16) -> u32
    ensures { result ≡ bit (not (is_free memory.now i)) }
{
    if streams_at(memory, i) == 0 {
        return 0;
    }
    1
}

// How many of the first slots have streams.
pub fn count_taken(memory: &[u8], used: u16) -> u32
    ensures { result ≡ taken_slots memory.now used }
{
    let mut n: u32 = 0;
    let mut i: u16 = 0;
    while i < used {
        n += taken(memory, i);
        i += 1;
    }
    n
}

// How many streams the first slots have, added up.
pub fn sum_streams(memory: &[u8], used: u16) -> u64
    ensures { result ≡ stream_sum memory.now used }
{
    let mut n: u64 = 0;
    let mut i: u16 = 0;
    while i < used {
        n += streams_at(memory, i) as u64;
        i += 1;
    }
    n
}
