// Frames that are read one after another from an input.
#![tactic(auto)]

ghost use Rattle.std.specs.Prelude.{◌≡◌, ◌<◌, ◌≤◌, true, false, ◌++◌, List, ℕ, length, IfOk, OnOk, IfErr};
ghost use Rattle.std.specs.Int.{w16, w32, from_be_bytes};
ghost use Rattle.std.specs.Io.KnownBytes.{Consumes};
ghost use Rattle.frames.specs.declared.Stop.TheVariants as stop;
ghost use Rattle.frames.specs.Reading.{EndsWithin, Stops, StopsWithin};

use std::io;
use std::io::Read;

mod output;

pub use output::Held;

// Why no further frame is read: the input ended before it, or within it, or could not be read.
#[derive(Debug, Drop)]
pub enum Stop {
    End,
    Cut,
    Broken(io::Error),
}

impl From<io::Error> for Stop {
    ghost from_gives = { λ e s. s ≡ stop.Broken e };

    fn from(error: io::Error) -> Stop {
        Stop::Broken(error)
    }
}

impl Stop {
    // Whether the input ended within a frame, if it could be read.
    pub fn is_cut(self) -> io::Result<bool>
        ensures end { self ≡ stop.End → result ≡ Ok false }
        ensures cut { self ≡ stop.Cut → result ≡ Ok true }
        ensures broken { (error : _) → self ≡ stop.Broken error → result ≡ Err error }
    {
        match self {
            Stop::End => Ok(false),
            Stop::Cut => Ok(true),
            Stop::Broken(error) => Err(error),
        }
    }
}

// The first bytes of a frame, as many as the buffer has.
pub fn read_head<R: Read>(input: &mut R, head: &mut [u8]) -> Result<(), Stop>
    ensures whole { OnOk result (Consumes (R.remaining input.old) (R.remaining input.new) head.new) }
    ensures stop { IfErr result (Stops (R.remaining input.old) (R.remaining input.new) head.new) }
{
    let got = console::read_full(input, head)?;
    if got == head.len() {
        return Ok(());
    }
    if got == 0 {
        return Err(Stop::End);
    }
    Err(Stop::Cut)
}

// More bytes of it, as many as the buffer has.
pub fn read_more<R: Read>(input: &mut R, more: &mut [u8]) -> Result<(), Stop>
    ensures whole { OnOk result (Consumes (R.remaining input.old) (R.remaining input.new) more.new) }
    ensures stop { IfErr result (StopsWithin (R.remaining input.old) (R.remaining input.new) more.new) }
{
    let got = console::read_full(input, more)?;
    if got < more.len() {
        return Err(Stop::Cut);
    }
    Ok(())
}

// A number of four bytes, the high one first.
pub fn read_number<R: Read>(input: &mut R) -> Result<u32, Stop>
    ensures number { IfOk result (λ n. (bytes : List ℕ) × Consumes (R.remaining input.old) (R.remaining input.new) bytes
        × (length bytes ≡ 4) × (n ≡ from_be_bytes w32 bytes)) }
    ensures stop { IfErr result (EndsWithin (R.remaining input.new)) }
{
    let mut bytes = [0u8; 4];
    read_more(input, &mut bytes)?;
    Ok(u32::from_be_bytes(bytes))
}

// So many bytes, to the front of the room. Of more than it has room for none is read, and the frame counts as cut.
pub fn read_bytes<'a, R: Read>(
    input: &mut R,
    room: &'a mut [u8],
    len: usize,
) -> Result<&'a [u8], Stop>
    ensures bytes { IfOk result (λ bytes. Consumes (R.remaining input.old) (R.remaining input.new) bytes.now × (length bytes.now ≡ len)) }
    ensures stop { len ≤ length room.old → IfErr result (EndsWithin (R.remaining input.new)) }
    ensures no_room { length room.old < len → (result ≡ Err stop.Cut) × (input.new ≡ input.old) }
{
    if room.len() < len {
        return Err(Stop::Cut);
    }
    let bytes = &mut room[..len];
    read_more(input, bytes)?;
    Ok(bytes)
}

// A value: its length in two bytes, the high one first, and its bytes.
pub fn read_value<'a, R: Read>(input: &mut R, room: &'a mut [u8]) -> Result<&'a [u8], Stop>
    ensures value { IfOk result (λ value. (head : List ℕ) × Consumes (R.remaining input.old) (R.remaining input.new) (head ++ value.now)
        × (length head ≡ 2) × (length value.now ≡ from_be_bytes w16 head)) }
    ensures stop { 65535 ≤ length room.old → IfErr result (EndsWithin (R.remaining input.new)) }
{
    let mut length = [0u8; 2];
    read_more(input, &mut length)?;
    read_bytes(input, room, u16::from_be_bytes(length) as usize)
}

#[cfg(test)]
mod tests {
    use super::*;
    use std::io::{ErrorKind, Write};

    // Gives a byte a call, so many times, and then fails.
    #[derive(Drop)]
    struct Failing {
        left: u8,
    }

    impl Read for Failing {
        fn read(&mut self, buf: &mut [u8]) -> io::Result<usize> {
            if buf.is_empty() {
                return Ok(0);
            }
            if self.left == 0 {
                return Err(io::Error::from(ErrorKind::Other));
            }
            self.left -= 1;
            buf[0] = 0;
            Ok(1)
        }
    }

    #[test]
    fn an_input_ends_before_a_frame_or_within_it(rt: HostRuntime) {
        let mut head = [0u8; 2];
        let mut input: &[u8] = b"abc";
        assert!(rt; read_head(&mut input, &mut head).is_ok());
        assert!(rt; head == *b"ab");
        assert!(rt; matches!(read_head(&mut input, &mut head), Err(Stop::Cut)));
        assert!(rt; matches!(read_head(&mut input, &mut head), Err(Stop::End)));
        assert!(rt; matches!(read_more(&mut input, &mut head), Err(Stop::Cut)));
        assert!(rt;
            matches!(
                read_head(&mut Failing { left: 1 }, &mut head),
                Err(Stop::Broken(_))
            )
        );
    }

    #[test]
    fn values_are_read(rt: HostRuntime) {
        let mut room = [0u8; 3];
        let mut input: &[u8] = b"\x00\x03abc\x00\x00\x00\x04abcd";
        assert!(rt; matches!(read_value(&mut input, &mut room), Ok(b"abc")));
        assert!(rt; matches!(read_value(&mut input, &mut room), Ok(b"")));
        assert!(rt; matches!(read_value(&mut input, &mut room), Err(Stop::Cut)));
        assert!(rt; input == b"abcd".as_slice());
        assert!(rt; matches!(read_number(&mut input), Ok(0x61626364)));
        assert!(rt; matches!(read_value(&mut Failing { left: 2 }, &mut room), Ok(b"")));
        assert!(rt;
            matches!(
                read_value(&mut Failing { left: 1 }, &mut room),
                Err(Stop::Broken(_))
            )
        );
    }

    #[test]
    fn what_is_held_is_printed(rt: HostRuntime) -> io::Result<()> {
        let mut out = Vec::new(rt.alloc());
        let mut held = Held::new();
        write!(held, "filled {} ", 2)?;
        held.put_hex(b"\x0a\xff");
        held.print_much(&mut out, 14)?;
        held.print_for(&mut out, 65536 - 13)?;
        assert!(rt; out.is_empty());
        held.print_for(&mut out, 65536 - 12)?;
        assert!(rt; out.as_slice() == b"filled 2 0aff".as_slice());
        writeln!(held)?;
        held.print_much(&mut out, 1)?;
        assert!(rt; out.as_slice() == b"filled 2 0aff\n".as_slice());
        held.print(&mut out)?;
        assert!(rt; out.len() == 14);
        Ok(())
    }
}
