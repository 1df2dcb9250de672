// What is printed for frames, held until it is much: a writer into memory of a fixed size.
ghost use Rattle.std.specs.Prelude.{◌≡◌, ℕ, ◌+◌, ◌*◌, ◌-◌, ◌<◌, ◌≤◌, min, List, [], ◌++◌, length, take, IsOk, IfOk, OnOk, OnErr, Some};
ghost use Rattle.std.specs.Io.{WritesAtMost};
ghost use Rattle.std.specs.Io.KnownBytes.{Appends, Keeps, WriteAppends};
ghost use Rattle.console.specs.Moved.{AppendsFront};
ghost use Rattle.number.specs.Hex.{hex_bytes};
ghost use Rattle.frames.specs.Output.{PrintsFront, PrintsFrom};

use std::io;
use std::io::Write;
use std::marker::Model;

// The bytes that are held stand at the front of the room.
#[derive(Drop)]
pub struct Held {
    room: [u8; 65536],
    len: usize,
}

impl Model for Held {
    ghost Value = { List ℕ };

    ghost view = { λ h. take h.len h.room };

    ghost invariant = { λ h. h.len ≤ 65536 };
}

impl Held {
    pub fn new() -> Held
        ensures { result ≡ [] }
    {
        Held {
            room: console::large_buffer(),
            len: 0,
        }
    }

    // A text in base 16, of which as much is held as there is room for.
    pub fn put_hex(&mut self, bytes: &[u8])
        ensures { self.new ≡ take 65536 (self.old ++ hex_bytes bytes.now) }
    {
        let end = digits::put_hex_bytes(&mut self.room, self.len, bytes);
        self.len = end.min(self.room.len());
    }

    // All of it is printed.
    pub fn print<W: Write>(&mut self, out: &mut W) -> io::Result<()>
        ensures ok { OnOk result ((self.new ≡ []) × Appends (W.contents out.old) (W.contents out.new) self.old) }
        ensures err { OnErr result ((self.new ≡ self.old) × AppendsFront (W.contents out.old) (W.contents out.new) self.old) }
    {
        console::write_all(out, &self.room[..self.len])?;
        self.len = 0;
        Ok(())
    }

    // It is printed where it is much.
    pub fn print_much<W: Write>(&mut self, out: &mut W, much: usize) -> io::Result<()>
        ensures printed { OnOk result (PrintsFront (W.contents out.old) (W.contents out.new) self.old self.new) }
        ensures little { OnOk result (0 < much → length self.new < much) }
        ensures much { OnOk result (PrintsFrom much (W.contents out.old) (W.contents out.new) self.old self.new) }
        ensures err { OnErr result ((self.new ≡ self.old) × AppendsFront (W.contents out.old) (W.contents out.new) self.old) }
    {
        if self.len < much {
            return Ok(());
        }
        self.print(out)
    }

    // It is printed where there is no room for so many bytes more.
    pub fn print_for<W: Write>(&mut self, out: &mut W, len: usize) -> io::Result<()>
        ensures printed { OnOk result (PrintsFront (W.contents out.old) (W.contents out.new) self.old self.new) }
        ensures fits { OnOk result (len ≤ 65536 → length self.new + len ≤ 65536) }
        ensures much { OnOk result (PrintsFrom (65537 - len) (W.contents out.old) (W.contents out.new) self.old self.new) }
        ensures err { OnErr result ((self.new ≡ self.old) × AppendsFront (W.contents out.old) (W.contents out.new) self.old) }
    {
        if len <= self.room.len() - self.len {
            return Ok(());
        }
        self.print(out)
    }
}

impl Write for Held {
    ghost contents = { λ h. Some h };

    // As much is held as there is room for.
    fn write(&mut self, bytes: &[u8]) -> io::Result<usize>
        ensures bound { WritesAtMost result bytes.now }
        ensures bytes { WriteAppends (Some self.old) (Some self.new) result bytes.now }
        ensures room { IfOk result (λ n. n ≡ min (length bytes.now) (65536 - length self.old)) }
        ensures ok { IsOk result }
    {
        let n = bytes.len().min(self.room.len() - self.len);
        self.room[self.len..self.len + n].copy_from_slice(&bytes[..n]);
        self.len += n;
        Ok(n)
    }

    fn flush(&mut self) -> io::Result<()>
        ensures bytes { Keeps (Some self.old) (Some self.new) }
        ensures ok { IsOk result }
    {
        Ok(())
    }
}
