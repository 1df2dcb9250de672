// What the programs read and write with, over std's streams: a buffer filled, a text written, a number printed.
#![tactic(auto)]

ghost use Rattle.std.specs.Prelude.{◌≡◌, ◌+◌, ◌<◌, ◌≤◌, take, drop, length, IfOk, OnOk, OnErr};
ghost use Rattle.std.specs.Fmt.{decimal};
ghost use Rattle.std.specs.Io.{ReadsAtMost};
ghost use Rattle.std.specs.Io.KnownBytes.{Appends, Consumes, IsAtEnd, Keeps};
ghost use Rattle.console.specs.Hex.{hex_digits};
ghost use Rattle.console.specs.Moved.{AppendsFront, ConsumesFront};

use std::io;
use std::io::{ErrorKind, Read, Write};

// For a loop that moves much data.
pub fn large_buffer() -> [u8; 65536]
    ensures { 65536 ≡ length result }
{
    [0; 65536]
}

// So many bytes at the front of a text, or all of them where there are fewer.
pub fn front(text: &[u8], len: usize) -> &[u8]
    ensures { result.now ≡ take len text.now }
{
    &text[..len.min(text.len())]
}

// One read, behind the first `at` bytes.
fn read_behind<R: Read>(from: &mut R, buf: &mut [u8], at: usize) -> io::Result<usize>
    requires { at < length buf.old }
    ensures front { take at buf.new ≡ take at buf.old }
    ensures fits { IfOk result (λ n. at + n ≤ length buf.new) }
    ensures bytes { IfOk result (λ n. Consumes (R.remaining from.old) (R.remaining from.new) (take n (drop at buf.new))) }
    ensures end { IfOk result (λ n. n ≡ 0 → IsAtEnd (R.remaining from.new)) }
    ensures err { OnErr result (Keeps (R.remaining from.old) (R.remaining from.new)) }
{
    from.read(&mut buf[at..])
}

// Reads until the buffer is full or the input ends, and answers how many bytes it put at the front. A failed read ends it, with what came before still
// at the front. It makes no call for an empty buffer.
pub fn read_full<R: Read>(from: &mut R, buf: &mut [u8]) -> io::Result<usize>
    ensures in_bounds { ReadsAtMost result buf.new }
    ensures bytes { IfOk result (λ n. Consumes (R.remaining from.old) (R.remaining from.new) (take n buf.new)) }
    ensures short { IfOk result (λ n. n < length buf.new → IsAtEnd (R.remaining from.new)) }
    ensures err { OnErr result (ConsumesFront (R.remaining from.old) (R.remaining from.new) buf.new) }
{
    let mut done = 0;
    while done < buf.len() {
        let n = read_behind(from, buf, done)?;
        if n == 0 {
            break;
        }
        done += n;
    }
    Ok(done)
}

// Writes all the bytes, or stops at the first write that fails or takes none, when only those at the front are written. It makes no call for no bytes.
pub fn write_all<W: Write>(to: &mut W, bytes: &[u8]) -> io::Result<()>
    ensures ok { OnOk result (Appends (W.contents to.old) (W.contents to.new) bytes.now) }
    ensures err { OnErr result (AppendsFront (W.contents to.old) (W.contents to.new) bytes.now) }
{
    let mut done = 0;
    while done < bytes.len() {
        let n = to.write(&bytes[done..])?;
        if n == 0 {
            return Err(io::Error::from(ErrorKind::WriteZero));
        }
        done += n;
    }
    Ok(())
}

// Prints a number with no line end.
pub fn print_decimal<W: Write>(to: &mut W, n: u64) -> io::Result<()>
    ensures { OnOk result (Appends (W.contents to.old) (W.contents to.new) (decimal n)) }
{
    write!(to, "{n}")
}

// Prints a number in base 16, with small letters and zeros in front up to 16 digits, and no line end.
pub fn print_hex<W: Write>(to: &mut W, n: u64) -> io::Result<()>
    ensures { OnOk result (Appends (W.contents to.old) (W.contents to.new) (hex_digits n)) }
{
    write!(to, "{n:016x}")
}

#[cfg(test)]
mod tests {
    use super::*;

    // Moves a byte a call, so many times, and then fails.
    #[derive(Drop)]
    struct Failing {
        left: u8,
    }

    impl Failing {
        fn step(&mut self) -> io::Result<()> {
            if self.left == 0 {
                return Err(io::Error::from(ErrorKind::Other));
            }
            self.left -= 1;
            Ok(())
        }
    }

    impl Read for Failing {
        fn read(&mut self, buf: &mut [u8]) -> io::Result<usize> {
            if buf.is_empty() {
                return Ok(0);
            }
            self.step()?;
            buf[0] = b'x';
            Ok(1)
        }
    }

    impl Write for Failing {
        fn write(&mut self, buf: &[u8]) -> io::Result<usize> {
            if buf.is_empty() {
                return Ok(0);
            }
            self.step()?;
            Ok(1)
        }

        fn flush(&mut self) -> io::Result<()> {
            Ok(())
        }
    }

    #[test]
    fn a_buffer_is_read_full(rt: HostRuntime) {
        let mut input: &[u8] = b"abcde";
        let mut three = [0u8; 3];
        assert!(rt; matches!(read_full(&mut input, &mut three), Ok(3)));
        assert!(rt; three == *b"abc");
        assert!(rt; matches!(read_full(&mut input, &mut three), Ok(2)));
        assert!(rt; &three[..2] == b"de".as_slice());
        assert!(rt; matches!(read_full(&mut input, &mut three), Ok(0)));
    }

    #[test]
    fn what_fails_in_mid_stream_is_an_error(rt: HostRuntime) {
        let mut three = [0u8; 3];
        assert!(rt; read_full(&mut Failing { left: 2 }, &mut three).is_err());
        assert!(rt; matches!(read_full(&mut Failing { left: 3 }, &mut three), Ok(3)));
        assert!(rt; write_all(&mut Failing { left: 2 }, b"abc").is_err());
        assert!(rt; write_all(&mut Failing { left: 3 }, b"abc").is_ok());
        assert!(rt; print_decimal(&mut Failing { left: 1 }, 10).is_err());
        assert!(rt; print_hex(&mut Failing { left: 15 }, 1).is_err());
    }

    #[test]
    fn numbers_are_printed(rt: HostRuntime) -> io::Result<()> {
        let mut out = Vec::new(rt.alloc());
        write_all(&mut out, b"n ")?;
        print_decimal(&mut out, 0)?;
        write_all(&mut out, b" ")?;
        print_decimal(&mut out, u64::MAX)?;
        write_all(&mut out, b" ")?;
        print_hex(&mut out, 0xac_de48_2345_6789)?;
        assert!(rt; out.as_slice() == b"n 0 18446744073709551615 00acde4823456789".as_slice());
        Ok(())
    }
}
