// Says of each line of standard input, of its first 65,536 bytes, what each of the small readers makes of it; and how many lines there were.
#![tactic(auto)]

use console::{print_decimal, print_hex, write_all};
use eui64::{BrokenRule, Fault};
use number::Reason;
use std::io;
use std::io::{Read, Write};

fn say_utf8(out: &mut impl Write, line: &[u8]) -> io::Result<()> {
    write_all(out, b"utf8=")?;
    match utf8::check_utf8(line) {
        Ok(()) => write_all(out, b"ok"),
        Err(at) => print_decimal(out, at as u64),
    }
}

fn say_reason(out: &mut impl Write, reason: Reason) -> io::Result<()> {
    match reason {
        Reason::Empty => write_all(out, b"empty"),
        Reason::Digit => write_all(out, b"digit"),
        Reason::Size => write_all(out, b"size"),
    }
}

fn say_port(out: &mut impl Write, line: &[u8]) -> io::Result<()> {
    write_all(out, b" port=")?;
    match number::read_number(line, 65535) {
        Ok(n) => print_decimal(out, u64::from(n)),
        Err(reason) => say_reason(out, reason),
    }
}

fn say_fault(out: &mut impl Write, fault: Fault) -> io::Result<()> {
    match fault.rule {
        BrokenRule::Length => write_all(out, b"length"),
        BrokenRule::SegmentLength => write_all(out, b"segment"),
        BrokenRule::SegmentDigits => write_all(out, b"digits"),
    }?;
    write!(out, "@{}+{}", fault.place.start, fault.place.len)
}

fn say_eui64(out: &mut impl Write, line: &[u8]) -> io::Result<()> {
    write_all(out, b" eui64=")?;
    match eui64::read_eui64(line) {
        Ok(id) => print_hex(out, id),
        Err(fault) => say_fault(out, fault),
    }
}

fn say_address(out: &mut impl Write, line: &[u8]) -> io::Result<()> {
    write_all(out, b" ip=")?;
    if ipaddr::is_ip_address(line) {
        write_all(out, b"yes\n")
    } else {
        write_all(out, b"no\n")
    }
}

fn say_line(out: &mut impl Write, line: &[u8]) -> io::Result<()> {
    say_utf8(out, line)?;
    say_port(out, line)?;
    say_eui64(out, line)?;
    say_address(out, line)
}

// A last line without a line end counts if it is not empty.
fn say_lines(out: &mut impl Write, input: &[u8]) -> io::Result<u64> {
    let mut lines: u64 = 0;
    for line in input.split_inclusive(|b| *b == b'\n') {
        say_line(out, line.strip_suffix(b"\n").unwrap_or(line))?;
        lines = lines.saturating_add(1);
    }
    Ok(lines)
}

// What the input begins with, as much as the buffer has room for, if no read fails: at the end of the input one more answers 0.
fn read_front<'a>(input: &mut impl Read, buffer: &'a mut [u8]) -> io::Result<&'a [u8]> {
    let len = console::read_full(input, buffer)?;
    input.read(&mut [0u8; 1])?;
    Ok(&buffer[..len])
}

fn main(rt: HostRuntime) -> io::Result<()> {
    let mut stdout = rt.stdout();
    let mut buffer = console::large_buffer();
    let Ok(input) = read_front(&mut rt.stdin(), &mut buffer) else {
        let _ = write_all(&mut rt.stderr(), b"the input could not be read\n");
        return Ok(());
    };
    let lines = say_lines(&mut stdout, input)?;
    writeln!(stdout, "lines {lines}")
}
