// What the functions do with bytes in memory, and with a reader or a writer that fails.
use super::*;
use std::io::ErrorKind;
use std::test::Fail;

// Gives so many bytes, one a read, and then fails.
#[derive(Drop)]
struct Failing {
    left: u8,
}

impl Read for Failing {
    fn read(&mut self, buf: &mut [u8]) -> io::Result<usize> {
        if self.left == 0 {
            return Err(io::Error::from(ErrorKind::BrokenPipe));
        }
        if buf.is_empty() {
            return Ok(0);
        }
        self.left -= 1;
        buf[0] = 7;
        Ok(1)
    }
}

// Takes nothing.
#[derive(Drop)]
struct Full;

impl Write for Full {
    fn write(&mut self, _buf: &[u8]) -> io::Result<usize> {
        Ok(0)
    }

    fn flush(&mut self) -> io::Result<()> {
        Ok(())
    }
}

// Fails at one write, and counts the bytes of the others.
#[derive(Drop)]
struct FailsAt {
    at: usize,
    calls: usize,
    taken: usize,
}

impl FailsAt {
    fn new(at: usize) -> FailsAt {
        FailsAt {
            at,
            calls: 0,
            taken: 0,
        }
    }
}

impl Write for FailsAt {
    fn write(&mut self, buf: &[u8]) -> io::Result<usize> {
        self.calls = self.calls.saturating_add(1);
        if self.calls == self.at {
            return Err(io::Error::from(ErrorKind::BrokenPipe));
        }
        self.taken = self.taken.saturating_add(buf.len());
        Ok(buf.len())
    }

    fn flush(&mut self) -> io::Result<()> {
        Ok(())
    }
}

#[test]
fn counts(rt: HostRuntime) {
    let buf = [0u8; 3];
    assert_eq!(rt; count(-1, &buf), 0);
    assert_eq!(rt; count(0, &buf), 0);
    assert_eq!(rt; count(2, &buf), 2);
    assert_eq!(rt; count(3, &buf), 3);
    assert_eq!(rt; count(4, &buf), 3);
}

#[test]
fn reads_until_full_or_at_the_end(rt: HostRuntime) {
    let mut from: &[u8] = b"abcde";
    let mut buf = [0u8; 3];
    assert_eq!(rt; read_full(&mut from, &mut buf), 3);
    assert_eq!(rt; buf, *b"abc");
    assert_eq!(rt; read_full(&mut from, &mut buf), 2);
    assert_eq!(rt; buf, *b"dec");
    assert_eq!(rt; read_full(&mut from, &mut buf), 0);
}

#[test]
fn reads_numbers(rt: HostRuntime) {
    let mut from: &[u8] = &[1, 2, 0, 128, 255, 255, 255];
    assert_eq!(rt; read_u32(&mut from), Some(0x8000_0201));
    assert_eq!(rt; read_u32(&mut from), None);
    assert_eq!(rt; read_u32(&mut Failing { left: 3 }), None);
    assert_eq!(rt; read_u32(&mut Failing { left: 4 }), Some(0x0707_0707));
}

#[test]
fn reads_as_many_as_said(rt: HostRuntime) {
    let mut from: &[u8] = b"abcdef";
    let mut buf = [0u8; 3];
    assert_eq!(rt; read_start(&mut from, &mut buf, 2), Some(2));
    assert_eq!(rt; buf, *b"ab\0");
    assert_eq!(rt; read_start(&mut from, &mut buf, u32::MAX), Some(3));
    assert_eq!(rt; buf, *b"cde");
    assert_eq!(rt; read_start(&mut from, &mut buf, 0), Some(0));
    assert_eq!(rt; read_start(&mut from, &mut buf, 2), None);
    assert_eq!(rt; read_start(&mut from, &mut buf, 0), Some(0));
}

#[test]
fn reads_until_a_failure(rt: HostRuntime) {
    let mut from = Failing { left: 5 };
    let mut buf = [0u8; 3];
    let all = read_input(&mut from, &mut buf);
    assert_eq!(rt; all.length, 3);
    assert!(rt; all.error.is_none());
    let some = read_input(&mut from, &mut buf);
    assert_eq!(rt; some.length, 2);
    assert!(rt; some.error.is_some());
}

#[test]
fn writes_numbers(rt: HostRuntime) -> Result<(), Fail> {
    let mut to = Vec::new(rt.alloc());
    assert!(rt; print_decimal(&mut to, 0));
    assert!(rt; write_all(&mut to, b" "));
    assert!(rt; print_decimal(&mut to, u64::MAX));
    assert!(rt; write_all(&mut to, b" "));
    assert!(rt; print_hex(&mut to, 0xaf, 8));
    assert!(rt; write_all(&mut to, b" "));
    assert!(rt; print_hex(&mut to, 0x1af, 2));
    assert_eq!(rt;
        to.as_slice(),
        b"0 18446744073709551615 000000af 1af".as_slice()
    );
    Ok(())
}

#[test]
fn tries_each_part(rt: HostRuntime) -> Result<(), Fail> {
    let (first, second) = (12, 345);
    let mut to = Vec::new(rt.alloc());
    assert!(rt; print(&mut to, format_args!("{first} {second}\n")));
    assert_eq!(rt; to.as_slice(), b"12 345\n".as_slice());
    let mut failing = FailsAt::new(2);
    assert!(rt; !print(&mut failing, format_args!("{first} {second}\n")));
    assert_eq!(rt; failing.calls, 4);
    assert_eq!(rt; failing.taken, 6);
    assert!(rt; !print(&mut Full, format_args!("{first}")));
    Ok(())
}

#[test]
fn tries_each_word(rt: HostRuntime) -> Result<(), Fail> {
    let (first, second) = (12, 345);
    let mut to = Vec::new(rt.alloc());
    assert!(rt; print_words(&mut to, format_args!(" {first:04x} {second}\n")));
    assert_eq!(rt; to.as_slice(), b" 000c 345\n".as_slice());
    let mut parts = FailsAt::new(2);
    assert!(rt; !print(&mut parts, format_args!(" {first:04x} {second}\n")));
    assert_eq!(rt; parts.calls, 6);
    assert_eq!(rt; parts.taken, 7);
    let mut words = FailsAt::new(2);
    assert!(rt; !print_words(&mut words, format_args!(" {first:04x} {second}\n")));
    assert_eq!(rt; words.calls, 5);
    assert_eq!(rt; words.taken, 6);
    Ok(())
}

#[test]
fn goes_on_after_a_space_and_a_last_word(rt: HostRuntime) {
    let (first, second) = (12, 345);
    let mut space = FailsAt::new(1);
    assert!(rt; !print_words(&mut space, format_args!(" {first:04x} {second}\n")));
    assert_eq!(rt; space.calls, 6);
    assert_eq!(rt; space.taken, 9);
    let mut last = FailsAt::new(5);
    assert!(rt; !print_words(&mut last, format_args!(" {first:04x} {second}\n")));
    assert_eq!(rt; last.calls, 6);
    assert_eq!(rt; last.taken, 7);
}

#[test]
fn says_what_failed(rt: HostRuntime) -> Result<(), Fail> {
    let mut to = Vec::new(rt.alloc());
    fail(&mut to, b"input", io::Error::from_raw_os_error(9));
    fail(&mut to, b"output", io::Error::other("none of the system's"));
    assert_eq!(rt;
        to.as_slice(),
        b"input: Bad file descriptor\noutput: none of the system's\n".as_slice()
    );
    assert!(rt; !write_all(&mut Full, b"a"));
    assert!(rt; write_all(&mut Full, b""));
    assert!(rt; !print_decimal(&mut Full, 1));
    Ok(())
}
