// Reading to a buffer's end, writing bytes and numbers, and what is said of a failure, over any reader and writer of std.
// No function here has a `requires`. A read that a signal interrupts before it moves a byte counts as one that failed; such a write is made again.
#![tactic(auto)]

ghost use Rattle.std.specs.Prelude.{◌≡◌, ◌<◌, length, min, take, IsTrue, IfSome, IsNone, Some, None};
ghost use Rattle.std.specs.Int.{w32, to_le_bytes};
ghost use Rattle.std.specs.Io.KnownBytes.{Appends, Consumes, IsAtEnd};
ghost use Rattle.std.specs.Fmt.{decimal};
ghost use Rattle.streams.specs.Counts.{ConsumesFewer, IsPrefixLen, clamp_len};
ghost use Rattle.streams.specs.Digits.{hex_text};

use std::fmt::{self, Display, Formatter, InlineText};
use std::io;
use std::io::{Read, Write};

// How many bytes were read before the input ended, the buffer was full or a read failed, and the error of a read that failed.
#[derive(Clone, Copy)]
pub struct Input {
    pub length: usize,
    pub error: Option<io::Error>,
}

// N zeros. The `ensures` gives only the length: that the zeros are so many is all that lending them needs, and the check does not count them one by one.
pub fn buffer<const N: usize>() -> [u8; N]
    ensures { N ≡ length result }
{
    [0; N]
}

// Brings a length into the bounds of buf: 0 where it is negative, and never more than buf's length. An `isize`: its promise and the edit count_too_long_is_none speak of one.
pub fn count(got: isize, buf: &[u8]) -> usize
    ensures in_bounds { IsPrefixLen result buf.now }
    ensures value { result ≡ clamp_len got (length buf.now) }
{
    if got <= 0 {
        return 0;
    }
    let n = got as usize;
    if n < buf.len() { n } else { buf.len() }
}

// Reads until buf is full, the input ends or a read fails. On an empty buf it makes no call.
pub fn read_input<R: Read>(from: &mut R, buf: &mut [u8]) -> Input
    ensures in_bounds { IsPrefixLen result.length buf.new }
    ensures bytes { Consumes (R.remaining from.old) (R.remaining from.new) (take result.length buf.new) }
    ensures end { result.length < length buf.new → result.error ≡ None → IsAtEnd (R.remaining from.new) }
{
    // a `while`: how far a turn goes on is the read's to say
    let mut done = 0;
    while done < buf.len() {
        match from.read(&mut buf[done..]) {
            Ok(0) => break,
            Ok(n) => done += n,
            Err(e) => {
                return Input {
                    length: done,
                    error: Some(e),
                };
            }
        }
    }
    Input {
        length: done,
        error: None,
    }
}

// Reads as `read_input` does, and returns how many bytes it put at the start of buf.
pub fn read_full<R: Read>(from: &mut R, buf: &mut [u8]) -> usize
    ensures in_bounds { IsPrefixLen result buf.new }
    ensures bytes { Consumes (R.remaining from.old) (R.remaining from.new) (take result buf.new) }
{
    read_input(from, buf).length
}

// The number whose bytes these are, the lowest first.
fn number_of(bytes: [u8; 4]) -> u32
    ensures { to_le_bytes w32 result ≡ bytes }
{
    u32::from_le_bytes(bytes)
}

// Reads four bytes as a little-endian number; `None` where the input ends or a read fails before the fourth.
pub fn read_u32<R: Read>(from: &mut R) -> Option<u32>
    ensures some { IfSome result (λ n. Consumes (R.remaining from.old) (R.remaining from.new) (to_le_bytes w32 n)) }
    ensures none { IsNone result → ConsumesFewer (R.remaining from.old) (R.remaining from.new) 4 }
{
    let mut bytes = [0u8; 4];
    if read_full(from, &mut bytes) < 4 {
        return None;
    }
    Some(number_of(bytes))
}

// Reads n bytes to the start of buf, or as many as buf has room for where those are fewer, and returns how many; `None` where the input ends or a read fails before the last.
pub fn read_start<R: Read>(from: &mut R, buf: &mut [u8], n: u32) -> Option<usize>
    ensures in_bounds { IfSome result (λ k. IsPrefixLen k buf.new) }
    ensures value { IfSome result (λ k. k ≡ min n (length buf.old)) }
    ensures bytes { IfSome result (λ k. Consumes (R.remaining from.old) (R.remaining from.new) (take k buf.new)) }
    ensures none { IsNone result → ConsumesFewer (R.remaining from.old) (R.remaining from.new) (min n (length buf.old)) }
{
    let most = buf.len().min(n as usize);
    if read_full(from, &mut buf[..most]) < most {
        return None;
    }
    Some(most)
}

// This and the two below answer a `bool`, and no `Result`: their promises and the edits write_nothing, decimal_in_hex and hex_without_zeros speak of it.
// Writes all of buf and returns true, or returns false after a write that takes nothing or fails, when some of buf may have been written.
pub fn write_all<W: Write>(to: &mut W, buf: &[u8]) -> bool
    ensures { IsTrue result → Appends (W.contents to.old) (W.contents to.new) buf.now }
{
    to.write_all(buf).is_ok()
}

// Writes n in decimal digits, with no line end, and returns what `write_all` does.
pub fn print_decimal<W: Write>(to: &mut W, n: u64) -> bool
    ensures { IsTrue result → Appends (W.contents to.old) (W.contents to.new) (decimal n) }
{
    write!(to, "{n}").is_ok()
}

// Writes n in hexadecimal digits, in lower case, with zeros in front up to width digits, and returns what `write_all` does.
pub fn print_hex<W: Write>(to: &mut W, n: u64, width: usize) -> bool
    ensures { IsTrue result → Appends (W.contents to.old) (W.contents to.new) (hex_text width n) }
{
    write!(to, "{n:0width$x}").is_ok()
}

// A number as `{}` shows it, in decimal digits: what a line shows by `print` is said by contracts down to its digits.
#[derive(Clone, Copy, Debug, PartialEq, Eq)]
pub struct Decimal(pub u64);

impl Display for Decimal {
    ghost output = { λ it. Some (decimal it.0) };

    fn fmt<W: fmt::Write>(&self, f: &mut Formatter<W>) -> fmt::Result {
        write!(f, "{}", self.0)
    }
}

// Whether a part of a text stands between words.
fn parts_words(part: &[u8]) -> bool {
    matches!(part.first(), Some(b' ' | b'\n'))
}

// A writer as a `fmt::Write` that tries each part of a text, whatever became of the part before, or else each word; and whether all parts so far were written.
#[derive(Drop)]
struct Tried<'a, W> {
    inner: &'a mut W,
    all: bool,
    by_word: bool,
    // by word, whether a part of this word could not be written
    broken: bool,
}

impl<W: Write> fmt::Write for Tried<'_, W> {
    ghost write_str_gives = { λ s bs t. (t.inner.ghost_name ≡ s.inner.ghost_name)
        × (IsTrue t.all → IsTrue s.all × Appends (W.contents s.inner.now) (W.contents t.inner.now) bs) };

    fn write_str(&mut self, s: &str) -> fmt::Result {
        let part = s.as_bytes();
        let between = parts_words(part);
        if between {
            self.broken = false;
        }
        if self.broken {
            self.all = false;
        } else if !write_all(self.inner, part) {
            self.all = false;
            self.broken = self.by_word && !between;
        }
        Ok(())
    }
}

// Writes what a value shows, and returns what `write_all` does. Its parts are tried one after the other, whatever became of the part before; `write!` stops at the first that fails.
pub fn print<W: Write, D: Display + Drop>(to: &mut W, shown: D) -> bool
    ensures { IsTrue result → IfSome (D.output shown) (Appends (W.contents to.old) (W.contents to.new)) }
{
    try_parts(to, shown, false)
}

// As `print`, but where a part of a word fails, what is left of that word is left out: a number's zeros in front and its digits are two parts.
pub fn print_words<W: Write, D: Display + Drop>(to: &mut W, shown: D) -> bool
    ensures { IsTrue result → IfSome (D.output shown) (Appends (W.contents to.old) (W.contents to.new)) }
{
    try_parts(to, shown, true)
}

// Tries the parts of what a value shows, or its words.
fn try_parts<W: Write, D: Display + Drop>(to: &mut W, shown: D, by_word: bool) -> bool
    ensures { IsTrue result → IfSome (D.output shown) (Appends (W.contents to.old) (W.contents to.new)) }
{
    let mut f = Formatter::new(Tried {
        inner: to,
        all: true,
        by_word,
        broken: false,
    });
    let shows = f.write(shown).is_ok();
    let Tried { inner, all, .. } = f.into_inner();
    // No effect at run time: the proof reads what `to` holds from it.
    let _ = &*inner;
    shows && all
}

// Writes a line, in four writes, as what is named are bytes, which `write!` does not take: what failed, as the caller names it, a colon and what the error says, of which 300 bytes are kept. A line that cannot be written is left out.
pub fn fail<W: Write>(to: &mut W, what: &[u8], error: io::Error) {
    let text = InlineText::<300>::of(error);
    write_all(to, what);
    write_all(to, b": ");
    write_all(to, without_number(text.as_str()).as_bytes());
    write_all(to, b"\n");
}

// What an error says, without the system's number behind it.
fn without_number(text: &str) -> &str {
    match text.rsplit_once(" (os error ") {
        Some((words, _)) => words,
        None => text,
    }
}

#[cfg(test)]
mod tests;
