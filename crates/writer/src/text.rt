// A text, line by line, to its card.
ghost use Rattle.std.specs.Prelude.{◌≡◌, ◌-◌, ◌≤◌, length};
ghost use Rattle.std.specs.Iterator.{at_most};

use crate::calls::Calls;
use crate::line::{read_call, read_header};
use crate::problem::{NoCard, Problem, Refusal, Why};
use crate::scan::trim;
use card::write::{WriteRefusal, write};
use joined::call::Call;
use joined::machine::Airframe;
use joined::settings::Settings;

// The longest text has 1,048,576 bytes; a byte more, so that a longer one is noticed.
pub(crate) const TEXT_ROOM: usize = 1_048_577;

// The lines of a text that are left.
#[derive(Clone, Copy, Debug)]
struct Lines<'a> {
    rest: &'a [u8],
}

// What stands behind a line, which ends with CR LF, CR or LF or with the text.
fn after_end(rest: &[u8]) -> &[u8]
    ensures { length result.now ≤ length rest.now - 1 }
{
    match rest {
        [b'\r', b'\n', after @ ..] => after,
        [_, after @ ..] => after,
        [] => rest,
    }
}

impl<'a> Iterator for Lines<'a> {
    type Item = &'a [u8];

    ghost remaining = { λ s. at_most (length s.rest.now) };

    fn next(&mut self) -> Option<&'a [u8]> {
        let rest = self.rest;
        if rest.is_empty() {
            return None;
        }
        let end = rest
            .iter()
            .position(|b| matches!(b, b'\n' | b'\r'))
            .unwrap_or(rest.len());
        let (line, rest) = rest.split_at(end);
        self.rest = after_end(rest);
        Some(line)
    }
}

// The words of a line, without its comment.
fn words_of(line: &[u8]) -> &[u8] {
    let words = line.split(|b| *b == b'#').next();
    trim(words.unwrap_or(line))
}

// The header, and the number of its line.
#[derive(Clone, Copy)]
struct Header {
    airframe: Airframe,
    settings: Settings,
    line: usize,
}

// What is read of a text: its header and its calls; the number of the last line that was read, and that of the last call's.
#[derive(Drop)]
struct Reading {
    header: Option<Header>,
    calls: Calls,
    line: usize,
    call_line: usize,
}

impl Reading {
    fn new() -> Reading {
        Reading {
            header: None,
            calls: Calls::new(),
            line: 0,
            call_line: 0,
        }
    }

    // With a call so many times, as long as there is room.
    fn add(&mut self, call: Call, times: usize) {
        for _ in 0..times {
            if self.calls.push(call) {
                self.call_line = self.line;
            }
        }
    }

    // With the words of a line.
    fn read_words<'a>(&mut self, words: &'a [u8]) -> Result<(), Problem<'a>> {
        if let Some(header) = self.header {
            let (call, times) = read_call(header.airframe, words)?;
            self.add(call, times);
        } else {
            let (airframe, settings) = read_header(words)?;
            self.header = Some(Header {
                airframe,
                settings,
                line: self.line,
            });
        }
        Ok(())
    }

    // With the lines of a text.
    fn read<'a>(&mut self, text: &'a [u8]) -> Result<(), Problem<'a>> {
        let rest = match text {
            [0xFF, 0xFE, ..] | [0xFE, 0xFF, ..] => return Err(Problem::Utf16),
            [0xEF, 0xBB, 0xBF, rest @ ..] => rest,
            _ => text,
        };
        for line in (Lines { rest }) {
            self.line = self.line.saturating_add(1);
            let words = words_of(line);
            if !words.is_empty() {
                self.read_words(words)?;
            }
        }
        Ok(())
    }

    // What is wrong with the last line that was read; a text without lines has line 1.
    fn wrong<'a>(&self, problem: Problem<'a>) -> NoCard<'a> {
        NoCard {
            line: self.line.max(1),
            why: Why::Wrong(problem),
        }
    }

    // Why the card is refused, with the line that it is about.
    fn refused(&self, header: Header, why: WriteRefusal) -> NoCard<'static> {
        NoCard {
            line: match why {
                WriteRefusal::Calls => self.call_line,
                WriteRefusal::Room => self.line,
                WriteRefusal::Header(_) => header.line,
            },
            why: Why::Refused(Refusal {
                why,
                airframe: header.airframe,
            }),
        }
    }
}

// Writes the card of a text to the start of `out`, and answers it.
pub(crate) fn write_text<'a, 'b>(
    text: &'a [u8],
    out: &'b mut [u8],
) -> Result<&'b [u8], NoCard<'a>> {
    let mut reading = Reading::new();
    reading
        .read(text)
        .map_err(|problem| reading.wrong(problem))?;
    let header = reading.header.ok_or(reading.wrong(Problem::NoHeader))?;
    let calls = reading.calls.as_slice();
    let length = write(header.airframe, header.settings, calls, out).map_err(|why| reading.refused(
        header, why,
    ))?;
    Ok(out.get(..length).unwrap_or(&[]))
}
