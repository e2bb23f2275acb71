// A list of texts, each with its length before it as a little-endian u32. A length past 1,048,577 counts as that; a text that is cut off ends the list.
// For each goes to standard output its card, with its length before it likewise; or, if there is none, the length 0 and a line: which line of the text is wrong or refused, and the refusal.
use crate::problem::{NoCard, Refusal, Why};
use crate::text::{TEXT_ROOM, write_text};
use card::write::WriteRefusal;
use std::fmt;
use std::io::{Read, Write};
use streams::Decimal;

// The answer for a text without a card, without the words that say why. The spaces are parts of their own, so that each word is written by itself.
#[derive(Clone, Copy)]
struct Answer<'a>(NoCard<'a>);

impl fmt::Display for Answer<'_> {
    fn fmt<W: fmt::Write>(&self, f: &mut fmt::Formatter<W>) -> fmt::Result {
        write!(f, "line{}{}", ' ', Decimal(self.0.line as u64))?;
        let Why::Refused(Refusal { why, .. }) = self.0.why else {
            return Ok(());
        };
        write!(f, " refused{}{}", ' ', Decimal(u64::from(why.number())))?;
        if let WriteRefusal::Header(why) = why {
            write!(f, "{}{}", ' ', Decimal(u64::from(why.field())))?;
        }
        Ok(())
    }
}

// Writes a card with its length before it.
fn put_card<W: Write>(stdout: &mut W, card: &[u8]) {
    let length = u32::try_from(card.len()).unwrap_or(u32::MAX);
    streams::write_all(stdout, &length.to_le_bytes());
    streams::write_all(stdout, card);
}

// Writes what comes of a text.
fn put_text<W: Write>(stdout: &mut W, text: &[u8]) {
    let mut out = [0u8; 64_000];
    match write_text(text, &mut out) {
        Ok(card) => put_card(stdout, card),
        Err(no_card) => {
            streams::write_all(stdout, &[0; 4]);
            streams::print(stdout, format_args!("{}\n", Answer(no_card)));
        }
    }
}

// Takes the next text; None at the end of the list.
fn take_text<R: Read, W: Write>(stdin: &mut R, stdout: &mut W) -> Option<()> {
    let length = streams::read_u32(stdin)?;
    take_bytes(stdin, stdout, length)
}

// Takes so many bytes as a text; None where the list ends before. Apart from `take_text`, which would fill its room with zeros before the length is read, and once more after it.
fn take_bytes<R: Read, W: Write>(stdin: &mut R, stdout: &mut W, length: u32) -> Option<()> {
    let mut text = streams::buffer::<TEXT_ROOM>();
    let n = streams::read_start(stdin, &mut text, length)?;
    put_text(stdout, &text[..n]);
    Some(())
}

// A proved loop has to end, and nothing says that the input does, so it counts its turns up to a number that no run reaches.
pub(crate) fn write_list<R: Read, W: Write>(stdin: &mut R, stdout: &mut W) {
    for _ in 0..u64::MAX {
        if take_text(stdin, stdout).is_none() {
            return;
        }
    }
}
