// Reads a list of checks from standard input, and writes a line for each: what `check` answers to a card, and every byte of the marks after it.
// Before a check stand three little-endian u32s: how many bytes are put over the start of the card before it, how many bytes are the card then, and how many marks are lent. Those bytes follow, then the marks.
// A number past its buffer counts as the buffer's length; a check that is cut off ends the list.
#![tactic(auto)]

use card::chain::check;
use card::refusal::CardRefusal;
use machines::InputRefusal;
use std::fmt;
use std::fmt::Display;
use std::io::{Read, Write};
use streams::Decimal;

// What a check found, as its line says it: how many records are to be walked, or the refusal's number, with the field after a 3.
#[derive(Clone, Copy)]
struct Found(Result<usize, CardRefusal>);

impl Display for Found {
    fn fmt<W: fmt::Write>(&self, f: &mut fmt::Formatter<W>) -> fmt::Result {
        match self.0 {
            Ok(count) => write!(f, "walk {}", Decimal(count as u64)),
            Err(CardRefusal::Header(why @ InputRefusal::Setting(field))) => {
                let number = Decimal(u64::from(why.number()));
                write!(f, "card {number} {}", Decimal(u64::from(field)))
            }
            Err(why) => write!(f, "card {}", Decimal(u64::from(why.number()))),
        }
    }
}

// Checks a card with these marks, and writes the line: what was found, and each mark in two digits.
fn check_card<W: Write>(stdout: &mut W, card: &[u8], marks: &mut [u8]) {
    streams::print(stdout, Found(check(card, marks)));
    streams::write_all(stdout, b" marks=");
    for mark in marks {
        streams::print_hex(stdout, u64::from(*mark), 2);
    }
    streams::write_all(stdout, b"\n");
}

// Reads so many marks and checks a card with them; None where the list ends before. Apart from `take_check`, which would fill their room with zeros twice.
fn lend<R: Read, W: Write>(stdin: &mut R, stdout: &mut W, card: &[u8], lent: u32) -> Option<()> {
    let mut marks = streams::buffer::<4096>();
    let n = streams::read_start(stdin, &mut marks, lent)?;
    check_card(stdout, card, &mut marks[..n]);
    Some(())
}

// Takes the next check, if there is one. A number that is cut off counts as 0 where the last of the three comes all the same, as from a terminal.
fn take_check<R: Read, W: Write>(stdin: &mut R, stdout: &mut W, card: &mut [u8]) -> Option<()> {
    let fresh = streams::read_u32(stdin).unwrap_or(0);
    let length = streams::read_u32(stdin).unwrap_or(0);
    let lent = streams::read_u32(stdin)?;
    streams::read_start(stdin, card, fresh)?;
    let size = streams::count(length as isize, card);
    lend(stdin, stdout, &card[..size], lent)
}

// A proved loop has to end, and nothing says that the input does (a `while let` has no measure), so it counts its turns up to a number that no run reaches.
fn main(rt: HostRuntime) {
    let mut stdin = rt.stdin();
    let mut stdout = rt.stdout();
    let mut card = streams::buffer::<65_536>();
    for _ in 0..u64::MAX {
        if take_check(&mut stdin, &mut stdout, &mut card).is_none() {
            return;
        }
    }
}
