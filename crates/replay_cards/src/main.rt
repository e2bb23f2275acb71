// Reads a list of cards from standard input, and writes the transcript of each to standard output, one after the other.
// Before a card stands its length, a little-endian u32. A length past 65,536 counts as that; a card that is cut off ends the list.
#![tactic(auto)]

use card::run::run;
use std::io::{Read, Write};

// Runs a card and writes its transcript. The runner has one like it, which says what fails; here nothing is said, so they are two.
fn run_card<W: Write>(stdout: &mut W, card: &[u8]) {
    let mut marks = [0u8; 800];
    let mut out = [0u8; 32_000];
    let n = run(card, &mut marks, &mut out);
    streams::write_all(stdout, &out[..n]);
}

// Takes the next card, if there is one.
fn take_card<R: Read, W: Write>(stdin: &mut R, stdout: &mut W) -> Option<()> {
    let length = streams::read_u32(stdin)?;
    let mut card = streams::buffer::<65_536>();
    let n = streams::read_start(stdin, &mut card, length)?;
    run_card(stdout, &card[..n]);
    Some(())
}

// A proved loop has to end, and nothing says that the input does (a `while let` has no measure), so it counts its turns up to a number that no run reaches.
fn main(rt: HostRuntime) {
    let mut stdin = rt.stdin();
    let mut stdout = rt.stdout();
    for _ in 0..u64::MAX {
        if take_card(&mut stdin, &mut stdout).is_none() {
            return;
        }
    }
}
