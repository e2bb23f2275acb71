// Reads a card from standard input, and writes the transcript of its run to standard output (document 01, section 7).
// An input that cannot be read to its end is not run. That, and an output that cannot be written, is said on standard error.
#![tactic(auto)]

ghost use Rattle.streams.specs.Counts.{IsPrefixLen};

use card::run::run;
use std::io::{Read, Write};
use streams::Input;

// Reads until `card` is full, the input ends or a read fails.
fn read_card<R: Read>(stdin: &mut R, card: &mut [u8]) -> Input
    ensures { IsPrefixLen result.length card.new }
{
    streams::read_input(stdin, card)
}

// Writes a text, or says why it cannot. The writer has the same but for the name that it says: a function of `streams` for both would take that name, and spare no line.
fn put<W: Write, E: Write>(stdout: &mut W, stderr: &mut E, text: &[u8]) {
    if let Err(error) = stdout.write_all(text) {
        streams::fail(stderr, b"runner: standard output", error);
    }
}

// Runs a card and writes its transcript.
fn run_card<W: Write, E: Write>(stdout: &mut W, stderr: &mut E, card: &[u8]) {
    let mut marks = [0u8; 800];
    let mut out = [0u8; 32_000];
    let n = run(card, &mut marks, &mut out);
    put(stdout, stderr, &out[..n]);
}

// One byte more than the longest card is asked for, so that a longer one is refused.
fn main(rt: HostRuntime) {
    let mut stdout = rt.stdout();
    let mut stderr = rt.stderr();
    let mut card = [0u8; 64_001];
    let input = read_card(&mut rt.stdin(), &mut card);
    match input.error {
        Some(error) => streams::fail(&mut stderr, b"runner: standard input", error),
        None => run_card(&mut stdout, &mut stderr, &card[..input.length]),
    }
}
