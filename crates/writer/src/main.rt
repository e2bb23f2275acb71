// The planners' program (document 02, 2.1): the text of a card on standard input, the card on standard output.
// If there is none, nothing is written there, and one line on standard error says which line of the text is wrong and what was expected. `oracle/card --help` describes the form; what that takes beyond it is refused here.
// With the argument `list` it takes a list of texts (src/list.rt). No program sets its exit status: it is 0 either way.
#![tactic(auto)]

mod calls;
mod fields;
mod line;
mod list;
mod names;
mod number;
mod problem;
mod scan;
mod text;

use list::write_list;
use problem::NoCard;
use std::env::{Env, FillError};
use std::io::{Read, Write};
use streams::Decimal;
use text::{TEXT_ROOM, write_text};

// Writes a card, or says why it cannot. Two writers, and no struct of them: `main` holds both, and a struct of two borrows is no plainer.
fn put<W: Write, E: Write>(stdout: &mut W, stderr: &mut E, card: &[u8]) {
    if let Err(error) = stdout.write_all(card) {
        streams::fail(stderr, b"writer: standard output", error);
    }
}

// Writes the card of a text, or says why there is none.
fn put_text<W: Write, E: Write>(stdout: &mut W, stderr: &mut E, text: &[u8]) {
    let mut out = [0u8; 64_000];
    match write_text(text, &mut out) {
        Ok(card) => put(stdout, stderr, card),
        Err(NoCard { line, why }) => {
            let line = Decimal(line as u64);
            streams::print(stderr, format_args!("writer: line {line}: {why}\n"));
        }
    }
}

// Takes the text.
fn write_one<R: Read, W: Write, E: Write>(stdin: &mut R, stdout: &mut W, stderr: &mut E) {
    let mut text = streams::buffer::<TEXT_ROOM>();
    let input = streams::read_input(stdin, &mut text);
    let n = input.length;
    if let Some(error) = input.error {
        streams::fail(stderr, b"writer: standard input", error);
    } else if n > 1_048_576 {
        streams::write_all(
            stderr,
            b"writer: the text is longer than 1,048,576 bytes, the most that is read\n",
        );
    } else {
        put_text(stdout, stderr, &text[..n]);
    }
}

// Whether there is an argument i; argument 0 is the program's name.
fn has_argument<A: Env>(rt: &A, i: usize) -> bool {
    let mut word = [0u8; 8];
    !matches!(rt.arg(i, &mut word), Err(FillError::NotPresent))
}

// Whether the first argument is `list`. One that is longer than the room for it is not.
fn is_list<A: Env>(rt: &A) -> bool {
    let mut word = [0u8; 8];
    rt.arg(1, &mut word).is_ok_and(|n| n == 4) && word.starts_with(b"list")
}

fn main(rt: HostRuntime) {
    let mut stdin = rt.stdin();
    let mut stdout = rt.stdout();
    let mut stderr = rt.stderr();
    if !has_argument(&rt, 1) {
        write_one(&mut stdin, &mut stdout, &mut stderr);
    } else if !has_argument(&rt, 2) && is_list(&rt) {
        write_list(&mut stdin, &mut stdout);
    } else {
        streams::write_all(
            &mut stderr,
            b"writer: the text of a card is read from standard input, and the card is written to standard output; the only argument is 'list', for many texts with their lengths before them\n",
        );
    }
}
