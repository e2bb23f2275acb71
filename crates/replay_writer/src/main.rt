// Reads lists of calls from standard input, and writes for each a line, what `write` of crate card answers, and then every byte of the buffer that was lent to it.
// Before a list stand three little-endian u32s: how many calls it has, how many bytes are lent (at most 65,536), and how many calls are given (at most 799).
// Then the header, of which the kind and the settings are looked at, and the given calls, each as a record of a card. The calls that are not given are primes at 0, and so is a record that is no call.
// The lent bytes are 165 before. Bytes that are missing after a header count as 0.
#![tactic(auto)]

use card::record::read_record;
use card::write::{WriteRefusal, write};
use joined::call::Call;
use joined::machine::Airframe;
use joined::settings::Settings;
use machines::InputRefusal;
use std::io::{Read, Write};
use streams::Decimal;

// What stands before the calls of a list.
#[derive(Clone, Copy)]
struct Head {
    count: usize,
    room: u32,
    given: usize,
    airframe: Airframe,
    settings: Settings,
}

// Writes the line of an answer: how many bytes the card has, or the number of a refusal, and the field after a 3.
fn print_wrote<W: Write>(stdout: &mut W, wrote: Result<usize, WriteRefusal>) {
    match wrote {
        Ok(length) => {
            streams::print(stdout, format_args!("wrote {}\n", Decimal(length as u64)));
        }
        Err(WriteRefusal::Header(why @ InputRefusal::Setting(field))) => {
            let number = Decimal(u64::from(why.number()));
            let field = Decimal(u64::from(field));
            streams::print(stdout, format_args!("refused {number} {field}\n"));
        }
        Err(why) => {
            let number = Decimal(u64::from(why.number()));
            streams::print(stdout, format_args!("refused {number}\n"));
        }
    }
}

// The airframe of a header's kind. `bench` and replay_entry choose so too: one function for all would need a contract and an edit of its own, and be longer than the three.
fn airframe_of(kind: u8) -> Airframe {
    match kind {
        5 => Airframe::Tailsitter,
        _ => Airframe::Quadplane,
    }
}

// The next of the given calls; a record that is none counts as a prime at 0.
fn next_call<R: Read>(stdin: &mut R) -> Call {
    let mut b = [0u8; 80];
    streams::read_full(stdin, &mut b);
    read_record(&b, 0).unwrap_or(Call::Prime(0.0))
}

// Writes the card of a list to the lent bytes, and shows the answer and these bytes.
fn write_card<W: Write>(stdout: &mut W, head: Head, calls: &[Call]) {
    let mut lent = streams::buffer::<65_536>();
    lent.fill(165);
    let room = streams::count(head.room as isize, &lent);
    let lent = &mut lent[..room];
    let wrote = write(head.airframe, head.settings, calls, lent);
    print_wrote(stdout, wrote);
    streams::write_all(stdout, lent);
}

// The next of the numbers before a list. What is cut off of one counts as 0 where the header comes all the same, as from a terminal.
fn next_number<R: Read>(stdin: &mut R) -> u32 {
    let mut bytes = [0u8; 4];
    streams::read_full(stdin, &mut bytes);
    u32::from_le_bytes(bytes)
}

// What stands before the calls of the next list; None at the end of the input. A header's settings are read as those of a settings call, kind 4 with option 0.
fn next_head<R: Read>(stdin: &mut R) -> Option<Head> {
    let count = next_number(stdin);
    let room = next_number(stdin);
    let given = next_number(stdin);
    let mut header = [0u8; 80];
    if streams::read_full(stdin, &mut header) < 80 {
        return None;
    }
    let airframe = airframe_of(header[0]);
    header[0] = 4;
    header[1] = 0;
    let Some(Call::Settings(settings)) = read_record(&header, 0) else {
        return None;
    };
    Some(Head {
        count: count as usize,
        room,
        given: given as usize,
        airframe,
        settings,
    })
}

// Reads the given calls and writes the list. 800 calls stand for any more than 799. Apart from `take_list`, which would make their room twice.
fn take_calls<R: Read, W: Write>(stdin: &mut R, stdout: &mut W, head: Head) {
    let mut calls = [Call::Prime(0.0); 800];
    for call in calls.iter_mut().take(head.given.min(799)) {
        *call = next_call(stdin);
    }
    write_card(stdout, head, &calls[..head.count.min(800)]);
}

// Takes the next list; None at the end of the input.
fn take_list<R: Read, W: Write>(stdin: &mut R, stdout: &mut W) -> Option<()> {
    let head = next_head(stdin)?;
    take_calls(stdin, stdout, head);
    Some(())
}

// A proved loop has to end, and nothing says that the input does, so it counts its turns up to a number that no run reaches.
fn main(rt: HostRuntime) {
    let mut stdin = rt.stdin();
    let mut stdout = rt.stdout();
    for _ in 0..u64::MAX {
        if take_list(&mut stdin, &mut stdout).is_none() {
            return;
        }
    }
}
