// Reads a list of calls from standard input, and writes a line for each: what the functions of `numbers` and `machines` answer.
// A list is a row of records (crate `records`). A record of another kind or option gives "unknown"; bytes after the last whole record are ignored.
#![tactic(auto)]

mod forward;
mod hold;
mod kept;
mod kind;
mod line;
mod machine;
mod settings;
mod thrust;
mod values;

use kept::Kept;
use records::record::Record;

// Takes the records one after the other, and goes on where a word of a line cannot be written. A proved loop has to end, and nothing says that the input does,
// so it counts its turns up to a number that no run reaches.
fn main(rt: HostRuntime) {
    let mut stdin = rt.stdin();
    let mut stdout = rt.stdout();
    let mut kept = Kept::new();
    for _ in 0..u64::MAX {
        let Some(record) = Record::read(&mut stdin) else {
            return;
        };
        match kept.call(&record) {
            Ok(line) => streams::print_words(&mut stdout, format_args!("{line}\n")),
            Err(why) => streams::print_words(&mut stdout, format_args!("{why}\n")),
        };
    }
}
