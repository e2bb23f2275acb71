// Reads a list of calls of the joined machine from standard input, and writes a line for each: its answer. Each step goes through the thin entry.
// A list is a row of the records of flight cards (document 01, section 7), in the order of their chains. A header makes a new machine; one that is refused leaves the one before, and as the first it ends the list.
// Bytes after the last whole record are ignored.
#![tactic(auto)]

mod show;

ghost use Rattle.std.specs.Prelude.{◌≡◌};
ghost use Rattle.joined.specs.Joined.{step_of};

use joined::answer::Line;
use joined::call::StepInput;
use joined::joined::Joined;
use joined::machine::Airframe;
use machines::InputRefusal;
use machines::answer::Update;
use records::record::Record;
use show::Shown;
use std::io::Write;

// What a record after the first calls.
#[derive(Clone, Copy, Debug, PartialEq, Eq)]
enum Kind {
    Prime,
    Step,
    Cut,
    Settings,
    Header,
}

// The list is not checked as a card is, so a kind that no card has counts as one that it has.
impl From<u8> for Kind {
    fn from(kind: u8) -> Kind {
        match kind {
            1 => Kind::Prime,
            2 => Kind::Step,
            3 => Kind::Cut,
            0 | 4 => Kind::Settings,
            5.. => Kind::Header,
        }
    }
}

// A step through the thin entry, of a state in a local.
fn entered(start: Joined, input: StepInput) -> Update<Joined, Line>
    ensures { result ≡ step_of start input }
{
    let mut state = start;
    let answer = state.enter(input);
    Update { state, answer }
}

// The machine of a header: kind 5 a tailsitter's, any other a quadplane's. By the number, as the first record may have any kind.
fn made(record: &Record) -> Result<Joined, InputRefusal> {
    let airframe = match record.kind() {
        5 => Airframe::Tailsitter,
        _ => Airframe::Quadplane,
    };
    Joined::new(airframe, record.settings())
}

// Makes the call of a record. A header that is refused leaves the machine before.
fn call(joined: &mut Joined, record: &Record) -> Result<Shown, InputRefusal> {
    let update = match Kind::from(record.kind()) {
        Kind::Header => {
            *joined = made(record)?;
            return Ok(Shown::New);
        }
        Kind::Prime => joined.prime(record.number(2)),
        Kind::Step => entered(*joined, record.step_input()),
        Kind::Cut => joined.cut(record.reason()),
        Kind::Settings => joined.set(record.settings()),
    };
    *joined = update.state;
    Ok(Shown::Line(update.answer?))
}

// Writes a line.
fn write_line<W: Write>(stdout: &mut W, answer: Result<Shown, InputRefusal>) {
    match answer {
        Ok(shown) => show::answer(stdout, shown),
        Err(why) => show::refused(stdout, why),
    }
}

// Takes the records one after the other. A proved loop has to end, and nothing says that the input does,
// so it counts its turns up to a number that no run reaches.
fn main(rt: HostRuntime) {
    let mut stdin = rt.stdin();
    let mut stdout = rt.stdout();
    let Some(header) = Record::read(&mut stdin) else {
        return;
    };
    let first = made(&header);
    write_line(&mut stdout, first.map(|_| Shown::New));
    let Ok(mut joined) = first else {
        return;
    };
    for _ in 0..u64::MAX {
        let Some(record) = Record::read(&mut stdin) else {
            return;
        };
        write_line(&mut stdout, call(&mut joined, &record));
    }
}
