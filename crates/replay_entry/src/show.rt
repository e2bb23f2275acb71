// The words of a line, each with what stands after it: a space, or the line's end.
// Each is tried, whatever became of the one before. No `Display`, as in `records`: of that each word and each space would be a write of its own, a fifth more of them and more.
use joined::answer::{Line, letter};
use machines::answer::ShareOrTilt;
use machines::{InputRefusal, report_number};
use numbers::bits::to_bits;
use std::io::Write;

// What a record that is not refused answers: a new machine, or a line. No `Option`: each case has its text.
#[derive(Clone, Copy)]
pub(crate) enum Shown {
    New,
    Line(Line),
}

// One byte.
fn byte<W: Write>(stdout: &mut W, first: u8, after: u8) {
    streams::write_all(stdout, &[first, after]);
}

// A number's bits.
fn number<W: Write>(stdout: &mut W, x: f32, after: u8) {
    streams::print_hex(stdout, u64::from(to_bits(x)), 8);
    streams::write_all(stdout, &[after]);
}

// A report, a refusal's number or a field.
fn count<W: Write>(stdout: &mut W, n: u8, after: u8) {
    streams::print_decimal(stdout, u64::from(n));
    streams::write_all(stdout, &[after]);
}

// A share, or a tilt if there is one.
fn share_or_tilt<W: Write>(stdout: &mut W, output: ShareOrTilt, after: u8) {
    match output {
        ShareOrTilt::Share(x) | ShareOrTilt::Tilt(Some(x)) => number(stdout, x, after),
        ShareOrTilt::Tilt(None) => byte(stdout, b'-', after),
    }
}

// The line of a call that is turned down: a setting's has the field too.
pub(crate) fn refused<W: Write>(stdout: &mut W, why: InputRefusal) {
    streams::write_all(stdout, b"refused ");
    match why {
        InputRefusal::Setting(field) => {
            count(stdout, why.number(), b' ');
            count(stdout, field, b'\n');
        }
        _ => count(stdout, why.number(), b'\n'),
    }
}

// Mode, share or tilt, handoff flag, report, thrust and pitch.
fn line<W: Write>(stdout: &mut W, l: Line) {
    byte(stdout, letter(l.mode), b' ');
    share_or_tilt(stdout, l.output, b' ');
    byte(stdout, b'0' + u8::from(l.handoff), b' ');
    count(stdout, report_number(l.report), b' ');
    number(stdout, l.thrust, b' ');
    number(stdout, l.pitch_rad, b'\n');
}

// The line of a record that is not refused.
pub(crate) fn answer<W: Write>(stdout: &mut W, answered: Shown) {
    match answered {
        Shown::New => {
            streams::write_all(stdout, b"new\n");
        }
        Shown::Line(l) => line(stdout, l),
    }
}
