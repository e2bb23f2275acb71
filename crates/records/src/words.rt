// The words of the lines. None ends in a space or a line's end.
ghost use Rattle.std.specs.Prelude.{Some, [], ◌∷◌};
ghost use Rattle.numbers.specs.Numbers.{bits_of};
ghost use Rattle.streams.specs.Digits.{hex_text};
ghost use Rattle.joined.specs.Shown.{letter_of};
ghost use Rattle.records.specs.Words.{dash_text, output_text, step_text, refused_text};

use joined::answer::letter;
use machines::answer::{ShareOrTilt, TransitionStep};
use machines::{FlightMode, InputRefusal, report_number};
use numbers::bits::to_bits;
use std::fmt;
use std::fmt::Display;

// A number's bits, in eight hexadecimal digits.
#[derive(Clone, Copy, Debug)]
pub struct Bits(pub f32);

impl Display for Bits {
    ghost output = { λ it. Some (hex_text 8 (bits_of it.0)) };

    fn fmt<W: fmt::Write>(&self, f: &mut fmt::Formatter<W>) -> fmt::Result {
        write!(f, "{:08x}", to_bits(self.0))
    }
}

// What there is, or "-" if there is nothing.
#[derive(Clone, Copy, Debug, PartialEq, Eq)]
pub struct Dash<T>(pub Option<T>);

impl<T: Display> Display for Dash<T> {
    ghost output = { λ it. dash_text T.output it.0 };

    fn fmt<W: fmt::Write>(&self, f: &mut fmt::Formatter<W>) -> fmt::Result {
        match &self.0 {
            Some(shown) => write!(f, "{shown}"),
            None => write!(f, "-"),
        }
    }
}

// A mode's letter.
#[derive(Clone, Copy, Debug, PartialEq, Eq)]
pub struct Letter(pub FlightMode);

impl Display for Letter {
    ghost output = { λ it. Some (letter_of it.0 ∷ []) };

    fn fmt<W: fmt::Write>(&self, f: &mut fmt::Formatter<W>) -> fmt::Result {
        write!(f, "{}", char::from(letter(self.0)))
    }
}

// The bits of a share, or of a tilt if there is one.
#[derive(Clone, Copy)]
pub struct Output(pub ShareOrTilt);

impl Display for Output {
    ghost output = { λ it. Some (output_text it.0) };

    fn fmt<W: fmt::Write>(&self, f: &mut fmt::Formatter<W>) -> fmt::Result {
        match self.0 {
            ShareOrTilt::Share(share) => write!(f, "{}", Bits(share)),
            ShareOrTilt::Tilt(tilt) => write!(f, "{}", Dash(tilt.map(Bits))),
        }
    }
}

// A step: mode, share or tilt, handoff flag and report.
#[derive(Clone, Copy)]
pub struct Step(pub TransitionStep);

impl Display for Step {
    ghost output = { λ it. Some (step_text it.0) };

    fn fmt<W: fmt::Write>(&self, f: &mut fmt::Formatter<W>) -> fmt::Result {
        let step = self.0;
        write!(
            f,
            "{} {} {} {}",
            Letter(step.mode),
            Output(step.output),
            u8::from(step.handoff),
            report_number(step.refusal),
        )
    }
}

// The line of a call that is turned down: the refusal's number, and a setting's field. The spaces are parts of their own, so that each word is written by itself.
#[derive(Clone, Copy, Debug, PartialEq, Eq)]
pub struct Refused(pub InputRefusal);

impl Display for Refused {
    ghost output = { λ it. Some (refused_text it.0) };

    fn fmt<W: fmt::Write>(&self, f: &mut fmt::Formatter<W>) -> fmt::Result {
        match self.0 {
            InputRefusal::Setting(field) => write!(f, "refused{}3{}{field}", ' ', ' '),
            why => write!(f, "refused{}{}", ' ', why.number()),
        }
    }
}
