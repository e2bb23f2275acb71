// The kinds of calls, by their sections, and what a record that is not answered gets.
use crate::forward::Forward;
use crate::hold;
use crate::machine::MachineCall;
use crate::settings::Settings;
use crate::thrust::Thrust;
use crate::values::Value;
use machines::InputRefusal;
use records::words::Refused;
use std::fmt;
use std::fmt::Display;

// What a record calls.
#[derive(Clone, Copy, Debug, PartialEq, Eq)]
pub(crate) enum Kind {
    Value(Value),
    Settings(Settings),
    Thrust(Thrust),
    Forward(Forward),
    Tailsitter(MachineCall),
    Quadplane(MachineCall),
}

// Why a record has no answer: it is no call, or its call is turned down. No `Option`: each case has its text.
#[derive(Clone, Copy, Debug, PartialEq, Eq)]
pub(crate) enum NoAnswer {
    Unknown,
    Refused(InputRefusal),
}

impl From<InputRefusal> for NoAnswer {
    fn from(why: InputRefusal) -> NoAnswer {
        NoAnswer::Refused(why)
    }
}

impl Display for NoAnswer {
    fn fmt<W: fmt::Write>(&self, f: &mut fmt::Formatter<W>) -> fmt::Result {
        match *self {
            NoAnswer::Unknown => write!(f, "unknown"),
            NoAnswer::Refused(why) => write!(f, "{}", Refused(why)),
        }
    }
}

impl TryFrom<u8> for Kind {
    type Error = NoAnswer;

    fn try_from(kind: u8) -> Result<Kind, NoAnswer> {
        Ok(match kind {
            0..=19 => Kind::Value(Value::try_from(kind)?),
            20..=29 => Kind::Settings(Settings::try_from(kind)?),
            30..=39 => Kind::Thrust(Thrust::try_from(kind)?),
            40..=49 => Kind::Forward(Forward::try_from(kind)?),
            50..=59 => Kind::Tailsitter(MachineCall::try_from(kind - 50)?),
            60.. => Kind::Quadplane(MachineCall::try_from(kind - 60)?),
        })
    }
}

impl Kind {
    // Whether the kind has an option. A kind whose call has none has option 0 alone.
    pub(crate) fn has_option(self, option: u8) -> bool {
        match self {
            Kind::Value(Value::Airspeed) => option <= 1,
            Kind::Forward(Forward::Pitch) => option <= 5,
            Kind::Forward(Forward::Hold) => hold::has_option(option),
            Kind::Tailsitter(call) | Kind::Quadplane(call) => call.has_option(option),
            _ => option == 0,
        }
    }
}
