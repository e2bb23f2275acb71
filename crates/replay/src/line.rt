// The lines of the calls that are answered.
use crate::hold::Flown;
use machines::answer::TransitionStep;
use machines::control::ControlInput;
use machines::forward::ForwardSplit;
use numbers::vector::Vec3;
use records::words::{Bits, Dash, Step};
use std::fmt;
use std::fmt::Display;
use streams::Decimal;

// What a call answers.
#[derive(Clone, Copy)]
pub(crate) enum Line {
    // a new machine
    New,
    // the first bad field, or 0
    Field(u8),
    Flag(bool),
    Number(f32),
    Maybe(Option<f32>),
    Vector(Vec3),
    Split(ForwardSplit),
    // a thrust, and whether its handoff is active
    Thrust(f32, bool),
    Settings([f32; 15]),
    Input(ControlInput),
    Step(TransitionStep),
}

// Numbers, a space between any two.
#[derive(Clone, Copy)]
pub(crate) struct Numbers<const N: usize>(pub(crate) [f32; N]);

impl<const N: usize> Display for Numbers<N> {
    fn fmt<W: fmt::Write>(&self, f: &mut fmt::Formatter<W>) -> fmt::Result {
        f.write_joined(self.0.iter().map(|&number| Bits(number)), " ")
    }
}

impl Display for Line {
    fn fmt<W: fmt::Write>(&self, f: &mut fmt::Formatter<W>) -> fmt::Result {
        match *self {
            Line::New => write!(f, "new"),
            Line::Field(field) => write!(f, "{}", Decimal(u64::from(field))),
            Line::Flag(on) => write!(f, "{}", Decimal(u64::from(on))),
            Line::Number(x) => write!(f, "{}", Bits(x)),
            Line::Maybe(x) => write!(f, "{}", Dash(x.map(Bits))),
            Line::Vector(v) => write!(f, "{}", Numbers([v.x, v.y, v.z])),
            Line::Split(split) => write!(f, "{}", Numbers([split.pitch_rad, split.thrust])),
            Line::Thrust(thrust, active) => write!(
                f,
                "{} {}",
                Bits(thrust),
                Decimal(u64::from(active))
            ),
            Line::Settings(settings) => write!(f, "{}", Numbers(settings)),
            Line::Input(input) => write!(f, "{}", Flown(input)),
            Line::Step(step) => write!(f, "{}", Step(step)),
        }
    }
}
