// Kinds 30 to 35: the thrust handoff, the sink guard and the deceleration.
use crate::kept::Kept;
use crate::kind::NoAnswer;
use crate::line::Line;
use crate::values::{horizontal, still};
use machines::deceleration::BackDeceleration;
use machines::handoff::ThrustHandoff;
use machines::sink::guard_sink;
use machines::{InputRefusal, VehicleState};
use records::record::Record;

#[derive(Clone, Copy, Debug, PartialEq, Eq)]
pub(crate) enum Thrust {
    NewHandoff,
    Start,
    Apply,
    GuardSink,
    NewDeceleration,
    Pitch,
}

impl TryFrom<u8> for Thrust {
    type Error = NoAnswer;

    fn try_from(kind: u8) -> Result<Thrust, NoAnswer> {
        match kind {
            30 => Ok(Thrust::NewHandoff),
            31 => Ok(Thrust::Start),
            32 => Ok(Thrust::Apply),
            33 => Ok(Thrust::GuardSink),
            34 => Ok(Thrust::NewDeceleration),
            35 => Ok(Thrust::Pitch),
            _ => Err(NoAnswer::Unknown),
        }
    }
}

// The vehicle of a step of the deceleration.
fn moving(record: &Record) -> VehicleState {
    VehicleState {
        velocity_mps: horizontal(record, 2),
        acceleration_mps2: record.vec2(4),
        ..still()
    }
}

impl Thrust {
    pub(crate) fn line(self, record: &Record, kept: &mut Kept) -> Result<Line, InputRefusal> {
        let first = record.number(1);
        let second = record.number(2);
        Ok(match self {
            Thrust::NewHandoff => {
                kept.handoff = ThrustHandoff::new(first)?;
                Line::Flag(kept.handoff.active())
            }
            Thrust::Start => {
                kept.handoff = kept.handoff.start(first);
                Line::Flag(kept.handoff.active())
            }
            Thrust::Apply => {
                let update = kept.handoff.apply(first, second);
                kept.handoff = update.state;
                Line::Thrust(update.answer?, kept.handoff.active())
            }
            Thrust::GuardSink => {
                Line::Maybe(guard_sink(first, second, record.number(3), record.number(4)))
            }
            Thrust::NewDeceleration => {
                kept.deceleration = BackDeceleration::new();
                Line::Number(kept.deceleration.pitch_rad)
            }
            Thrust::Pitch => {
                let update = kept
                    .deceleration
                    .pitch_rad(first, moving(record), record.number(6), record.number(7));
                kept.deceleration = update.state;
                Line::Number(update.answer?)
            }
        })
    }
}
