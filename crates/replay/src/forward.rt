// Kinds 40 to 45: the split, the forward transition's pitch and, through `hold`, the hold.
ghost use Rattle.std.specs.Prelude.{◌<◌};

use crate::kept::Kept;
use crate::kind::NoAnswer;
use crate::line::Line;
use crate::values::{horizontal, numbers, still};
use crate::{hold, settings};
use machines::forward::ForwardThrust;
use machines::hold::FallbackHold;
use machines::quadplane::{forward_pitch_limit_rad, forward_pitch_rad};
use machines::setpoint::{
    AttitudeSetpoint, BlendSetpoint, BodyRateSetpoint, PlaneSetpoint, RateSetpoint, Setpoint,
};
use machines::{InputRefusal, VehicleState};
use records::record::Record;

#[derive(Clone, Copy, Debug, PartialEq, Eq)]
pub(crate) enum Forward {
    NewSplit,
    Split,
    Limit,
    Pitch,
    NewHold,
    Hold,
}

impl TryFrom<u8> for Forward {
    type Error = NoAnswer;

    fn try_from(kind: u8) -> Result<Forward, NoAnswer> {
        match kind {
            40 => Ok(Forward::NewSplit),
            41 => Ok(Forward::Split),
            42 => Ok(Forward::Limit),
            43 => Ok(Forward::Pitch),
            44 => Ok(Forward::NewHold),
            45 => Ok(Forward::Hold),
            _ => Err(NoAnswer::Unknown),
        }
    }
}

// The attitude of numbers 2 to 5. Field by field, here and below: each command's numbers have names of their own, the Rust's.
fn attitude(record: &Record) -> AttitudeSetpoint {
    let [roll_rad, pitch_rad, heading_rad, thrust] = numbers::<4>(record, 2);
    AttitudeSetpoint {
        roll_rad,
        pitch_rad,
        heading_rad,
        thrust,
        transition: false,
        idle: false,
    }
}

// The rates of numbers 2 to 5.
fn rate(record: &Record) -> RateSetpoint {
    let [roll_rate, pitch_rate, yaw_rate, thrust] = numbers::<4>(record, 2);
    RateSetpoint {
        roll_rate,
        pitch_rate,
        yaw_rate,
        thrust,
        idle: false,
    }
}

// The body rates of numbers 2 to 5.
fn body_rate(record: &Record) -> BodyRateSetpoint {
    let [roll_radps, pitch_radps, yaw_radps, thrust] = numbers::<4>(record, 2);
    BodyRateSetpoint {
        roll_radps,
        pitch_radps,
        yaw_radps,
        thrust,
        idle: false,
    }
}

// The plane setpoint of three numbers, from number i on.
fn plane(record: &Record, i: usize) -> PlaneSetpoint
    requires { i < 18 }
{
    let [roll_rad, pitch_rad, thrust] = numbers::<3>(record, i);
    PlaneSetpoint {
        roll_rad,
        pitch_rad,
        thrust,
        transition: false,
    }
}

// The blend of numbers 2 to 9.
fn blend(record: &Record) -> BlendSetpoint {
    BlendSetpoint {
        hover: attitude(record),
        plane: plane(record, 6),
        lift_share: record.number(9),
    }
}

// The setpoint of an option, 0 to 5. The option is read here alone, so it has no type of its own.
fn setpoint(record: &Record) -> Setpoint {
    match record.option() {
        0 => Setpoint::Attitude(attitude(record)),
        1 => Setpoint::Rate(rate(record)),
        2 => Setpoint::BodyRate(body_rate(record)),
        3 => Setpoint::Plane(plane(record, 2)),
        4 => Setpoint::PlaneRate(body_rate(record)),
        _ => Setpoint::Blend(blend(record)),
    }
}

// The pitch limit, of a vehicle that moves.
fn limit_rad(record: &Record) -> f32 {
    let state = VehicleState {
        velocity_mps: horizontal(record, 3),
        ..still()
    };
    forward_pitch_limit_rad(record.number(1), record.number(2), state)
}

impl Forward {
    pub(crate) fn line(self, record: &Record, kept: &mut Kept) -> Result<Line, InputRefusal> {
        Ok(match self {
            Forward::NewSplit => {
                kept.split = ForwardThrust::new(settings::split(record))?;
                Line::Flag(kept.split.enabled())
            }
            Forward::Split => { Line::Split(kept.split.split(record.number(1), record.number(2))?) }
            Forward::Limit => Line::Number(limit_rad(record)),
            Forward::Pitch => Line::Number(forward_pitch_rad(setpoint(record), record.number(1))),
            Forward::NewHold => {
                kept.hold = FallbackHold::new();
                Line::Maybe(None)
            }
            Forward::Hold => {
                let update = hold::held(kept.hold, record);
                kept.hold = update.hold;
                Line::Input(update.input)
            }
        })
    }
}
