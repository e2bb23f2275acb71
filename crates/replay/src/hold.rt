// The hold after a fallback: what the option of kind 45 says, and the line of the input to fly.
use crate::line::Numbers;
use crate::values::numbers;
use machines::control::{
    AbsoluteAttitudeCommand, AbsoluteRateCommand, AttitudeCommand, ControlInput, LandCommand,
    RateCommand, WaypointCommand,
};
use machines::hold::{FallbackHold, HoldUpdate};
use records::record::Record;
use records::words::{Bits, Dash};
use std::fmt;
use std::fmt::Display;
use streams::Decimal;

// The flags of an option. Bits, and no type: the option is a byte of the list, read here alone.
const FALLEN_BACK: u8 = 8;

const VELOCITY: u8 = 16;

const HEADING: u8 = 32;

// The options of kind 45: an input 0 to 5, and 8 if fallen back; a waypoint's may have 16 and 32 too.
pub(crate) fn has_option(option: u8) -> bool {
    let is_plain = option < 16 && option % 8 <= 5;
    let is_waypoint = option < 64 && option % 8 == 2;
    is_plain || is_waypoint
}

// Whether the option has one of its flags.
fn has_flag(record: &Record, flag: u8) -> bool {
    record.option() & flag != 0
}

// The attitude of numbers 4 to 7. Field by field, here and below: each command's numbers have names of their own, the Rust's.
fn attitude(record: &Record) -> AttitudeCommand {
    let [throttle, roll, pitch, yaw] = numbers::<4>(record, 4);
    AttitudeCommand {
        throttle,
        roll,
        pitch,
        yaw,
    }
}

// The rates of numbers 4 to 7.
fn rate(record: &Record) -> RateCommand {
    let [throttle, roll_rate, pitch_rate, yaw_rate] = numbers::<4>(record, 4);
    RateCommand {
        throttle,
        roll_rate,
        pitch_rate,
        yaw_rate,
    }
}

// The waypoint of numbers 4 to 10.
fn waypoint(record: &Record) -> WaypointCommand {
    WaypointCommand {
        position_m: record.vec2(4),
        velocity_mps: has_flag(record, VELOCITY).then_some(record.vec2(6)),
        altitude_m: record.number(8),
        cruise_speed_mps: record.number(9),
        heading_rad: has_flag(record, HEADING).then_some(record.number(10)),
    }
}

// The absolute attitude of numbers 4 to 7.
fn absolute_attitude(record: &Record) -> AbsoluteAttitudeCommand {
    let [roll_rad, pitch_rad, heading_rad, thrust] = numbers::<4>(record, 4);
    AbsoluteAttitudeCommand {
        roll_rad,
        pitch_rad,
        heading_rad,
        thrust,
    }
}

// The absolute rates of numbers 4 to 7.
fn absolute_rate(record: &Record) -> AbsoluteRateCommand {
    let [roll_radps, pitch_radps, yaw_radps, thrust] = numbers::<4>(record, 4);
    AbsoluteRateCommand {
        roll_radps,
        pitch_radps,
        yaw_radps,
        thrust,
    }
}

// The input of an option, 0 to 5 without its flags. The option is read here alone, so it has no type of its own.
fn input(record: &Record) -> ControlInput {
    match record.option() % 8 {
        0 => ControlInput::Attitude(attitude(record)),
        1 => ControlInput::Rate(rate(record)),
        2 => ControlInput::Waypoint(waypoint(record)),
        3 => ControlInput::AbsoluteAttitude(absolute_attitude(record)),
        4 => ControlInput::Land(LandCommand {
            position_m: record.vec2(4),
        }),
        _ => ControlInput::AbsoluteRate(absolute_rate(record)),
    }
}

// The hold after kind 45, with the input to fly.
pub(crate) fn held(before: FallbackHold, record: &Record) -> HoldUpdate {
    before.input(has_flag(record, FALLEN_BACK), input(record), record.vec3(1))
}

// The input to fly: its option, then its numbers.
#[derive(Clone, Copy)]
pub(crate) struct Flown(pub(crate) ControlInput);

impl Display for Flown {
    fn fmt<W: fmt::Write>(&self, f: &mut fmt::Formatter<W>) -> fmt::Result {
        match self.0 {
            ControlInput::Attitude(a) => {
                write!(
                    f,
                    "{} {}",
                    Decimal(0),
                    Numbers([a.throttle, a.roll, a.pitch, a.yaw])
                )
            }
            ControlInput::Rate(r) => {
                let numbers = Numbers([r.throttle, r.roll_rate, r.pitch_rate, r.yaw_rate]);
                write!(f, "{} {numbers}", Decimal(1))
            }
            ControlInput::Waypoint(w) => show_waypoint(f, w),
            ControlInput::AbsoluteAttitude(a) => {
                let numbers = Numbers([a.roll_rad, a.pitch_rad, a.heading_rad, a.thrust]);
                write!(f, "{} {numbers}", Decimal(3))
            }
            ControlInput::Land(l) => {
                write!(
                    f,
                    "{} {}",
                    Decimal(4),
                    Numbers([l.position_m.x, l.position_m.y])
                )
            }
            ControlInput::AbsoluteRate(r) => {
                let numbers = Numbers([r.roll_radps, r.pitch_radps, r.yaw_radps, r.thrust]);
                write!(f, "{} {numbers}", Decimal(5))
            }
        }
    }
}

// A waypoint, after its option: position, velocity if any, altitude, speed, and heading if any.
fn show_waypoint<W: fmt::Write>(f: &mut fmt::Formatter<W>, w: WaypointCommand) -> fmt::Result {
    write!(
        f,
        "{} {} {} {} {}",
        Decimal(2),
        Numbers([w.position_m.x, w.position_m.y]),
        Dash(w.velocity_mps.map(|v| Numbers([v.x, v.y]))),
        Numbers([w.altitude_m, w.cruise_speed_mps]),
        Dash(w.heading_rad.map(Bits)),
    )
}
