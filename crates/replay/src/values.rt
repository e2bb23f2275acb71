// Kinds 1 to 13: numbers, vectors and the airspeed.
ghost use Rattle.std.specs.Prelude.{◌+◌, ◌<◌, ◌≤◌};

use crate::kind::NoAnswer;
use crate::line::Line;
use machines::VehicleState;
use numbers::math;
use numbers::root::root;
use numbers::vector::{Quaternion, Vec2, Vec3};
use records::record::Record;
use std::array;

#[derive(Clone, Copy, Debug, PartialEq, Eq)]
pub(crate) enum Value {
    Root,
    Norm,
    Dot,
    Rotation,
    NoseUp,
    ForwardSpeed,
    Clamp,
    Min,
    Max,
    Throttle,
    LimitOrZero,
    Symmetric,
    Airspeed,
}

impl TryFrom<u8> for Value {
    type Error = NoAnswer;

    fn try_from(kind: u8) -> Result<Value, NoAnswer> {
        match kind {
            1 => Ok(Value::Root),
            2 => Ok(Value::Norm),
            3 => Ok(Value::Dot),
            4 => Ok(Value::Rotation),
            5 => Ok(Value::NoseUp),
            6 => Ok(Value::ForwardSpeed),
            7 => Ok(Value::Clamp),
            8 => Ok(Value::Min),
            9 => Ok(Value::Max),
            10 => Ok(Value::Throttle),
            11 => Ok(Value::LimitOrZero),
            12 => Ok(Value::Symmetric),
            13 => Ok(Value::Airspeed),
            _ => Err(NoAnswer::Unknown),
        }
    }
}

// N numbers in a row, from number i on.
pub(crate) fn numbers<const N: usize>(record: &Record, i: usize) -> [f32; N]
    requires { i + N ≤ 20 }
{
    array::from_fn(|k| record.number(i + k))
}

// A vehicle that stands still, level, with no airspeed: what a call of fewer numbers fills in.
pub(crate) fn still() -> VehicleState {
    VehicleState {
        z_m: 0.0,
        velocity_mps: Vec3 {
            x: 0.0,
            y: 0.0,
            z: 0.0,
        },
        acceleration_mps2: Vec2 { x: 0.0, y: 0.0 },
        attitude: Quaternion {
            w: 1.0,
            x: 0.0,
            y: 0.0,
            z: 0.0,
        },
        airspeed: None,
    }
}

// The horizontal velocity of two numbers, from number i on.
pub(crate) fn horizontal(record: &Record, i: usize) -> Vec3 {
    let Vec2 { x, y } = record.vec2(i);
    Vec3 { x, y, z: 0.0 }
}

// The valid airspeed, if there is one. Option 1 has an airspeed present.
fn airspeed(record: &Record) -> Option<f32> {
    let airspeed = if record.option() == 1 {
        Some(record.number(1))
    } else {
        None
    };
    VehicleState {
        airspeed,
        ..still()
    }
    .valid_airspeed_mps()
}

impl Value {
    pub(crate) fn line(self, record: &Record) -> Line {
        let first = record.number(1);
        let second = record.number(2);
        match self {
            Value::Root => Line::Number(root(first)),
            Value::Norm => Line::Number(record.vec2(1).norm()),
            Value::Dot => Line::Number(record.vec2(1).dot(record.vec2(3))),
            Value::Rotation => Line::Vector(record.quaternion(1).rotate(record.vec3(5))),
            Value::NoseUp => Line::Number(record.quaternion(1).nose_up_cosine()),
            Value::ForwardSpeed => {
                Line::Number(record.quaternion(1).forward_speed_mps(record.vec3(5)))
            }
            Value::Clamp => Line::Number(math::clamp(first, second, record.number(3))),
            Value::Min => Line::Number(math::min(first, second)),
            Value::Max => Line::Number(math::max(first, second)),
            Value::Throttle => Line::Number(math::saturate_throttle(first)),
            Value::LimitOrZero => Line::Number(math::limit_or_zero(first)),
            Value::Symmetric => Line::Number(math::saturate_symmetric(first, second)),
            Value::Airspeed => Line::Maybe(airspeed(record)),
        }
    }
}
