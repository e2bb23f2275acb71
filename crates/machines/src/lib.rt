// The two transition machines and their helpers (document 01, sections 2 to 5 and 8 to 10), after the Rust's guidance/vtol.
// Every exported function is total: what document 01 turns down is an answer, and a state given is handed back as it was.
// Here: the types of the Rust's lib.rs that the machines speak of.
#![tactic(auto)]

pub mod answer;
pub mod control;
pub mod deceleration;
pub mod forward;
pub mod gate;
pub mod handoff;
pub mod hold;
pub mod lift;
pub mod quadplane;
mod ranges;
pub mod rows;
pub mod setpoint;
pub mod settings;
pub mod sink;
pub mod vtol;

ghost use Rattle.std.specs.Prelude.{◌≡◌};
ghost use Rattle.machines.specs.Gate.{valid_airspeed_of, at_least_or};
ghost use Rattle.machines.specs.Refusals.{reason_of, Reads, report_of, refusal_of, field_of};

use numbers::vector::{Quaternion, Vec2, Vec3};

// What is requested.
#[derive(Clone, Copy, Debug, PartialEq, Eq)]
pub enum FlightRegime {
    Copter,
    Plane,
}

// What is flown.
#[derive(Clone, Copy, Debug, PartialEq, Eq)]
pub enum FlightMode {
    Copter,
    Plane,
    ToPlane,
    ToCopter,
}

// Why the requested regime is not flown: 11 to 16 of document 01, section 10.
#[derive(Clone, Copy, Debug, PartialEq, Eq)]
pub enum ModeRefusal {
    Unsupported,
    OnGround,
    BelowMinAltitude,
    TransitionTimeout,
    RollError,
    BelowPlaneMinAltitude,
}

// A number that names no reason.
#[derive(Clone, Copy, Debug, PartialEq, Eq)]
pub struct UnknownReason(pub u8);

// Why a call is turned down: 1 to 5 of document 01, section 9. A setting has its field, from 1.
#[derive(Clone, Copy, Debug, PartialEq, Eq)]
pub enum InputRefusal {
    TimeStep,
    EntryTilt,
    Setting(u8),
    HandoffDuration,
    Tangent,
}

// What a machine is told of the vehicle: any numbers. Position and velocity are north, east, up, and the acceleration is the horizontal one.
// The airspeed is what the sensor gives, if it gives one. The attitude turns body axes (x the nose, y right, z down) into north, east, down.
#[derive(Clone, Copy)]
pub struct VehicleState {
    pub z_m: f32,
    pub velocity_mps: Vec3,
    pub acceleration_mps2: Vec2,
    pub attitude: Quaternion,
    pub airspeed: Option<f32>,
}

impl VehicleState {
    // The airspeed reading: the airspeed that is present and at least 0, or none.
    pub fn valid_airspeed_mps(self) -> Option<f32>
        ensures { result ≡ valid_airspeed_of self }
    {
        // no `filter`: `list_theorem` needs the code of all that this calls, and core's cannot be named there
        match self.airspeed {
            Some(airspeed_mps) if airspeed_mps >= 0.0 => Some(airspeed_mps),
            _ => None,
        }
    }
}

// Whether a valid airspeed is at least the minimum; without one the answer is `if_none`. One function for both machines: as two, the quadplane's steps took longer.
pub(crate) fn at_least_or(airspeed: Option<f32>, min_airspeed_mps: f32, if_none: bool) -> bool
    ensures { result ≡ at_least_or airspeed min_airspeed_mps if_none }
{
    // no `map_or`, for `list_theorem` as above
    match airspeed {
        Some(airspeed_mps) => airspeed_mps >= min_airspeed_mps,
        None => if_none,
    }
}

impl ModeRefusal {
    // The number of document 01, section 10. No `From<ModeRefusal> for u8`: the contracts speak of it by `reason_of`, and the name says which number it is.
    pub fn number(self) -> u8
        ensures { result ≡ reason_of self }
    {
        match self {
            ModeRefusal::Unsupported => 11,
            ModeRefusal::OnGround => 12,
            ModeRefusal::BelowMinAltitude => 13,
            ModeRefusal::TransitionTimeout => 14,
            ModeRefusal::RollError => 15,
            ModeRefusal::BelowPlaneMinAltitude => 16,
        }
    }
}

impl TryFrom<u8> for ModeRefusal {
    type Error = UnknownReason;

    ghost try_from_gives = { Reads };

    // The reason with this number.
    fn try_from(number: u8) -> Result<ModeRefusal, UnknownReason> {
        match number {
            11 => Ok(ModeRefusal::Unsupported),
            12 => Ok(ModeRefusal::OnGround),
            13 => Ok(ModeRefusal::BelowMinAltitude),
            14 => Ok(ModeRefusal::TransitionTimeout),
            15 => Ok(ModeRefusal::RollError),
            16 => Ok(ModeRefusal::BelowPlaneMinAltitude),
            _ => Err(UnknownReason(number)),
        }
    }
}

// The number of a report, of document 01, section 10; 0 for none.
pub fn report_number(refusal: Option<ModeRefusal>) -> u8
    ensures { result ≡ report_of refusal }
{
    refusal.map_or(0, |why| why.number())
}

impl InputRefusal {
    // The number of document 01, section 9. A method here and below, and no `From`, as above.
    pub fn number(self) -> u8
        ensures { result ≡ refusal_of self }
    {
        match self {
            InputRefusal::TimeStep => 1,
            InputRefusal::EntryTilt => 2,
            InputRefusal::Setting(_) => 3,
            InputRefusal::HandoffDuration => 4,
            InputRefusal::Tangent => 5,
        }
    }

    // The bad setting's field, from 1; 0 for the other refusals.
    pub fn field(self) -> u8
        ensures { result ≡ field_of self }
    {
        match self {
            InputRefusal::Setting(field) => field,
            _ => 0,
        }
    }
}
