// The names of docs/SETTINGS.md, in its order, of a step's parts and of a cut's reasons.
use joined::machine::Airframe;
use machines::ModeRefusal;
use std::fmt;

// A name; which number of its record it is, or the first of its numbers (document 01, section 7); and how many numbers it has.
#[derive(Clone, Copy)]
pub(crate) struct Part(pub &'static str, pub usize, pub usize);

const PRIME: [Part; 1] = [Part("z", 2, 1)];

const STEP: [Part; 9] = [
    Part("dt", 1, 1),
    Part("z", 2, 1),
    Part("velocity", 3, 3),
    Part("acceleration", 6, 2),
    Part("attitude", 8, 4),
    Part("airspeed", 12, 1),
    Part("entry_tilt", 13, 1),
    Part("bank", 14, 1),
    Part("demand", 15, 1),
];

const TAILSITTER: [Part; 17] = [
    Part("forward_rate_radps", 1, 1),
    Part("forward_done_rad", 2, 1),
    Part("forward_max_tilt_rad", 3, 1),
    Part("min_airspeed_mps", 4, 1),
    Part("back_rate_radps", 5, 1),
    Part("back_done_rad", 6, 1),
    Part("timeout_s", 7, 1),
    Part("min_height_m", 8, 1),
    Part("plane_min_height_m", 9, 1),
    Part("forward_thrust", 10, 1),
    Part("back_thrust", 11, 1),
    Part("back_sink_limit_mps", 12, 1),
    Part("back_sink_gain", 13, 1),
    Part("handoff_s", 14, 1),
    Part("roll_limit_rad", 15, 1),
    Part("forward_done_cosine", 16, 1),
    Part("back_done_cosine", 17, 1),
];

const QUADPLANE: [Part; 15] = [
    Part("min_airspeed_mps", 1, 1),
    Part("lift_ramp_s", 2, 1),
    Part("timeout_s", 3, 1),
    Part("min_height_m", 4, 1),
    Part("plane_min_height_m", 5, 1),
    Part("back_ramp_s", 6, 1),
    Part("back_speed_mps", 7, 1),
    Part("back_timeout_s", 8, 1),
    Part("back_decel_mps2", 9, 1),
    Part("back_decel_i", 10, 1),
    Part("forward_thrust", 11, 1),
    Part("pusher_slew_per_s", 12, 1),
    Part("forward_pitch_max_rad", 13, 1),
    Part("handoff_s", 14, 1),
    Part("roll_limit_rad", 15, 1),
];

pub(crate) const REASONS: [(&str, ModeRefusal); 6] = [
    ("Unsupported", ModeRefusal::Unsupported),
    ("OnGround", ModeRefusal::OnGround),
    ("BelowMinAltitude", ModeRefusal::BelowMinAltitude),
    ("TransitionTimeout", ModeRefusal::TransitionTimeout),
    ("RollError", ModeRefusal::RollError),
    ("BelowPlaneMinAltitude", ModeRefusal::BelowPlaneMinAltitude),
];

// The words that a line can name: the parts of a prime or of a step, or the settings of an airframe.
#[derive(Clone, Copy, Debug)]
pub(crate) enum Names {
    Prime,
    Step,
    Tailsitter,
    Quadplane,
}

// Shown as whose names they are.
impl fmt::Display for Names {
    fn fmt<W: fmt::Write>(&self, f: &mut fmt::Formatter<W>) -> fmt::Result {
        f.write_str(match self {
            Names::Prime => "a prime",
            Names::Step => "a step",
            Names::Tailsitter => "a tailsitter",
            Names::Quadplane => "a quadplane",
        })
    }
}

// The names of an airframe's settings.
impl From<Airframe> for Names {
    fn from(airframe: Airframe) -> Names {
        match airframe {
            Airframe::Tailsitter => Names::Tailsitter,
            Airframe::Quadplane => Names::Quadplane,
        }
    }
}

impl Names {
    pub(crate) fn parts(self) -> &'static [Part] {
        match self {
            Names::Prime => &PRIME,
            Names::Step => &STEP,
            Names::Tailsitter => &TAILSITTER,
            Names::Quadplane => &QUADPLANE,
        }
    }

    // The part of that name, if there is one.
    pub(crate) fn part(self, name: &[u8]) -> Option<Part> {
        self.parts()
            .iter()
            .copied()
            .find(|part| part.0.as_bytes() == name)
    }

    // The name of the part at a place; every place that is asked for has one.
    pub(crate) fn name_at(self, place: usize) -> &'static str {
        self.parts()
            .iter()
            .find(|part| part.1 == place)
            .map_or("", |part| part.0)
    }
}

// The airframe of that name, if there is one.
pub(crate) fn airframe_named(name: &[u8]) -> Option<Airframe> {
    match name {
        b"tailsitter" => Some(Airframe::Tailsitter),
        b"quadplane" => Some(Airframe::Quadplane),
        _ => None,
    }
}

// The reason of that name, if there is one.
pub(crate) fn reason_named(name: &[u8]) -> Option<ModeRefusal> {
    REASONS
        .iter()
        .find(|reason| reason.0.as_bytes() == name)
        .map(|reason| reason.1)
}
