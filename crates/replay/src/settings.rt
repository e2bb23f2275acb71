// Settings in a record, and kinds 20 to 24: their check and the default ones.
use crate::kind::NoAnswer;
use crate::line::Line;
use machines::InputRefusal;
use machines::settings::{ForwardThrustConfig, LiftTransitionConfig, TransitionConfig};
use records::record::Record;

#[derive(Clone, Copy, Debug, PartialEq, Eq)]
pub(crate) enum Settings {
    Tailsitter,
    Quadplane,
    Split,
    TailsitterDefaults,
    QuadplaneDefaults,
}

impl TryFrom<u8> for Settings {
    type Error = NoAnswer;

    fn try_from(kind: u8) -> Result<Settings, NoAnswer> {
        match kind {
            20 => Ok(Settings::Tailsitter),
            21 => Ok(Settings::Quadplane),
            22 => Ok(Settings::Split),
            23 => Ok(Settings::TailsitterDefaults),
            24 => Ok(Settings::QuadplaneDefaults),
            _ => Err(NoAnswer::Unknown),
        }
    }
}

// The split's settings, numbers 1 and 2.
pub(crate) fn split(record: &Record) -> ForwardThrustConfig {
    ForwardThrustConfig {
        gain: record.number(1),
        pitch_limit_rad: record.number(2),
    }
}

// The first bad field, or 0; or the refusal of another test.
fn validity(checked: Result<(), InputRefusal>) -> Result<Line, InputRefusal> {
    match checked {
        Ok(()) => Ok(Line::Field(0)),
        Err(InputRefusal::Setting(field)) => Ok(Line::Field(field)),
        Err(why) => Err(why),
    }
}

// The tailsitter's default settings 1 to 15, field by field: a struct has no plainer way to its fields in order.
fn tailsitter_defaults() -> [f32; 15] {
    let c = TransitionConfig::defaults();
    [
        c.forward_rate_radps,
        c.forward_done_rad,
        c.forward_max_tilt_rad,
        c.min_airspeed_mps,
        c.back_rate_radps,
        c.back_done_rad,
        c.timeout_s,
        c.min_height_m,
        c.plane_min_height_m,
        c.forward_thrust,
        c.back_thrust,
        c.back_sink_limit_mps,
        c.back_sink_gain,
        c.handoff_s,
        c.roll_limit_rad,
    ]
}

// The quadplane's default settings, likewise.
fn quadplane_defaults() -> [f32; 15] {
    let c = LiftTransitionConfig::defaults();
    [
        c.min_airspeed_mps,
        c.lift_ramp_s,
        c.timeout_s,
        c.min_height_m,
        c.plane_min_height_m,
        c.back_ramp_s,
        c.back_speed_mps,
        c.back_timeout_s,
        c.back_decel_mps2,
        c.back_decel_i,
        c.forward_thrust,
        c.pusher_slew_per_s,
        c.forward_pitch_max_rad,
        c.handoff_s,
        c.roll_limit_rad,
    ]
}

impl Settings {
    pub(crate) fn line(self, record: &Record) -> Result<Line, InputRefusal> {
        match self {
            Settings::Tailsitter => {
                validity(TransitionConfig::from(record.settings()).validate())
            }
            Settings::Quadplane => {
                validity(LiftTransitionConfig::from(record.settings()).validate())
            }
            Settings::Split => validity(split(record).validate()),
            Settings::TailsitterDefaults => Ok(Line::Settings(tailsitter_defaults())),
            Settings::QuadplaneDefaults => Ok(Line::Settings(quadplane_defaults())),
        }
    }
}
