// What is kept from record to record, and the call of a record.
use crate::kind::{Kind, NoAnswer};
use crate::line::Line;
use crate::machine;
use machines::FlightMode;
use machines::deceleration::BackDeceleration;
use machines::forward::ForwardThrust;
use machines::gate::ForwardGate;
use machines::handoff::ThrustHandoff;
use machines::hold::FallbackHold;
use machines::lift::LiftTransition;
use machines::rows::TransitionState;
use machines::settings::{ForwardThrustConfig, LiftTransitionConfig, TransitionConfig};
use machines::vtol::Transition;
use numbers::constants::nan;
use records::record::Record;

// What is kept from record to record. A call that is refused leaves it.
#[derive(Clone, Copy)]
pub(crate) struct Kept {
    pub handoff: ThrustHandoff,
    pub deceleration: BackDeceleration,
    pub split: ForwardThrust,
    pub hold: FallbackHold,
    pub tailsitter: Transition,
    pub quadplane: LiftTransition,
}

// The state of a new machine, written out, since making one may be refused.
fn new_state() -> TransitionState {
    TransitionState {
        gate: ForwardGate {
            home_altitude_m: nan(),
            abandoned: None,
        },
        mode: FlightMode::Copter,
        refusal: None,
        elapsed_s: 0.0,
    }
}

impl Kept {
    // What is kept before the first record.
    pub(crate) fn new() -> Kept {
        Kept {
            handoff: ThrustHandoff::inactive(0.0),
            deceleration: BackDeceleration::new(),
            split: ForwardThrust {
                config: ForwardThrustConfig {
                    gain: 0.0,
                    pitch_limit_rad: 0.0,
                },
            },
            hold: FallbackHold::new(),
            tailsitter: Transition {
                config: TransitionConfig::defaults(),
                state: new_state(),
                start_tilt_rad: 0.0,
            },
            quadplane: LiftTransition {
                config: LiftTransitionConfig::defaults(),
                state: new_state(),
                ramp_start_s: None,
            },
        }
    }

    // Makes the call of a record.
    pub(crate) fn call(&mut self, record: &Record) -> Result<Line, NoAnswer> {
        let kind = Kind::try_from(record.kind())?;
        if !kind.has_option(record.option()) {
            return Err(NoAnswer::Unknown);
        }
        let line = match kind {
            Kind::Value(value) => value.line(record),
            Kind::Settings(settings) => settings.line(record)?,
            Kind::Thrust(thrust) => thrust.line(record, self)?,
            Kind::Forward(forward) => forward.line(record, self)?,
            Kind::Tailsitter(call) => machine::answer(&mut self.tailsitter, call, record)?,
            Kind::Quadplane(call) => machine::answer(&mut self.quadplane, call, record)?,
        };
        Ok(line)
    }
}
