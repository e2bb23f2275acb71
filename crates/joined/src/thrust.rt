// The handoff, the pitch and the thrust of a step (document 01, sections 5 and 6; document 02, 2.2).
ghost use Rattle.std.specs.Prelude.{◌≡◌};
ghost use Rattle.joined.specs.Joined.{fresh_handoff, entered, starts_handoff, entry_pitch, decelerated, stepped_pitch, blended, back_thrust_of, tailsitter_thrust, run_up, quadplane_thrust, thrust_of};

use crate::call::StepInput;
use crate::machine::Machine;
use machines::FlightMode;
use machines::deceleration::BackDeceleration;
use machines::handoff::ThrustHandoff;
use machines::settings::{LiftTransitionConfig, TransitionConfig};
use machines::sink::guard_sink;
use numbers::logic::{both, either};
use numbers::math::min;

// The modes before and after a step.
#[derive(Clone, Copy)]
pub(crate) struct Modes {
    pub before: FlightMode,
    pub after: FlightMode,
}

impl Modes {
    // Whether the step entered a mode. In place of `!=`, which calls core's `ne`: no law of `list_theorem` can name that.
    pub(crate) fn entered(self, mode: FlightMode) -> bool
        ensures { result ≡ entered mode self.before self.after }
    {
        both(!(self.before == mode), self.after == mode)
    }

    // Whether the step starts a handoff: by its flag, or by entering Plane.
    pub(crate) fn starts_handoff(self, flag: bool) -> bool
        ensures { result ≡ starts_handoff self.before self.after flag }
    {
        either(flag, self.entered(FlightMode::Plane))
    }

    // Entering ToCopter sets the pitch 0.
    pub(crate) fn entry_pitch(self, pitch: BackDeceleration) -> BackDeceleration
        ensures { result ≡ entry_pitch self.before self.after pitch }
    {
        if self.entered(FlightMode::ToCopter) {
            BackDeceleration::new()
        } else {
            pitch
        }
    }
}

// A step's thrust, and the handoff after it; before the step, the kept thrust and the handoff that it goes on with.
#[derive(Clone, Copy)]
pub(crate) struct Thrusted {
    pub handoff: ThrustHandoff,
    pub thrust: f32,
}

impl Thrusted {
    // The demand, through the handoff. An accepted dt is never refused here.
    pub(crate) fn blend(self, input: StepInput) -> Thrusted
        ensures { result ≡ blended self.handoff input }
    {
        let applied = self.handoff.apply(input.dt, input.demand);
        Thrusted {
            handoff: applied.state,
            // no `unwrap_or`: `list_theorem` needs the code of all that this calls, and core's cannot be named there
            thrust: match applied.answer {
                Ok(thrust) => thrust,
                Err(_) => 0.0,
            },
        }
    }

    // The tailsitter's thrust, by the mode after the step.
    pub(crate) fn tailsitter_thrust(
        self,
        after: FlightMode,
        config: TransitionConfig,
        input: StepInput,
    ) -> Thrusted
        ensures { result ≡ tailsitter_thrust after config self.handoff input }
    {
        match after {
            FlightMode::ToPlane => Thrusted {
                thrust: config.forward_thrust,
                ..self
            },
            FlightMode::ToCopter => Thrusted {
                thrust: back_thrust(config, input.state.velocity_mps.z),
                ..self
            },
            FlightMode::Copter | FlightMode::Plane => self.blend(input),
        }
    }

    // The quadplane's thrust, by the mode after the step. In ToPlane a running handoff stands still.
    pub(crate) fn quadplane_thrust(
        self,
        after: FlightMode,
        enters: bool,
        config: LiftTransitionConfig,
        input: StepInput,
    ) -> Thrusted
        ensures { result ≡ quadplane_thrust after enters config self.thrust self.handoff input }
    {
        if after == FlightMode::ToPlane {
            Thrusted {
                thrust: run_up(enters, config, self.thrust, input.dt),
                ..self
            }
        } else {
            self.blend(input)
        }
    }
}

// The tailsitter's thrust in ToCopter: raised by the sink guard.
pub(crate) fn back_thrust(config: TransitionConfig, climb_mps: f32) -> f32
    ensures { result ≡ back_thrust_of config climb_mps }
{
    let guarded = guard_sink(
        config.back_thrust,
        climb_mps,
        config.back_sink_limit_mps,
        config.back_sink_gain,
    );
    // no `unwrap_or`, as in `blend`
    match guarded {
        Some(thrust) => thrust,
        None => config.back_thrust,
    }
}

// The quadplane's thrust in ToPlane: 0 on entering it, then rising by the slew up to the forward thrust.
pub(crate) fn run_up(enters: bool, config: LiftTransitionConfig, kept: f32, dt: f32) -> f32
    ensures { result ≡ run_up enters config kept dt }
{
    if enters {
        0.0
    } else {
        min(config.forward_thrust, kept + config.pusher_slew_per_s * dt)
    }
}

impl Machine {
    // A fresh handoff from the kept thrust. A machine's own duration is a limit, so there is nothing to refuse.
    pub(crate) fn fresh_handoff(self, kept: f32) -> ThrustHandoff
        ensures { result ≡ fresh_handoff self kept }
    {
        ThrustHandoff::inactive(self.handoff_s()).start(kept)
    }

    // The quadplane's deceleration in ToCopter.
    pub(crate) fn decelerated(self, input: StepInput, pitch: BackDeceleration) -> BackDeceleration
        ensures { result ≡ decelerated self input pitch }
    {
        match self {
            Machine::Tailsitter(_) => pitch,
            Machine::Quadplane(m) => {
                let target_mps2 = m.config.back_decel_mps2;
                let gain = m.config.back_decel_i;
                pitch
                    .pitch_rad(input.dt, input.state, target_mps2, gain)
                    .state
            }
        }
    }

    // The pitch after a step.
    pub(crate) fn stepped_pitch(
        self,
        after: FlightMode,
        input: StepInput,
        pitch: BackDeceleration,
    ) -> BackDeceleration
        ensures { result ≡ stepped_pitch after self input pitch }
    {
        if after == FlightMode::ToCopter {
            self.decelerated(input, pitch)
        } else {
            pitch
        }
    }

    // The thrust, by airframe, the modes before and after the step, and the kept thrust.
    pub(crate) fn thrust(self, modes: Modes, kept: Thrusted, input: StepInput) -> Thrusted
        ensures { result ≡ thrust_of self modes.before modes.after kept.thrust kept.handoff input }
    {
        match self {
            Machine::Tailsitter(m) => kept.tailsitter_thrust(modes.after, m.config, input),
            Machine::Quadplane(m) => {
                let enters = modes.entered(FlightMode::ToPlane);
                kept.quadplane_thrust(modes.after, enters, m.config, input)
            }
        }
    }
}
