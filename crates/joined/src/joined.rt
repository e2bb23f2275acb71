// The joined machine (document 01, section 6; document 02, 2.2).
ghost use Rattle.std.specs.Prelude.{◌≡◌};
ghost use Rattle.joined.specs.Joined.{initial, new_of, answered, answered_if, handoff_if, stepped, stepped_if, step_of, prime_of, cut_of, set_of, call_of, EntrySays};

use crate::answer::Line;
use crate::call::{Call, StepInput};
use crate::machine::{Airframe, Machine};
use crate::settings::Settings;
use crate::thrust::{Modes, Thrusted};
use machines::answer::{TransitionStep, Update};
use machines::deceleration::BackDeceleration;
use machines::handoff::ThrustHandoff;
use machines::{InputRefusal, ModeRefusal};
use numbers::ranges::is_positive;

// The state. What it holds is nobody else's to write.
#[derive(Clone, Copy)]
pub struct Joined {
    machine: Machine,
    handoff: ThrustHandoff,
    // the pitch of the back transition
    deceleration: BackDeceleration,
    // the last step's thrust
    thrust: f32,
}

impl Joined {
    // A joined machine of an airframe with these settings, or refusal 3 with the field.
    pub fn new(airframe: Airframe, settings: Settings) -> Result<Joined, InputRefusal>
        ensures { result ≡ new_of airframe settings }
    {
        // no `?`: `list_theorem` needs the code of all that this calls, and core's cannot be named there
        match airframe.machine(settings) {
            Ok(machine) => Ok(Joined::initial(machine)),
            Err(why) => Err(why),
        }
    }

    // The machine with a new handoff, pitch 0 and thrust 0. A machine's own duration is a limit, so there is nothing to refuse.
    pub(crate) fn initial(machine: Machine) -> Joined
        ensures { result ≡ initial machine }
    {
        Joined {
            machine,
            handoff: ThrustHandoff::inactive(machine.handoff_s()),
            deceleration: BackDeceleration::new(),
            thrust: 0.0,
        }
    }

    // The state with the answer that shows it.
    pub(crate) fn answered(self, step: TransitionStep) -> Update<Joined, Line>
        ensures { result ≡ answered self step }
    {
        Update {
            state: self,
            answer: Ok(Line {
                mode: step.mode,
                output: step.output,
                handoff: step.handoff,
                report: step.refusal,
                thrust: self.thrust,
                pitch_rad: self.deceleration.pitch_rad,
            }),
        }
    }

    // By the machine's answer: the state as it was, or the next one with the line that shows it.
    pub(crate) fn answered_if(
        self,
        answer: Result<TransitionStep, InputRefusal>,
        next: Joined,
    ) -> Update<Joined, Line>
        ensures { result ≡ answered_if answer self next }
    {
        match answer {
            Ok(step) => next.answered(step),
            Err(why) => Update::refused(self, why),
        }
    }

    // A fresh handoff from the kept thrust, if one starts, or the old one.
    pub(crate) fn handoff_if(self, starts: bool, machine: Machine) -> ThrustHandoff
        ensures { result ≡ handoff_if starts self machine }
    {
        if starts {
            machine.fresh_handoff(self.thrust)
        } else {
            self.handoff
        }
    }

    // The state after a step that moved the machine: handoff, pitch and thrust.
    pub(crate) fn stepped(self, machine: Machine, step: TransitionStep, input: StepInput) -> Joined
        ensures { result ≡ stepped self machine step input }
    {
        let modes = Modes {
            before: self.machine.mode(),
            after: step.mode,
        };
        let pitch = modes.entry_pitch(self.deceleration);
        let starts = modes.starts_handoff(step.handoff);
        let kept = Thrusted {
            handoff: self.handoff_if(starts, machine),
            thrust: self.thrust,
        };
        let thrusted = machine.thrust(modes, kept, input);
        Joined {
            machine,
            handoff: thrusted.handoff,
            deceleration: machine.stepped_pitch(modes.after, input, pitch),
            thrust: thrusted.thrust,
        }
    }

    // The update of a step, with what becomes of handoff, pitch and thrust.
    pub(crate) fn stepped_by(
        self,
        update: Update<Machine, TransitionStep>,
        input: StepInput,
    ) -> Update<Joined, Line>
        ensures { result ≡ stepped_if update.answer self update.state input }
    {
        match update.answer {
            Ok(step) => self.stepped(update.state, step, input).answered(step),
            Err(why) => Update::refused(self, why),
        }
    }

    // One step, with refusals 1 and 2. A transition that has rolled past the limit is cut short; else the machine is updated.
    // The test of dt stands first, so that the compiler knows its outcome in all that follows.
    pub fn step(self, input: StepInput) -> Update<Joined, Line>
        ensures { result ≡ step_of self input }
    {
        if !is_positive(input.dt) {
            return Update::refused(self, InputRefusal::TimeStep);
        }
        let update = self.machine.update(input);
        match update.answer {
            Ok(_) => self.stepped_by(self.machine.cut_or(input.bank_rad, update), input),
            Err(why) => Update::refused(self, why),
        }
    }

    // Copter, with z as the height reference; a new handoff, pitch 0, thrust 0. No machine refuses a prime.
    pub fn prime(self, z_m: f32) -> Update<Joined, Line>
        ensures { result ≡ prime_of self z_m }
    {
        let update = self.machine.prime(z_m);
        self.answered_if(update.answer, Joined::initial(update.state))
    }

    // Cuts a transition short. Thrust and pitch stay. No machine refuses a cut.
    pub fn cut(self, why: ModeRefusal) -> Update<Joined, Line>
        ensures { result ≡ cut_of self why }
    {
        let update = self.machine.cut_short(why);
        match update.answer {
            Ok(step) => {
                let machine = update.state;
                let handoff = self.handoff_if(step.handoff, machine);
                let next = Joined {
                    machine,
                    handoff,
                    ..self
                };
                next.answered(step)
            }
            Err(refusal) => Update::refused(self, refusal),
        }
    }

    // New settings, or refusal 3 with the field; nothing else changes.
    pub fn set(self, settings: Settings) -> Update<Joined, Line>
        ensures { result ≡ set_of self settings }
    {
        let update = self.machine.set_config(settings);
        let machine = update.state;
        self.answered_if(update.answer, Joined { machine, ..self })
    }

    // Any call.
    pub fn call(self, call: Call) -> Update<Joined, Line>
        ensures { result ≡ call_of self call }
    {
        match call {
            Call::Prime(z_m) => self.prime(z_m),
            Call::Step(input) => self.step(input),
            Call::Cut(why) => self.cut(why),
            Call::Settings(settings) => self.set(settings),
        }
    }

    // The thin entry: one step of the state in the caller's own record.
    pub fn enter(&mut self, input: StepInput) -> Result<Line, InputRefusal>
        ensures { EntrySays self.old input self.new result }
    {
        let update = self.step(input);
        *self = update.state;
        update.answer
    }
}
