// Either transition machine, with its own settings.
ghost use Rattle.std.specs.Prelude.{◌≡◌, if◌then◌else◌};
ghost use Rattle.std.specs.Result.{ForOk, IsOkAnd, MatchResult};
ghost use Rattle.machines.specs.Rows.{accepted};
ghost use Rattle.joined.specs.Machine.{new_machine_of, mode_of, prime_machine_of, set_machine_of, update_machine_of, cut_machine_of, handoff_time_of, roll_limit_of, transitioning, abs_of, past_roll_limit_of};

use crate::call::StepInput;
use crate::settings::Settings;
use machines::answer::{TransitionStep, Update};
use machines::lift::LiftTransition;
use machines::settings::{LiftTransitionConfig, TransitionConfig};
use machines::vtol::Transition;
use machines::{FlightMode, InputRefusal, ModeRefusal};
use numbers::logic::both;

// Which aircraft: fixed when the joined machine is made.
#[derive(Clone, Copy, Debug, PartialEq, Eq)]
pub enum Airframe {
    Tailsitter,
    Quadplane,
}

// Either machine, with its own settings.
#[derive(Clone, Copy)]
pub enum Machine {
    Tailsitter(Transition),
    Quadplane(LiftTransition),
}

// The update of one kind of machine as one of either, by the variant that wraps it.
pub(crate) fn of_either<M, F: FnOnce(M) -> Machine>(
    update: Update<M, TransitionStep>,
    wrap: F,
) -> Update<Machine, TransitionStep>
    requires { F.pre wrap update.state }
    ensures state { F.post wrap update.state result.state }
    ensures answer { result.answer ≡ update.answer }
{
    Update {
        state: wrap(update.state),
        answer: update.answer,
    }
}

// A new machine of one kind as one of either, or why there is none. `Result::map` would do it, but no law of `list_theorem` can name core's code.
pub(crate) fn new_either<M, F: FnOnce(M) -> Machine>(
    made: Result<M, InputRefusal>,
    wrap: F,
) -> Result<Machine, InputRefusal>
    requires { ForOk made (F.pre wrap) }
    ensures { MatchResult made (λ m. IsOkAnd result (F.post wrap m)) (λ why. result ≡ Err why) }
{
    match made {
        Ok(m) => Ok(wrap(m)),
        Err(why) => Err(why),
    }
}

// Whether a mode is a transition.
pub(crate) fn is_transition(mode: FlightMode) -> bool
    ensures { result ≡ transitioning mode }
{
    matches!(mode, FlightMode::ToPlane | FlightMode::ToCopter)
}

// The absolute value of a number. A NaN stays. It is not core's `f32::abs`, whose code no law of `list_theorem` can name.
pub(crate) fn abs(x: f32) -> f32
    ensures { result ≡ abs_of x }
{
    if x < 0.0 { -x } else { x }
}

impl Airframe {
    // A new machine with these settings.
    pub(crate) fn machine(self, settings: Settings) -> Result<Machine, InputRefusal>
        ensures { result ≡ new_machine_of self settings }
    {
        match self {
            Airframe::Tailsitter => new_either(
                Transition::new(TransitionConfig::from(settings)),
                Machine::Tailsitter,
            ),
            Airframe::Quadplane => new_either(
                LiftTransition::new(LiftTransitionConfig::from(settings)),
                Machine::Quadplane,
            ),
        }
    }
}

// Each method asks the machine that it is, by a match. A trait of both kinds would write each method twice more, in its two impls.
impl Machine {
    // What is flown.
    pub(crate) fn mode(self) -> FlightMode
        ensures { result ≡ mode_of self }
    {
        match self {
            Machine::Tailsitter(m) => m.state.mode,
            Machine::Quadplane(m) => m.state.mode,
        }
    }

    // The duration of a handoff.
    pub(crate) fn handoff_s(self) -> f32
        ensures { result ≡ handoff_time_of self }
    {
        match self {
            Machine::Tailsitter(m) => m.config.handoff_s,
            Machine::Quadplane(m) => m.config.handoff_s,
        }
    }

    // The bank past which a transition is cut short.
    pub(crate) fn roll_limit_rad(self) -> f32
        ensures { result ≡ roll_limit_of self }
    {
        match self {
            Machine::Tailsitter(m) => m.config.roll_limit_rad,
            Machine::Quadplane(m) => m.config.roll_limit_rad,
        }
    }

    // Copter, with z as the height reference.
    pub(crate) fn prime(self, z_m: f32) -> Update<Machine, TransitionStep>
        ensures { result ≡ accepted (prime_machine_of self z_m) }
    {
        match self {
            Machine::Tailsitter(m) => of_either(m.prime(z_m), Machine::Tailsitter),
            Machine::Quadplane(m) => of_either(m.prime(z_m), Machine::Quadplane),
        }
    }

    // New settings, or their refusal.
    pub(crate) fn set_config(self, settings: Settings) -> Update<Machine, TransitionStep>
        ensures { result ≡ set_machine_of self settings }
    {
        match self {
            Machine::Tailsitter(m) => of_either(
                m.set_config(TransitionConfig::from(settings)),
                Machine::Tailsitter,
            ),
            Machine::Quadplane(m) => of_either(
                m.set_config(LiftTransitionConfig::from(settings)),
                Machine::Quadplane,
            ),
        }
    }

    // One update, with refusals 1 and 2.
    pub(crate) fn update(self, input: StepInput) -> Update<Machine, TransitionStep>
        ensures { result ≡ update_machine_of self input }
    {
        let requested = input.requested;
        match self {
            Machine::Tailsitter(m) => of_either(
                m.update(input.dt, requested, input.state, input.entry_tilt_rad),
                Machine::Tailsitter,
            ),
            Machine::Quadplane(m) => of_either(
                m.update(input.dt, requested, input.state),
                Machine::Quadplane,
            ),
        }
    }

    // Cuts a transition short.
    pub(crate) fn cut_short(self, why: ModeRefusal) -> Update<Machine, TransitionStep>
        ensures { result ≡ accepted (cut_machine_of self why) }
    {
        match self {
            Machine::Tailsitter(m) => of_either(m.cut_short(why), Machine::Tailsitter),
            Machine::Quadplane(m) => of_either(m.cut_short(why), Machine::Quadplane),
        }
    }

    // Whether a transition is to be cut short: the bank is past the roll limit. A NaN bank is not.
    pub(crate) fn past_roll_limit(self, bank_rad: f32) -> bool
        ensures { result ≡ past_roll_limit_of self bank_rad }
    {
        both(
            is_transition(self.mode()),
            abs(bank_rad) > self.roll_limit_rad(),
        )
    }

    // An update of this machine, or its cut if it has rolled past the limit in a transition.
    pub(crate) fn cut_or(
        self,
        bank_rad: f32,
        update: Update<Machine, TransitionStep>,
    ) -> Update<Machine, TransitionStep>
        ensures { result ≡ (if past_roll_limit_of self bank_rad then accepted (cut_machine_of self ModeRefusal.RollError) else update) }
    {
        if self.past_roll_limit(bank_rad) {
            self.cut_short(ModeRefusal::RollError)
        } else {
            update
        }
    }
}
