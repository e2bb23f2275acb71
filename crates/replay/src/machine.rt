// Kinds 50 to 54, the tailsitter's machine, and 60 to 64, the quadplane's.
use crate::kind::NoAnswer;
use crate::line::Line;
use machines::answer::{TransitionStep, Update};
use machines::lift::LiftTransition;
use machines::vtol::Transition;
use machines::{InputRefusal, ModeRefusal};
use records::record::Record;

// The calls of either machine.
#[derive(Clone, Copy, Debug, PartialEq, Eq)]
pub(crate) enum MachineCall {
    New,
    SetConfig,
    Prime,
    Update,
    CutShort,
}

impl TryFrom<u8> for MachineCall {
    type Error = NoAnswer;

    // By the last digit of the kind.
    fn try_from(digit: u8) -> Result<MachineCall, NoAnswer> {
        match digit {
            0 => Ok(MachineCall::New),
            1 => Ok(MachineCall::SetConfig),
            2 => Ok(MachineCall::Prime),
            3 => Ok(MachineCall::Update),
            4 => Ok(MachineCall::CutShort),
            _ => Err(NoAnswer::Unknown),
        }
    }
}

impl MachineCall {
    // Whether the call has an option. An update's says what is requested, and whether an airspeed is present; a cut's is its reason's number.
    pub(crate) fn has_option(self, option: u8) -> bool {
        match self {
            MachineCall::Update => option <= 3,
            MachineCall::CutShort => ModeRefusal::try_from(option).is_ok(),
            MachineCall::New | MachineCall::SetConfig | MachineCall::Prime => option == 0,
        }
    }
}

// Either machine, with the settings and the vehicle of a record. Each impl names its machine's own methods; `machines` has no trait for them, and lift.rt says why.
pub(crate) trait Machine: Copy {
    fn made(record: &Record) -> Result<Self, InputRefusal>;

    fn with_config(self, record: &Record) -> Update<Self, TransitionStep>;

    fn primed(self, z_m: f32) -> Update<Self, TransitionStep>;

    fn updated(self, record: &Record) -> Update<Self, TransitionStep>;

    fn cut(self, why: ModeRefusal) -> Update<Self, TransitionStep>;
}

impl Machine for Transition {
    fn made(record: &Record) -> Result<Transition, InputRefusal> {
        Transition::new(record.settings().into())
    }

    fn with_config(self, record: &Record) -> Update<Transition, TransitionStep> {
        self.set_config(record.settings().into())
    }

    fn primed(self, z_m: f32) -> Update<Transition, TransitionStep> {
        self.prime(z_m)
    }

    fn updated(self, record: &Record) -> Update<Transition, TransitionStep> {
        self.update(
            record.number(1),
            record.requested(),
            record.vehicle(),
            record.number(13),
        )
    }

    fn cut(self, why: ModeRefusal) -> Update<Transition, TransitionStep> {
        self.cut_short(why)
    }
}

impl Machine for LiftTransition {
    fn made(record: &Record) -> Result<LiftTransition, InputRefusal> {
        LiftTransition::new(record.settings().into())
    }

    fn with_config(self, record: &Record) -> Update<LiftTransition, TransitionStep> {
        self.set_config(record.settings().into())
    }

    fn primed(self, z_m: f32) -> Update<LiftTransition, TransitionStep> {
        self.prime(z_m)
    }

    fn updated(self, record: &Record) -> Update<LiftTransition, TransitionStep> {
        self.update(record.number(1), record.requested(), record.vehicle())
    }

    fn cut(self, why: ModeRefusal) -> Update<LiftTransition, TransitionStep> {
        self.cut_short(why)
    }
}

// Makes a call of a machine. A new one that is refused leaves the one before.
pub(crate) fn answer<M: Machine>(
    machine: &mut M,
    call: MachineCall,
    record: &Record,
) -> Result<Line, InputRefusal> {
    let update = match call {
        MachineCall::New => {
            *machine = M::made(record)?;
            return Ok(Line::New);
        }
        MachineCall::SetConfig => machine.with_config(record),
        MachineCall::Prime => machine.primed(record.number(2)),
        MachineCall::Update => machine.updated(record),
        MachineCall::CutShort => machine.cut(record.reason()),
    };
    *machine = update.state;
    Ok(Line::Step(update.answer?))
}
