// The kinds of records (document 01, section 7), for reader and writer.
ghost use Rattle.std.specs.Prelude.{◌≡◌};
ghost use Rattle.card.specs.Format.{airframe_kind, kind_number, Decodes};

use joined::machine::Airframe;

// What a record is: a call, or the header of an airframe.
#[derive(Clone, Copy, Debug, PartialEq, Eq)]
pub enum Kind {
    Prime,
    Step,
    Cut,
    Settings,
    Tailsitter,
    Quadplane,
}

// A byte that is the number of no kind.
#[derive(Clone, Copy, Debug, PartialEq, Eq)]
pub struct UnknownKind(pub u8);

impl TryFrom<u8> for Kind {
    type Error = UnknownKind;

    ghost try_from_gives = { Decodes };

    fn try_from(number: u8) -> Result<Self, UnknownKind> {
        match number {
            1 => Ok(Kind::Prime),
            2 => Ok(Kind::Step),
            3 => Ok(Kind::Cut),
            4 => Ok(Kind::Settings),
            5 => Ok(Kind::Tailsitter),
            6 => Ok(Kind::Quadplane),
            _ => Err(UnknownKind(number)),
        }
    }
}

impl From<Kind> for u8 {
    ghost from_gives = { λ kind number. number ≡ kind_number kind };

    fn from(kind: Kind) -> u8 {
        match kind {
            Kind::Prime => 1,
            Kind::Step => 2,
            Kind::Cut => 3,
            Kind::Settings => 4,
            Kind::Tailsitter => 5,
            Kind::Quadplane => 6,
        }
    }
}

// The header of an airframe.
impl From<Airframe> for Kind {
    ghost from_gives = { λ airframe kind. kind ≡ airframe_kind airframe };

    fn from(airframe: Airframe) -> Kind {
        match airframe {
            Airframe::Tailsitter => Kind::Tailsitter,
            Airframe::Quadplane => Kind::Quadplane,
        }
    }
}
