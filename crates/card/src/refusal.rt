// Why a card is turned down (document 01, section 9).
ghost use Rattle.std.specs.Prelude.{◌≡◌};
ghost use Rattle.card.specs.CardRefusals.{card_refusal_of, card_field_of};
ghost use Rattle.card.specs.declared.refusal.CardRefusal.TheVariants as refusal;

use machines::InputRefusal;

// The refusal of the header's settings, a 3 with its field, and 6 to 10 of section 9.
#[derive(Clone, Copy, Debug, PartialEq, Eq)]
pub enum CardRefusal {
    Header(InputRefusal),
    Length,
    Marks,
    NextIndex,
    PassedRecord,
    KindOrOption,
}

impl CardRefusal {
    // The number of document 01, section 9. A method, and no `From`: its name says which of the papers' numbers it is.
    pub fn number(self) -> u8
        ensures { result ≡ card_refusal_of self }
    {
        match self {
            CardRefusal::Header(why) => why.number(),
            CardRefusal::Length => 6,
            CardRefusal::Marks => 7,
            CardRefusal::NextIndex => 8,
            CardRefusal::PassedRecord => 9,
            CardRefusal::KindOrOption => 10,
        }
    }

    // The bad setting's field, from 1; 0 for the other refusals. `WriteRefusal` has the same: a trait for both would be longer than the two.
    pub fn field(self) -> u8
        ensures { result ≡ card_field_of self }
    {
        match self {
            CardRefusal::Header(why) => why.field(),
            _ => 0,
        }
    }
}

// The header's settings are refused by the making of its machine.
impl From<InputRefusal> for CardRefusal {
    ghost from_gives = { λ why r. r ≡ refusal.Header why };

    fn from(why: InputRefusal) -> CardRefusal {
        Self::Header(why)
    }
}
