// The records of a card (document 01, section 7). A record stands for itself as 80 bytes; its kind and the like are those of record 0 of a card that is that record alone.
ghost use Rattle.std.specs.Prelude.{◌≡◌, ◌<◌, ltb, if◌then◌else◌};
ghost use Rattle.numbers.specs.Numbers.{zero32};
ghost use Rattle.joined.specs.Joined.{new_of};
ghost use Rattle.card.specs.Format.{kind_by, record_part, kind_at, option_at, next_at, number_at, settings_at, vehicle_at, step_input_at, cut_for, record_at, read_of, header_for, header_of};
ghost use Rattle.card.specs.Chain.{records};

use crate::bytes::{f32_at, u16_at};
use crate::kind::Kind;
use crate::refusal::CardRefusal;
use joined::call::{Call, StepInput};
use joined::joined::Joined;
use joined::machine::Airframe;
use joined::settings::{Numbers, Settings};
use machines::ModeRefusal;

// Record i of a card.
#[tactic(auto, using(crate::proofs::Laws::Parts::part_at))]
pub(crate) fn record_part(card: &[u8], i: usize) -> &[u8; 80]
    requires { i < records card.now }
    ensures { result.now ≡ record_part card.now i }
{
    let (records, _) = card.as_chunks::<80>();
    &records[i]
}

// What a record is, if section 7 names its kind.
fn kind_of(bytes: &[u8; 80]) -> Option<Kind>
    ensures { result ≡ kind_by (kind_at bytes.now 0) }
{
    Kind::try_from(bytes[0]).ok()
}

// A record's option.
fn option_of(bytes: &[u8; 80]) -> u8
    ensures { result ≡ option_at bytes.now 0 }
{
    bytes[1]
}

// The index of the record after this one; 0 ends the chain.
pub(crate) fn next_of(bytes: &[u8; 80]) -> usize
    ensures { result ≡ next_at bytes.now 0 }
{
    usize::from(u16_at(bytes, 2))
}

// A record's numbers: 1 to 19 have a place, and past it there are zeros.
#[derive(Drop)]
struct Placed<'a>(&'a [u8; 80]);

impl Numbers for Placed<'_> {
    ghost number_by = { λ it k. if ltb k 20 then number_at it.0.now 0 k else zero32 };

    fn number(&self, k: usize) -> f32 {
        let bytes = self.0;
        if k >= 20 { 0.0 } else { f32_at(bytes, 4 * k) }
    }
}

// A record's numbers as settings.
#[tactic(auto, unfolding(joined::specs::Calls::settings_by))]
fn settings_of(bytes: &[u8; 80]) -> Settings
    ensures { result ≡ settings_at bytes.now 0 }
{
    Settings::of(&Placed(bytes))
}

// What a step is told.
#[tactic(auto, unfolding(joined::specs::Calls::step_input_by, joined::specs::Calls::vehicle_by))]
fn step_input_of(bytes: &[u8; 80]) -> StepInput
    ensures input { result ≡ step_input_at bytes.now 0 }
    ensures vehicle { result.state ≡ vehicle_at bytes.now 0 }
{
    StepInput::of(option_of(bytes), &Placed(bytes))
}

// A record of kind 3 with this option: a cut, for the reason of that number.
fn cut_for(option: u8) -> Option<Call>
    ensures { result ≡ cut_for option }
{
    ModeRefusal::try_from(option).ok().map(Call::Cut)
}

// The call that a record after the header is; none if section 7 does not name its kind or option.
// In line, so that the check, which asks only whether there is one, reads no number.
#[inline(always)]
pub(crate) fn call_of(bytes: &[u8; 80]) -> Option<Call>
    ensures { result ≡ record_at bytes.now 0 }
{
    let option = option_of(bytes);
    match kind_of(bytes)? {
        Kind::Prime => (option == 0).then_some(Call::Prime(Placed(bytes).number(2))),
        Kind::Step => (option <= 3).then_some(Call::Step(step_input_of(bytes))),
        Kind::Cut => cut_for(option),
        Kind::Settings => (option == 0).then_some(Call::Settings(settings_of(bytes))),
        _ => None,
    }
}

// The call that record i of any bytes is; an index past the card's whole records names no call, nor does a header.
#[tactic(auto, using(crate::proofs::Laws::Parts::part_at, crate::proofs::Laws::Parts::record_in), unfolding(crate::specs::Format::read_of))]
pub fn read_record(card: &[u8], i: usize) -> Option<Call>
    ensures { result ≡ read_of card.now i }
{
    let (records, _) = card.as_chunks::<80>();
    call_of(records.get(i)?)
}

// The new joined machine of a header, or why there is none.
pub(crate) fn header_of(bytes: &[u8; 80]) -> Result<Joined, CardRefusal>
    ensures { result ≡ header_of bytes.now }
{
    if option_of(bytes) != 0 {
        return Err(CardRefusal::KindOrOption);
    }
    match kind_of(bytes).ok_or(CardRefusal::KindOrOption)? {
        Kind::Tailsitter => header_for(bytes, Airframe::Tailsitter),
        Kind::Quadplane => header_for(bytes, Airframe::Quadplane),
        _ => Err(CardRefusal::KindOrOption),
    }
}

// A new joined machine for an airframe with a record's numbers as settings, or the refusal of these.
fn header_for(bytes: &[u8; 80], airframe: Airframe) -> Result<Joined, CardRefusal>
    ensures { result ≡ header_for (new_of airframe (settings_at bytes.now 0)) }
{
    Ok(Joined::new(airframe, settings_of(bytes))?)
}
