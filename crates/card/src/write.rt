// The writer of cards (document 02, 2.1): from settings and a list of calls to a card, its records chained 1, 2, 3 and so on.
ghost use Rattle.std.specs.Prelude.{◌≡◌, reverse, ◌≤◌, ◌<◌, length};
ghost use Rattle.card.specs.Text.{Written};
ghost use Rattle.card.specs.declared.write.WriteRefusal.TheVariants as refusal;
ghost use Rattle.card.specs.Writer.{record_bytes, next_of, records_of, card_of, card_bytes, write_refusal_of, write_field_of, write_of, Writes};

use crate::bytes::put;
use crate::encode::{Encoded, encode, encode_header};
use joined::call::Call;
use joined::joined::Joined;
use joined::machine::Airframe;
use joined::settings::Settings;
use machines::InputRefusal;

// Why a list is not written: more than 799 calls, a buffer too short, or the refusal of the header's settings.
#[derive(Clone, Copy, Debug, PartialEq, Eq)]
pub enum WriteRefusal {
    Calls,
    Room,
    Header(InputRefusal),
}

impl WriteRefusal {
    // The number of document 02, and the header's own. A method, and no `From`: its name says which of the papers' numbers it is.
    pub fn number(self) -> u8
        ensures { result ≡ write_refusal_of self }
    {
        match self {
            WriteRefusal::Calls => 21,
            WriteRefusal::Room => 22,
            WriteRefusal::Header(why) => why.number(),
        }
    }

    // The bad setting's field, from 1; 0 for the other refusals.
    pub fn field(self) -> u8
        ensures { result ≡ write_field_of self }
    {
        match self {
            WriteRefusal::Header(why) => why.field(),
            _ => 0,
        }
    }
}

// The header's settings are refused by the making of its machine.
impl From<InputRefusal> for WriteRefusal {
    ghost from_gives = { λ why r. r ≡ refusal.Header why };

    fn from(why: InputRefusal) -> WriteRefusal {
        Self::Header(why)
    }
}

// A record's bytes, with the index of the next one.
fn record_bytes(next: u16, encoded: Encoded) -> [u8; 80]
    ensures { result ≡ record_bytes next encoded }
{
    let mut bytes = [0u8; 80];
    let mut at = put(&mut bytes, 0, &[u8::from(encoded.kind), encoded.option]);
    at = put(&mut bytes, at, &next.to_le_bytes());
    for number in encoded.numbers {
        at = put(&mut bytes, at, &number.to_le_bytes());
    }
    bytes
}

// The index after record i of a card with n calls.
fn next_of(n: usize, i: usize) -> usize
    requires { n < 800 }
    ensures { (result ≡ next_of n i) × (result < 800) }
{
    if i < n { i + 1 } else { 0 }
}

// The records of the calls, after the header's.
fn put_calls(out: &mut [u8], airframe: Airframe, calls: &[Call]) -> usize
    requires { (length calls.now < 800) × (card_bytes (length calls.now) ≤ length out.old) }
    ensures { Written out.old 80 (records_of airframe (length calls.now) (reverse calls.now)) out.new result × (result ≡ card_bytes (length calls.now)) }
{
    let mut at = 80;
    for (i, call) in calls.iter().enumerate() {
        let next = next_of(calls.len(), i + 1);
        at = put(out, at, &record_bytes(next as u16, encode(airframe, *call)));
    }
    at
}

// The records of the header and of the calls.
fn put_card(out: &mut [u8], airframe: Airframe, s: Settings, calls: &[Call]) -> usize
    requires { (length calls.now < 800) × (card_bytes (length calls.now) ≤ length out.old) }
    ensures { Written out.old 0 (card_of airframe s (length calls.now) (reverse calls.now)) out.new result × (result ≡ card_bytes (length calls.now)) }
{
    let next = next_of(calls.len(), 0);
    put(
        out,
        0,
        &record_bytes(next as u16, encode_header(airframe, s)),
    );
    put_calls(out, airframe, calls)
}

// Writes the card of some calls to the start of `out`, whose other bytes stay: how many bytes it has, or a refusal; a refused list writes none.
#[tactic(auto, unfolding(crate::specs::Writer::write_of))]
pub fn write(
    airframe: Airframe,
    settings: Settings,
    calls: &[Call],
    out: &mut [u8],
) -> Result<usize, WriteRefusal>
    ensures { Writes (write_of airframe settings (length calls.now) (reverse calls.now) out.old) result out.new }
{
    let n = calls.len();
    if n > 799 {
        return Err(WriteRefusal::Calls);
    }
    if out.len() < 80 * n + 80 {
        return Err(WriteRefusal::Room);
    }
    Joined::new(airframe, settings)?;
    Ok(put_card(out, airframe, settings, calls))
}
