// The records of a written card (document 02, 2.1): what each kind of call puts into its record. src/record.rt reads the same places.
ghost use Rattle.std.specs.Prelude.{◌≡◌, ◌<◌};
ghost use Rattle.card.specs.Encoding.{request_number, present_number, speed_bits, used_settings, settings_numbers, step_numbers, encode_prime, encode_step, encode_cut, encode_settings, encode_of, encode_header};

use crate::kind::Kind;
use joined::call::{Call, StepInput};
use joined::machine::Airframe;
use joined::settings::Settings;
use machines::{FlightRegime, ModeRefusal};
use numbers::bits::to_bits;

// What a record holds besides its link: its kind, its option, and the bits of its numbers 1 to 19.
#[derive(Clone, Copy)]
pub(crate) struct Encoded {
    pub(crate) kind: Kind,
    pub(crate) option: u8,
    pub(crate) numbers: [u32; 19],
}

// 1 for Plane, 0 for Copter. A function, as the two below, and no `From`: neither type is this crate's.
fn request_number(requested: FlightRegime) -> u8
    ensures { (result ≡ request_number requested) × (result < 2) }
{
    match requested {
        FlightRegime::Copter => 0,
        FlightRegime::Plane => 1,
    }
}

// 2 if there is an airspeed.
fn present_number(airspeed: Option<f32>) -> u8
    ensures { (result ≡ present_number airspeed) × (result < 3) }
{
    match airspeed {
        Some(_) => 2,
        None => 0,
    }
}

// The airspeed's bits, 0 without one.
fn speed_bits(airspeed: Option<f32>) -> u32
    ensures { result ≡ speed_bits airspeed }
{
    airspeed.map_or(0, to_bits)
}

// The settings that an airframe uses, 0 for the others. Two arguments, here and below, as those of `Joined::new` and of `write`, whose promises speak of the two.
fn used_settings(airframe: Airframe, s: Settings) -> Settings
    ensures { result ≡ used_settings airframe s }
{
    match airframe {
        Airframe::Tailsitter => s,
        Airframe::Quadplane => Settings {
            n16: 0.0,
            n17: 0.0,
            ..s
        },
    }
}

// The numbers of a settings record. Field by field, here and below: the fields have names, and each its place.
#[tactic(auto, unfolding(crate::specs::Encoding::settings_numbers))]
fn settings_numbers(s: Settings) -> [u32; 19]
    ensures { result ≡ settings_numbers s }
{
    [
        to_bits(s.n1),
        to_bits(s.n2),
        to_bits(s.n3),
        to_bits(s.n4),
        to_bits(s.n5),
        to_bits(s.n6),
        to_bits(s.n7),
        to_bits(s.n8),
        to_bits(s.n9),
        to_bits(s.n10),
        to_bits(s.n11),
        to_bits(s.n12),
        to_bits(s.n13),
        to_bits(s.n14),
        to_bits(s.n15),
        to_bits(s.n16),
        to_bits(s.n17),
        0,
        0,
    ]
}

// The numbers of a step.
#[tactic(auto, unfolding(crate::specs::Encoding::step_numbers))]
fn step_numbers(input: StepInput) -> [u32; 19]
    ensures { result ≡ step_numbers input }
{
    let state = input.state;
    let velocity = state.velocity_mps;
    let acceleration = state.acceleration_mps2;
    let attitude = state.attitude;
    let airspeed = state.airspeed;
    [
        to_bits(input.dt),
        to_bits(state.z_m),
        to_bits(velocity.x),
        to_bits(velocity.y),
        to_bits(velocity.z),
        to_bits(acceleration.x),
        to_bits(acceleration.y),
        to_bits(attitude.w),
        to_bits(attitude.x),
        to_bits(attitude.y),
        to_bits(attitude.z),
        speed_bits(airspeed),
        to_bits(input.entry_tilt_rad),
        to_bits(input.bank_rad),
        to_bits(input.demand),
        0,
        0,
        0,
        0,
    ]
}

// A prime.
fn encode_prime(z: f32) -> Encoded
    ensures { result ≡ encode_prime z }
{
    let mut numbers = [0u32; 19];
    numbers[1] = to_bits(z);
    Encoded {
        kind: Kind::Prime,
        option: 0,
        numbers,
    }
}

// A step.
fn encode_step(input: StepInput) -> Encoded
    ensures { result ≡ encode_step input }
{
    Encoded {
        kind: Kind::Step,
        option: request_number(input.requested) + present_number(input.state.airspeed),
        numbers: step_numbers(input),
    }
}

// A cut.
fn encode_cut(why: ModeRefusal) -> Encoded
    ensures { result ≡ encode_cut why }
{
    Encoded {
        kind: Kind::Cut,
        option: why.number(),
        numbers: [0; 19],
    }
}

// A settings record of a kind.
fn encode_settings(kind: Kind, airframe: Airframe, s: Settings) -> Encoded
    ensures { result ≡ encode_settings kind airframe s }
{
    Encoded {
        kind,
        option: 0,
        numbers: settings_numbers(used_settings(airframe, s)),
    }
}

// A call.
pub(crate) fn encode(airframe: Airframe, call: Call) -> Encoded
    ensures { result ≡ encode_of airframe call }
{
    match call {
        Call::Prime(z) => encode_prime(z),
        Call::Step(input) => encode_step(input),
        Call::Cut(why) => encode_cut(why),
        Call::Settings(s) => encode_settings(Kind::Settings, airframe, s),
    }
}

// A header.
pub(crate) fn encode_header(airframe: Airframe, s: Settings) -> Encoded
    ensures { result ≡ encode_header airframe s }
{
    encode_settings(Kind::from(airframe), airframe, s)
}
