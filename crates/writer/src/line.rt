// A line of the text: the header, or a call.
use crate::fields::{Fields, settings};
use crate::names::{Names, airframe_named, reason_named};
use crate::number::short;
use crate::problem::{Problem, Word};
use crate::scan::{first_word, last_word, split_once};
use joined::call::{Call, StepInput};
use joined::machine::Airframe;
use joined::settings::Settings;
use machines::{FlightRegime, ModeRefusal, VehicleState};
use numbers::vector::{Quaternion, Vec2, Vec3};

// The words of a prime.
fn prime(words: &[u8]) -> Result<Call, Problem<'_>> {
    let z = Fields::by_name(Names::Prime, words)?.at(2);
    Ok(Call::Prime(z.ok_or(Problem::NoZ)?))
}

// The vehicle's state in the numbers of a step. Those that are not named are 0.
fn vehicle(n: Fields, attitude_w: f32) -> VehicleState {
    VehicleState {
        z_m: n.or(2, 0.0),
        velocity_mps: Vec3 {
            x: n.or(3, 0.0),
            y: n.or(4, 0.0),
            z: n.or(5, 0.0),
        },
        acceleration_mps2: Vec2 {
            x: n.or(6, 0.0),
            y: n.or(7, 0.0),
        },
        attitude: Quaternion {
            w: attitude_w,
            x: n.or(9, 0.0),
            y: n.or(10, 0.0),
            z: n.or(11, 0.0),
        },
        airspeed: n.at(12),
    }
}

// The words of a step.
fn step(words: &[u8]) -> Result<Call, Problem<'_>> {
    let (request, parts) = first_word(words);
    let requested = match request {
        b"copter" => FlightRegime::Copter,
        b"plane" => FlightRegime::Plane,
        _ => return Err(Problem::Request(Word(request))),
    };
    let n = Fields::by_name(Names::Step, parts)?;
    let dt = n.at(1).ok_or(Problem::NoDt)?;
    let attitude_w = n.at(8).ok_or(Problem::NoAttitude)?;
    Ok(Call::Step(StepInput {
        dt,
        requested,
        state: vehicle(n, attitude_w),
        entry_tilt_rad: n.or(13, 0.0),
        bank_rad: n.or(14, 0.0),
        demand: n.or(15, 0.0),
    }))
}

// The reason that a word is, as a number or a name.
fn reason(word: &[u8]) -> Option<ModeRefusal> {
    match short(word) {
        Some(number) => ModeRefusal::try_from(u8::try_from(number).ok()?).ok(),
        None => reason_named(word),
    }
}

// The words of a cut.
fn cut(words: &[u8]) -> Result<Call, Problem<'_>> {
    let reason = reason(words).ok_or(Problem::Reason(Word(words)))?;
    Ok(Call::Cut(reason))
}

// A call of its first word and the others, without times=.
fn call<'a>(airframe: Airframe, name: &'a [u8], words: &'a [u8]) -> Result<Call, Problem<'a>> {
    match name {
        b"prime" => prime(words),
        b"step" => step(words),
        b"cut" => cut(words),
        b"settings" => Ok(Call::Settings(settings(airframe, words)?)),
        b"record" => Err(Problem::Record(Word(name))),
        b"tailsitter" | b"quadplane" => Err(Problem::SecondHeader(Word(name))),
        _ => Err(Problem::OtherCall(Word(name))),
    }
}

// What stands before a word's '=', and what stands behind it; all of the word and nothing if it has none.
fn name_and_value(word: &[u8]) -> (&[u8], &[u8]) {
    split_once(word, |b| *b == b'=').unwrap_or((word, &[]))
}

// How often a call is made, as its last word says, and the words before that.
fn read_times(words: &[u8]) -> Result<(usize, &[u8]), Problem<'_>> {
    let (before, last) = last_word(words);
    let (name, value) = name_and_value(last);
    match name {
        b"times" => match short(value) {
            Some(times @ 1..=799) => Ok((usize::from(times), before)),
            _ => Err(Problem::Times(Word(last))),
        },
        b"next" => Err(Problem::Next(Word(last))),
        _ => Ok((1, words)),
    }
}

// A call and how often it is made, of a line's words.
pub(crate) fn read_call(airframe: Airframe, words: &[u8]) -> Result<(Call, usize), Problem<'_>> {
    let (name, words) = first_word(words);
    let (times, words) = read_times(words)?;
    Ok((call(airframe, name, words)?, times))
}

// The header, of a line's words.
pub(crate) fn read_header(words: &[u8]) -> Result<(Airframe, Settings), Problem<'_>> {
    let (name, words) = first_word(words);
    let (_, last) = last_word(words);
    match name_and_value(last) {
        (b"times", _) => return Err(Problem::HeaderTimes(Word(last))),
        (b"next", _) => return Err(Problem::Next(Word(last))),
        _ => {}
    }
    let airframe = airframe_named(name).ok_or(Problem::OtherHeader(Word(name)))?;
    Ok((airframe, settings(airframe, words)?))
}
