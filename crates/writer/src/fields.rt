// The numbers of a line, at the places that they have in its record.
use crate::names::{Names, Part};
use crate::number::read_number;
use crate::problem::{Problem, Word};
use crate::scan::{is_blank, split_once};
use joined::machine::Airframe;
use joined::settings::Settings;
use machines::settings::{LiftTransitionConfig, TransitionConfig};

// Numbers 1 to 17, those that the line names; number 0 is no number of a record.
#[derive(Clone, Copy, Debug)]
pub(crate) struct Fields([Option<f32>; 18]);

impl Fields {
    // The number at a place, if the line names it.
    pub(crate) fn at(self, place: usize) -> Option<f32> {
        self.0.get(place).copied().flatten()
    }

    // With the numbers of a part, which stand with commas between them.
    fn add_values<'a>(&mut self, place: usize, values: &'a [u8]) -> Result<(), Problem<'a>> {
        let places = self.0.iter_mut().skip(place);
        for (number, word) in places.zip(values.split(|b| *b == b',')) {
            *number = Some(read_number(word)?);
        }
        Ok(())
    }

    // With what is named by a word: NAME=NUMBER, or NAME=NUMBER,NUMBER and so on.
    fn add<'a>(&mut self, names: Names, word: &'a [u8]) -> Result<(), Problem<'a>> {
        let (name, values) = split_once(word, |b| *b == b'=').ok_or(Problem::NoEquals(Word(word)))?;
        let Part(_, place, count) = names.part(name).ok_or(Problem::Unknown(names, Word(name)))?;
        if self.at(place).is_some() {
            return Err(Problem::Twice(Word(name)));
        }
        if values.split(|b| *b == b',').count() != count {
            return Err(Problem::values(name, count));
        }
        self.add_values(place, values)
    }

    // The numbers that words name.
    pub(crate) fn by_name(names: Names, words: &[u8]) -> Result<Fields, Problem<'_>> {
        let mut fields = Fields([None; 18]);
        for word in words.split(is_blank).filter(|word| !word.is_empty()) {
            fields.add(names, word)?;
        }
        Ok(fields)
    }

    // The settings that words are, in their order.
    fn in_order(names: Names, words: &[u8]) -> Result<Fields, Problem<'_>> {
        let mut fields = Fields([None; 18]);
        let mut places = fields.0.iter_mut().skip(1);
        for word in words.split(is_blank).filter(|word| !word.is_empty()) {
            let x = read_number(word)?;
            if let Some(number) = places.next() {
                *number = Some(x);
            }
        }
        let count = words
            .split(is_blank)
            .filter(|word| !word.is_empty())
            .count();
        if count != names.parts().len() {
            return Err(Problem::Count(names, count));
        }
        Ok(fields)
    }

    // The number at a place, or this one if the line doesn't name it.
    pub(crate) fn or(self, place: usize, default: f32) -> f32 {
        self.at(place).unwrap_or(default)
    }
}

// A tailsitter's settings: the defaults, but for those that the line names. Field by field here and below, as the fields of the two airframes have names of their own.
fn tailsitter(fields: Fields) -> Settings {
    let d = TransitionConfig::defaults();
    Settings {
        n1: fields.or(1, d.forward_rate_radps),
        n2: fields.or(2, d.forward_done_rad),
        n3: fields.or(3, d.forward_max_tilt_rad),
        n4: fields.or(4, d.min_airspeed_mps),
        n5: fields.or(5, d.back_rate_radps),
        n6: fields.or(6, d.back_done_rad),
        n7: fields.or(7, d.timeout_s),
        n8: fields.or(8, d.min_height_m),
        n9: fields.or(9, d.plane_min_height_m),
        n10: fields.or(10, d.forward_thrust),
        n11: fields.or(11, d.back_thrust),
        n12: fields.or(12, d.back_sink_limit_mps),
        n13: fields.or(13, d.back_sink_gain),
        n14: fields.or(14, d.handoff_s),
        n15: fields.or(15, d.roll_limit_rad),
        n16: fields.or(16, d.forward_done_cosine),
        n17: fields.or(17, d.back_done_cosine),
    }
}

// A quadplane's settings, likewise.
fn quadplane(fields: Fields) -> Settings {
    let d = LiftTransitionConfig::defaults();
    Settings {
        n1: fields.or(1, d.min_airspeed_mps),
        n2: fields.or(2, d.lift_ramp_s),
        n3: fields.or(3, d.timeout_s),
        n4: fields.or(4, d.min_height_m),
        n5: fields.or(5, d.plane_min_height_m),
        n6: fields.or(6, d.back_ramp_s),
        n7: fields.or(7, d.back_speed_mps),
        n8: fields.or(8, d.back_timeout_s),
        n9: fields.or(9, d.back_decel_mps2),
        n10: fields.or(10, d.back_decel_i),
        n11: fields.or(11, d.forward_thrust),
        n12: fields.or(12, d.pusher_slew_per_s),
        n13: fields.or(13, d.forward_pitch_max_rad),
        n14: fields.or(14, d.handoff_s),
        n15: fields.or(15, d.roll_limit_rad),
        n16: 0.0,
        n17: 0.0,
    }
}

// Settings: by name if the line has a '=' or no word, else in their order.
pub(crate) fn settings(airframe: Airframe, words: &[u8]) -> Result<Settings, Problem<'_>> {
    let names = Names::from(airframe);
    let fields = if words.is_empty() || words.contains(&b'=') {
        Fields::by_name(names, words)?
    } else {
        Fields::in_order(names, words)?
    };
    Ok(match airframe {
        Airframe::Tailsitter => tailsitter(fields),
        Airframe::Quadplane => quadplane(fields),
    })
}
