// A record of 80 bytes: byte 0 the kind, byte 1 the option, bytes 2 and 3 not looked at, then numbers 1 to 19, number i in little-endian order from byte 4·i on.
// `card` reads the places of its records by functions of its own: it stands over `joined` alone and this crate over `streams` too, and it exports no reading of a part of a card.
// What settings and a step are made of, both take from `joined`.
ghost use Rattle.std.specs.Prelude.{◌≡◌, ◌+◌, slice_index, IfSome, IsNone};
ghost use Rattle.std.specs.Io.KnownBytes.{Consumes};
ghost use Rattle.std.specs.Result.{result_unwrap_or};
ghost use Rattle.machines.specs.Refusals.{reason_by};
ghost use Rattle.streams.specs.Counts.{ConsumesFewer};
ghost use Rattle.joined.specs.Calls.{requested_of, settings_by, vehicle_by, step_input_by};
ghost use Rattle.records.specs.Record.{number_of, vec2_of, vec3_of, quaternion_of};

use joined::call::{StepInput, requested_by, vehicle_of};
use joined::settings::{Numbers, Settings};
use machines::{FlightRegime, ModeRefusal, VehicleState};
use numbers::bits::{from_bits, from_le_bytes};
use numbers::vector::{Quaternion, Vec2, Vec3};
use std::io::Read;

// The bytes of a record.
#[derive(Clone, Copy, Debug, PartialEq, Eq)]
pub struct Record {
    pub bytes: [u8; 80],
}

impl Record {
    // The next record. There is none where the input ends, or a read fails, before its last byte.
    pub fn read<R: Read>(from: &mut R) -> Option<Record>
        ensures some { IfSome result (λ found. Consumes (R.remaining from.old) (R.remaining from.new) found.bytes) }
        ensures none { IsNone result → ConsumesFewer (R.remaining from.old) (R.remaining from.new) 80 }
    {
        let mut bytes = [0; 80];
        if streams::read_full(from, &mut bytes) < 80 {
            None
        } else {
            Some(Record { bytes })
        }
    }

    // The kind of the call.
    pub fn kind(&self) -> u8
        ensures { result ≡ slice_index self.now.bytes 0 }
    {
        self.bytes[0]
    }

    // The option of the call.
    pub fn option(&self) -> u8
        ensures { result ≡ slice_index self.now.bytes 1 }
    {
        self.bytes[1]
    }

    // Number i, from 1 to 19, any NaN as the NaN; 0 past the record's end.
    pub fn number(&self, i: usize) -> f32
        ensures { result ≡ number_of self.now.bytes i }
    {
        if i >= 20 {
            return 0.0;
        }
        let at = 4 * i;
        from_bits(from_le_bytes(
            self.bytes[at],
            self.bytes[at + 1],
            self.bytes[at + 2],
            self.bytes[at + 3],
        ))
    }

    // The number that stands k places after number i.
    fn number_after(&self, i: usize, k: u8) -> f32
        ensures { result ≡ number_of self.now.bytes (i + k) }
    {
        self.number(i.saturating_add(usize::from(k)))
    }

    // The vector of two numbers, from number i on.
    pub fn vec2(&self, i: usize) -> Vec2
        ensures { result ≡ vec2_of self.now.bytes i }
    {
        Vec2 {
            x: self.number(i),
            y: self.number_after(i, 1),
        }
    }

    // The vector of three numbers, from number i on.
    pub fn vec3(&self, i: usize) -> Vec3
        ensures { result ≡ vec3_of self.now.bytes i }
    {
        let Vec2 { x, y } = self.vec2(i);
        Vec3 {
            x,
            y,
            z: self.number_after(i, 2),
        }
    }

    // The quaternion of four numbers, from number i on.
    pub fn quaternion(&self, i: usize) -> Quaternion
        ensures { result ≡ quaternion_of self.now.bytes i }
    {
        Quaternion {
            w: self.number(i),
            x: self.number_after(i, 1),
            y: self.number_after(i, 2),
            z: self.number_after(i, 3),
        }
    }

    // What a step requests.
    pub fn requested(&self) -> FlightRegime
        ensures { result ≡ requested_of (slice_index self.now.bytes 1) }
    {
        requested_by(self.option())
    }

    // What a step is told of the vehicle.
    pub fn vehicle(&self) -> VehicleState
        ensures { result ≡ vehicle_by (slice_index self.now.bytes 1) (number_of self.now.bytes) }
    {
        vehicle_of(self.option(), self)
    }

    // What a step of the joined machine is told.
    pub fn step_input(&self) -> StepInput
        ensures { result ≡ step_input_by (slice_index self.now.bytes 1) (number_of self.now.bytes) }
    {
        StepInput::of(self.option(), self)
    }

    // The reason of a cut, by its number. An option that is no reason's counts as 16.
    pub fn reason(&self) -> ModeRefusal
        ensures { result ≡ result_unwrap_or (reason_by (slice_index self.now.bytes 1)) ModeRefusal.BelowPlaneMinAltitude }
    {
        ModeRefusal::try_from(self.option()).unwrap_or(ModeRefusal::BelowPlaneMinAltitude)
    }

    // The numbers as settings.
    pub fn settings(&self) -> Settings
        ensures { result ≡ settings_by (number_of self.now.bytes) }
    {
        Settings::of(self)
    }
}

impl Numbers for Record {
    ghost number_by = { λ it. number_of it.bytes };

    fn number(&self, k: usize) -> f32 {
        self.number(k)
    }
}
