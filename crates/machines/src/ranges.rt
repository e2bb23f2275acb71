// The ranges of the settings (document 01, section 2; document 02, 2.3), in one place: a row for each field. NaN is in none of them; -0 is where 0 is.
ghost use Rattle.std.specs.Prelude.{◌≡◌, ◌+◌, ◌≤◌, length};
ghost use Rattle.machines.specs.Settings.{verdict};
ghost use Rattle.machines.specs.RangeTable.{is_under, contains, range_tests};

use crate::InputRefusal;
use numbers::bits::from_bits;
use numbers::logic::both;

// A field's range: the low end's bits and whether that end counts, then the high end's. No `Bound`s: document 01 names the table so, of bits and flags.
#[derive(Clone, Copy)]
pub(crate) struct Range(u32, bool, u32, bool);

// The row of each airframe's field 1; its field n stands n - 1 rows after it. One table for both airframes, looked up by number: document 01 names it so.
pub(crate) const TAILSITTER: usize = 0;

pub(crate) const QUADPLANE: usize = 17;

// 0x3F80_0000 is 1, 0x3FC9_0FDB π/2, 0x4049_0FDB π, 0x7F80_0000 infinity.
const RANGES: [Range; 32] = [
    // tailsitter
    Range(0x0000_0000, false, 0x7F80_0000, false), // 1 forward_rate_radps (0, ∞)
    Range(0x0000_0000, false, 0x3FC9_0FDB, false), // 2 forward_done_rad (0, π/2)
    Range(0x0000_0000, false, 0x3FC9_0FDB, true), // 3 forward_max_tilt_rad (0, π/2]
    Range(0x0000_0000, true, 0x7F80_0000, false), // 4 min_airspeed_mps [0, ∞)
    Range(0x0000_0000, false, 0x7F80_0000, false), // 5 back_rate_radps (0, ∞)
    Range(0x0000_0000, false, 0x3FC9_0FDB, false), // 6 back_done_rad (0, π/2)
    Range(0x0000_0000, false, 0x7F80_0000, false), // 7 timeout_s (0, ∞)
    Range(0x0000_0000, true, 0x7F80_0000, false), // 8 min_height_m [0, ∞)
    Range(0x0000_0000, true, 0x7F80_0000, false), // 9 plane_min_height_m [0, ∞)
    Range(0x0000_0000, true, 0x3F80_0000, true), // 10 forward_thrust [0, 1]
    Range(0x0000_0000, true, 0x3F80_0000, true), // 11 back_thrust [0, 1]
    Range(0x0000_0000, true, 0x7F80_0000, false), // 12 back_sink_limit_mps [0, ∞)
    Range(0x0000_0000, true, 0x7F80_0000, false), // 13 back_sink_gain [0, ∞)
    Range(0x0000_0000, true, 0x7F80_0000, false), // 14 handoff_s [0, ∞)
    Range(0x0000_0000, false, 0x4049_0FDB, true), // 15 roll_limit_rad (0, π]
    Range(0x0000_0000, false, 0x3F80_0000, true), // 16 forward_done_cosine (0, 1]
    Range(0x0000_0000, false, 0x3F80_0000, true), // 17 back_done_cosine (0, 1]
    // quadplane
    Range(0x0000_0000, true, 0x7F80_0000, false), // 1 min_airspeed_mps [0, ∞)
    Range(0x0000_0000, false, 0x7F80_0000, false), // 2 lift_ramp_s (0, ∞)
    Range(0x0000_0000, false, 0x7F80_0000, false), // 3 timeout_s (0, ∞)
    Range(0x0000_0000, true, 0x7F80_0000, false), // 4 min_height_m [0, ∞)
    Range(0x0000_0000, true, 0x7F80_0000, false), // 5 plane_min_height_m [0, ∞)
    Range(0x0000_0000, false, 0x7F80_0000, false), // 6 back_ramp_s (0, ∞)
    Range(0x0000_0000, true, 0x7F80_0000, false), // 7 back_speed_mps [0, ∞)
    Range(0x0000_0000, false, 0x7F80_0000, false), // 8 back_timeout_s (0, ∞)
    Range(0x0000_0000, true, 0x7F80_0000, false), // 9 back_decel_mps2 [0, ∞)
    Range(0x0000_0000, true, 0x7F80_0000, false), // 10 back_decel_i [0, ∞)
    Range(0x0000_0000, true, 0x3F80_0000, true), // 11 forward_thrust [0, 1]
    Range(0x0000_0000, false, 0x7F80_0000, false), // 12 pusher_slew_per_s (0, ∞)
    Range(0x0000_0000, false, 0x3FC9_0FDB, false), // 13 forward_pitch_max_rad (0, π/2)
    Range(0x0000_0000, true, 0x7F80_0000, false), // 14 handoff_s [0, ∞)
    Range(0x0000_0000, false, 0x4049_0FDB, true), // 15 roll_limit_rad (0, π]
];

// x is below y, or equal to it if that counts.
pub(crate) fn is_under(x: f32, y: f32, inclusive: bool) -> bool
    ensures { result ≡ is_under inclusive x y }
{
    if inclusive { x <= y } else { x < y }
}

impl Range {
    // Whether x is in the range.
    pub(crate) fn contains(self, x: f32) -> bool
        ensures { result ≡ contains self x }
    {
        both(
            is_under(from_bits(self.0), x, self.1),
            is_under(x, from_bits(self.2), self.3),
        )
    }
}

// The verdict on an airframe's settings in the order of its fields; `first` is the row of field 1. The first that is not in its range is named by its position from 1.
pub(crate) fn validate_ranges(first: usize, settings: &[f32]) -> Result<(), InputRefusal>
    requires { first + length settings.now ≤ 32 }
    ensures { result ≡ verdict (range_tests first 0 settings.now) }
{
    // The table is taken once, and its rows are looked up by the fields' numbers: `RANGES[..]` in the loop would put all its rows on the stack for each field,
    // in 8 times the instructions.
    let ranges = RANGES;
    for (i, setting) in settings.iter().enumerate() {
        if !ranges[first + i].contains(*setting) {
            return Err(InputRefusal::Setting((i + 1) as u8));
        }
    }
    Ok(())
}
