// The settings (document 01, section 2): `TransitionConfig` of the Rust's vtol.rs with the two done cosines, `LiftTransitionConfig` of lift.rs, `ForwardThrustConfig` of forward.rs.
ghost use Rattle.std.specs.Prelude.{◌≡◌};
ghost use Rattle.machines.specs.Settings.{transition_validity, lift_validity, forward_thrust_validity, transition_default, lift_default};

use crate::InputRefusal;
use crate::ranges::{QUADPLANE, TAILSITTER, validate_ranges};
use numbers::ranges::{is_limit, is_quarter_turn_from_zero};

// The tailsitter's settings, 1 to 17. Tilts are the nose's angle from vertical. 16 and 17 are the cosines of 2 and 6, and are what the machine compares with:
// 2 and 6 themselves are checked and not read. 10 to 15 are read by the joined machine. A floor (9) or a sink limit (12) of 0 is off.
#[derive(Clone, Copy)]
pub struct TransitionConfig {
    pub forward_rate_radps: f32,
    pub forward_done_rad: f32,
    pub forward_max_tilt_rad: f32,
    pub min_airspeed_mps: f32,
    pub back_rate_radps: f32,
    pub back_done_rad: f32,
    pub timeout_s: f32,
    pub min_height_m: f32,
    pub plane_min_height_m: f32,
    pub forward_thrust: f32,
    pub back_thrust: f32,
    pub back_sink_limit_mps: f32,
    pub back_sink_gain: f32,
    pub handoff_s: f32,
    pub roll_limit_rad: f32,
    pub forward_done_cosine: f32,
    pub back_done_cosine: f32,
}

// The quadplane's settings, 1 to 15. 9 to 12, 14 and 15 are read by the joined machine, and 13 is the pitch limit's.
// A floor (5) of 0 is off.
#[derive(Clone, Copy)]
pub struct LiftTransitionConfig {
    pub min_airspeed_mps: f32,
    pub lift_ramp_s: f32,
    pub timeout_s: f32,
    pub min_height_m: f32,
    pub plane_min_height_m: f32,
    pub back_ramp_s: f32,
    pub back_speed_mps: f32,
    pub back_timeout_s: f32,
    pub back_decel_mps2: f32,
    pub back_decel_i: f32,
    pub forward_thrust: f32,
    pub pusher_slew_per_s: f32,
    pub forward_pitch_max_rad: f32,
    pub handoff_s: f32,
    pub roll_limit_rad: f32,
}

// The split's settings, 1 and 2.
#[derive(Clone, Copy)]
pub struct ForwardThrustConfig {
    pub gain: f32,
    pub pitch_limit_rad: f32,
}

// The Rust's default settings, with the cosines of its default done angles.
pub const TRANSITION_DEFAULTS: TransitionConfig = TransitionConfig {
    forward_rate_radps: 0.87266463,
    forward_done_rad: 0.7853982,
    forward_max_tilt_rad: 1.3962634,
    min_airspeed_mps: 0.0,
    back_rate_radps: 0.87266463,
    back_done_rad: 0.7853982,
    timeout_s: 15.0,
    min_height_m: 5.0,
    plane_min_height_m: 0.0,
    forward_thrust: 0.5,
    back_thrust: 0.5,
    back_sink_limit_mps: 1.0,
    back_sink_gain: 0.4,
    handoff_s: 0.5,
    roll_limit_rad: 0.7853982,
    forward_done_cosine: 0.70710677,
    back_done_cosine: 0.70710677,
};

impl TransitionConfig {
    // The first field out of its range, if any.
    #[tactic(auto, using(crate::proofs::Laws::RangeTable::tailsitter_ranges))]
    pub fn validate(self) -> Result<(), InputRefusal>
        ensures { result ≡ transition_validity self }
    {
        // field by field, here and below: the fields have names of their own (document 01, section 2)
        let settings = [
            self.forward_rate_radps,
            self.forward_done_rad,
            self.forward_max_tilt_rad,
            self.min_airspeed_mps,
            self.back_rate_radps,
            self.back_done_rad,
            self.timeout_s,
            self.min_height_m,
            self.plane_min_height_m,
            self.forward_thrust,
            self.back_thrust,
            self.back_sink_limit_mps,
            self.back_sink_gain,
            self.handoff_s,
            self.roll_limit_rad,
            self.forward_done_cosine,
            self.back_done_cosine,
        ];
        validate_ranges(TAILSITTER, &settings)
    }

    // The default settings: which numbers they are is promised here.
    pub fn defaults() -> TransitionConfig
        ensures { result ≡ transition_default }
    {
        TRANSITION_DEFAULTS
    }
}

// The Rust's default settings.
pub const LIFT_TRANSITION_DEFAULTS: LiftTransitionConfig = LiftTransitionConfig {
    min_airspeed_mps: 9.0,
    lift_ramp_s: 5.0,
    timeout_s: 15.0,
    min_height_m: 5.0,
    plane_min_height_m: 0.0,
    back_ramp_s: 3.0,
    back_speed_mps: 5.0,
    back_timeout_s: 10.0,
    back_decel_mps2: 2.0,
    back_decel_i: 0.1,
    forward_thrust: 1.0,
    pusher_slew_per_s: 0.33,
    forward_pitch_max_rad: 0.05235988,
    handoff_s: 0.5,
    roll_limit_rad: 0.7853982,
};

impl LiftTransitionConfig {
    // The first field out of its range, if any.
    #[tactic(auto, using(crate::proofs::Laws::RangeTable::quadplane_ranges))]
    pub fn validate(self) -> Result<(), InputRefusal>
        ensures { result ≡ lift_validity self }
    {
        let settings = [
            self.min_airspeed_mps,
            self.lift_ramp_s,
            self.timeout_s,
            self.min_height_m,
            self.plane_min_height_m,
            self.back_ramp_s,
            self.back_speed_mps,
            self.back_timeout_s,
            self.back_decel_mps2,
            self.back_decel_i,
            self.forward_thrust,
            self.pusher_slew_per_s,
            self.forward_pitch_max_rad,
            self.handoff_s,
            self.roll_limit_rad,
        ];
        validate_ranges(QUADPLANE, &settings)
    }

    // The default settings: which numbers they are is promised here.
    pub fn defaults() -> LiftTransitionConfig
        ensures { result ≡ lift_default }
    {
        LIFT_TRANSITION_DEFAULTS
    }
}

impl ForwardThrustConfig {
    // The first field out of its range, if any.
    pub fn validate(self) -> Result<(), InputRefusal>
        ensures { result ≡ forward_thrust_validity self }
    {
        if !is_limit(self.gain) {
            return Err(InputRefusal::Setting(1));
        }
        if !is_quarter_turn_from_zero(self.pitch_limit_rad) {
            return Err(InputRefusal::Setting(2));
        }
        Ok(())
    }
}
