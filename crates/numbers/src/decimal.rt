// A decimal number as binary32: whole digits over a power of ten, rounded once.
ghost use Rattle.std.specs.Prelude.{false, ◌≡◌, ◌*◌, ◌^◌, ◌≤◌, ◌<◌};
ghost use Rattle.std.specs.Float.{binary32};
ghost use Rattle.std.specs.Float.Ieee.{round};
ghost use Rattle.std.specs.Float.Ieee.Nearest.{closest};
ghost use Rattle.numbers.specs.Decimal.{of_decimal};

// n / d to the nearest whole number, a tie to the even one. `n` and `d` are no struct: each function here bounds them otherwise (2^63, 2^39, 2^30). Below 2^63 neither the remainder's double nor the sum wraps.
fn nearest_whole(n: u64, d: u64) -> u64
    requires { (0 < d) × (d < 2 ^ 63) × (n < 2 ^ 63) }
    ensures { result ≡ closest n d }
{
    let q = n / d;
    let twice = n % d * 2;
    if twice < d {
        q
    } else if d < twice {
        q + 1
    } else {
        q + q % 2
    }
}

// The number nearest to n / d · 2^(e - 149), for an n / d of 24 binary digits.
// 0x80_0000 is 2^23, one step of the exponent bits. The first of the 24 digits makes them e + 1, and digits that round up to 2^24 make them e + 2.
// 2^39 and 158: what `positive_quotient` hands over is no larger.
#[tactic(auto, using(std::proofs::lemmas::Float::not_nan_f32_bits, crate::proofs::Laws::Quotient::closest_high, crate::proofs::Laws::Quotient::pattern_quotient))]
fn aligned_quotient(n: u64, d: u64, e: u64) -> f32
    requires { (0 < d) × (d < 2 ^ 39) × (2 ^ 23 * d ≤ n) × (n < 2 ^ 24 * d) × (e ≤ 158) }
    ensures { result ≡ round binary32 false (n * 2 ^ e) (d * 2 ^ 149) }
{
    f32::from_bits((e * 0x80_0000 + nearest_whole(n, d)) as u32)
}

// The number nearest to m / d. `m` is below 2^32, so m / (512 d) has 23 binary digits at most; `m` is doubled until there are 24.
// 512 is 2^9, 158 is 149 + 9, and 0x1_0000_0000 is 512 · 2^23.
#[tactic(auto, using(crate::proofs::Laws::Quotient::doubled_quotient, crate::proofs::Laws::Whole::more_power, crate::proofs::Laws::Whole::moved_power))]
fn positive_quotient(m: u32, d: u64) -> f32
    requires { (0 < m) × (0 < d) × (d < 2 ^ 30) }
    ensures { result ≡ round binary32 false m d }
{
    // how often depends on `d` too, so no count of leading zeros would do
    let mut n = m as u64;
    let mut e = 158u64;
    while n < d * 0x1_0000_0000 {
        n *= 2;
        e -= 1;
    }
    aligned_quotient(n, d * 512, e)
}

// The number nearest to m / d. 2^30: a power of ten is at most 10^9 (`from_decimal`).
#[tactic(auto, using(crate::proofs::Laws::Quotient::zero_quotient))]
fn quotient(m: u32, d: u64) -> f32
    requires { (0 < d) × (d < 2 ^ 30) }
    ensures { result ≡ round binary32 false m d }
{
    if m == 0 { 0.0 } else { positive_quotient(m, d) }
}

// The number nearest to digits / 10^places, a tie to the even one. Digits 0 give +0. No more than nine places are read.
#[tactic(auto, using(crate::proofs::Laws::Quotient::ten_power))]
pub fn from_decimal(digits: u32, places: u8) -> Option<f32>
    ensures { result ≡ of_decimal digits places }
{
    if places <= 9 {
        Some(quotient(digits, 10u64.pow(places as u32)))
    } else {
        None
    }
}
