// The steps of a list through the joined machine, summed: for bench/ alone.
#![tactic(auto)]

ghost use Rattle.std.specs.Prelude.{◌≡◌, ◌+◌, ◌*◌, ◌%◌, ◌^◌, ◌≤◌, length, Ok};
ghost use Rattle.joined.specs.Shown.{output_bits, shown_of};
ghost use Rattle.bench.specs.Steps.{number_at, output_sum, shown_sum, steps_sum, airframe_for, bench_of};

use joined::answer::{Line, letter};
use joined::call::StepInput;
use joined::joined::Joined;
use joined::machine::Airframe;
use joined::settings::{Numbers, Settings};
use machines::answer::ShareOrTilt;
use machines::{InputRefusal, report_number};
use numbers::bits::to_bits;
use numbers::constants::nan;

// Numbers in a row.
#[derive(Drop)]
struct Row<'a>(&'a [f32]);

impl Numbers for Row<'_> {
    ghost number_by = { λ it. number_at it.0.now 0 };

    fn number(&self, k: usize) -> f32 {
        let numbers = self.0;
        numbers.get(k.saturating_sub(1)).copied().unwrap_or(nan())
    }
}

// The share's or the tilt's bits, or 0 if there is none.
fn share_or_tilt(output: ShareOrTilt) -> u32
    ensures { result ≡ output_sum (output_bits output) }
{
    match output {
        ShareOrTilt::Share(x) | ShareOrTilt::Tilt(Some(x)) => to_bits(x),
        ShareOrTilt::Tilt(None) => 0,
    }
}

// The sum of a line's numbers and of `sum`, modulo 2^32.
fn add_line(sum: u32, line: Line) -> u32
    ensures { result ≡ (sum + shown_sum (shown_of (Ok line))) % 2 ^ 32 }
{
    sum.wrapping_add(letter(line.mode) as u32)
        .wrapping_add(share_or_tilt(line.output))
        .wrapping_add(line.handoff as u32)
        .wrapping_add(report_number(line.report) as u32)
        .wrapping_add(to_bits(line.thrust))
        .wrapping_add(to_bits(line.pitch_rad))
}

// The sum of an answer's numbers and of `sum`, modulo 2^32.
fn add_answer(sum: u32, answer: Result<Line, InputRefusal>) -> u32
    ensures { result ≡ (sum + shown_sum (shown_of answer)) % 2 ^ 32 }
{
    match answer {
        Ok(line) => add_line(sum, line),
        Err(why) => sum
            .wrapping_add(why.number() as u32)
            .wrapping_add(why.field() as u32),
    }
}

// The sum of the answers to the steps, from a state on.
fn steps(start: Joined, numbers: &[f32], options: &[u8]) -> u32
    requires { 15 * length options.now ≤ length numbers.now }
    ensures { result ≡ steps_sum start numbers.now options.now (length options.now) }
{
    let mut joined = start;
    let mut sum = 0;
    for (option, numbers) in options.iter().zip(numbers.as_chunks::<15>().0) {
        let update = joined.step(StepInput::of(*option, &Row(numbers)));
        joined = update.state;
        sum = add_answer(sum, update.answer);
    }
    sum
}

// Kind 5 is the tailsitter, any other the quadplane. A byte, as C hands it over.
fn airframe(kind: u8) -> Airframe
    ensures { result ≡ airframe_for kind }
{
    if kind == 5 {
        Airframe::Tailsitter
    } else {
        Airframe::Quadplane
    }
}

// Makes a joined machine, primes it at z 0 and takes it through the steps: the sum of their answers.
// 0 if the settings are refused, or for more than 800 steps or fewer than 15 numbers for each.
// The airframe is a number, and the steps' numbers and options lie apart, since the C interface has them so (bench/src/sides.rs).
#[unsafe(no_mangle)]
pub extern "C" fn bench_steps(
    kind: u8,
    settings: &[f32; 17],
    numbers: &[f32],
    options: &[u8],
) -> u32
    ensures { result ≡ bench_of kind settings.now numbers.now options.now }
{
    let count = options.len();
    if count > 800 {
        return 0;
    }
    if 15 * count > numbers.len() {
        return 0;
    }
    match Joined::new(airframe(kind), Settings::of(&Row(settings))) {
        Ok(joined) => steps(joined.prime(0.0).state, numbers, options),
        Err(_) => 0,
    }
}
