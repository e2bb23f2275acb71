// The square root of crate `numbers` under a C name, for oracle/root alone.
#![tactic(auto)]

ghost use Rattle.std.specs.Prelude.{◌≡◌};
ghost use Rattle.numbers.specs.Root.{root_of};

use numbers::root::root;

// The square root, rounded to the nearest.
#[unsafe(no_mangle)]
pub extern "C" fn numbers_root(x: f32) -> f32
    ensures { result ≡ root_of x }
{
    root(x)
}
