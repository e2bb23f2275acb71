// The calls of a text, in fixed memory: no program here has a heap, which a `Vec` needs, and the kit's `ArrayVec` begins from a `Default`, which `Call` has not.
ghost use Rattle.std.specs.Prelude.{◌≤◌};

use joined::call::Call;

// Calls in their order. There is room for one more than a card has, so that a longer list is refused.
#[derive(Clone, Copy)]
pub(crate) struct Calls {
    room: [Call; 800],
    count: usize,
    ghost within: { count ≤ 800 },
}

impl Calls {
    pub(crate) fn new() -> Calls {
        Calls {
            room: [Call::Prime(0.0); 800],
            count: 0,
        }
    }

    // Adds a call, and answers whether there was room for it.
    pub(crate) fn push(&mut self, call: Call) -> bool {
        if self.count == 800 {
            return false;
        }
        self.room[self.count] = call;
        self.count += 1;
        true
    }

    pub(crate) fn as_slice(&self) -> &[Call] {
        &self.room[..self.count]
    }
}
