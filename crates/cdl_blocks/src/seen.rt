// What a block keeps of its one Boolean input.
ghost use Rattle.std.specs.Prelude.{◌≡◌, [], ◌∷◌, length};
ghost use Rattle.cdl_values.specs.History.{bit, is_on, word};

use cdl_values::words::{bit, is_on, put_one};

/// A Boolean input at the last tick.
#[derive(Clone, Copy, Drop)]
pub struct Seen {
    pub last: bool,
}

impl Seen {
    /// What this word keeps.
    pub fn read(state: &[i64]) -> Seen
        requires { length state.now ≡ 1 }
        ensures { result.last ≡ is_on (word state.now 0) }
    {
        Seen {
            last: is_on(state, 0),
        }
    }

    /// Keeps it in the word.
    pub fn write(self, state: &mut [i64])
        requires { length state.old ≡ 1 }
        ensures { state.new ≡ bit self.last ∷ [] }
    {
        put_one(state, bit(self.last));
    }
}
