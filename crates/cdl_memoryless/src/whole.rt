// Integers.
ghost use Rattle.std.specs.Prelude.{◌≡◌, ◌≤◌, unsigned_abs};
ghost use Rattle.cdl_source.specs.declared.limits.TheConstants.{LARGEST_INTEGER};

use std::marker::Model;

/// An Integer: a whole number of magnitude at most 2,147,483,647. Contracts see the number.
#[derive(Clone, Copy, Drop)]
pub struct Whole {
    value: i32,
}

impl Model for Whole {
    ghost use Rattle.std.specs.Prelude.{ℤ, ◌≤◌, unsigned_abs};
    ghost use Rattle.cdl_source.specs.declared.limits.TheConstants.{LARGEST_INTEGER};

    ghost Value = { ℤ };

    ghost view = { λ w. w.value };

    ghost invariant = { λ w. unsigned_abs w.value ≤ LARGEST_INTEGER };

    ghost inverse = { λ z. record { value = z } };
}

impl Whole {
    /// This number.
    pub fn new(value: i32) -> Whole
        requires { unsigned_abs value ≤ LARGEST_INTEGER }
        ensures { result ≡ value }
    {
        Whole { value }
    }

    /// The number.
    pub fn value(self) -> i32
        ensures value { result ≡ self }
        ensures range { unsigned_abs result ≤ LARGEST_INTEGER }
    {
        self.value
    }
}
