// Values that blocks keep.
ghost use Rattle.std.specs.Prelude.{◌≡◌, ◌≤◌, unsigned_abs};
ghost use Rattle.cdl_values.specs.History.{IsValue};
ghost use Rattle.cdl_memoryless.specs.Scalars.{scalar_sort, scalar_word};

use crate::whole::Whole;
use cdl_decimal::Real;
use cdl_values::words::bit;

/// A value of an input or an output.
#[derive(Clone, Copy, Drop)]
pub enum Scalar {
    Boolean(bool),
    Integer(Whole),
    Real(Real),
}

impl Scalar {
    /// Its word: 0 or 1, the number, or the count of millionths.
    pub fn word(self) -> i64
        ensures word { result ≡ scalar_word self }
        ensures typed { IsValue (scalar_sort self) result }
    {
        match self {
            Scalar::Boolean(b) => bit(b),
            Scalar::Integer(z) => z.value() as i64,
            Scalar::Real(x) => x.count(),
        }
    }
}
