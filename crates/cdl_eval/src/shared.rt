// Arrays that are there once.
ghost use Rattle.std.specs.Prelude.{◌≡◌, IfOk};

use cdl_source::OutOfMemory;
use cdl_values::Array;
use std::alloc::Global;
use std::marker::Model;
use std::rc::Rc;

/// An array that is there once, whoever has it. Contracts see the array.
#[derive(Drop)]
pub struct Shared {
    array: Rc<Array>,
}

impl Model for Shared {
    ghost use Rattle.cdl_values.specs.declared.value.Array.{Array as ArrayOf};

    ghost Value = { ArrayOf };

    ghost view = { λ s. s.array.value };
}

impl Shared {
    /// This array.
    pub fn new(alloc: Global, array: Array) -> Result<Shared, OutOfMemory>
        ensures { IfOk result (λ shared. shared ≡ array) }
    {
        Ok(Shared {
            array: Rc::new(alloc, array)?,
        })
    }

    /// The array. It takes no memory.
    pub fn array(&self) -> &Array
        ensures { result.now ≡ self.now }
    {
        self.array.as_ref()
    }

    /// The same array once more. It takes no memory.
    pub fn share(&self) -> Result<Shared, OutOfMemory>
        ensures { IfOk result (λ shared. shared ≡ self.now) }
    {
        Ok(Shared {
            array: self.array.clone()?,
        })
    }
}
