// Copies of names, which equal what they copy.
ghost use Rattle.std.specs.Prelude.{◌≡◌, IfOk};

use crate::name::{Ident, Name};
use cdl_source::{List, OutOfMemory};
use std::alloc::Global;

impl Ident {
    /// An equal identifier.
    pub fn copy(&self, alloc: Global) -> Result<Ident, OutOfMemory>
        ensures { IfOk result (λ c. c ≡ self.now) }
    {
        Ok(Ident {
            text: self.text.copy(alloc)?,
            span: self.span,
        })
    }
}

fn copied_parts(alloc: Global, parts: &[Ident]) -> Result<List<Ident>, OutOfMemory>
    ensures { IfOk result (λ c. c ≡ parts.now) }
{
    let mut out = List::new(alloc);
    for part in parts {
        out.push(part.copy(alloc)?)?;
    }
    Ok(out)
}

impl Name {
    /// An equal name.
    pub fn copy(&self, alloc: Global) -> Result<Name, OutOfMemory>
        ensures { IfOk result (λ c. c ≡ self.now) }
    {
        Ok(Name {
            parts: copied_parts(alloc, self.parts.items())?,
        })
    }
}
