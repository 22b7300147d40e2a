// The text of the document of a net.
ghost use Rattle.std.specs.Prelude.{◌≡◌, IfOk, IfErr, length, nat_lt};
ghost use Rattle.cdl_connect.specs.WellFormed.{IsWellFormed};
ghost use Rattle.cdl_command.specs.Documents.{document_text};
ghost use Rattle.cdl_command.specs.inner.Documents.{HasText, RefusesDocument};
ghost use Rattle.cdl_command.specs.inner.Stops.{Stops};

use crate::stop::{Stop, refused_root};
use cdl_connect::CheckedNet;
use cdl_source::rules::CXF_TOO_LONG;
use cdl_source::{LONGEST_DOCUMENT, OutOfMemory, Text};
use cxf_graph::{text, write};
use std::alloc::Global;

// The text of the document of a net, and a line feed.
fn document_text(alloc: Global, net: &CheckedNet) -> Result<Text, OutOfMemory>
    requires { IsWellFormed net.now }
    ensures { IfOk result (λ text. text ≡ document_text net.now) }
{
    let graph = write(alloc, net)?;
    let mut document = text(alloc, &graph)?;
    document.push(b"\n")?;
    Ok(document)
}

fn is_too_long(text: &[u8]) -> bool
    ensures { result ≡ nat_lt LONGEST_DOCUMENT (length text.now) }
{
    text.len() > LONGEST_DOCUMENT
}

/// That text; C49 where it is too long.
pub(crate) fn document_of(alloc: Global, net: &CheckedNet) -> Result<Text, Stop>
    requires { IsWellFormed net.now }
    ensures ok { IfOk result (HasText net.now) }
    ensures err { IfErr result (Stops ⊥ (RefusesDocument net.now)) }
{
    let text = document_text(alloc, net)?;
    if is_too_long(text.bytes()) {
        return Err(refused_root(alloc, CXF_TOO_LONG));
    }
    Ok(text)
}
