// Identifiers and names.
use cdl_source::{List, Span, Text};

/// An identifier: its bytes and where they stand.
#[derive(Debug, Drop)]
pub struct Ident {
    pub text: Text,
    pub span: Span,
}

/// A name of identifiers with points between them, as `CDL.Logical.And`: at least one identifier.
#[derive(Debug, Drop)]
pub struct Name {
    pub parts: List<Ident>,
}
