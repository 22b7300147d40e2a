// Files, classes and what stands in them, as plain data. A span goes from the first byte of the first token of its
// production to the byte behind the last byte of the last one.
ghost use Rattle.std.specs.Prelude.{◌≡◌};
ghost use Rattle.cdl_tree.specs.Parts as spec;

use crate::expr::Expr;
use crate::name::{Ident, Name};
use cdl_source::{List, Span};

/// A file: the package behind `within`, where one is named, and its classes, at least one, in the order of the text.
#[derive(Drop)]
pub struct FileTree {
    pub within: Option<Name>,
    pub classes: List<ClassTree>,
}

/// A declared class.
#[derive(Drop)]
pub enum ClassTree {
    /// The items and the statements of a block, each in the order of the text.
    Block {
        name: Ident,
        items: List<Item>,
        statements: List<Statement>,
        span: Span,
    },
    /// The classes and the constants of a package, each in the order of the text.
    Package {
        name: Ident,
        classes: List<ClassTree>,
        constants: List<Item>,
        span: Span,
    },
    /// The literals of an enumeration, at least one.
    Enumeration {
        name: Ident,
        literals: List<Ident>,
        span: Span,
    },
}

/// The word before a declaration: none, `parameter` or `constant`.
#[derive(Clone, Copy, Debug, PartialEq, Eq)]
pub enum Prefix {
    Plain,
    Parameter,
    Constant,
}

/// A declared name. The span is that of its own declaration: a clause that declares several names has the same prefix and
/// class in each.
#[derive(Drop)]
pub struct Item {
    pub prefix: Prefix,
    pub is_final: bool,
    pub class: Name,
    pub name: Ident,
    pub dims: List<Dim>,
    pub args: List<Modifier>,
    pub value: Option<Expr>,
    pub condition: Option<Expr>,
    pub span: Span,
}

/// A dimension of a declared name: `:` or a size.
#[derive(Drop)]
pub enum Dim {
    Any,
    Size(Expr),
}

/// An argument of a declaration, or of another argument. It has a list of arguments, which may be empty, or none.
#[derive(Drop)]
pub struct Modifier {
    pub each: bool,
    pub is_final: bool,
    pub name: Ident,
    pub args: Option<List<Modifier>>,
    pub value: Option<Expr>,
    pub span: Span,
}

/// A statement of a block or of a loop.
#[cycle(statement)]
#[derive(Drop)]
pub enum Statement {
    Connect(Connect),
    Loop(Loop),
}

/// A loop over statements: `for`, the index, `in`, its first and its last value, and what each turn brings, in the order
/// of the text. The span goes from the word `for` to the `;` behind `end for`.
#[cycle(statement)]
#[derive(Drop)]
pub struct Loop {
    pub index: Ident,
    pub low: Expr,
    pub high: Expr,
    pub body: List<Statement>,
    pub span: Span,
}

/// A connect statement. The span goes from the word `connect` to the `;`.
#[derive(Drop)]
pub struct Connect {
    pub left: Ref,
    pub right: Ref,
    pub span: Span,
}

/// One end of a connect statement: at least one part.
#[derive(Drop)]
pub struct Ref {
    pub parts: List<Part>,
}

/// A step of a reference, and its subscripts, which may be none.
#[derive(Drop)]
pub struct Part {
    pub name: Ident,
    pub subs: List<Sub>,
}

/// A subscript of a reference: `:`, one place, or the places from a first to a last.
#[derive(Drop)]
pub enum Sub {
    All,
    One(Expr),
    Range(Expr, Expr),
}

/// The identifier of a block or a package, and the one behind its `end`. Trees do not keep the latter.
#[derive(Debug, Drop)]
pub struct Closing {
    pub name: Ident,
    pub end: Ident,
}

impl ClassTree {
    /// The declared identifier.
    #[tactic(auto, unfolding(crate::specs::Parts::class_name))]
    pub fn name(&self) -> &Ident
        ensures { result.now ≡ spec.class_name self.now }
    {
        match self {
            ClassTree::Block { name, .. }
            | ClassTree::Package { name, .. }
            | ClassTree::Enumeration { name, .. } => name,
        }
    }

    /// From its first word to the identifier behind `end`, or to the end of an enumeration.
    #[tactic(auto, unfolding(crate::specs::Parts::class_span))]
    pub fn span(&self) -> Span
        ensures { result ≡ spec.class_span self.now }
    {
        match self {
            ClassTree::Block { span, .. }
            | ClassTree::Package { span, .. }
            | ClassTree::Enumeration { span, .. } => *span,
        }
    }

    /// The items of a block, or the constants of a package; an enumeration has none.
    #[tactic(auto, unfolding(crate::specs::Parts::items_of))]
    pub fn items(&self) -> &[Item]
        ensures { result.now ≡ spec.items_of self.now }
    {
        match self {
            ClassTree::Block { items, .. } => items.items(),
            ClassTree::Package { constants, .. } => constants.items(),
            ClassTree::Enumeration { .. } => &[],
        }
    }

    /// The classes in a package; a block and an enumeration have none.
    #[tactic(auto, unfolding(crate::specs::Parts::classes_of))]
    pub fn classes(&self) -> &[ClassTree]
        ensures { result.now ≡ spec.classes_of self.now }
    {
        match self {
            ClassTree::Package { classes, .. } => classes.items(),
            ClassTree::Block { .. } | ClassTree::Enumeration { .. } => &[],
        }
    }

    /// The literals of an enumeration; a block and a package have none.
    #[tactic(auto, unfolding(crate::specs::Parts::literals_of))]
    pub fn literals(&self) -> &[Ident]
        ensures { result.now ≡ spec.literals_of self.now }
    {
        match self {
            ClassTree::Enumeration { literals, .. } => literals.items(),
            ClassTree::Block { .. } | ClassTree::Package { .. } => &[],
        }
    }

    /// The statements of a block; a package and an enumeration have none.
    #[tactic(auto, unfolding(crate::specs::Parts::statements_of))]
    pub fn statements(&self) -> &[Statement]
        ensures { result.now ≡ spec.statements_of self.now }
    {
        match self {
            ClassTree::Block { statements, .. } => statements.items(),
            ClassTree::Package { .. } | ClassTree::Enumeration { .. } => &[],
        }
    }
}
