// Expressions.
use crate::name::{Ident, Name};
use cdl_decimal::Real;
use cdl_source::{List, Span, Text};
use sqlite_items::Boxed;

/// An expression. Parentheses around it are not in its span.
#[cycle(expr)]
#[derive(Drop)]
pub struct Expr {
    pub node: Node,
    pub span: Span,
}

/// What an expression is.
#[cycle(expr)]
#[derive(Drop)]
pub enum Node {
    /// A number without a point and an exponent.
    Integer(i32),
    /// Any other number.
    Real(Real),
    /// A string: its bytes without the quotes, and one byte for each escape.
    Str(Text),
    /// `true` or `false`.
    Boolean(bool),
    /// A name and its subscripts, which may be none.
    Refer { name: Name, subs: List<Expr> },
    /// A function and its arguments, which may be none.
    Call { function: Ident, args: List<Expr> },
    /// The items between braces: at least one.
    Array(List<Expr>),
    /// A sign or `not`. The span begins at the operator.
    Unary(Op, Boxed<Expr>),
    /// Two operands. The span has the parentheses around them, where they have some.
    Binary(Op, Boxed<Expr>, Boxed<Expr>),
    /// The condition, the value where it holds, and the other one. An `elseif` is an `If` in the last place, and its span
    /// begins at that word.
    If(Boxed<Expr>, Boxed<Expr>, Boxed<Expr>),
}

/// An operator of one operand (`Plus`, `Minus` and `Not`) or of two (all but `Not`).
#[derive(Clone, Copy, Debug, PartialEq, Eq)]
pub enum Op {
    Plus,
    Minus,
    Times,
    Divide,
    Less,
    LessEqual,
    Greater,
    GreaterEqual,
    Equal,
    NotEqual,
    And,
    Or,
    Not,
}
