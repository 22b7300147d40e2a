// What the grammar tells apart.
ghost use Rattle.std.specs.Prelude.{◌≡◌, map};
ghost use Rattle.cdl_tree.specs.Terminals as spec;

use cdl_source::TokenSort;

/// The terminals of the grammar.
#[derive(Clone, Copy, Debug, PartialEq, Eq)]
pub enum Terminal {
    Identifier,
    /// A number without a point and an exponent.
    Integer,
    /// Any other number.
    Real,
    Str,
    Within,
    Block,
    Package,
    Type,
    Enumeration,
    Public,
    Protected,
    Equation,
    End,
    Annotation,
    Final,
    Parameter,
    Constant,
    Each,
    Connect,
    For,
    In,
    Loop,
    If,
    Then,
    ElseIf,
    Else,
    Or,
    And,
    Not,
    True,
    False,
    /// `(`
    Open,
    /// `)`
    Close,
    /// `[`
    OpenBracket,
    /// `]`
    CloseBracket,
    /// `{`
    OpenBrace,
    /// `}`
    CloseBrace,
    /// `;`
    Semicolon,
    /// `,`
    Comma,
    /// `.`
    Period,
    /// `:`
    Colon,
    /// `=`
    Equals,
    /// `+`
    Plus,
    /// `-`
    Minus,
    /// `*`
    Star,
    /// `/`
    Slash,
    /// `<`
    Less,
    /// `<=`
    LessEqual,
    /// `>`
    Greater,
    /// `>=`
    GreaterEqual,
    /// `==`
    EqualEqual,
    /// `<>`
    NotEqual,
    /// A keyword or a symbol that no production names.
    Other,
    /// No token: the end of the file.
    Nothing,
}

const KEYWORDS: [(&[u8], Terminal); 27] = [
    (b"within", Terminal::Within),
    (b"block", Terminal::Block),
    (b"package", Terminal::Package),
    (b"type", Terminal::Type),
    (b"enumeration", Terminal::Enumeration),
    (b"public", Terminal::Public),
    (b"protected", Terminal::Protected),
    (b"equation", Terminal::Equation),
    (b"end", Terminal::End),
    (b"annotation", Terminal::Annotation),
    (b"final", Terminal::Final),
    (b"parameter", Terminal::Parameter),
    (b"constant", Terminal::Constant),
    (b"each", Terminal::Each),
    (b"connect", Terminal::Connect),
    (b"for", Terminal::For),
    (b"in", Terminal::In),
    (b"loop", Terminal::Loop),
    (b"if", Terminal::If),
    (b"then", Terminal::Then),
    (b"elseif", Terminal::ElseIf),
    (b"else", Terminal::Else),
    (b"or", Terminal::Or),
    (b"and", Terminal::And),
    (b"not", Terminal::Not),
    (b"true", Terminal::True),
    (b"false", Terminal::False),
];

const SYMBOLS: [(&[u8], Terminal); 21] = [
    (b"(", Terminal::Open),
    (b")", Terminal::Close),
    (b"[", Terminal::OpenBracket),
    (b"]", Terminal::CloseBracket),
    (b"{", Terminal::OpenBrace),
    (b"}", Terminal::CloseBrace),
    (b";", Terminal::Semicolon),
    (b",", Terminal::Comma),
    (b".", Terminal::Period),
    (b":", Terminal::Colon),
    (b"=", Terminal::Equals),
    (b"+", Terminal::Plus),
    (b"-", Terminal::Minus),
    (b"*", Terminal::Star),
    (b"/", Terminal::Slash),
    (b"<", Terminal::Less),
    (b"<=", Terminal::LessEqual),
    (b">", Terminal::Greater),
    (b">=", Terminal::GreaterEqual),
    (b"==", Terminal::EqualEqual),
    (b"<>", Terminal::NotEqual),
];

fn lookup(mut table: &[(&[u8], Terminal)], text: &[u8]) -> Terminal
    ensures { result ≡ spec.lookup (map (λ row. (row.0.now, row.1)) table.entry.now) text.now }
{
    while let [row, rest @ ..] = table {
        if row.0 == text {
            return row.1;
        }
        table = rest;
    }
    Terminal::Other
}

fn keyword(text: &[u8]) -> Terminal
    ensures { result ≡ spec.keyword text.now }
{
    lookup(&KEYWORDS, text)
}

fn symbol(text: &[u8]) -> Terminal
    ensures { result ≡ spec.symbol text.now }
{
    lookup(&SYMBOLS, text)
}

/// The terminal that a token is, by its sort and its text. A keyword or a symbol that no production names is `Other`.
pub fn terminal_of(sort: TokenSort, text: &[u8]) -> Terminal
    ensures { result ≡ spec.terminal_of sort text.now }
{
    match sort {
        TokenSort::Identifier => Terminal::Identifier,
        TokenSort::Integer => Terminal::Integer,
        TokenSort::Real => Terminal::Real,
        TokenSort::Str => Terminal::Str,
        TokenSort::Keyword => keyword(text),
        TokenSort::Symbol => symbol(text),
    }
}
