// The part that a token plays in the nesting and in the counts of operators.
ghost use Rattle.std.specs.Prelude.{◌≡◌, map};
ghost use Rattle.cdl_lex.specs.Roles as spec;
ghost use Rattle.cdl_lex.specs.TokenList as list;
ghost use Rattle.cdl_lex.specs.TokenList.{LiesWithin};

use cdl_source::{Token, TokenSort};

/// What the limits tell apart.
#[derive(Clone, Copy)]
pub(crate) enum Role {
    /// `( [ {`
    Opening,
    /// `) ] }`
    Closing,
    /// `block` and `package`
    Class,
    For,
    End,
    /// `, = :`, behind which, as behind an opening bracket, no operator counts.
    Lead,
    Semicolon,
    If,
    /// `elseif + - * / and or`
    Operator,
    Other,
}

const ROLES: [(&[u8], Role); 22] = [
    (b"(", Role::Opening),
    (b"[", Role::Opening),
    (b"{", Role::Opening),
    (b")", Role::Closing),
    (b"]", Role::Closing),
    (b"}", Role::Closing),
    (b"block", Role::Class),
    (b"package", Role::Class),
    (b"for", Role::For),
    (b"end", Role::End),
    (b",", Role::Lead),
    (b"=", Role::Lead),
    (b":", Role::Lead),
    (b";", Role::Semicolon),
    (b"if", Role::If),
    (b"elseif", Role::Operator),
    (b"and", Role::Operator),
    (b"or", Role::Operator),
    (b"+", Role::Operator),
    (b"-", Role::Operator),
    (b"*", Role::Operator),
    (b"/", Role::Operator),
];

fn lookup(mut table: &[(&[u8], Role)], text: &[u8]) -> Role
    ensures { result ≡ spec.lookup (map (λ row. (row.0.now, row.1)) table.entry.now) text.now }
{
    while let [row, rest @ ..] = table {
        if row.0 == text {
            return row.1;
        }
        table = rest;
    }
    Role::Other
}

#[tactic(auto, unfolding(crate::specs::Roles::word_role))]
fn word_role(text: &[u8]) -> Role
    ensures { result ≡ spec.word_role text.now }
{
    lookup(&ROLES, text)
}

fn role_by(sort: TokenSort, text: &[u8]) -> Role
    ensures { result ≡ spec.role_by sort text.now }
{
    match sort {
        TokenSort::Keyword | TokenSort::Symbol => word_role(text),
        TokenSort::Identifier | TokenSort::Integer | TokenSort::Real | TokenSort::Str =>
            Role::Other,
    }
}

/// A token's text.
pub(crate) fn text_of(bytes: &[u8], token: Token) -> &[u8]
    requires { LiesWithin bytes.now token }
    ensures { result.now ≡ list.text_of bytes.now token }
{
    &bytes[token.span.start as usize..token.span.end as usize]
}

/// The role of a token.
pub(crate) fn role_of(bytes: &[u8], token: Token) -> Role
    requires { LiesWithin bytes.now token }
    ensures { result ≡ spec.role_of bytes.now token }
{
    role_by(token.sort, text_of(bytes, token))
}
