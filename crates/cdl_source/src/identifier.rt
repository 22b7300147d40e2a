// Keywords and identifiers of the language.
ghost use Rattle.std.specs.Prelude.{◌≡◌};
ghost use Rattle.std.specs.List.{list_all};
ghost use Rattle.cdl_source.specs.Identifiers as spec;

use crate::LONGEST_IDENTIFIER;

const KEYWORDS: [&[u8]; 59] = [
    b"algorithm",
    b"and",
    b"annotation",
    b"block",
    b"break",
    b"class",
    b"connect",
    b"connector",
    b"constant",
    b"constrainedby",
    b"der",
    b"discrete",
    b"each",
    b"else",
    b"elseif",
    b"elsewhen",
    b"encapsulated",
    b"end",
    b"enumeration",
    b"equation",
    b"expandable",
    b"extends",
    b"external",
    b"false",
    b"final",
    b"flow",
    b"for",
    b"function",
    b"if",
    b"import",
    b"impure",
    b"in",
    b"initial",
    b"inner",
    b"input",
    b"loop",
    b"model",
    b"not",
    b"operator",
    b"or",
    b"outer",
    b"output",
    b"package",
    b"parameter",
    b"partial",
    b"protected",
    b"public",
    b"pure",
    b"record",
    b"redeclare",
    b"replaceable",
    b"return",
    b"stream",
    b"then",
    b"true",
    b"type",
    b"when",
    b"while",
    b"within",
];

/// Whether a byte is a digit.
pub fn is_digit(byte: u8) -> bool
    ensures { result ≡ spec.is_digit byte }
{
    byte.is_ascii_digit()
}

/// Whether a word may begin with a byte: a letter of ASCII or `_`.
pub fn is_initial(byte: u8) -> bool
    ensures { result ≡ spec.is_initial byte }
{
    byte.is_ascii_alphabetic() || byte == b'_'
}

/// Whether a word may go on with a byte: a letter of ASCII, a digit or `_`.
pub fn is_word_byte(byte: u8) -> bool
    ensures { result ≡ spec.is_word_byte byte }
{
    is_initial(byte) || is_digit(byte)
}

/// Whether a text has the shape of a keyword or an identifier, however long it is.
pub fn is_word(text: &[u8]) -> bool
    ensures { result ≡ spec.is_word text.now }
{
    match text.split_first() {
        Some((first, others)) => is_initial(*first) && goes_on(others),
        None => false,
    }
}

// Whether these bytes may stand behind the first of a word.
fn goes_on(bytes: &[u8]) -> bool
    ensures { result ≡ list_all spec.is_word_byte bytes.now }
{
    bytes.iter().all(|b| is_word_byte(*b))
}

/// Whether a text is one of the keywords of the language, as `block`.
pub fn is_keyword(text: &[u8]) -> bool
    ensures { result ≡ spec.is_keyword text.now }
{
    KEYWORDS.contains(&text)
}

/// Whether a text is an identifier: a word of at most 64 bytes that is no keyword.
pub fn is_identifier(text: &[u8]) -> bool
    ensures { result ≡ spec.is_identifier text.now }
{
    text.len() <= LONGEST_IDENTIFIER && is_word(text) && !is_keyword(text)
}
