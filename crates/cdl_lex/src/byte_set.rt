// Sets of bytes, and how far bytes stay in one.
ghost use Rattle.std.specs.Prelude.{◌≡◌, ◌≤◌, length};
ghost use Rattle.std.specs.List.{prefix_len};
ghost use Rattle.cdl_lex.specs.ByteSets.{is_in};

use cdl_source::{is_digit, is_initial, is_word_byte};

const FORM_FEED: u8 = 12;

/// A set of bytes.
#[derive(Clone, Copy)]
pub(crate) enum ByteSet {
    /// What stands between tokens.
    Blank,
    /// What an identifier begins with.
    Initial,
    /// What an identifier goes on with.
    Word,
    Digit,
    /// What stands in a comment that ends with its line.
    Inner,
}

impl ByteSet {
    pub(crate) fn has(self, byte: u8) -> bool
        ensures { result ≡ is_in self byte }
    {
        match self {
            ByteSet::Blank => matches!(byte, b' ' | b'\t' | b'\r' | b'\n' | FORM_FEED),
            ByteSet::Initial => is_initial(byte),
            ByteSet::Word => is_word_byte(byte),
            ByteSet::Digit => is_digit(byte),
            ByteSet::Inner => byte != b'\n',
        }
    }

    // How many bytes from the front on are in the set.
    pub(crate) fn prefix(self, bytes: &[u8]) -> usize
        ensures size { result ≡ prefix_len (is_in self) bytes.now }
        ensures within { result ≤ length bytes.now }
    {
        let mut size = 0;
        while size < bytes.len() && self.has(bytes[size]) {
            size += 1;
        }
        size
    }
}
