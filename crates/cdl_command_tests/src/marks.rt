// Bytes in the cases of the tests.
use cdl_source::Text;
use std::alloc::Global;
use std::test::Fail;

/// The bytes that a case marks: `|` is a line feed, `%` a carriage return, `_` a blank, `^` a byte that is no UTF-8, `@` a
/// byte order mark, `$` an at sign, and `&` stands for this text.
pub(crate) fn bytes_of(alloc: Global, marked: &str, text: &[u8]) -> Result<Text, Fail> {
    let mut bytes = Text::new(alloc);
    for byte in marked.as_bytes() {
        match *byte {
            b'|' => bytes.push(b"\n")?,
            b'%' => bytes.push(b"\r")?,
            b'_' => bytes.push(b" ")?,
            b'^' => bytes.push(b"\xff")?,
            b'@' => bytes.push(b"\xef\xbb\xbf")?,
            b'$' => bytes.push(b"@")?,
            b'&' => bytes.push(text)?,
            other => bytes.push(&[other])?,
        }
    }
    Ok(bytes)
}
