// Identifiers, places, texts and lists.
use cdl_source::{List, Text, is_identifier, is_keyword, is_word, line_column};
use std::test::Fail;

const KEYWORDS: &str =
    "algorithm and annotation block break class connect connector constant constrainedby der discrete each else elseif elsewhen encapsulated end enumeration equation expandable extends external false final flow for function if import impure in initial inner input loop model not operator or outer output package parameter partial protected public pure record redeclare replaceable return stream then true type when while within";

#[test]
fn keywords_are_no_identifiers(rt: HostRuntime) -> Result<(), Fail> {
    let alloc = rt.alloc();
    let mut count = 0u32;
    for word in KEYWORDS.split(' ') {
        assert!(rt;
            is_keyword(word.as_bytes()) && is_word(word.as_bytes()),
            "{word}"
        );
        assert!(rt; !is_identifier(word.as_bytes()), "{word}");
        let longer = format!(in alloc; "{word}_")?;
        assert!(rt; is_identifier(longer.as_bytes()), "{longer}");
        count = count.saturating_add(1);
    }
    assert_eq!(rt; count, 59);
    Ok(())
}

#[test]
fn identifiers_have_their_shape(rt: HostRuntime) -> Result<(), Fail> {
    for word in "a Z _ a1 _9 Block blocks k_2".split(' ') {
        assert!(rt; is_identifier(word.as_bytes()), "{word}");
    }
    for word in "1a a-b a.b é a' \"a\" @ [ ` { /".split(' ') {
        assert!(rt;
            !is_word(word.as_bytes()) && !is_identifier(word.as_bytes()),
            "{word}"
        );
    }
    assert!(rt; !is_word(b"") && !is_identifier(b""), "no bytes");
    let name = [b'n'; 65];
    assert!(rt; is_identifier(&name[..64]), "64 bytes");
    assert!(rt; is_word(&name) && !is_identifier(&name), "65 bytes");
    Ok(())
}

#[test]
fn texts_and_lists_are_made_from_vectors(rt: HostRuntime) -> Result<(), Fail> {
    let alloc = rt.alloc();
    let mut text = Text::from_vec(Text::from_bytes(alloc, b"one")?.into_vec());
    let copy = text.copy(alloc)?;
    text.push(b"two")?;
    assert_eq!(rt; text.bytes(), b"onetwo".as_slice());
    assert_eq!(rt; copy.bytes(), b"one".as_slice());
    let mut list = List::new(alloc);
    list.push(1u32)?;
    list.push(2u32)?;
    assert_eq!(rt; list.pop(), Some(2));
    let mut list = List::from_vec(list.into_vec());
    assert_eq!(rt; list.items(), [1u32].as_slice());
    assert_eq!(rt; list.pop(), Some(1));
    assert_eq!(rt; list.pop(), None);
    Ok(())
}

#[test]
fn places_have_lines_and_columns(rt: HostRuntime) -> Result<(), Fail> {
    for (byte, want) in [(0, (1, 1)), (3, (1, 4)), (4, (2, 1)), (6, (2, 3))] {
        let at: usize = 6;
        assert!(rt; byte <= at);
        assert_eq!(rt; line_column(b"one\nab", byte as u32), want, "at {byte}");
    }
    Ok(())
}
