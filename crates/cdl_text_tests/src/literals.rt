// Values of literals, and the terminals of the grammar.
use cdl_source::TokenSort;
use cdl_tree::{Terminal, integer, string, terminal_of};
use std::test::Fail;

#[test]
fn literals_and_terminals(rt: HostRuntime) -> Result<(), Fail> {
    let alloc = rt.alloc();
    let numbers: [(&[u8], Option<i32>); 6] = [
        (b"0", Some(0)),
        (b"2147483647", Some(2_147_483_647)),
        (b"2147483648", None),
        (b"00000000000000000000000000000000000000001", Some(1)),
        (b"99999999999999999999999999999999999999999", None),
        (b"1.5", None),
    ];
    for (text, value) in numbers {
        assert_eq!(rt; integer(text), value);
    }
    let strings: [(&[u8], Option<&[u8]>); 7] = [
        (b"\"\"", Some(b"")),
        (b"\"a\\\"b\\n\\a\\v\"", Some(b"a\"b\n\x07\x0b")),
        (b"\"", None),
        (b"\"a", None),
        (b"\"a\"b\"", None),
        (b"\"\\q\"", None),
        (b"\"\\\"", None),
    ];
    for (text, value) in strings {
        match (string(alloc, text)?, value) {
            (Some(given), Some(wanted)) => assert_eq!(rt; given.bytes(), wanted),
            (None, None) => {}
            _ => panic!(rt; "not as wanted"),
        }
    }
    let terminals: [(TokenSort, &[u8], Terminal); 6] = [
        (TokenSort::Identifier, b"a", Terminal::Identifier),
        (TokenSort::Keyword, b"elseif", Terminal::ElseIf),
        (TokenSort::Keyword, b"when", Terminal::Other),
        (TokenSort::Symbol, b"<>", Terminal::NotEqual),
        (TokenSort::Symbol, b"^", Terminal::Other),
        (TokenSort::Str, b"\"if\"", Terminal::Str),
    ];
    for (sort, text, terminal) in terminals {
        assert_eq!(rt; terminal_of(sort, text), terminal);
    }
    Ok(())
}
