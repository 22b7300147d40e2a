// Tokens, and the rules of texts that are broken first, with their bytes.
use cdl_lex::{LexFault, lex};
use cdl_source::{Place, Span, Token, TokenSort};
use std::alloc::Global;
use std::test::Fail;

/// How a text is judged.
#[derive(Clone, Copy, Debug, PartialEq, Eq)]
enum Verdict {
    /// It has so many tokens.
    Has(usize),
    /// It breaks this rule first, at this byte.
    Breaks(u32, u32),
}

fn judged(alloc: Global, bytes: &[u8]) -> Result<Verdict, LexFault> {
    match lex(alloc, 3, bytes) {
        Ok(tokens) => Ok(Verdict::Has(tokens.len())),
        Err(
            LexFault::Rule {
                rule,
                place: Place { file: 3, byte },
            },
        ) => Ok(Verdict::Breaks(rule, byte)),
        Err(fault) => Err(fault),
    }
}

// The text `head`, then so many times `piece`, then `tail`.
fn repeated(
    alloc: Global,
    head: &[u8],
    piece: &[u8],
    times: u32,
    tail: &[u8],
) -> Result<Vec<u8>, LexFault> {
    let mut text = Vec::new(alloc);
    let parts = text.extend_from_slice(head);
    let mut full = parts.is_err();
    for _ in 0..times {
        full = full || text.extend_from_slice(piece).is_err();
    }
    if full || text.extend_from_slice(tail).is_err() {
        Err(LexFault::OutOfMemory)
    } else {
        Ok(text)
    }
}

#[test]
fn each_rule_has_its_first_byte(rt: HostRuntime) -> Result<(), Fail> {
    let alloc = rt.alloc();
    let texts: [(&[u8], Verdict); 55] = [
        (b"", Verdict::Has(0)),
        (b" \t\r\n\x0c", Verdict::Has(0)),
        (b"a\x0bb", Verdict::Breaks(3, 1)),
        (b"a\0b", Verdict::Breaks(3, 1)),
        (b"/*/", Verdict::Breaks(3, 0)),
        (b"/**/", Verdict::Has(0)),
        (b"/***/", Verdict::Has(0)),
        (b"a /* /* */ b */", Verdict::Has(4)),
        (b"// a", Verdict::Has(0)),
        (b"// \" \n a", Verdict::Has(1)),
        (b"/* \" */ a", Verdict::Has(1)),
        (b"a//*\nb", Verdict::Has(2)),
        (b"a/ /b", Verdict::Has(4)),
        (b"\"", Verdict::Breaks(3, 0)),
        (b"a \"b", Verdict::Breaks(3, 2)),
        (b"\"\\\"", Verdict::Breaks(3, 0)),
        (b"\"\\q\"", Verdict::Breaks(3, 0)),
        (b"\"\\'\\\"\\?\\\\\\a\\b\\f\\n\\r\\t\\v\"", Verdict::Has(1)),
        (b"\"/*\" \"//\"", Verdict::Has(2)),
        (b"\"a\"\"b\"", Verdict::Has(2)),
        (b"'", Verdict::Breaks(3, 0)),
        (b"\x80", Verdict::Breaks(2, 0)),
        (b"\"\xc3\xa4\"", Verdict::Has(1)),
        (b"a\xc3\xa4", Verdict::Breaks(3, 1)),
        (b"a\xc0\xaf", Verdict::Breaks(2, 1)),
        (b"\xed\xa0\x80", Verdict::Breaks(2, 0)),
        (b"\"\xf0\x9f\x98", Verdict::Breaks(2, 1)),
        (b"\xef\xbb\xbfa", Verdict::Has(1)),
        (b"\xef\xbb\xbf\xef\xbb\xbf", Verdict::Breaks(3, 3)),
        (b"a\xef\xbb\xbf", Verdict::Breaks(3, 1)),
        (b"1.", Verdict::Has(1)),
        (b"1.e5", Verdict::Has(1)),
        (b"1e", Verdict::Has(2)),
        (b"1e+", Verdict::Has(3)),
        (b"1e+5", Verdict::Has(1)),
        (b".5", Verdict::Has(2)),
        (b"1..2", Verdict::Has(3)),
        (b"a.b", Verdict::Has(3)),
        (b"<>", Verdict::Has(1)),
        (b"< >", Verdict::Has(2)),
        (b"<=>==<=", Verdict::Has(4)),
        (b"2147483647", Verdict::Has(1)),
        (b"2147483648", Verdict::Breaks(4, 0)),
        (
            b"00000000000000000000000000000000000000001",
            Verdict::Has(1),
        ),
        (b"a 1000000000000000000000000000000", Verdict::Breaks(4, 2)),
        (b"00000000000000000000000000001.0", Verdict::Has(1)),
        (b"000000000000000000000000000001.0", Verdict::Breaks(4, 0)),
        (b"1e10 1e0010", Verdict::Breaks(4, 5)),
        (b"1e10 1.0000001e10", Verdict::Breaks(4, 5)),
        (b")]} end end", Verdict::Has(5)),
        (b"2147483648 ?", Verdict::Breaks(3, 11)),
        (b"? \xff", Verdict::Breaks(2, 2)),
        (
            b"block A parameter Real k=-1.5e-3 \"d\"; end A;",
            Verdict::Has(13),
        ),
        (b"initial when each^", Verdict::Has(4)),
        (b"\\", Verdict::Breaks(3, 0)),
    ];
    for (text, want) in texts {
        assert_eq!(rt; judged(alloc, text)?, want, "of {} bytes", text.len());
    }
    let limits: [(&[u8], &[u8], u32, &[u8], Verdict); 43] = [
        (b"", b" ", 524_288, b"", Verdict::Has(0)),
        (b"", b" ", 524_289, b"", Verdict::Breaks(1, 524_288)),
        (b"", b"\xff", 524_289, b"", Verdict::Breaks(1, 524_288)),
        (b"block ", b"a", 64, b"", Verdict::Has(2)),
        (b"block ", b"a", 65, b"", Verdict::Breaks(4, 6)),
        (b"", b"(", 64, b"", Verdict::Has(64)),
        (b"", b"(", 65, b"", Verdict::Breaks(5, 64)),
        (b"))] ", b"{", 65, b"", Verdict::Breaks(5, 68)),
        (b"", b"block ", 64, b"end [[", Verdict::Breaks(5, 389)),
        (b"", b"package ", 65, b"", Verdict::Breaks(5, 512)),
        (b"end end ", b"block ", 65, b"", Verdict::Breaks(5, 392)),
        (b"block ", b"(", 64, b"", Verdict::Breaks(5, 69)),
        (b"", b"(block)", 65, b"", Verdict::Has(195)),
        (b"", b"(end", 64, b")", Verdict::Has(129)),
        (b"", b"for i in 1:1 loop ", 64, b"", Verdict::Has(448)),
        (
            b"",
            b"for i in 1:1 loop ",
            65,
            b"",
            Verdict::Breaks(5, 1152),
        ),
        (b"block ", b"for ", 64, b"", Verdict::Breaks(5, 258)),
        (b"end ", b"for ", 65, b"", Verdict::Has(66)),
        (b"end ", b"for ", 66, b"", Verdict::Breaks(5, 264)),
        (b"", b"end for ", 65, b"", Verdict::Has(130)),
        (b"", b"end /*a*/ // b\n for ", 65, b"", Verdict::Has(130)),
        (b"", b"for end for ", 65, b"", Verdict::Has(195)),
        (b"", b"(for)", 65, b"", Verdict::Has(195)),
        (b"", b"end; for ", 65, b"", Verdict::Has(195)),
        (b"", b"if ", 64, b"; if", Verdict::Has(66)),
        (b"", b"if ", 65, b"", Verdict::Breaks(6, 192)),
        (b"", b"+", 1024, b"; and", Verdict::Has(1026)),
        (b"", b"or ", 1025, b"", Verdict::Breaks(6, 3072)),
        (b"a = ", b"-", 1025, b"", Verdict::Has(1027)),
        (b"a = ", b"-", 1026, b"", Verdict::Breaks(6, 1029)),
        (b"", b", - 1 ", 1025, b"", Verdict::Has(3075)),
        (b"", b"(/*a*/+)*", 1024, b"", Verdict::Has(4096)),
        (b"", b"(*)elseif ", 1025, b"", Verdict::Breaks(6, 10_243)),
        (b"", b"(", 65, b"2147483648", Verdict::Breaks(4, 65)),
        (b"", b"(", 65, b"2147483648?", Verdict::Breaks(3, 75)),
        (b"", b"if ", 65, b"[[", Verdict::Breaks(6, 192)),
        (b"", b"if(", 65, b"", Verdict::Breaks(5, 194)),
        (
            b"block M parameter Integer p=",
            b"(",
            63,
            b"1))))))))))))))))))))))))))))))))))))))))))))))))))))))))))))))); end M;",
            Verdict::Has(137),
        ),
        (
            b"block M parameter Integer p=",
            b"(",
            64,
            b"1; end M;",
            Verdict::Breaks(5, 91),
        ),
        (
            b"block M parameter Integer p=",
            b"if true then 1 else ",
            64,
            b"0; end M;",
            Verdict::Has(331),
        ),
        (
            b"block M parameter Integer p=",
            b"if true then 1 else ",
            65,
            b"0; end M;",
            Verdict::Breaks(6, 1308),
        ),
        (
            b"block M parameter Integer p=1",
            b"+0",
            1024,
            b"; end M;",
            Verdict::Has(2059),
        ),
        (
            b"block M parameter Integer p=1",
            b"+0",
            1025,
            b"; end M;",
            Verdict::Breaks(6, 2077),
        ),
    ];
    for (head, piece, times, tail, want) in limits {
        let text = repeated(alloc, head, piece, times, tail)?;
        assert_eq!(rt; judged(alloc, &text)?, want, "{times} times");
    }
    Ok(())
}

#[test]
fn tokens_have_sorts_and_spans(rt: HostRuntime) -> Result<(), Fail> {
    let alloc = rt.alloc();
    let text = b"within Block.block1>=\"a\\\"\"/*b*/1.5e3 12";
    let tokens = lex(alloc, 7, text)?;
    let want = [
        (TokenSort::Keyword, 0, 6),
        (TokenSort::Identifier, 7, 12),
        (TokenSort::Symbol, 12, 13),
        (TokenSort::Identifier, 13, 19),
        (TokenSort::Symbol, 19, 21),
        (TokenSort::Str, 21, 26),
        (TokenSort::Real, 31, 36),
        (TokenSort::Integer, 37, 39),
    ];
    assert_eq!(rt; tokens.len(), want.len());
    assert_eq!(rt; tokens.file(), 7);
    assert_eq!(rt; tokens.bytes(), text.as_slice());
    for (i, (sort, start, end)) in want.into_iter().enumerate() {
        assert!(rt; i < tokens.len());
        let span = Span { start, end };
        assert_eq!(rt; tokens.token(i), Token { sort, span }, "at {i}");
    }
    Ok(())
}
