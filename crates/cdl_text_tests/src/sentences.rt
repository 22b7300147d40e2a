// Texts that have a tree, and those that have none with the places at which they are refused.
use cdl_lex::lex;
use cdl_parse::{ParseFault, parse};
use cdl_source::{Place, Span, Text};
use cdl_tree::Statement;
use std::alloc::Global;
use std::test::Fail;

// The rule and the byte at which a text is refused, or None where it has a tree.
fn refusal(alloc: Global, text: &[u8]) -> Result<Option<(u32, usize)>, Fail> {
    let tokens = lex(alloc, 3, text)?;
    match parse(alloc, &tokens) {
        Ok(_) => Ok(None),
        Err(
            ParseFault::Rule {
                rule,
                place: Place { file: 3, byte },
            },
        ) => Ok(Some((rule, byte as usize))),
        Err(fault) => Err(fault)?,
    }
}

// Whether a text is refused by the rule, at the byte that the sign `~` in the row marks; the text is the row without it.
fn is_refused(alloc: Global, row: &str, rule: u32) -> Result<bool, Fail> {
    let (front, back) = row.split_once('~').ok_or("no place")?;
    let mut text = Text::new(alloc);
    text.push(front.as_bytes())?;
    text.push(back.as_bytes())?;
    Ok(refusal(alloc, text.bytes())? == Some((rule, front.len())))
}

// Sentences.
const RIGHT: &str = "\
    block M end M;\n\
    within; block M end M;\n\
    within A.B; block M end M; package P end P;\n\
    block M \"a\" + \"b\" end M;\n\
    block M final parameter P.T a[:, 2] \"first\" + \"words\", b(k = 1) = 2 if c; end M;\n\
    block M R x(each final k(min = 0) = 1 \"t\"), y() annotation(); end M;\n\
    block M annotation(a[b]({c; end}, \"x\" ^ when)); public R x; protected R y; end M;\n\
    block M equation connect(a, b[1:2, :, i].c) \"w\" annotation(x); annotation(); connect(a, b); end M;\n\
    package P constant Integer n = 3, m; public type E = enumeration(low, high \"top\") annotation(); package Q block M end M; end Q; end P;\n\
    block M parameter R p = if a then 1 elseif b then 2 else f() + g(1, x[2, 3]); end M;\n\
    block M parameter R p = not a and -b < c * 2.5e1 or {1, {2}} == (d); end M;\n\
    block M parameter R p = \"a\" \"b\"; end M;\n\
    block M equation end M;\n\
    block M equation for i in 1:n loop connect(u[i], d[4-i].u); connect(d[i].y, y[i]); end for; end M;\n\
    block M equation for i in 1:3 loop end for; end M;\n\
    block M equation for i in 1:3 loop for j in i:f(i) loop connect(a[i, j], b); end for; connect(c, d); for k in 2:1 loop end for; end for; annotation(); connect(e, f); end M;\n\
    block M equation for i in if a then 1 else 2:3 loop connect(a, b) \"w\" annotation(for); end for; end M;\n\
    block M annotation(for end loop in); equation annotation(end for); end M;\n";

// Texts that are no sentence.
const BROKEN: &str = "\
    within~\n\
    within A~\n\
    within A.~\n\
    within A.B;~\n\
    within ~1; block M end M;\n\
    within A ~B; block M end M;\n\
    ~M\n\
    block M end M; ~M\n\
    block M end M;~;\n\
    block M end M ~within;\n\
    block~\n\
    block M~\n\
    block M end~\n\
    block M end M~\n\
    block ~1 end M;\n\
    block M end ~;\n\
    block M end ~end;\n\
    block M equation ~equation end M;\n\
    block M equation ~public end M;\n\
    block M ~within; end M;\n\
    block M ~type E = enumeration(a); end M;\n\
    block M \"a\" +~\n\
    block M public~\n\
    block M equation connect~\n\
    block M equation connect(~\n\
    block M equation connect(a~\n\
    block M equation connect(a,~\n\
    block M equation connect(a, b~\n\
    block M equation connect(a, b)~\n\
    block M equation connect(a, b);~\n\
    block M equation connect(a[~\n\
    block M equation connect(a[1:~\n\
    block M equation connect(a[1:2~\n\
    block M equation connect(a ~b); end M;\n\
    block M equation connect(a, b) ~end M;\n\
    block M equation connect ~a, b); end M;\n\
    block M equation connect(a~; b); end M;\n\
    block M equation connect(a[1:2~:3], b); end M;\n\
    block M equation connect(a[~], b); end M;\n\
    block M equation connect(a.~, b); end M;\n\
    block M equation connect(f~(x), b); end M;\n\
    block M equation connect(~1, b); end M;\n\
    block M equation connect(a, b ~c); end M;\n\
    block M ~connect(a, b); end M;\n\
    block M R~\n\
    block M R.~\n\
    block M R x~\n\
    block M R x,~\n\
    block M R x[~\n\
    block M R x[:~\n\
    block M R x(~\n\
    block M R x(k~\n\
    block M R x(k=~\n\
    block M R x(k=1~\n\
    block M R x(k=1,~\n\
    block M R x =~\n\
    block M R x = 1 if~\n\
    block M R x \"a\" +~\n\
    block M final~\n\
    block M parameter~\n\
    block M R x annotation~\n\
    block M R x annotation(~\n\
    block M R~; end M;\n\
    block M R x ~y; end M;\n\
    block M R x ~end M;\n\
    block M R x[~]; end M;\n\
    block M R x(k=1 ~j=2); end M;\n\
    block M R x(each final ~each k=1); end M;\n\
    block M R x(final ~each k=1); end M;\n\
    block M R x(~1); end M;\n\
    block M R x if c ~= 1; end M;\n\
    block M parameter ~parameter R x; end M;\n\
    block M parameter ~final R x; end M;\n\
    block M constant ~parameter R x; end M;\n\
    block M R x \"a\" ~\"b\"; end M;\n\
    block M R x annotation() ~\"a\"; end M;\n\
    block M R x = 1 ~[2]; end M;\n\
    block M R ~1; end M;\n\
    block M R.~1 x; end M;\n\
    block M annotation(a[b~)c]); end M;\n\
    block M annotation({~)}); end M;\n\
    block M annotation() ~end M;\n\
    block M annotation(~]); end M;\n\
    block M annotation ~; end M;\n\
    block M annotation((a); end M;~\n\
    block M parameter R p=1 +~\n\
    block M parameter R p=(1~\n\
    block M parameter R p={1~\n\
    block M parameter R p={1,~\n\
    block M parameter R p=f(~\n\
    block M parameter R p=f(1~\n\
    block M parameter R p=f(1,~\n\
    block M parameter R p=x[~\n\
    block M parameter R p=x[1~\n\
    block M parameter R p=x.~\n\
    block M parameter R p=if a~\n\
    block M parameter R p=if a then~\n\
    block M parameter R p=if a then 1~\n\
    block M parameter R p=if a then 1 elseif~\n\
    block M parameter R p=if a then 1 elseif b~\n\
    block M parameter R p=if a then 1 elseif b then~\n\
    block M parameter R p=if a then 1 elseif b then 2~\n\
    block M parameter R p=if a then 1 else~\n\
    block M parameter R p=not~\n\
    block M parameter R p=a or~\n\
    block M parameter R p=a <~\n\
    block M parameter R p=-~\n\
    block M parameter R p=1 * ~-1; end M;\n\
    block M parameter R p=a < b ~< c; end M;\n\
    block M parameter R p={~}; end M;\n\
    block M parameter R p=not ~not a; end M;\n\
    block M parameter R p=-~-1; end M;\n\
    block M parameter R p=1 + ~+1; end M;\n\
    block M parameter R p=(1~; end M;\n\
    block M parameter R p=(1~]; end M;\n\
    block M parameter R p={1~); end M;\n\
    block M parameter R p={1,~}; end M;\n\
    block M parameter R p=f(1,~); end M;\n\
    block M parameter R p=x[~]; end M;\n\
    block M parameter R p=x[1]~.y; end M;\n\
    block M parameter R p=a.b~(1); end M;\n\
    block M parameter R p=if a then 1~; end M;\n\
    block M parameter R p=if a ~else 1; end M;\n\
    block M parameter R p=if a then 1 else 2 ~else 3; end M;\n\
    block M parameter R p=a and ~or b; end M;\n\
    block M parameter R p=a ~then b; end M;\n\
    block M parameter R p=1 ~2; end M;\n\
    block M parameter R p=a ~^ b; end M;\n\
    block M parameter R p=a == ~== b; end M;\n\
    block M parameter R p=a + ~not b; end M;\n\
    block M parameter R p=(~); end M;\n\
    block M parameter R p=1 + ~if a then 1 else 2; end M;\n\
    block M parameter R p=~; end M;\n\
    package~\n\
    package P~\n\
    package P final~\n\
    package P constant~\n\
    package P block M end M~\n\
    package P end~\n\
    package P ~R x; end P;\n\
    package P ~parameter R x; end P;\n\
    package P final ~R x; end P;\n\
    package P block M end M ~end P;\n\
    package P ~equation end P;\n\
    package P constant ~; end P;\n\
    package P constant R x ~end P;\n\
    package P public ~; end P;\n\
    type E~\n\
    type E=~\n\
    type E = enumeration~\n\
    type E = enumeration(~\n\
    type E = enumeration(a~\n\
    type E = enumeration(a,~\n\
    type E = enumeration(a, b)~\n\
    type E ~(a);\n\
    type E = ~block;\n\
    type E = enumeration(~);\n\
    type E = enumeration(a ~b);\n\
    type E = enumeration(a~(1));\n\
    type E = enumeration(a) ~end E;\n\
    block M equation~\n\
    block M equation connect(a, b); end~\n\
    block M equation connect(a, b); end M~\n\
    block M equation for~\n\
    block M equation for i~\n\
    block M equation for i in~\n\
    block M equation for i in 1~\n\
    block M equation for i in 1:~\n\
    block M equation for i in 1:2~\n\
    block M equation for i in 1:2 loop~\n\
    block M equation for i in 1:2 loop connect(a, b);~\n\
    block M equation for i in 1:2 loop end~\n\
    block M equation for i in 1:2 loop end for~\n\
    block M equation for i in 1:2 loop end for;~\n\
    block M equation for i ~1:2 loop end for; end M;\n\
    block M equation for i ~loop end for; end M;\n\
    block M equation for i in ~:2 loop end for; end M;\n\
    block M equation for i in 1 ~loop end for; end M;\n\
    block M equation for i in {1, 2} ~loop end for; end M;\n\
    block M equation for i in 1:~loop end for; end M;\n\
    block M equation for i in 1:2~:3 loop end for; end M;\n\
    block M equation for i in 1:2~, j in 1:2 loop end for; end M;\n\
    block M equation for i~, j in 1:2 loop end for; end M;\n\
    block M equation for i~[1] in 1:2 loop end for; end M;\n\
    block M equation for ~loop in 1:2 loop end for; end M;\n\
    block M equation for ~(i in 1:2) loop end for; end M;\n\
    block M equation for i in 1:2 ~connect(a, b); end for; end M;\n\
    block M equation for i in 1:2 loop ~annotation(); end for; end M;\n\
    block M equation for i in 1:2 loop connect(a, b); ~annotation(); end for; end M;\n\
    block M equation for i in 1:2 loop ~; end for; end M;\n\
    block M equation for i in 1:2 loop ~R x; end for; end M;\n\
    block M equation for i in 1:2 loop ~equation end for; end M;\n\
    block M equation for i in 1:2 loop end ~M;\n\
    block M equation for i in 1:2 loop end ~; end M;\n\
    block M equation for i in 1:2 loop end for ~end M;\n\
    block M equation for i in 1:2 loop end for ~i; end M;\n\
    block M equation for i in 1:2 loop for j in 1:2 loop end for; end ~M;\n\
    block M equation for i in 1:2 loop end for; end ~for; end M;\n\
    block M equation end ~for; end M;\n\
    block M ~for i in 1:2 loop end for; end M;\n\
    package P ~for i in 1:2 loop end for; end P;\n\
    block M R ~for; end M;\n\
    block M R x = ~in; end M;\n";

// Sentences with a wrong identifier behind an `end`.
const MISNAMED: &str = "\
    block M end ~N;\n\
    package P block M end ~N; end Q;\n\
    package P block M end M; end ~Q;\n\
    block A end A; block B end ~A;\n\
    block M end ~m;\n\
    package P package Q end ~P; end P; block M end N;\n\
    block M equation for i in 1:2 loop end for; end ~N;\n";

// The statements of a block, and their trees: each connect statement and each loop with its span, a loop with its index, the spans of its
// bounds and its body. Spans count from the start of the block.
const STATEMENTS: &str = "\
    for i in 1:n loop connect(u[i], d[4-i].u); connect(d[i].y, y[i]); end for; ? for(17-91) i 26-27:28-29 {connect(35-59) connect(60-82) } \n\
    for i in 1:3 loop end for; ? for(17-43) i 26-27:28-29 {} \n\
    for i in a+1:(b) loop for j in i:f(i) loop connect(a[i, j], b); end for; connect(c, d); for k in 2:1 loop end for; end for; annotation(); connect(e, f); ? for(17-140) i 26-29:31-32 {for(39-89) j 48-49:50-54 {connect(60-80) } connect(90-104) for(105-131) k 114-115:116-117 {} } connect(155-169) \n\
    connect(a, b); for i in 1:1 loop for j in 1:1 loop for k in 1:1 loop end for; end for; end for; for i in 2:2 loop end for; ? connect(17-31) for(32-112) i 41-42:43-44 {for(50-103) j 59-60:61-62 {for(68-94) k 77-78:79-80 {} } } for(113-139) i 122-123:124-125 {} ";

fn show_span(alloc: Global, out: &mut Text, word: &[u8], span: Span) -> Result<(), Fail> {
    out.push(word)?;
    out.push(format!(in alloc; "{}-{}", span.start, span.end)?.as_bytes())?;
    Ok(())
}

fn show(alloc: Global, out: &mut Text, statements: &[Statement]) -> Result<(), Fail> {
    for statement in statements {
        match statement {
            Statement::Connect(connect) => {
                show_span(alloc, out, b"connect(", connect.span)?;
                out.push(b") ")?;
            }
            Statement::Loop(each) => {
                show_span(alloc, out, b"for(", each.span)?;
                out.push(b") ")?;
                out.push(each.index.text.bytes())?;
                show_span(alloc, out, b" ", each.low.span)?;
                show_span(alloc, out, b":", each.high.span)?;
                out.push(b" {")?;
                show(alloc, out, each.body.items())?;
                out.push(b"} ")?;
            }
        }
    }
    Ok(())
}

#[test]
fn loops_have_their_trees(rt: HostRuntime) -> Result<(), Fail> {
    let alloc = rt.alloc();
    for row in STATEMENTS.lines() {
        let (statements, want) = row.split_once(" ? ").ok_or("no tree")?;
        let text = format!(in alloc; "block M equation {statements} end M;")?;
        let tokens = lex(alloc, 0, text.as_bytes())?;
        let file = parse(alloc, &tokens)?;
        let mut out = Text::new(alloc);
        for class in file.classes.items() {
            show(alloc, &mut out, class.statements())?;
        }
        assert_eq!(rt; out.bytes(), want.as_bytes(), "{row}");
    }
    Ok(())
}

#[test]
fn each_text_has_a_tree_or_its_place(rt: HostRuntime) -> Result<(), Fail> {
    for text in RIGHT.lines() {
        assert_eq!(rt; refusal(rt.alloc(), text.as_bytes())?, None, "{text}");
    }
    for row in BROKEN.lines() {
        assert!(rt; is_refused(rt.alloc(), row, 7)?, "{row}");
    }
    for row in MISNAMED.lines() {
        assert!(rt; is_refused(rt.alloc(), row, 8)?, "{row}");
    }
    Ok(())
}

#[test]
fn places_at_the_end_of_a_file(rt: HostRuntime) -> Result<(), Fail> {
    let alloc = rt.alloc();
    assert_eq!(rt; refusal(alloc, b"")?, Some((7, 0)));
    assert_eq!(rt; refusal(alloc, b"block M\nend M")?, Some((7, 13)));
    assert_eq!(rt; refusal(alloc, b"block M\nend N;")?, Some((8, 12)));
    let mut blanks = Text::new(alloc);
    for _ in 0..8_192 {
        blanks.push(b"                                                                ")?;
    }
    assert_eq!(rt; refusal(alloc, blanks.bytes())?, Some((7, 524_288)));
    // The tree of a block, with its spans.
    let tokens = lex(
        alloc,
        0,
        b"block M R x = -1; equation connect(x, y.z ) ; end M;",
    )?;
    let file = parse(alloc, &tokens)?;
    for class in file.classes.items() {
        assert_eq!(rt; class.name().text.bytes(), b"M".as_slice());
        assert_eq!(rt; class.span(), Span { start: 0, end: 51 });
        for item in class.items() {
            assert_eq!(rt; item.span, Span { start: 10, end: 16 });
        }
        for statement in class.statements() {
            match statement {
                Statement::Connect(connect) => {
                    assert_eq!(rt; connect.span, Span { start: 27, end: 45 });
                }
                Statement::Loop(_) => assert!(rt; false, "a loop"),
            }
        }
    }
    Ok(())
}
