// Texts, the rules on classes that they break, and what names mean in them. The expected answers were worked out apart from the
// program.
ghost use Rattle.std.specs.Prelude.{◌≡◌, ◌<◌, true, length, IfOk, OnOk};
ghost use Rattle.std.specs.List.{list_all};
ghost use Rattle.cdl_tree.specs.FormedFiles.{formed_file};
ghost use Rattle.cdl_scopes.specs.Classes.{declared};

use cdl_classes::{ClassFault, ClassId, ClassTable, Found, ValueFound};
use cdl_kinds::find;
use cdl_lex::lex;
use cdl_parse::parse;
use cdl_source::{List, Place, Span, Text};
use cdl_tree::{FileTree, Ident, Name};
use cdl_values::ValueType;
use std::alloc::Global;
use std::test::Fail;

// Each row is the first rule that is broken, or `ok`, and texts with `|` between them. The sign `~`, which the text is without, marks
// the broken place.
const RULES: &str = "\
    ok block M end M;\n\
    C10 block M end M; block ~M end M;\n\
    ok block M end M; block m end m;\n\
    C10 block M end M; | block ~M end M;\n\
    ok block M end M; | within P; block M end M;\n\
    C10 within P; block M end M; | package P block ~M end M; end P;\n\
    C10 package P block A end A; end P; | package ~P block B end B; end P;\n\
    ok package P block A end A; end P; | within P; block B end B; | within P; block C end C;\n\
    C10 type M = enumeration(low); block ~M end M;\n\
    C10 block A end A; block B end B; block ~A end A; block B end B;\n\
    C10 block A end A; block ~A end A; block A end A;\n\
    C10 package P constant Real M; block ~M end M; end P;\n\
    C10 package P block M end M; constant Real ~M; end P;\n\
    C10 package P constant Real k; constant Real ~k; end P;\n\
    ok package P constant Real k; constant Real K; end P;\n\
    C10 block M parameter Real x; parameter Real ~x; end M;\n\
    ok block M parameter Real x; parameter Real X; end M; block N parameter Real x; parameter Real M; end N;\n\
    C10 type E = enumeration(low, high, ~low);\n\
    ok type E = enumeration(low, high); type F = enumeration(low, high);\n\
    C10 block M Foo x; Real y; end M; block Real end Real; | block ~M end M;\n\
    C11 within Buildings.Controls.OBC.CDL; block ~M end M;\n\
    C11 within Buildings.Controls.OBC.CDL.Logical; package ~M end M;\n\
    C11 within Buildings.Controls.OBC; package ~CDL end CDL;\n\
    C11 within Modelica; block ~M end M;\n\
    C11 within Modelica.Units.SI; type ~M = enumeration(low);\n\
    C11 package ~Modelica end Modelica;\n\
    C11 within Buildings.Controls; package OBC constant Real ~CDL; end OBC;\n\
    ok within Buildings.Controls; package OBC constant Real CDLs; package X end X; block Modelica end Modelica; end OBC;\n\
    ok package Buildings block M end M; end Buildings;\n\
    C11 block ~Buildings end Buildings;\n\
    ok within Buildings.Controls.OBC.X; block CDL end CDL;\n\
    C11 block ~A end A; | within A; block M end M;\n\
    C11 within A.B.C; block M end M; | within A; block ~B end B;\n\
    C11 type ~A = enumeration(low); | within A; block M end M;\n\
    C11 package A constant Real ~k; end A; | within A.k; block M end M;\n\
    ok package A constant Real k; end A; | within A.K; block M end M;\n\
    ok package A end A; | within A; block M end M;\n\
    C11 block ~Real end Real;\n\
    C11 within P; type ~Integer = enumeration(low);\n\
    C11 package ~String end String;\n\
    C11 package P constant Real ~Boolean; end P;\n\
    C11 block M parameter Real ~Real; end M;\n\
    C11 type E = enumeration(low, ~Real);\n\
    ok within Real; block real parameter Real x; end real;\n\
    ok block M parameter Real M; parameter Real Modelica; end M;\n\
    C11 block M Foo x; end M; | block ~Real end Real;\n\
    C12 block M ~Foo f; end M;\n\
    ok block M Foo f; end M; block Foo end Foo;\n\
    C12 block M ~foo f; end M; block Foo end Foo;\n\
    C12 package P constant ~Foo f; end P;\n\
    C12 package A package A end A; block N end N; block M ~A.N n; end M; end A;\n\
    ok package A package B end B; block N end N; block M A.N n; end M; end A;\n\
    C12 within Real; block N end N; | block M ~Real.N n; end M;\n\
    C12 block M ~CDL.Logical.And a; end M;\n\
    ok within Buildings.Controls.OBC.X; block M CDL.Logical.And a; end M;\n\
    C12 within Buildings.Controls.OBC.X; package CDL end CDL; block M ~CDL.Logical.And a; end M;\n\
    C12 block M ~N.N n; end M; block N end N;\n\
    C12 block M parameter ~E.low e; end M; type E = enumeration(low);\n\
    C12 block M parameter Integer i; Real x; N n; end M; block N ~Foo f; end N;\n\
    C13 block M ~Buildings.Controls.OBC.CDL.Foo f; end M;\n\
    C13 block M ~Buildings.Controls.OBC.CDL f; end M;\n\
    C13 block M ~Buildings.Controls.OBC.CDL.Logical f; end M;\n\
    C13 block M ~Buildings.Controls.OBC.CDL.Logical.AND f; end M;\n\
    C13 block M ~Buildings.Controls.OBC.CDL.Logical.And.And f; end M;\n\
    C13 block M ~Buildings.Controls.OBC.CDL.BooleanInput f; end M;\n\
    C13 block M ~Buildings.Controls.OBC.CDL.Interfaces.StringInput f; end M;\n\
    ok block M Buildings.Controls.OBC.CDL.Logical.And a; Buildings.Controls.OBC.CDL.Interfaces.RealInput u; end M;\n\
    C13 block M parameter ~Buildings.Controls.OBC.CDL.Logical.And a; end M;\n\
    C13 block M parameter ~Modelica.Units.SI t; end M;\n\
    C13 block M parameter ~Modelica t; end M;\n\
    C13 block M parameter ~Modelica.SIunits t; end M;\n\
    C13 block M parameter ~Modelica.SIunits.Conversions.Time t; end M;\n\
    C13 block M parameter ~Modelica.Units.Time t; end M;\n\
    ok block M parameter Modelica.Units.SI.Time t; parameter Modelica.SIunits.Time s; end M;\n\
    C13 block M ~Modelica.Units.SI.Time t; end M;\n\
    C13 block M ~Real x; end M;\n\
    C13 block M ~E x; end M; type E = enumeration(low);\n\
    C13 block M parameter ~N x; end M; block N end N;\n\
    C13 block M ~P x; end M; package P end P;\n\
    C13 block M ~P x; end M; | within P; block N end N;\n\
    C13 within P.Real; block N end N; | within P; block M parameter ~Real x; end M;\n\
    ok block M parameter E e; constant String s; parameter Boolean b = true; parameter Integer i[:, 1]; end M; type E = enumeration(low);\n\
    C13 block M parameter ~Real x if true; end M;\n\
    C13 package P constant ~Real x if true; end P;\n\
    ok block M N n if true; end M; block N end N;\n\
    C13 block M ~N n = true; end M; block N end N;\n\
    C13 block M ~N n[1, :]; end M; block N end N;\n\
    ok block M N n[1, 1]; end M; block N end N;\n\
    C13 block M ~N n[1, 1, 1]; end M; block N end N;\n\
    C13 block M parameter ~Real x[:, :, :]; end M;\n\
    ok block M parameter Real x[:, :] = true; end M;\n\
    C13 block M end M; block N ~Real x; end N; | block P Real x; end P;";

// Each row is texts, and behind `?` what is asked of their table: what is asked, the number of a class, a name, and the answer. A class
// name stands for a class, by its number, or for what the word says; a value name for a constant, by its package and its number, or
// for a literal, by its enumeration and its number; `root` asks for the block of a full name, `item` for the number of an item of
// the class, `of` for what the class name of the item of this number means, and `tree` for the file of a class, which has this name.
const NAMES: &str = "\
    block N end N; | within A; block N end N; | within A.B; block N end N; | within A.B.C; block N end N; block M end M; ? class/4/N/3 class/3/N/3 class/2/N/2 class/1/N/1 class/0/N/0 class/4/A.N/1 class/4/B.N/2 class/4/C.N/3 class/4/A.B.C.N/3 class/0/A.B.C.M/4 class/0/M/none class/2/M/none class/2/C.M/4 class/1/C/none class/1/B.C/package class/4/N.N/none class/4/Real/Real class/4/B.Real/none value/4/N/none value/4/A/none\n\
    block N end N; | within A; block N end N; | within A.B.C; block M end M; ? class/2/N/1 class/2/B.N/none class/2/A.N/1 class/2/C/package\n\
    block N end N; | within A.B.C; block M end M; ? class/1/N/0 class/1/A.N/none class/1/C.N/none class/1/B.C.M/1\n\
    package A package A block N end N; package B end B; end A; block N end N; block M end M; end A; ? class/5/A/1 class/5/A.N/2 class/5/A.A/none class/5/A.B/3 class/2/A.M/none class/0/N/4 class/1/N/2 class/3/M/5 class/3/B/3\n\
    within A.Real; block N end N; | within A; block M end M; | block K end K; ? class/1/Real/package class/1/Real.N/0 class/2/Real/Real class/2/Real.N/none class/2/A.Real.N/0\n\
    within Real; block N end N; ? class/0/Real/Real class/0/Real.N/none class/0/N/0 root/0/Real.N/0\n\
    within Buildings.Controls.OBC.X; block M end M; | block N end N; ? class/0/CDL.Logical.And/Logical.And class/1/CDL.Logical.And/none class/0/CDL/package class/0/OBC.X.M/0 class/0/CDL.Types/other class/1/Buildings.Controls.OBC.CDL.Reals.Add/Reals.Add class/1/Buildings/package class/1/Buildings.Wells/none class/0/CDL.Interfaces.RealInput/RealInput class/0/CDL.Interfaces.IntegerOutput/IntegerOutput class/1/Modelica/package class/0/CDL.Interfaces/other class/1/Modelica.Units.SI.Time/Real class/1/Modelica.SIunits.Time/Real class/1/Modelica.Units.SI/other class/1/Boolean/Boolean class/1/Integer/Integer class/1/String/String class/1/String.String/none class/1/real/none value/0/CDL.Constants.pi/none value/1/Modelica.Constants.pi/none value/1/Real/none\n\
    within Buildings.Controls.OBC.X; package CDL block M end M; end CDL; | within A; package Modelica end Modelica; block M end M; ? class/1/CDL.Logical.And/none class/1/CDL.M/1 class/1/Buildings.Controls.OBC.CDL.Logical.And/Logical.And class/3/Modelica.Units.SI.Time/none class/1/Modelica.Units.SI.Time/Real\n\
    package P constant Real a; constant Real Q; type E = enumeration(low, high); block M parameter Real a; end M; end P; | package Q constant Real a; constant Real b; block N end N; end Q; ? value/2/a/0.0 value/2/Q/0.1 value/2/Q.a/none value/2/b/none value/3/Q.b/3.1 value/4/Q.a/3.0 value/4/P.Q/0.1 value/4/a/3.0 value/4/P.a/0.0 class/2/Q/3 class/2/a/none value/2/E.low/1#1 value/2/E.high/1#2 value/4/P.E.high/1#2 value/4/E.low/none value/2/E.mid/none value/2/E/none value/1/low/none class/2/E.low/none value/2/E.low.low/none value/0/M.a/none value/2/P.a.a/none\n\
    within P; block M end M; | within P.Q; block M end M; | package P constant Real a; end P; | within P; package Q constant Real b; end Q; ? value/0/a/2.0 value/1/a/2.0 value/1/b/3.0 value/0/b/none value/0/Q.b/3.0 class/0/Q.M/1 class/0/P/2\n\
    package P block M end M; type E = enumeration(low); package Q block M end M; end Q; end P; | within P; block N end N; ? root/0/P.M/1 root/0/P.Q.M/4 root/0/P.N/5 root/0/M/none root/0/P/none root/0/P.E/none root/0/P.Q/none root/0/p.M/none root/0/P.M.N/none root/0//none root/0/P./none root/0/.P.M/none root/0/Modelica/none root/0/Real/none root/0/P.M./none tree/0/P/0 tree/1/M/0 tree/2/E/0 tree/3/Q/0 tree/4/M/0 tree/5/N/1\n\
    block M parameter Real a; N b; N a2; end M; block N end N; package P constant Integer k; constant Real l; end P; type E = enumeration(low, high); ? item/0/a/0 item/0/b/1 item/0/a2/2 item/0/c/none item/1/a/none item/2/k/0 item/2/l/1 item/3/low/none item/3/high/none of/0/0/Real of/0/1/1 of/0/2/1 of/2/0/Integer of/2/1/Real\n\
    within A.B.C.D.E.F; block M end M; | within A.B; block N end N; | within A.B.C.D; package G constant Real g; end G; | within A.B.C.D.E.F.G.H; block X end X; ? class/3/M/0 class/3/N/1 class/3/G/package class/3/G.H/package class/3/H/package class/3/A/package class/3/B/package class/3/C/package class/3/D/package class/3/E/package class/3/F/package class/3/D.G/2 class/3/E.F.M/0 class/3/X/3 class/0/G/package class/0/D.G/2 class/1/N/1 class/1/C.D.G/2 class/1/M/none class/2/E.F.M/0 class/3/Z/none";

// The trees of texts, and the place that is marked.
#[derive(Drop)]
struct Marked {
    trees: List<FileTree>,
    place: Option<Place>,
}

fn add_text(alloc: Global, marked: &mut Marked, file: u32, words: &str) -> Result<(), Fail>
    requires { list_all formed_file marked.old.trees ≡ true }
    ensures { OnOk result (list_all formed_file marked.new.trees ≡ true) }
{
    let mut text = Text::new(alloc);
    match words.split_once('~') {
        Some((front, back)) => {
            marked.place = Some(Place {
                file,
                byte: u32::try_from(front.len())?,
            });
            text.push(front.as_bytes())?;
            text.push(back.as_bytes())?;
        }
        None => text.push(words.as_bytes())?,
    }
    let tokens = lex(alloc, file, text.bytes())?;
    marked.trees.push(parse(alloc, &tokens)?)?;
    Ok(())
}

fn trees(alloc: Global, row: &str) -> Result<Marked, Fail>
    ensures { IfOk result (λ m. list_all formed_file m.trees ≡ true) }
{
    let mut marked = Marked {
        trees: List::new(alloc),
        place: None,
    };
    let mut file: u32 = 0;
    for words in row.split('|') {
        add_text(alloc, &mut marked, file, words)?;
        file = file.saturating_add(1);
    }
    Ok(marked)
}

fn build(alloc: Global, trees: List<FileTree>) -> Result<Result<ClassTable, ClassFault>, Fail>
    requires { list_all formed_file trees ≡ true }
{
    if trees.items().len() > 64 {
        return Err("too many files".into());
    }
    Ok(ClassTable::build(alloc, trees))
}

fn rule(word: &str) -> u32 {
    match word {
        "C10" => 10,
        "C11" => 11,
        "C12" => 12,
        "C13" => 13,
        _ => 0,
    }
}

// Whether the rule of a row is the first that is broken, at the marked place.
fn is_first(alloc: Global, row: &str) -> Result<bool, Fail> {
    let (word, texts) = row.split_once(' ').ok_or("no rule")?;
    let marked = trees(alloc, texts)?;
    let place = marked.place;
    match build(alloc, marked.trees)? {
        Ok(_) => Ok(word == "ok"),
        Err(
            ClassFault::Rule {
                rule: broken,
                place: first,
            },
        ) => { Ok(broken == rule(word) && place == Some(first)) }
        Err(fault) => Err(fault)?,
    }
}

fn class_of(word: &str) -> Result<ClassId, Fail> {
    Ok(ClassId {
        index: word.parse::<u32>()?,
    })
}

// A kind, or the class of this number.
fn kind_or_class(word: &str) -> Result<Found, Fail> {
    match find(word) {
        Some(kind) => Ok(Found::Kind(kind)),
        None => Ok(Found::Class(class_of(word)?)),
    }
}

fn wanted_class(word: &str) -> Result<Option<Found>, Fail> {
    match word {
        "none" => Ok(None),
        "package" => Ok(Some(Found::Package)),
        "other" => Ok(Some(Found::Unsupported)),
        "Boolean" => Ok(Some(Found::Scalar(ValueType::Boolean))),
        "Integer" => Ok(Some(Found::Scalar(ValueType::Integer))),
        "Real" => Ok(Some(Found::Scalar(ValueType::Real))),
        "String" => Ok(Some(Found::Scalar(ValueType::Str))),
        "RealInput" => Ok(Some(Found::Connector {
            value_type: ValueType::Real,
            input: true,
        })),
        "IntegerOutput" => Ok(Some(Found::Connector {
            value_type: ValueType::Integer,
            input: false,
        })),
        _ => Ok(Some(kind_or_class(word)?)),
    }
}

// The package and the number of a constant, or the enumeration and the number of a literal.
fn wanted_value(word: &str) -> Result<Option<ValueFound>, Fail> {
    if let Some((package, item)) = word.split_once('.') {
        return Ok(Some(ValueFound::Constant {
            package: class_of(package)?,
            item: item.parse::<u32>()?,
        }));
    }
    match word.split_once('#') {
        Some((class, ordinal)) => Ok(Some(ValueFound::Literal {
            class: class_of(class)?,
            ordinal: ordinal.parse::<u32>()?,
        })),
        None => Ok(None),
    }
}

fn wanted_root(word: &str) -> Result<Option<ClassId>, Fail> {
    if word == "none" {
        Ok(None)
    } else {
        Ok(Some(class_of(word)?))
    }
}

// A name of these identifiers, which stands nowhere.
fn name(alloc: Global, words: &str) -> Result<Name, Fail> {
    let mut parts = List::new(alloc);
    for word in words.split('.') {
        let mut text = Text::new(alloc);
        text.push(word.as_bytes())?;
        parts.push(Ident {
            text,
            span: Span { start: 0, end: 0 },
        })?;
    }
    Ok(Name { parts })
}

fn wanted_item(word: &str) -> Result<Option<u32>, Fail> {
    if word == "none" {
        Ok(None)
    } else {
        Ok(Some(word.parse::<u32>()?))
    }
}

// Whether the class name of an item means this.
fn is_of(table: &ClassTable, class: ClassId, word: &str, want: &str) -> Result<bool, Fail>
    requires { class.index < length (declared table.now) }
{
    let item = word.parse::<u32>()?;
    if item as usize >= table.tree(class).items().len() {
        return Err("no item".into());
    }
    Ok(Some(table.item_class(class, item)) == wanted_class(want)?)
}

// Whether what is asked of a class has this answer.
fn gives(
    alloc: Global,
    table: &ClassTable,
    asked: &str,
    class: ClassId,
    word: &str,
    want: &str,
) -> Result<bool, Fail> {
    if class.index as usize >= table.len() {
        return Err("no class".into());
    }
    match asked {
        "class" => Ok(table.resolve(class, &name(alloc, word)?) == wanted_class(want)?),
        "value" => Ok(table.resolve_value(class, &name(alloc, word)?) == wanted_value(want)?),
        "root" => Ok(table.root(word) == wanted_root(want)?),
        "item" => Ok(table.item(class, word.as_bytes()) == wanted_item(want)?),
        "of" => is_of(table, class, word, want),
        _ => Ok(
            table.tree(class).name().text.bytes() == word.as_bytes()
                && table.file(class) == want.parse::<u32>()?,
        ),
    }
}

fn is_answered(alloc: Global, table: &ClassTable, question: &str) -> Result<bool, Fail> {
    let mut cells = question.split('/');
    let asked = cells.next().ok_or("no sort")?;
    let class = class_of(cells.next().ok_or("no class")?)?;
    let name = cells.next().ok_or("no name")?;
    let want = cells.next().ok_or("no answer")?;
    gives(alloc, table, asked, class, name, want)
}

fn table(alloc: Global, texts: &str) -> Result<ClassTable, Fail> {
    match build(alloc, trees(alloc, texts)?.trees)? {
        Ok(table) => Ok(table),
        Err(fault) => Err(fault)?,
    }
}

#[test]
fn each_rule_has_its_first_place(rt: HostRuntime) -> Result<(), Fail> {
    for row in RULES.lines() {
        assert!(rt; is_first(rt.alloc(), row)?, "{row}");
    }
    Ok(())
}

// As many files as may be, whose blocks have names of one byte, of two, and so on.
fn many_files(alloc: Global) -> Result<String, Fail> {
    let mut row = String::from_str(alloc, "within P; block M end M;")?;
    let mut name = String::from_str(alloc, "M")?;
    for _ in 1..64 {
        name.push_str("M")?;
        row.push_str("|within P; block ")?;
        row.push_str(name.as_str())?;
        row.push_str(" M m; end ")?;
        row.push_str(name.as_str())?;
        row.push_str(";")?;
    }
    Ok(row)
}

#[test]
fn names_mean_what_the_scopes_say(rt: HostRuntime) -> Result<(), Fail> {
    for row in NAMES.lines() {
        let (texts, questions) = row.split_once('?').ok_or("no questions")?;
        let table = table(rt.alloc(), texts)?;
        for question in questions.split_whitespace() {
            assert!(rt;
                is_answered(rt.alloc(), &table, question)?,
                "{question} of {texts}"
            );
        }
    }
    let row = many_files(rt.alloc())?;
    let table = table(rt.alloc(), row.as_str())?;
    assert_eq!(rt; table.len(), 64);
    Ok(())
}
