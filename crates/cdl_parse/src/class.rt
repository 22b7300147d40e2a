// Classes. The rules of packages take the parser of classes as a parameter.
ghost use Rattle.std.specs.Prelude.{◌≡◌, List, [], None};
ghost use Rattle.cdl_tree.specs.Grammar as grammar;
ghost use Rattle.cdl_reading.specs.Gives.{Gives, Nests};
ghost use Rattle.cdl_parse.specs.Classes as spec;

use crate::closed::{ClosedClass, FileParts, PackageParts};
use cdl_clauses::{clause, constant, equation_part, note_clause, tail};
use cdl_expressions::text;
use cdl_reading::{Cursor, Fault, list};
use cdl_source::List;
use cdl_tree::{ClassTree, Ident, Item, Terminal};
use std::alloc::Global;

// Where the identifier behind `end` stands, unless it is the class's.
fn wrong_end(name: &Ident, end: &Ident) -> Option<u32>
    ensures { result ≡ spec.wrong_end name.now end.now }
{
    if name.text.bytes() == end.text.bytes() {
        None
    } else {
        Some(end.span.start)
    }
}

// The first of two places.
fn or_then(first: Option<u32>, later: Option<u32>) -> Option<u32>
    ensures { result ≡ spec.or_then first later }
{
    match first {
        Some(at) => Some(at),
        None => later,
    }
}

fn is_section(terminal: Terminal) -> bool
    ensures { result ≡ grammar.is_section terminal }
{
    match terminal {
        Terminal::Public | Terminal::Protected => true,
        _ => false,
    }
}

// "public" | "protected"
#[tactic(auto, unfolding(crate::specs::Classes::section))]
fn section(tokens: &mut Cursor<'_>) -> Result<(), Fault>
    ensures { Gives (spec.section tokens.old) result tokens.new }
{
    if !is_section(tokens.peek()) {
        return Err(Fault::Syntax);
    }
    tokens.skip();
    Ok(())
}

fn begins_block_part(terminal: Terminal) -> bool
    ensures { result ≡ spec.begins_block_part terminal }
{
    match terminal {
        Terminal::Public
        | Terminal::Protected
        | Terminal::Annotation
        | Terminal::Final
        | Terminal::Parameter
        | Terminal::Constant
        | Terminal::Identifier => true,
        _ => false,
    }
}

// "public" | "protected" | note ";" | clause, behind the items that are found
#[tactic(auto, unfolding(crate::specs::Classes::block_part))]
fn block_part(
    alloc: Global,
    tokens: &mut Cursor<'_>,
    most: usize,
    found: List<Item>,
) -> Result<List<Item>, Fault>
    ensures { Gives (spec.block_part most found tokens.old) result tokens.new }
{
    match tokens.peek() {
        Terminal::Public | Terminal::Protected => {
            section(tokens)?;
            Ok(found)
        }
        Terminal::Annotation => {
            note_clause(tokens, most)?;
            Ok(found)
        }
        _ => clause(alloc, tokens, most, found),
    }
}

// { "public" | "protected" | note ";" | clause }
fn block_parts(alloc: Global, tokens: &mut Cursor<'_>, most: usize) -> Result<List<Item>, Fault>
    ensures { Gives (spec.block_parts_from most most [] tokens.old) result tokens.new }
{
    let mut found = List::new(alloc);
    for _turn in 0..most {
        if !begins_block_part(tokens.peek()) {
            return Ok(found);
        }
        found = block_part(alloc, tokens, most, found)?;
    }
    Ok(found)
}

// "block" IDENT text { "public" | "protected" | note ";" | clause } [ "equation" { statement | note ";" } ] "end" IDENT
#[tactic(auto, unfolding(crate::specs::Classes::block, cdl_reading::specs::Reading::made, cdl_tree::specs::Trees::the_block))]
fn block(alloc: Global, tokens: &mut Cursor<'_>, most: usize) -> Result<ClosedClass, Fault>
    ensures { Gives (spec.block most tokens.old) result tokens.new }
{
    let start = tokens.here();
    tokens.expect(Terminal::Block)?;
    let name = tokens.ident(alloc)?;
    text(tokens, most)?;
    let items = block_parts(alloc, tokens, most)?;
    let statements = equation_part(alloc, tokens, most)?;
    tokens.expect(Terminal::End)?;
    let end = tokens.ident(alloc)?;
    let wrong = wrong_end(&name, &end);
    let span = tokens.span_since(&start);
    let class = ClassTree::Block {
        name,
        items,
        statements,
        span,
    };
    Ok(ClosedClass { class, wrong })
}

// literal = IDENT tail
#[tactic(auto, unfolding(crate::specs::Classes::literal_of))]
fn literal(alloc: Global, tokens: &mut Cursor<'_>, most: usize) -> Result<Ident, Fault>
    ensures { Gives (spec.literal_of most tokens.old) result tokens.new }
{
    let name = tokens.ident(alloc)?;
    tail(tokens, most)?;
    Ok(name)
}

// literal { "," literal }
#[tactic(auto, unfolding(crate::specs::Classes::literal_list))]
fn literals(alloc: Global, tokens: &mut Cursor<'_>, most: usize) -> Result<List<Ident>, Fault>
    ensures { Gives (spec.literal_list most tokens.old) result tokens.new }
{
    let literal = |tokens: &mut Cursor<'_>| literal(alloc, tokens, most);
    list(tokens, Terminal::Comma, most, &literal, List::new(alloc))
}

// "type" IDENT "=" "enumeration" "(" literal { "," literal } ")" tail
#[tactic(auto, unfolding(crate::specs::Classes::enumeration, cdl_reading::specs::Reading::made, cdl_tree::specs::Trees::the_enumeration))]
fn enumeration(alloc: Global, tokens: &mut Cursor<'_>, most: usize) -> Result<ClosedClass, Fault>
    ensures { Gives (spec.enumeration most tokens.old) result tokens.new }
{
    let start = tokens.here();
    tokens.expect(Terminal::Type)?;
    let name = tokens.ident(alloc)?;
    tokens.expect(Terminal::Equals)?;
    tokens.expect(Terminal::Enumeration)?;
    tokens.expect(Terminal::Open)?;
    let literals = literals(alloc, tokens, most)?;
    tokens.expect(Terminal::Close)?;
    tail(tokens, most)?;
    let span = tokens.span_since(&start);
    let class = ClassTree::Enumeration {
        name,
        literals,
        span,
    };
    Ok(ClosedClass { class, wrong: None })
}

fn begins_package_part(terminal: Terminal) -> bool
    ensures { result ≡ spec.begins_package_part terminal }
{
    match terminal {
        Terminal::Public
        | Terminal::Protected
        | Terminal::Annotation
        | Terminal::Final
        | Terminal::Constant
        | Terminal::Block
        | Terminal::Package
        | Terminal::Type => true,
        _ => false,
    }
}

/// Reads the productions of classes.
#[derive(Clone, Copy)]
pub(crate) struct Classes<F> {
    alloc: Global,
    /// How deep classes may still nest, and how long lists are.
    depth: usize,
    whole: F,
}

impl<F: Fn(Global, &mut Cursor<'_>, usize) -> Result<ClosedClass, Fault>> Classes<F> {
    fn whole(&self, tokens: &mut Cursor<'_>) -> Result<ClosedClass, Fault>
        requires { Nests spec.class self.now.depth (F.pre self.now.whole) (F.post self.now.whole) }
        ensures { Gives (spec.class self.now.depth tokens.old) result tokens.new }
    {
        (self.whole)(self.alloc, tokens, self.depth)
    }

    // class ";", behind what is found of the package
    #[tactic(auto, unfolding(crate::specs::Classes::package_class_part, crate::specs::Classes::class_clause))]
    fn inner_class(
        &self,
        tokens: &mut Cursor<'_>,
        found: PackageParts,
    ) -> Result<PackageParts, Fault>
        requires { Nests spec.class self.now.depth (F.pre self.now.whole) (F.post self.now.whole) }
        ensures { Gives (spec.package_class_part self.now.depth (spec.class self.now.depth) found tokens.old) result tokens.new }
    {
        let inner = self.whole(tokens)?;
        tokens.expect(Terminal::Semicolon)?;
        let PackageParts {
            mut classes,
            constants,
            wrong,
        } = found;
        let wrong = or_then(wrong, inner.wrong);
        classes.push(inner.class)?;
        Ok(PackageParts {
            classes,
            constants,
            wrong,
        })
    }

    // constant, behind what is found of the package
    #[tactic(auto, unfolding(crate::specs::Classes::package_constant))]
    fn inner_constant(
        &self,
        tokens: &mut Cursor<'_>,
        found: PackageParts,
    ) -> Result<PackageParts, Fault>
        ensures { Gives (spec.package_constant self.now.depth (spec.class self.now.depth) found tokens.old) result tokens.new }
    {
        let PackageParts {
            classes,
            constants,
            wrong,
        } = found;
        let constants = constant(self.alloc, tokens, self.depth, constants)?;
        Ok(PackageParts {
            classes,
            constants,
            wrong,
        })
    }

    // "public" | "protected" | note ";" | constant | class ";", behind what is found of the package
    #[tactic(auto, unfolding(crate::specs::Classes::package_part))]
    fn part(&self, tokens: &mut Cursor<'_>, found: PackageParts) -> Result<PackageParts, Fault>
        requires { Nests spec.class self.now.depth (F.pre self.now.whole) (F.post self.now.whole) }
        ensures { Gives (spec.package_part self.now.depth (spec.class self.now.depth) found tokens.old) result tokens.new }
    {
        match tokens.peek() {
            Terminal::Public | Terminal::Protected => {
                section(tokens)?;
                Ok(found)
            }
            Terminal::Annotation => {
                note_clause(tokens, self.depth)?;
                Ok(found)
            }
            Terminal::Final | Terminal::Constant => self.inner_constant(tokens, found),
            _ => self.inner_class(tokens, found),
        }
    }

    // { "public" | "protected" | note ";" | constant | class ";" }
    fn parts(&self, tokens: &mut Cursor<'_>) -> Result<PackageParts, Fault>
        requires { Nests spec.class self.now.depth (F.pre self.now.whole) (F.post self.now.whole) }
        ensures { Gives (spec.package_parts self.now.depth (spec.class self.now.depth) tokens.old) result tokens.new }
    {
        let mut found = PackageParts {
            classes: List::new(self.alloc),
            constants: List::new(self.alloc),
            wrong: None,
        };
        for _turn in 0..self.depth {
            if !begins_package_part(tokens.peek()) {
                return Ok(found);
            }
            found = self.part(tokens, found)?;
        }
        Ok(found)
    }

    // "package" IDENT text { "public" | "protected" | note ";" | constant | class ";" } "end" IDENT
    #[tactic(auto, unfolding(crate::specs::Classes::package_class, cdl_reading::specs::Reading::made, cdl_tree::specs::Trees::the_package))]
    fn package(&self, tokens: &mut Cursor<'_>) -> Result<ClosedClass, Fault>
        requires { Nests spec.class self.now.depth (F.pre self.now.whole) (F.post self.now.whole) }
        ensures { Gives (spec.package_class self.now.depth (spec.class self.now.depth) tokens.old) result tokens.new }
    {
        let start = tokens.here();
        tokens.expect(Terminal::Package)?;
        let name = tokens.ident(self.alloc)?;
        text(tokens, self.depth)?;
        let PackageParts {
            classes,
            constants,
            wrong,
        } = self.parts(tokens)?;
        tokens.expect(Terminal::End)?;
        let end = tokens.ident(self.alloc)?;
        let wrong = or_then(wrong, wrong_end(&name, &end));
        let span = tokens.span_since(&start);
        let class = ClassTree::Package {
            name,
            classes,
            constants,
            span,
        };
        Ok(ClosedClass { class, wrong })
    }

    #[tactic(auto, unfolding(crate::specs::Classes::any_class))]
    pub(crate) fn any(&self, tokens: &mut Cursor<'_>) -> Result<ClosedClass, Fault>
        requires { Nests spec.class self.now.depth (F.pre self.now.whole) (F.post self.now.whole) }
        ensures { Gives (spec.any_class self.now.depth (spec.class self.now.depth) tokens.old) result tokens.new }
    {
        match tokens.peek() {
            Terminal::Block => block(self.alloc, tokens, self.depth),
            Terminal::Package => self.package(tokens),
            Terminal::Type => enumeration(self.alloc, tokens, self.depth),
            _ => Err(Fault::Syntax),
        }
    }
}

/// A class in which classes nest no deeper than `depth`.
pub(crate) fn class(
    alloc: Global,
    tokens: &mut Cursor<'_>,
    depth: usize,
) -> Result<ClosedClass, Fault>
    ensures { Gives (spec.class depth tokens.old) result tokens.new }
{
    if depth == 0 {
        return Err(Fault::Syntax);
    }
    Classes {
        alloc,
        depth: depth - 1,
        whole: class,
    }
    .any(tokens)
}

/// `class ";"` in a file, behind the classes that are found
#[tactic(auto, unfolding(crate::specs::Classes::file_class, crate::specs::Classes::class_clause))]
pub(crate) fn file_class(
    alloc: Global,
    tokens: &mut Cursor<'_>,
    most: usize,
    found: FileParts,
) -> Result<FileParts, Fault>
    ensures { Gives (spec.file_class most found tokens.old) result tokens.new }
{
    let inner = class(alloc, tokens, most)?;
    tokens.expect(Terminal::Semicolon)?;
    let FileParts { mut classes, wrong } = found;
    let wrong = or_then(wrong, inner.wrong);
    classes.push(inner.class)?;
    Ok(FileParts { classes, wrong })
}
