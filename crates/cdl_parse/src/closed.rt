// Trees beside what they do not keep: where the first identifier behind an `end` stands that is not its class's.
use cdl_source::List;
use cdl_tree::{ClassTree, FileTree, Item};

/// A class, and the place of the first wrong identifier behind an `end` in it.
#[derive(Drop)]
pub(crate) struct ClosedClass {
    pub(crate) class: ClassTree,
    pub(crate) wrong: Option<u32>,
}

/// What a package holds, and the place of the first wrong identifier behind an `end` in it.
#[derive(Drop)]
pub(crate) struct PackageParts {
    pub(crate) classes: List<ClassTree>,
    pub(crate) constants: List<Item>,
    pub(crate) wrong: Option<u32>,
}

/// The classes of a file, and the place of the first wrong identifier behind an `end` in them.
#[derive(Drop)]
pub(crate) struct FileParts {
    pub(crate) classes: List<ClassTree>,
    pub(crate) wrong: Option<u32>,
}

/// A file, and the place of the first wrong identifier behind an `end` in it.
#[derive(Drop)]
pub(crate) struct ClosedFile {
    pub(crate) tree: FileTree,
    pub(crate) wrong: Option<u32>,
}
