// Where the words of a block lie, and what one step of a tick does.

/// The windows of a block in a run of words. Its inputs lie side by side, and so do its outputs behind them, and its state words
/// behind all elements. The first `reads` inputs are direct, the others are not.
#[derive(Clone, Copy, Debug, PartialEq, Eq, Drop)]
pub struct Node {
    /// The place of its first input.
    pub ins: usize,
    /// How many inputs it has.
    pub nin: usize,
    /// How many of them are direct.
    pub reads: usize,
    /// The place of its first output.
    pub outs: usize,
    /// How many outputs it has.
    pub nout: usize,
    /// The place of its first state word.
    pub state: usize,
    /// How many state words it has.
    pub width: usize,
}

/// One step of a tick. An element is named by its place among the words.
#[derive(Clone, Copy, Debug, PartialEq, Eq, Drop)]
pub enum Action {
    /// The word at this place of the row goes to an element.
    Input { place: usize, to: usize },
    /// The word of an element goes to another.
    Copy { from: usize, to: usize },
    /// A block gives its outputs.
    Emit { block: usize },
}
