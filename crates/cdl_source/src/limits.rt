// The limits of texts, models, nets and tables, each with the rule that it belongs to.

/// Bytes of a model file (rule C1).
pub const LONGEST_MODEL: usize = 524_288;

/// Bytes of an identifier (rule C4).
pub const LONGEST_IDENTIFIER: usize = 64;

/// The magnitude of an Integer (rule C4 in texts).
pub const LARGEST_INTEGER: u32 = 2_147_483_647;

/// The magnitude of a Real, counted in millionths: 10^10 (rule C4 in texts).
pub const LARGEST_REAL: u64 = 10_000_000_000_000_000;

/// How deep brackets, blocks and packages nest (rule C5).
pub const DEEPEST_NESTING: u32 = 64;

/// The number of `if` between two `;` (rule C6).
pub const MOST_IFS: u32 = 64;

/// The number of counted operators between two `;` (rule C6).
pub const MOST_OPERATORS: u32 = 1_024;

/// Model files of one job.
pub const MOST_MODELS: usize = 64;

/// Steps of the path of an instance (rules C20 and C87).
pub const MOST_STEPS: usize = 16;

/// Instances of a model, the root counted (rules C20 and C87).
pub const MOST_INSTANCES: u32 = 20_000;

/// Connector elements of a model (rules C20 and C87).
pub const MOST_ELEMENTS: u32 = 200_000;

/// A size of a dimension (rules C28, C80 and C81).
pub const LARGEST_SIZE: u32 = 4_096;

/// Items of an array (rules C28 and C81).
pub const MOST_ITEMS: u32 = 65_536;

/// Links of a chain of parameters (rule C29).
pub const MOST_LINKS: u32 = 64;

/// Bytes of the text of a unit (rules C38 and C76).
pub const LONGEST_UNIT: usize = 64;

/// Turns of the loops of a model (rule C39).
pub const MOST_TURNS: u32 = 400_000;

/// Wires of a model (rules C47 and C87).
pub const MOST_WIRES: u32 = 400_000;

/// Bytes of a table (rule C60).
pub const LONGEST_TABLE: usize = 33_554_432;

/// The latest time of a table, in milliseconds: 10^13 (rule C63).
pub const LATEST_TIME: u64 = 10_000_000_000_000;

/// Ticks of a table (rule C66).
pub const MOST_TICKS: usize = 1_000_000;

/// Bytes of a CXF document (rules C49 and C70).
pub const LONGEST_DOCUMENT: usize = 33_554_432;
