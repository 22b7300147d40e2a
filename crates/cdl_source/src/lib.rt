//! What all of the compiler stands on: the outside (files, sinks), texts and lists, places in a text, identifiers, and
//! the limits and rule numbers of the language.
#![tactic(auto)]

mod fault_list;
mod host;
mod identifier;
mod limits;
mod list;
mod mem_files;
mod mem_reads;
mod mem_sink;
mod memory;
mod outside;
mod place;
pub mod rules;
mod text;
mod whole;

pub use host::{HostFiles, HostSink};
pub use identifier::{is_digit, is_identifier, is_initial, is_keyword, is_word, is_word_byte};
pub use limits::{
    DEEPEST_NESTING, LARGEST_INTEGER, LARGEST_REAL, LARGEST_SIZE, LATEST_TIME, LONGEST_DOCUMENT,
    LONGEST_IDENTIFIER, LONGEST_MODEL, LONGEST_TABLE, LONGEST_UNIT, MOST_ELEMENTS, MOST_IFS,
    MOST_INSTANCES, MOST_ITEMS, MOST_LINKS, MOST_MODELS, MOST_OPERATORS, MOST_STEPS, MOST_TICKS,
    MOST_TURNS, MOST_WIRES,
};
pub use list::List;
pub use mem_files::MemFiles;
pub use mem_sink::MemSink;
pub use memory::OutOfMemory;
pub use outside::{Failed, Files, Sink};
pub use place::{Place, Span, Token, TokenSort, line_column};
pub use text::Text;
pub use whole::{ReadError, read_whole, write_whole};
