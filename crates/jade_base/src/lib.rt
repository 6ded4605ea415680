//! What every crate of Jade speaks of: places, paths, rights, contents, faults, reports, and the
//! bytes that come in and go out.
//!
//! Floor `base`, over `jade_list`, with `smallvec` of the kit.
#![tactic(auto)]

mod calls;
pub mod content;
pub mod failure;
pub mod memory_sink;
pub mod memory_source;
pub mod path;
pub mod place;
pub mod report;
pub mod rights;
pub mod sink;
pub mod source;
pub mod spec;
pub mod standard;
pub mod sure;
pub mod text;
pub mod word;

pub use content::{Content, SharedCells};
pub use failure::{Failed, Memory};
pub use memory_sink::MemorySink;
pub use memory_source::MemorySource;
pub use path::Path;
pub use place::{ObjectId, Pos};
pub use report::{
    Blame, CellLists, FaultKind, FaultNote, FaultNotes, Numbers, PartStep, PartSteps, PathList,
    Report, TurnLists,
};
pub use rights::{Mode, Right, Rights};
pub use sink::Sink;
pub use source::Source;
pub use spec::Spec;
pub use standard::{StdSink, StdSource};
pub use sure::{SureSink, SureSource};
pub use text::{TextError, read_text, write_text};
pub use word::Word;
