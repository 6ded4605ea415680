//! The tree of a program, the names in it, and what they stand for.
//!
//! Floor `text`, over `jade_alphabet`, `jade_base` and `jade_list`.
#![tactic(auto)]

pub mod checked;
pub mod name;
pub mod objects;
pub mod shapes;
pub mod stands;
pub mod static_fault;
pub mod tree;

pub use checked::Checked;
pub use name::{Name, NameError};
pub use shapes::BadShape;
pub use stands::{Stand, Stands};
pub use static_fault::{StaticFault, StaticKind};
