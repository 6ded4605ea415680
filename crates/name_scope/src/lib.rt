//! Names in scope, each with a value: the newest of a name counts, and is found by one look-up in an
//! ordered map, whatever the names are.
//!
//! Floor `text`, over `jade_base` and `jade_syntax`.
#![tactic(auto)]

mod scope;

pub use scope::NameScope;
