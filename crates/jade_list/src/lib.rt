//! One list type, which serves every list of the language, its compiler and its run time.
//!
//! Floor `base`, over no crate.
#![tactic(auto)]

pub mod sequence;
