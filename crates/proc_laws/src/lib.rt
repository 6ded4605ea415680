//! What is proved of procedures: an accepted expanded program does what its source does.
//!
//! Floor `meaning`, over `erased_places`, `jade_alphabet`, `jade_base`, `jade_layout`,
//! `jade_lexer`, `jade_meaning`, `jade_parser`, `jade_reading`, `jade_syntax`, `proc_expand` and
//! `replaced_trees`.
#![tactic(auto)]

pub mod laws;
