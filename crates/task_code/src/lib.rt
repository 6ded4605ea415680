//! The code of a program, the rules that it keeps, and the first place where it does not.
//!
//! Floor `code`, over `code_meaning`, `jade_base`, `jade_meaning` and `jade_syntax`.
#![tactic(auto)]

pub mod decoded;
pub mod valid;

pub use code_meaning::code::{BinaryOp, Body, Instruction, Logic, Operand};
pub use decoded::{DecodedBody, DecodedCode, DecodedInstruction, Form, power};
pub use valid::{At, Bad, Code, Raw, validate};
