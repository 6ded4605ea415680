//! The words and symbols of the language, each as its bytes.

ghost use Rattle.std.specs.Prelude.{◌≡◌, codes};
ghost use Rattle.jade_parser.specs.Kinds.{sign_among, sign_in, all_signs, item_signs, statement_signs, access_signs, change_signs, bracket_signs, mark_signs};
ghost use Rattle.jade_parser.specs.Kinds.{relation_signs, operator_signs};

use crate::Sign;
use jade_syntax::name::same_name;

/// A word of items and of values.
fn item_sign(text: &[u8]) -> Option<Sign>
    ensures { result ≡ sign_among item_signs text.now }
{
    if same_name(text, b"input") {
        Some(Sign::InputWord)
    } else if same_name(text, b"object") {
        Some(Sign::ObjectWord)
    } else if same_name(text, b"objects") {
        Some(Sign::ObjectsWord)
    } else if same_name(text, b"main") {
        Some(Sign::MainWord)
    } else if same_name(text, b"int") {
        Some(Sign::IntWord)
    } else if same_name(text, b"bool") {
        Some(Sign::BoolWord)
    } else if same_name(text, b"true") {
        Some(Sign::TrueWord)
    } else if same_name(text, b"false") {
        Some(Sign::FalseWord)
    } else {
        None
    }
}

/// A word of statements.
fn statement_sign(text: &[u8]) -> Option<Sign>
    ensures { result ≡ sign_among statement_signs text.now }
{
    if same_name(text, b"if") {
        Some(Sign::IfWord)
    } else if same_name(text, b"else") {
        Some(Sign::ElseWord)
    } else if same_name(text, b"for") {
        Some(Sign::ForWord)
    } else if same_name(text, b"in") {
        Some(Sign::InWord)
    } else if same_name(text, b"withonly") {
        Some(Sign::WithonlyWord)
    } else if same_name(text, b"do") {
        Some(Sign::DoWord)
    } else if same_name(text, b"with") {
        Some(Sign::WithWord)
    } else if same_name(text, b"cont") {
        Some(Sign::ContWord)
    } else {
        None
    }
}

/// A word that declares an access.
fn access_sign(text: &[u8]) -> Option<Sign>
    ensures { result ≡ sign_among access_signs text.now }
{
    if same_name(text, b"rd") {
        Some(Sign::RdWord)
    } else if same_name(text, b"wr") {
        Some(Sign::WrWord)
    } else if same_name(text, b"rd_wr") {
        Some(Sign::RdWrWord)
    } else if same_name(text, b"df_rd") {
        Some(Sign::DfRdWord)
    } else if same_name(text, b"df_wr") {
        Some(Sign::DfWrWord)
    } else if same_name(text, b"df_rd_wr") {
        Some(Sign::DfRdWrWord)
    } else if same_name(text, b"cm") {
        Some(Sign::CmWord)
    } else {
        None
    }
}

/// A word that gives an access up.
fn change_sign(text: &[u8]) -> Option<Sign>
    ensures { result ≡ sign_among change_signs text.now }
{
    if same_name(text, b"no_rd") {
        Some(Sign::NoRdWord)
    } else if same_name(text, b"no_wr") {
        Some(Sign::NoWrWord)
    } else if same_name(text, b"no_rd_wr") {
        Some(Sign::NoRdWrWord)
    } else {
        None
    }
}

/// A bracket.
fn bracket_sign(text: &[u8]) -> Option<Sign>
    ensures { result ≡ sign_among bracket_signs text.now }
{
    if same_name(text, b"(") {
        Some(Sign::LeftParen)
    } else if same_name(text, b")") {
        Some(Sign::RightParen)
    } else if same_name(text, b"[") {
        Some(Sign::LeftBracket)
    } else if same_name(text, b"]") {
        Some(Sign::RightBracket)
    } else if same_name(text, b"{") {
        Some(Sign::LeftBrace)
    } else if same_name(text, b"}") {
        Some(Sign::RightBrace)
    } else {
        None
    }
}

/// What stands between the parts of a form.
fn mark_sign(text: &[u8]) -> Option<Sign>
    ensures { result ≡ sign_among mark_signs text.now }
{
    if same_name(text, b";") {
        Some(Sign::Semicolon)
    } else if same_name(text, b":") {
        Some(Sign::Colon)
    } else if same_name(text, b",") {
        Some(Sign::Comma)
    } else if same_name(text, b"..") {
        Some(Sign::DotDot)
    } else if same_name(text, b"=") {
        Some(Sign::Becomes)
    } else {
        None
    }
}

/// A relation.
fn relation_sign(text: &[u8]) -> Option<Sign>
    ensures { result ≡ sign_among relation_signs text.now }
{
    if same_name(text, b"==") {
        Some(Sign::EqualSign)
    } else if same_name(text, b"!=") {
        Some(Sign::UnequalSign)
    } else if same_name(text, b"<") {
        Some(Sign::LessSign)
    } else if same_name(text, b"<=") {
        Some(Sign::LessEqualSign)
    } else if same_name(text, b">") {
        Some(Sign::GreaterSign)
    } else if same_name(text, b">=") {
        Some(Sign::GreaterEqualSign)
    } else {
        None
    }
}

/// Another operator.
fn operator_sign(text: &[u8]) -> Option<Sign>
    ensures { result ≡ sign_among operator_signs text.now }
{
    if same_name(text, b"+") {
        Some(Sign::PlusSign)
    } else if same_name(text, b"-") {
        Some(Sign::MinusSign)
    } else if same_name(text, b"*") {
        Some(Sign::TimesSign)
    } else if same_name(text, b"/") {
        Some(Sign::OverSign)
    } else if same_name(text, b"%") {
        Some(Sign::PercentSign)
    } else if same_name(text, b"!") {
        Some(Sign::NotSign)
    } else if same_name(text, b"||") {
        Some(Sign::OrSign)
    } else if same_name(text, b"&&") {
        Some(Sign::AndSign)
    } else {
        None
    }
}

/// The sign that some bytes are.
pub fn sign_of(text: &[u8]) -> Option<Sign>
    ensures { result ≡ sign_in all_signs text.now }
{
    if let Some(sign) = item_sign(text) {
        return Some(sign);
    }
    if let Some(sign) = statement_sign(text) {
        return Some(sign);
    }
    if let Some(sign) = access_sign(text) {
        return Some(sign);
    }
    if let Some(sign) = change_sign(text) {
        return Some(sign);
    }
    if let Some(sign) = bracket_sign(text) {
        return Some(sign);
    }
    if let Some(sign) = mark_sign(text) {
        return Some(sign);
    }
    if let Some(sign) = relation_sign(text) {
        return Some(sign);
    }
    operator_sign(text)
}
