ghost use Rattle.std.specs.Prelude.{◌≡◌, ◌+◌, ◌++◌, [], ◌∷◌, drop, MatchOption, MatchResult, IsTrue, IsFalse, IfSome, length, ◌<◌};
ghost use Rattle.jade_parser.specs.steps.Reads.{head_sign, kinds, place_at, Passes, Whole, OnOther, NoUnary};
ghost use Rattle.jade_parser.specs.steps.Ops.{sum_of as sum_spec, product_of as product_spec, relation_of as relation_spec, unary_of as unary_spec};
ghost use Rattle.jade_parser.specs.steps.Machine.{Rest, Need, First, Second, Must, sum_in, product_in, expr_in, and_in, same_sign};
ghost use Rattle.jade_parser.specs.Spelled.{sum_sign, product_sign, relation_sign, unary_sign, Fixed, fixed, marked};
ghost use Rattle.jade_parser.specs.declared.Sign.TheVariants.{OrSign, AndSign, LeftBracket, RightBracket};

use crate::{Kind, Seen, Sign, Stop};
use jade_base::Pos;
use jade_syntax::tree::{ProductOp, Relation, SumOp, UnaryOp};

/// The place of the token with a number.
pub fn pos_at(tokens: &[Seen<'_>], at: usize) -> Pos
    ensures { result ≡ place_at tokens.now at }
{
    if at < tokens.len() {
        tokens[at].pos
    } else {
        Pos { line: 0, column: 0 }
    }
}

/// The sign that stands at the place.
pub fn sign_at(tokens: &[Seen<'_>], at: usize) -> Option<Sign>
    ensures { result ≡ head_sign (drop at (kinds tokens.now)) }
{
    if at < tokens.len() {
        match tokens[at].kind {
            Kind::Fixed(sign) => Some(sign),
            Kind::Called(_) => None,
            Kind::Counted(_) => None,
            Kind::Unknown => None,
        }
    } else {
        None
    }
}

fn sum_of(sign: Sign) -> Option<SumOp>
    ensures { result ≡ sum_spec sign }
{
    match sign {
        Sign::PlusSign => Some(SumOp::Plus),
        Sign::MinusSign => Some(SumOp::Minus),
        _ => None,
    }
}

fn product_of(sign: Sign) -> Option<ProductOp>
    ensures { result ≡ product_spec sign }
{
    match sign {
        Sign::TimesSign => Some(ProductOp::Times),
        Sign::OverSign => Some(ProductOp::Over),
        Sign::PercentSign => Some(ProductOp::Remainder),
        _ => None,
    }
}

fn relation_of(sign: Sign) -> Option<Relation>
    ensures { result ≡ relation_spec sign }
{
    match sign {
        Sign::EqualSign => Some(Relation::Equal),
        Sign::UnequalSign => Some(Relation::Unequal),
        Sign::LessSign => Some(Relation::Less),
        Sign::LessEqualSign => Some(Relation::LessEqual),
        Sign::GreaterSign => Some(Relation::Greater),
        Sign::GreaterEqualSign => Some(Relation::GreaterEqual),
        _ => None,
    }
}

fn unary_of(sign: Sign) -> Option<UnaryOp>
    ensures { result ≡ unary_spec sign }
{
    match sign {
        Sign::MinusSign => Some(UnaryOp::Negative),
        Sign::NotSign => Some(UnaryOp::Not),
        _ => None,
    }
}

pub fn same(a: Sign, b: Sign) -> bool
    ensures { result ≡ same_sign a b }
{
    a == b
}

/// An operator that adds.
pub fn sum_op(tokens: &[Seen<'_>], at: usize) -> Option<SumOp>
    ensures { MatchOption result (Passes tokens.now at (Rest 2 ∷ []) at [])
        (λ op. Whole tokens.now at (Rest 2 ∷ []) (at + 1) sum_in (marked (sum_sign op) (place_at tokens.now at) ∷ [])) }
{
    match sign_at(tokens, at) {
        Some(sign) => sum_of(sign),
        None => None,
    }
}

/// An operator that multiplies.
pub fn product_op(tokens: &[Seen<'_>], at: usize) -> Option<ProductOp>
    ensures { MatchOption result (Passes tokens.now at (Rest 1 ∷ []) at [])
        (λ op. Whole tokens.now at (Rest 1 ∷ []) (at + 1) product_in (marked (product_sign op) (place_at tokens.now at) ∷ [])) }
{
    match sign_at(tokens, at) {
        Some(sign) => product_of(sign),
        None => None,
    }
}

/// A relation.
pub fn relation(tokens: &[Seen<'_>], at: usize) -> Option<Relation>
    ensures { MatchOption result (Passes tokens.now at (Rest 3 ∷ []) at [])
        (λ op. Whole tokens.now at (Rest 3 ∷ []) (at + 1) sum_in (marked (relation_sign op) (place_at tokens.now at) ∷ [])) }
{
    match sign_at(tokens, at) {
        Some(sign) => relation_of(sign),
        None => None,
    }
}

/// A sign in front.
pub fn unary_op(tokens: &[Seen<'_>], at: usize) -> Option<UnaryOp>
    ensures { MatchOption result (NoUnary tokens.now at) (λ op. Whole tokens.now at (Need ∷ []) (at + 1) (Need ∷ [])
        (marked (unary_sign op) (place_at tokens.now at) ∷ [])) }
{
    match sign_at(tokens, at) {
        Some(sign) => unary_of(sign),
        None => None,
    }
}

/// Whether `||` stands there.
pub fn or_op(tokens: &[Seen<'_>], at: usize) -> bool
    ensures yes { IsTrue result → Whole tokens.now at (Rest 5 ∷ []) (at + 1) expr_in (marked (Fixed OrSign) (place_at tokens.now at) ∷ []) }
    ensures no { IsFalse result → Passes tokens.now at (Rest 5 ∷ []) at [] }
{
    match sign_at(tokens, at) {
        Some(sign) => same(Sign::OrSign, sign),
        None => false,
    }
}

/// Whether `&&` stands there.
pub fn and_op(tokens: &[Seen<'_>], at: usize) -> bool
    ensures yes { IsTrue result → Whole tokens.now at (Rest 4 ∷ []) (at + 1) and_in (marked (Fixed AndSign) (place_at tokens.now at) ∷ []) }
    ensures no { IsFalse result → Passes tokens.now at (Rest 4 ∷ []) at [] }
{
    match sign_at(tokens, at) {
        Some(sign) => same(Sign::AndSign, sign),
        None => false,
    }
}

/// Whether `[` stands there.
pub fn bracket(tokens: &[Seen<'_>], at: usize) -> bool
    ensures first { IsTrue result → Whole tokens.now at (First ∷ []) (at + 1) (expr_in ++ Must RightBracket ∷ Second ∷ []) (fixed LeftBracket ∷ []) }
    ensures second { IsTrue result → Whole tokens.now at (Second ∷ []) (at + 1) (expr_in ++ Must RightBracket ∷ []) (fixed LeftBracket ∷ []) }
    ensures no_first { IsFalse result → Passes tokens.now at (First ∷ []) at [] }
    ensures no_second { IsFalse result → Passes tokens.now at (Second ∷ []) at [] }
{
    match sign_at(tokens, at) {
        Some(sign) => same(Sign::LeftBracket, sign),
        None => false,
    }
}

/// The place after the sign.
pub fn expect(tokens: &[Seen<'_>], at: usize, wanted: Sign) -> Result<usize, Stop>
    ensures { MatchResult result (λ next. Whole tokens.now at (Must wanted ∷ []) next [] (fixed wanted ∷ []))
        (λ e. OnOther e tokens.now at (Must wanted ∷ [])) }
{
    match sign_at(tokens, at) {
        Some(sign) => {
            if same(wanted, sign) {
                Ok(at + 1)
            } else {
                Err(Stop::Token(at))
            }
        }
        None => Err(Stop::Token(at)),
    }
}
