//! Values, and what the operators give.

ghost use Rattle.std.specs.Prelude.{◌≡◌};
ghost use Rattle.jade_syntax.specs.Abstract.{Or, And, Relates, Adds, Multiplies};
ghost use Rattle.jade_meaning.specs.Values.{Gives, number_given, operated, decides, signed, whole, holds};
ghost use Rattle.jade_meaning.specs.steps.Direct.{as_given};

use crate::numbers::{add, is_related, multiply, negate};
use jade_base::FaultKind;
use jade_syntax::tree::{ProductOp, Relation, SumOp, UnaryOp};

/// The value of an expression: a number or a truth value.
#[derive(Clone, Copy, Debug, PartialEq, Eq)]
pub enum Value {
    IntOf(i64),
    BoolOf(bool),
}

impl Value {
    /// The number that a value is: a truth value is 1 or 0.
    pub(crate) fn whole(self) -> i64
        ensures { result ≡ whole self }
    {
        match self {
            Value::IntOf(number) => number,
            Value::BoolOf(true) => 1,
            Value::BoolOf(false) => 0,
        }
    }

    /// The truth of a value: a number is true where it is not 0.
    pub(crate) fn holds(self) -> bool
        ensures { result ≡ holds self }
    {
        match self {
            Value::IntOf(number) => number != 0,
            Value::BoolOf(truth) => truth,
        }
    }

    /// Whether the operand makes what follows a `||` needless.
    pub(crate) fn decides_or(self) -> bool
        ensures { result ≡ decides Or self }
    {
        self.holds()
    }

    /// Whether the operand makes what follows a `&&` needless.
    pub(crate) fn decides_and(self) -> bool
        ensures { result ≡ decides And self }
    {
        !self.holds()
    }

    /// How two values compare.
    pub(crate) fn compared(self, relation: Relation, other: Value) -> Value
        ensures { Gives result ≡ operated (Relates relation) self other }
    {
        Value::BoolOf(is_related(relation, self.whole(), other.whole()))
    }

    /// A sum or a difference.
    pub(crate) fn added(self, op: SumOp, other: Value) -> Result<Value, FaultKind>
        ensures { as_given result ≡ operated (Adds op) self other }
    {
        as_value(add(op, self.whole(), other.whole()))
    }

    /// A product, a quotient or a remainder.
    pub(crate) fn multiplied(self, op: ProductOp, other: Value) -> Result<Value, FaultKind>
        ensures { as_given result ≡ operated (Multiplies op) self other }
    {
        as_value(multiply(op, self.whole(), other.whole()))
    }

    /// A value after a sign.
    pub(crate) fn signed(self, sign: UnaryOp) -> Result<Value, FaultKind>
        ensures { as_given result ≡ signed sign self }
    {
        match sign {
            UnaryOp::Negative => as_value(negate(self.whole())),
            UnaryOp::Not => Ok(Value::BoolOf(!self.holds())),
        }
    }
}

// A number as a value.
fn as_value(number: Result<i64, FaultKind>) -> Result<Value, FaultKind>
    ensures { as_given result ≡ number_given number }
{
    match number {
        Ok(number) => Ok(Value::IntOf(number)),
        Err(kind) => Err(kind),
    }
}
