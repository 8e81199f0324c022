ghost use Rattle.std.specs.Prelude.{◌≡◌, [], MatchOption};
ghost use Rattle.xc_script.specs.Values.{bytes_value, handle_value, term_value, expression_value};

use crate::value::{Value, Variables};
use xc_data::Chunk;
use xc_text::{Expression, NameIndex, Term};

/// The bytes of a variable that has some.
pub fn chunk_in(variables: &Variables, at: NameIndex) -> Option<&Chunk>
    ensures { MatchOption result (bytes_value variables.now at ≡ []) (λ bytes. bytes.now ≡ bytes_value variables.now at) }
{
    match variables.get(at) {
        Some(Value::Bytes(bytes)) => Some(bytes),
        Some(Value::Number(_) | Value::Handle(_)) | None => None,
    }
}

/// A variable without bytes counts as no bytes.
pub fn bytes_in(variables: &Variables, at: NameIndex) -> &[u8]
    ensures { result.now ≡ bytes_value variables.now at }
{
    match chunk_in(variables, at) {
        Some(bytes) => bytes.as_slice(),
        None => &[],
    }
}

/// A variable without a handle counts as 65,535.
pub fn handle_in(variables: &Variables, at: NameIndex) -> u16
    ensures { result ≡ handle_value variables.now at }
{
    match variables.get(at) {
        Some(Value::Handle(h)) => *h,
        Some(Value::Number(_) | Value::Bytes(_)) | None => u16::MAX,
    }
}

/// A variable without a number counts as 0, and so does a slot that is unset.
pub fn value_of(variables: &Variables, term: Term<NameIndex>) -> u64
    ensures { result ≡ term_value variables.now term }
{
    match term {
        Term::Number(n) => n.number(),
        Term::Variable(at) => match variables.get(at) {
            Some(Value::Number(n)) => *n,
            Some(Value::Bytes(_) | Value::Handle(_)) | None => 0,
        },
        Term::Slot(at) => variables.slot(at),
    }
}

/// Sums and differences are taken modulo 2^64.
pub fn expression_of(variables: &Variables, expression: Expression<NameIndex>) -> u64
    ensures { result ≡ expression_value variables.now expression }
{
    match expression {
        Expression::Term(term) => value_of(variables, term),
        Expression::Sum(a, b) => value_of(variables, a).wrapping_add(value_of(variables, b)),
        Expression::Difference(a, b) => value_of(variables, a).wrapping_sub(value_of(variables, b)),
    }
}
