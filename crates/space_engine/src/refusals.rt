// How refusals are found, and how values are compared.
ghost use Rattle.std.specs.Prelude.{◌≡◌};
ghost use Rattle.space_model.specs.ObjectCommands.{is_same_value};
ghost use Rattle.space_model.specs.Refusals.{rank as rank_of, first_refusal, both as both_results};

use space_model::{Refusal, Value};

// The place of a refusal in the one order.
fn rank(why: Refusal) -> u8
    ensures { result ≡ rank_of why }
{
    match why {
        Refusal::TooLarge => 0,
        Refusal::NoRoot => 1,
        Refusal::NoWord => 2,
        Refusal::NotObject => 3,
        Refusal::NoField => 4,
        Refusal::Protected => 5,
        Refusal::NoId => 6,
        Refusal::NotMarking => 7,
        Refusal::NotCompacting => 8,
    }
}

// The refusal that comes first in the order.
fn first(why: Refusal, other: Refusal) -> Refusal
    ensures { result ≡ first_refusal why other }
{
    if rank(why) <= rank(other) { why } else { other }
}

/// Both, or the refusal that comes first in the order.
pub fn both<A: Drop, B: Drop>(
    left: Result<A, Refusal>,
    right: Result<B, Refusal>,
) -> Result<(A, B), Refusal>
    ensures { result ≡ both_results left right }
{
    match (left, right) {
        (Ok(a), Ok(b)) => Ok((a, b)),
        (Ok(_), Err(why)) => Err(why),
        (Err(why), Ok(_)) => Err(why),
        (Err(why), Err(other)) => Err(first(why, other)),
    }
}

/// Whether the two are one value.
pub fn is_same(a: Value, b: Value) -> bool
    ensures { result ≡ is_same_value a b }
{
    match (a, b) {
        (Value::Nil, Value::Nil) => true,
        (Value::Small(a), Value::Small(b)) => a == b,
        (Value::Name(a), Value::Name(b)) => a == b,
        _ => false,
    }
}
