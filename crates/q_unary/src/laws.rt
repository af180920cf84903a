//! What holds of the verbs, in other words than their definitions. Each law is the contract of a function with an empty
//! body.
ghost use Rattle.q_unary.specs.Laws.{SumOfJoined, LeastIsItem};

/// The sum of two lists joined is the sum of their sums, wrapped.
pub fn sum_of_joined()
    ensures { SumOfJoined }
{}

/// The result of `min` is an item, or the greatest value of the kind, and no number of the list is less.
pub fn least_is_item()
    ensures { LeastIsItem }
{}
