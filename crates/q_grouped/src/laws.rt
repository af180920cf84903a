//! What two lists joined have, from what each of them has, as an evaluation by parts needs it. Each law is the contract of a
//! function with an empty body.
ghost use Rattle.q_grouped.specs.Laws.{GroupOfJoined, CountOfJoined, SumOfJoined, LeastOfJoined, GreatestOfJoined};
ghost use Rattle.q_grouped.specs.Laws.{FirstOfJoined, LastOfJoined};

/// A group's items of rows joined are those of both parts, in order.
pub fn group_of_joined()
    ensures { GroupOfJoined }
{}

/// The count is both counts together.
pub fn count_of_joined()
    ensures { CountOfJoined }
{}

/// The sum is both sums together, each as the number that it is stored as: a sum that is read as a null is a number here.
pub fn sum_of_joined()
    ensures { SumOfJoined }
{}

/// The least item that is no null is the lesser of both, where each list has one.
pub fn least_of_joined()
    ensures { LeastOfJoined }
{}

/// The greatest item that is no null is the greater of both, where each list has one.
pub fn greatest_of_joined()
    ensures { GreatestOfJoined }
{}

/// The first item is that of the first list, where it has one, also a null, and else that of the second.
pub fn first_of_joined()
    ensures { FirstOfJoined }
{}

/// The last item is that of the second list, where it has one, also a null, and else that of the first.
pub fn last_of_joined()
    ensures { LastOfJoined }
{}
