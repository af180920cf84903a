//! The verbs of the query language.

/// A verb with a left and a right side (KX, Reference card; Q for Mortals, 4).
#[derive(Clone, Copy, Debug, PartialEq, Eq)]
pub enum Verb {
    /// `+`
    Add,
    /// `-`
    Sub,
    /// `*`
    Mul,
    /// `div`: the quotient rounded down.
    Div,
    /// `mod`: the remainder of `div`, with the sign of the divisor.
    Mod,
    /// `xbar`: the greatest multiple of the left side that is not above the right side.
    Xbar,
    /// `=`
    Eq,
    /// `<>`
    Ne,
    /// `<`
    Lt,
    /// `>`
    Gt,
    /// `<=`
    Le,
    /// `>=`
    Ge,
    /// `&`: the lesser.
    Lesser,
    /// `|`: the greater.
    Greater,
    /// `in`: whether it is equal to an item of the right side.
    In,
    /// `within`: whether it lies between two, both included.
    Within,
    /// `like`: whether it matches a pattern.
    Like,
}

/// A verb with one side.
#[derive(Clone, Copy, Debug, PartialEq, Eq)]
pub enum Verb1 {
    /// `not`: whether it is 0.
    Not,
    /// `neg`
    Neg,
    /// `count`: the number of items, nulls included.
    Count,
    /// `sum`, which skips nulls.
    Sum,
    /// `min`, which skips nulls.
    Min,
    /// `max`, which skips nulls.
    Max,
    /// `first`
    First,
    /// `last`
    Last,
    /// `distinct`: of equal items the first.
    Distinct,
}
