//! Rows of a side, each field as a number.

/// The null of each field.
pub(crate) const NULL: i64 = i64::MIN;

/// A row of `trade` or of `quote`.
#[derive(Clone, Copy, Drop)]
pub(crate) struct Row {
    /// Days after 2000.01.01.
    pub date: i64,
    /// Nanoseconds after midnight.
    pub time: i64,
    /// The letter that the symbol consists of.
    pub sym: i64,
    /// The price of a trade, the bid of a quote.
    pub number: i64,
}

/// One of the fields of a row.
#[derive(Clone, Copy, Drop)]
pub(crate) enum Field {
    /// The date.
    Day,
    /// The time.
    Moment,
    /// The symbol.
    Letter,
    /// The price or the bid.
    Number,
}

/// The row's item in this field.
pub(crate) fn item(row: &Row, field: Field) -> i64 {
    match field {
        Field::Day => row.date,
        Field::Moment => row.time,
        Field::Letter => row.sym,
        Field::Number => row.number,
    }
}
