//! What holds of rows and of the columns that they are made of. Each law is the contract of a function with an empty body.
ghost use Rattle.qsql_eval.specs.Laws.{ColumnsAreRead, RowsAreKept};

/// A column read from the rows of columns is the column of that name.
pub fn columns_are_read()
    ensures { ColumnsAreRead }
{}

/// The rows of columns that keep the items at some indices are the rows at these indices.
pub fn rows_are_kept()
    ensures { RowsAreKept }
{}
