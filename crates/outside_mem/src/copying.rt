//! Copies of messages.
ghost use Rattle.std.specs.Prelude.{◌≡◌, IfOk};

use outside_api::TapMessage;
use q_values::{Columns, Names, NoMemory, Sym, TableValue, Vector};
use std::alloc::Global;

fn copy_names(alloc: Global, names: &Names) -> Result<Names, NoMemory>
    ensures { IfOk result (λ copied. copied ≡ names.now) }
{
    let mut copied = Names::with_capacity(alloc, names.len())?;
    for i in 0..names.len() {
        copied.push(Sym::copied(alloc, names.at(i).bytes())?)?;
    }
    Ok(copied)
}

fn copy_column(alloc: Global, column: &Vector) -> Result<Vector, NoMemory>
    ensures { IfOk result (λ copied. copied ≡ column.now) }
{
    column.take(alloc, 0, column.len())
}

fn copy_columns(alloc: Global, columns: &Columns) -> Result<Columns, NoMemory>
    ensures { IfOk result (λ copied. copied ≡ columns.now) }
{
    let mut copied = Columns::with_capacity(alloc, columns.len())?;
    for i in 0..columns.len() {
        copied.push(copy_column(alloc, columns.at(i))?)?;
    }
    Ok(copied)
}

fn copy_table(alloc: Global, table: &TableValue) -> Result<TableValue, NoMemory>
    ensures { IfOk result (λ copied. copied ≡ table.now) }
{
    let names = copy_names(alloc, &table.names)?;
    let columns = copy_columns(alloc, &table.columns)?;
    Ok(TableValue { names, columns })
}

/// A copy of a message.
pub fn copied(alloc: Global, message: &TapMessage) -> Result<TapMessage, NoMemory>
    ensures { IfOk result (λ copied. copied ≡ message.now) }
{
    match message {
        TapMessage::Rows { table, rows } => {
            let rows = copy_table(alloc, rows)?;
            let table = Sym::copied(alloc, table.bytes())?;
            Ok(TapMessage::Rows { table, rows })
        }
        TapMessage::End { date } => Ok(TapMessage::End { date: *date }),
    }
}
