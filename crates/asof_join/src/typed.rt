//! As-of joins that fit a schema.
ghost use Rattle.std.specs.Prelude.{◌≡◌, true};
ghost use Rattle.qsql_request.specs.Views.{query_of, source_of, aj_of};
ghost use Rattle.qsql_eval.specs.Judgement.{IsFit};
ghost use Rattle.asof_join.specs.Sides.{IsSelectOf};
ghost use Rattle.asof_join.specs.Sources.{query_of_source, is_typed_source};
ghost use Rattle.asof_join.specs.Views.{IsAjFit};

use crate::side::{Side, query_in};
use day_rows::Shape;
use qsql_eval::Typed;
use qsql_request::{AjQuery, Query};

/// An as-of join that fits the tables of its sides.
#[derive(Drop)]
pub struct AjTyped<'a> {
    /// The join.
    pub query: &'a AjQuery,
    /// The table of its left side.
    pub left_table: &'a Shape,
    /// The table of its right side.
    pub right_table: &'a Shape,
    // `select` of all of the left side's table
    left_made: Query,
    // `select` of all of the right side's table
    right_made: Query,
    pub ghost fit: { IsAjFit (aj_of query.now) left_table.now right_table.now },
    pub ghost left_fit: { IsFit left_table.now (query_of_source (aj_of query.now).left) },
    pub ghost right_fit: { IsFit right_table.now (query_of_source (aj_of query.now).right) },
    ghost left_is: { IsSelectOf (query_of_source (aj_of query.now).left).table left_made },
    ghost right_is: { IsSelectOf (query_of_source (aj_of query.now).right).table right_made },
}

impl<'a> AjTyped<'a> {
    /// A join of these sides.
    pub(crate) fn of(query: &'a AjQuery, left: Side<'a>, right: Side<'a>) -> AjTyped<'a>
        requires left { left.source.now ≡ query.now.left }
        requires right { right.source.now ≡ query.now.right }
        requires fit { IsAjFit (aj_of query.now) left.table.now right.table.now }
        ensures query { result.query.now ≡ query.now }
        ensures left { result.left_table.now ≡ left.entry.table.now }
        ensures right { result.right_table.now ≡ right.entry.table.now }
    {
        AjTyped {
            query,
            left_table: left.table,
            right_table: right.table,
            left_made: left.made,
            right_made: right.made,
        }
    }

    /// The left side as a typed query.
    pub fn left(&self) -> Typed<'_>
        ensures query { query_of result.query.now ≡ query_of_source (aj_of self.now.query.now).left }
        ensures table { result.table.now ≡ self.now.left_table.now }
        ensures typed { is_typed_source result.table.now (query_of result.query.now) ≡ true }
    {
        Typed {
            query: query_in(&self.query.left, &self.left_made),
            table: self.left_table,
        }
    }

    /// The right side as a typed query.
    pub fn right(&self) -> Typed<'_>
        ensures query { query_of result.query.now ≡ query_of_source (aj_of self.now.query.now).right }
        ensures table { result.table.now ≡ self.now.right_table.now }
        ensures typed { is_typed_source result.table.now (query_of result.query.now) ≡ true }
    {
        Typed {
            query: query_in(&self.query.right, &self.right_made),
            table: self.right_table,
        }
    }
}
