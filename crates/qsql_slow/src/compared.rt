//! Generated texts, answered by both.

use crate::by_group::push_by;
use crate::generated::Texts;
use crate::slow::{NULL, Slow, column_of, kept_rows, value_of};
use crate::trades::{COUNT, rows};
use day_rows::Schema;
use q_shown::{letter, push_value};
use q_values::Kind;
use qsql_eval::{Rows, Typed, check, eval};
use qsql_parse::parse;
use qsql_request::{Col, Query, Request, name_of_column};
use schema_text::built_in_schema;
use std::alloc::Global;
use std::process::Abort;

// How many texts are answered.
const WANTED: u32 = 1000;

// How many texts are made at most: some of them are refused.
const MOST_SEEDS: u64 = 4000;

// The number as its kind stores it.
fn stored(kind: Kind, number: i64) -> i64 {
    match kind {
        Kind::Long | Kind::Timespan | Kind::Timestamp => number,
        _ => if number == NULL {
            i64::from(i32::MIN)
        } else {
            number
        },
    }
}

// Puts these bytes at the end of a text.
pub(crate) fn put(rt: &impl Abort, out: &mut Vec<u8>, bytes: &[u8]) {
    out.extend_from_slice(bytes).expect(rt, "memory");
}

fn push_number(rt: &impl Abort, alloc: Global, out: &mut Vec<u8>, kind: Kind, number: i64) {
    if kind == Kind::Symbol {
        match u8::try_from(number) {
            Ok(letter) if letter > 0 => out.push(letter).expect(rt, "memory"),
            _ => {}
        }
        return;
    }
    let number = stored(kind, number);
    let text = format!(in alloc; "{number}").expect(rt, "memory");
    put(rt, out, text.as_bytes());
}

pub(crate) fn push_list(
    rt: &impl Abort,
    alloc: Global,
    out: &mut Vec<u8>,
    kind: Kind,
    items: &[i64],
) {
    put(rt, out, letter(kind));
    put(rt, out, b"[");
    let mut is_first = true;
    for item in items {
        if !is_first {
            put(rt, out, b" ");
        }
        is_first = false;
        push_number(rt, alloc, out, kind, *item);
    }
    put(rt, out, b"]")
}

fn push_slow(rt: &impl Abort, alloc: Global, out: &mut Vec<u8>, value: &Slow) {
    match (value.is_atom, value.items.first()) {
        (true, Some(number)) => {
            put(rt, out, letter(value.kind));
            put(rt, out, b":");
            push_number(rt, alloc, out, value.kind, *number)
        }
        _ => push_list(rt, alloc, out, value.kind, &value.items),
    }
}

// The items that `[n]` leaves.
fn limited<'a>(items: &'a [i64], first: &Option<i64>) -> &'a [i64] {
    let Some(number) = first else {
        return items;
    };
    let count = (number.unsigned_abs() as usize).min(items.len());
    if *number < 0 {
        &items[items.len() - count..]
    } else {
        &items[..count]
    }
}

// A column of a `select`: an atom is in each of the rows.
fn push_column(
    rt: &impl Abort,
    alloc: Global,
    out: &mut Vec<u8>,
    value: &Slow,
    count: usize,
    first: &Option<i64>,
) {
    match (value.is_atom, value.items.first()) {
        (true, Some(number)) => {
            let many = vec![in alloc; *number; count].expect(rt, "memory");
            push_list(rt, alloc, out, value.kind, limited(&many, first))
        }
        _ => push_list(rt, alloc, out, value.kind, limited(&value.items, first)),
    }
}

fn is_every_atom(values: &[Slow]) -> bool {
    for value in values {
        if !value.is_atom {
            return false;
        }
    }
    true
}

pub(crate) fn values_of(
    rt: &impl Abort,
    alloc: Global,
    columns: &[Col],
    rows: &Rows,
    kept: &[usize],
) -> Vec<Slow> {
    let mut values = Vec::new(alloc);
    for column in columns {
        values
            .push(value_of(rt, alloc, &column.expr, rows, kept))
            .expect(rt, "memory");
    }
    values
}

// A `select` that names its columns.
fn push_select(
    rt: &impl Abort,
    alloc: Global,
    out: &mut Vec<u8>,
    query: &Query,
    rows: &Rows,
    kept: &[usize],
) {
    let columns = query.columns.as_slice();
    let values = values_of(rt, alloc, columns, rows, kept);
    let count = if is_every_atom(&values) {
        1
    } else {
        kept.len()
    };
    let mut is_first = true;
    for (column, value) in columns.iter().zip(values.iter()) {
        if !is_first {
            put(rt, out, b" ");
        }
        is_first = false;
        put(rt, out, name_of_column(column));
        put(rt, out, b"=");
        push_column(rt, alloc, out, value, count, &query.first);
    }
}

// A `select` that names no columns: those of `trade` after `date`.
fn push_every_column(
    rt: &impl Abort,
    alloc: Global,
    out: &mut Vec<u8>,
    query: &Query,
    rows: &Rows,
    kept: &[usize],
) {
    let texts: [&[u8]; 5] = [b"date", b"time", b"sym", b"price", b"size"];
    let mut is_first = true;
    for text in texts {
        if !is_first {
            put(rt, out, b" ");
        }
        is_first = false;
        put(rt, out, text);
        put(rt, out, b"=");
        let value = column_of(rt, alloc, rows, text, kept);
        push_column(rt, alloc, out, &value, kept.len(), &query.first);
    }
}

fn push_names(rt: &impl Abort, out: &mut Vec<u8>, columns: &[Col]) {
    put(rt, out, b"s[");
    let mut is_first = true;
    for column in columns {
        if !is_first {
            put(rt, out, b" ");
        }
        is_first = false;
        put(rt, out, name_of_column(column));
    }
    put(rt, out, b"]!")
}

// The kind of values that are all atoms of one kind.
fn one_kind(values: &[Slow]) -> Option<Kind> {
    let kind = values.first()?.kind;
    for value in values {
        if !value.is_atom || value.kind != kind {
            return None;
        }
    }
    Some(kind)
}

fn push_together(rt: &impl Abort, alloc: Global, out: &mut Vec<u8>, values: &[Slow]) {
    match one_kind(values) {
        Some(kind) => {
            let mut items = Vec::new(alloc);
            for value in values {
                items.extend_from_slice(&value.items).expect(rt, "memory");
            }
            push_list(rt, alloc, out, kind, &items)
        }
        None => {
            for value in values {
                push_slow(rt, alloc, out, value);
                put(rt, out, b";");
            }
        }
    }
}

fn push_exec(
    rt: &impl Abort,
    alloc: Global,
    out: &mut Vec<u8>,
    query: &Query,
    rows: &Rows,
    kept: &[usize],
) {
    let columns = query.columns.as_slice();
    let values = values_of(rt, alloc, columns, rows, kept);
    if let [value] = values.as_slice() {
        push_slow(rt, alloc, out, value);
        return;
    }
    push_names(rt, out, columns);
    push_together(rt, alloc, out, &values)
}

fn slow_answer(rt: &impl Abort, alloc: Global, query: &Query, rows: &Rows) -> Vec<u8> {
    let mut out = Vec::new(alloc);
    let kept = kept_rows(rt, alloc, query.phrases.as_slice(), rows, COUNT);
    if !query.by.is_empty() {
        push_by(rt, alloc, &mut out, query, rows, &kept);
    } else if query.exec {
        push_exec(rt, alloc, &mut out, query, rows, &kept);
    } else if query.columns.is_empty() {
        push_every_column(rt, alloc, &mut out, query, rows, &kept);
    } else {
        push_select(rt, alloc, &mut out, query, rows, &kept);
    }
    out
}

fn answer(rt: &impl Abort, alloc: Global, typed: &Typed, rows: &Rows) -> Vec<u8> {
    if !typed.fits(alloc, rows).expect(rt, "memory") {
        panic!(rt; "rows without the columns");
    }
    let value = eval(alloc, typed, rows).expect(rt, "memory");
    let mut out = Vec::new(alloc);
    push_value(alloc, &mut out, &value).expect(rt, "memory");
    out
}

// Whether both answers to the text are equal; `None` where the text is refused.
fn is_same_answer(
    rt: &impl Abort,
    alloc: Global,
    schema: &Schema,
    rows: &Rows,
    text: &[u8],
) -> Option<bool> {
    let Ok(request) = parse(alloc, text) else {
        return None;
    };
    let Request::Query(query) = &request else {
        return None;
    };
    let Ok(typed) = check(alloc, query, schema) else {
        return None;
    };
    let found = answer(rt, alloc, &typed, rows);
    let wanted = slow_answer(rt, alloc, query, rows);
    Some(found == wanted)
}

// Stops unless as many texts as are wanted are answered, of those that these seeds make.
fn assert_answered(rt: &impl Abort, alloc: Global, has_by: bool) {
    let schema = built_in_schema(alloc).expect(rt, "memory");
    let rows = rows(rt, alloc);
    let mut answered = 0u32;
    for seed in 0..MOST_SEEDS {
        let mut texts = Texts::new(alloc, seed);
        if has_by {
            texts.query_by(rt);
        } else {
            texts.query(rt);
        }
        if answered == WANTED {
            return;
        }
        if let Some(is_same) = is_same_answer(rt, alloc, &schema, &rows, &texts.text) {
            assert!(rt; is_same, "the text of seed {seed} has two answers");
            answered = answered.saturating_add(1);
        }
    }
    assert!(rt; answered == WANTED, "{answered} texts were answered");
}

#[test]
fn a_thousand_texts(rt: HostRuntime) {
    assert_answered(&rt, rt.alloc(), false)
}

#[test]
fn a_thousand_texts_with_by(rt: HostRuntime) {
    assert_answered(&rt, rt.alloc(), true)
}
