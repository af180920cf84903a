//! A rule's flags for the items of a column, sixteen at a time.
ghost use Rattle.std.specs.Prelude.{◌≡◌, ◌++◌, length, map, IfOk, OnOk};

use q_lanes::Rule;
use std::alloc::{AllocError, Global};

// The flags of sixteen items. They are computed before any is written, which the compiler makes a few comparisons of many
// items each.
fn sixteen<P: Rule<T, bool>, T: Copy>(rule: &P, items: &[T]) -> [bool; 16]
    requires { length items.now ≡ 16 }
    ensures { result ≡ map (P.value rule.now) items.now }
{
    let mut block = [false; 16];
    for k in 0..16 {
        block[k] = rule.apply(&items[k]);
    }
    block
}

// Appends the flags of sixteen items.
fn append_sixteen<P: Rule<T, bool>, T: Copy>(
    rule: &P,
    items: &[T],
    flags: &mut Vec<bool>,
) -> Result<(), AllocError>
    requires { length items.now ≡ 16 }
    ensures { OnOk result (flags.new.items ≡ flags.old.items ++ map (P.value rule.now) items.now) }
{
    let block = sixteen::<P, T>(rule, items);
    flags.extend_from_slice(&block)
}

/// The rule's flag for each item.
pub(crate) fn flags_of<P: Rule<T, bool>, T: Copy>(
    alloc: Global,
    rule: &P,
    items: &[T],
) -> Result<Vec<bool>, AllocError>
    ensures { IfOk result (λ v. v.items ≡ map (P.value rule.now) items.now) }
{
    let mut flags = Vec::with_capacity(alloc, items.len())?;
    let mut done = 0;
    while items.len() - done >= 16 {
        append_sixteen::<P, T>(rule, &items[done..done + 16], &mut flags)?;
        done += 16;
    }
    for i in done..items.len() {
        flags.push(rule.apply(&items[i]))?;
    }
    Ok(flags)
}
