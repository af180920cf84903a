//! The indices at which booleans hold, and how many they are.
ghost use Rattle.std.specs.Prelude.{◌≡◌, ◌<◌, ◌≤◌, List, if◌then◌else◌, length, All, IfOk};
ghost use Rattle.q_values.specs.Lists.{gathered};
ghost use Rattle.q_values.specs.declared.atom.Atom.{Atom};
ghost use Rattle.q_values.specs.declared.kind.Kind.TheVariants as k;
ghost use Rattle.q_filter.specs.Places.{count_of, places_from, places_of, kept_by};

use q_values::{Column, NoMemory, Vector};
use std::alloc::{AllocError, Global};

// 1 where it holds, else 0.
fn one_if(bit: bool) -> usize
    ensures { result ≡ (if bit then 1 else 0) }
{
    usize::from(bit)
}

/// The number of booleans of which 16 bits count those that hold.
const PART: usize = 32_768;

// The same in 16 bits.
fn one_in_16(bit: bool) -> u16
    ensures { result ≡ (if bit then 1 else 0) }
{
    u16::from(bit)
}

// How many of a part hold. The sum has 16 bits, so the compiler adds eight at a time.
fn count_in_part(bits: &[bool]) -> u16
    requires { length bits.now ≤ 32768 }
    ensures { result ≡ count_of bits.now }
{
    let mut count = 0u16;
    for bit in bits {
        count += one_in_16(*bit);
    }
    count
}

// How many of them hold.
fn count_in(bits: &[bool]) -> usize
    ensures { result ≡ count_of bits.now }
{
    let mut count = 0usize;
    let mut done = 0;
    while done + PART <= bits.len() {
        count += usize::from(count_in_part(&bits[done..done + PART]));
        done += PART;
    }
    count + usize::from(count_in_part(&bits[done..]))
}

// The index of each that holds. Each index is written, and stays where the boolean holds.
fn places_in(alloc: Global, bits: &[bool]) -> Result<Vec<usize>, AllocError>
    ensures { IfOk result (λ v. v.items ≡ places_from 0 bits.now) }
{
    let mut places = vec![in alloc; 0usize; count_in(bits) + 1]?;
    let mut kept = 0usize;
    for i in 0..bits.len() {
        places[kept] = i;
        kept += one_if(bits[i]);
    }
    places.truncate(kept);
    Ok(places)
}

/// How many of the booleans hold.
pub fn count_where(booleans: &Vector) -> usize
    requires { booleans.now.kind ≡ k.Boolean }
    ensures { result ≡ length (places_of booleans.now.atoms) }
{
    match booleans.column() {
        Column::Booleans(bits) => count_in(bits),
        _ => unreachable!(),
    }
}

/// The indices at which the booleans hold, in ascending order.
pub fn places_where(alloc: Global, booleans: &Vector) -> Result<Vec<usize>, NoMemory>
    requires { booleans.now.kind ≡ k.Boolean }
    ensures places { IfOk result (λ v. v.items ≡ places_of booleans.now.atoms) }
    ensures within { IfOk result (λ v. All (λ i. i < length booleans.now.atoms) v.items) }
    ensures gathers { IfOk result (λ v. (xs : List Atom) → length xs ≡ length booleans.now.atoms
        → gathered xs v.items ≡ kept_by booleans.now.atoms xs) }
{
    match booleans.column() {
        Column::Booleans(bits) => Ok(places_in(alloc, bits)?),
        _ => unreachable!(),
    }
}
