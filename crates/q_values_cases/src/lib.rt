//! Tests of `q_values` and of `q_text` through their public calls, with values from outside.
//!
//! They stand in a crate of their own, since a crate with tests in it is proved twice. Each kind of column is ordered,
//! cut, gathered and appended at its null and at the ends of its numbers; each refusal is met once; and the conversions
//! between kinds and type numbers are those of KX's Datatypes reference.
//!
//! ```text
//! orders_and_cuts_each_kind   order, take and gather of each kind of column
//! appends_symbols             append and append_part of symbols
//! appends_longs               append_part of numbers
//! refusals                    a symbol with a zero byte, and another kind pushed or appended
//! type_numbers                each kind's type number, and none of the numbers between
//! lists_of_values             lists of values
//! lists_of_numbers            lists of numbers
//! lists_of_a_vector           lists made of a vector, and back
//! atoms_of_a_vector           the atom at an index, and after the last
//! eight_bytes_are_short       symbols of up to eight bytes, and the push of a longer one
//! parts_between_forms         append_part and gather of symbols of at most eight bytes and of longer ones
//! parts_after_none            append_part and reserve where there are no symbols yet
//! symbols_of_short_ones       symbols made of a vector of short ones
//! eight_bytes_are_read        symbols read from eight bytes
//! many_long_symbols           100,000 symbols of 5 to 20 bytes: push, order and gather
//! ```
//!
//! `literals` has literals with the values that kdb+ gives them and texts that are no literals, and `dates` dates as text. A
//! row is the text, the type number of the value (negative for an atom, as kdb+'s `type` gives it), its numbers, and the
//! offset just past the literal. An infinity or a null is given as the number that stores it.
//!
//! ```text
//! (b"1 0N -0Wh", 5, &[1, -32768, -32767], 9)     three shorts, in nine bytes
//! is_bad(alloc, b"2023.02.29", 0)                no such date
//! binds(alloc, b"a -1")                          the `-` belongs to the number
//! ```
//!
//! What no contract can say is left to them: that a call succeeds where memory is ample. The laws of literals need no
//! tests: they are contracts, in `q_text::laws`.
#![tactic(auto)]

#[cfg(test)]
mod dates;
#[cfg(test)]
mod forms;
#[cfg(test)]
mod literals;
#[cfg(test)]
mod tests;
