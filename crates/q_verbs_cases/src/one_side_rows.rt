//! The rows of the verbs with one side, worked out apart from this code.
//!
//! A row is the column and the result, each as the letter of its kind (KX, Datatypes reference) and its items: `0N` is the
//! null, `0W` the greatest value of the kind, and a symbol has a backtick in front. One value is a column of one.

use q_verbs::Verb1;

// `not`
const NOT: [&str; 5] = [
    "b 0 1; b 1 0",
    "x 0 255; b 1 0",
    "h 0N 0W -0W -7 0; b 0 0 0 0 1",
    "i 0N 0W -0W -7 0; b 0 0 0 0 1",
    "j 0N 0W -0W -7 0; b 0 0 0 0 1",
];

// `neg`
const NEGATED: [&str; 8] = [
    "b 0 1; i 0 -1",
    "h 0N 0W -0W -7 0; h 0N -0W 0W 7 0",
    "i 0N 0W -0W -7 0; i 0N -0W 0W 7 0",
    "j 0N 0W -0W -7 0; j 0N -0W 0W 7 0",
    "n 0N 0W -0W -7 0; n 0N -0W 0W 7 0",
    "u 0N 0W -0W -7 0; u 0N -0W 0W 7 0",
    "v 0N 0W -0W -7 0; v 0N -0W 0W 7 0",
    "t 0N 0W -0W -7 0; t 0N -0W 0W 7 0",
];

// `count`
const COUNTS: [&str; 16] = [
    "b 0 1; j 2",
    "x 0 255 7; j 3",
    "h 0N 0W -7; j 3",
    "i 0N 0N; j 2",
    "j 0N 0W -0W -7 0; j 5",
    "c 32 97; j 2",
    "s ` `a `; j 3",
    "p 0N; j 1",
    "m; j 0",
    "d; j 0",
    "n; j 0",
    "u 0N 0; j 2",
    "v; j 0",
    "t -7; j 1",
    "j; j 0",
    "s; j 0",
];

// `sum`
const TOTALS: [&str; 18] = [
    "b 1 1 0; i 2",
    "b; i 0",
    "h 0N 0W 0W -7 0; i 65527",
    "h -0W -0W; i -65534",
    "h 0N; i 0",
    "h; i 0",
    "i 0N 0W 1; i 0N",
    "i -0W -7 0; i 2147483642",
    "i; i 0",
    "j 0N 5 -7 0; j -2",
    "j 0W 1; j 0N",
    "j -0W -2; j 0W",
    "j 0N 0N; j 0",
    "j; j 0",
    "n 0N 0W 1; n 0N",
    "n -0W -7; n 9223372036854775802",
    "n 0N -7 0; n -7",
    "n; n 0",
];

// `min`
const LEAST: [&str; 26] = [
    "b 1 0 1; b 0",
    "b; b 1",
    "x 7 255; x 7",
    "x; x 255",
    "h 0N 5 0W -0W -7 0; h -0W",
    "h 0N; h 0W",
    "h; h 0W",
    "i 0N 5 0W -7 0; i -7",
    "i; i 0W",
    "j 0N 5 0W -0W -7 0; j -0W",
    "j 0N 0N; j 0W",
    "j; j 0W",
    "p 0N 5 -7; p -7",
    "p; p 0W",
    "m 0N 5 -0W 0; m -0W",
    "m; m 0W",
    "d 0N 5 0; d 0",
    "d; d 0W",
    "n 0N 0W; n 0W",
    "n; n 0W",
    "u 5 -7 0N; u -7",
    "u; u 0W",
    "v 0 0N 5; v 0",
    "v; v 0W",
    "t -7 0N -0W; t -0W",
    "t; t 0W",
];

// `max`
const GREATEST: [&str; 26] = [
    "b 0 1 0; b 1",
    "b; b 0",
    "x 7 255; x 255",
    "x; x 0",
    "h 0N 5 0W -0W -7 0; h 0W",
    "h 0N; h -0W",
    "h; h -0W",
    "i 0N -7 -0W; i -7",
    "i; i -0W",
    "j 0N 5 0W -0W -7 0; j 0W",
    "j 0N 0N; j -0W",
    "j; j -0W",
    "p 0N 5 -7; p 5",
    "p; p -0W",
    "m 0N -7 0; m 0",
    "m; m -0W",
    "d 0N 5 0; d 5",
    "d; d -0W",
    "n -0W 0N; n -0W",
    "n; n -0W",
    "u 5 -7 0N; u 5",
    "u; u -0W",
    "v 0 0N 0W; v 0W",
    "v; v -0W",
    "t -7 0N -0W; t -7",
    "t; t -0W",
];

// `first`
const FIRST: [&str; 25] = [
    "b 1 0; b 1",
    "b; b 0",
    "x 7 0; x 7",
    "x; x 0",
    "h 0N 5; h 0N",
    "h; h 0N",
    "i 0W 0N; i 0W",
    "i; i 0N",
    "j -7 0N; j -7",
    "j; j 0N",
    "c 97 32; c 97",
    "c; c 32",
    "s `ab `; s `ab",
    "s; s `",
    "p 0 0N; p 0",
    "p; p 0N",
    "m -0W 5; m -0W",
    "m; m 0N",
    "d; d 0N",
    "n 0N 0; n 0N",
    "n; n 0N",
    "u; u 0N",
    "v; v 0N",
    "t 5 0N; t 5",
    "t; t 0N",
];

// `last`
const LAST: [&str; 25] = [
    "b 1 0; b 0",
    "b; b 0",
    "x 0 7; x 7",
    "x; x 0",
    "h 5 0N; h 0N",
    "h; h 0N",
    "i 0N 0W; i 0W",
    "i; i 0N",
    "j 0N -7; j -7",
    "j; j 0N",
    "c 32 97; c 97",
    "c; c 32",
    "s ` `ab; s `ab",
    "s; s `",
    "p 0N 0; p 0",
    "p; p 0N",
    "m 5 -0W; m -0W",
    "m; m 0N",
    "d; d 0N",
    "n 0 0N; n 0N",
    "n; n 0N",
    "u; u 0N",
    "v; v 0N",
    "t 0N 5; t 5",
    "t; t 0N",
];

// `distinct`
const DISTINCT: [&str; 14] = [
    "b 1 0 1 0; b 1 0",
    "x 255 0 255 7; x 255 0 7",
    "h 0N 0 0N 0W -0W 0W -7 0; h 0N 0 0W -0W -7",
    "i 0N 0 0N 0W -0W 0W -7 0; i 0N 0 0W -0W -7",
    "j 0N 0 0N 0W -0W 0W -7 0; j 0N 0 0W -0W -7",
    "c 98 32 98 97; c 98 32 97",
    "s `b ` `ab `b ` `a; s `b ` `ab `a",
    "p 0N 0 0N 0W -0W 0W -7 0; p 0N 0 0W -0W -7",
    "m 0N 0 0N 0W -0W 0W -7 0; m 0N 0 0W -0W -7",
    "d 0N 0 0N 0W -0W 0W -7 0; d 0N 0 0W -0W -7",
    "n 0N 0 0N 0W -0W 0W -7 0; n 0N 0 0W -0W -7",
    "u 0N 0 0N 0W -0W 0W -7 0; u 0N 0 0W -0W -7",
    "v 0N 0 0N 0W -0W 0W -7 0; v 0N 0 0W -0W -7",
    "t 0N 0 0N 0W -0W 0W -7 0; t 0N 0 0W -0W -7",
];

/// The rows of each verb.
pub(crate) const ONE_SIDE: [(Verb1, &[&str]); 9] = [
    (Verb1::Not, &NOT),
    (Verb1::Neg, &NEGATED),
    (Verb1::Count, &COUNTS),
    (Verb1::Sum, &TOTALS),
    (Verb1::Min, &LEAST),
    (Verb1::Max, &GREATEST),
    (Verb1::First, &FIRST),
    (Verb1::Last, &LAST),
    (Verb1::Distinct, &DISTINCT),
];
