//! The kinds of the verbs' results, worked out apart from this code, as the letters of the kinds (KX, Datatypes reference).
//!
//! A table has a line for each kind at the left and a letter for each kind at the right, both in the order of [`KINDS`];
//! `.` means that the verb doesn't take the two kinds.

use q_verbs::{Verb, Verb1};

/// The letters of the kinds.
pub(crate) const KINDS: &str = "bxhijcspmdnuvt";

// `+`
const SUMS: [&str; 14] = [
    "i.iij..pmdnuvt", // boolean
    "..............", // byte
    "i.iij..pmdnuvt", // short
    "i.iij..pmdnuvt", // int
    "j.jjj..pmdnuvt", // long
    "..............", // char
    "..............", // symbol
    "p.ppp.....p...", // timestamp
    "m.mmm.........", // month
    "d.ddd.....p...", // date
    "n.nnn..p.pn...", // timespan
    "u.uuu......u..", // minute
    "v.vvv.......v.", // second
    "t.ttt........t", // time
];

// `-`
const DIFFERENCES: [&str; 14] = [
    "i.iij.........", // boolean
    "..............", // byte
    "i.iij.........", // short
    "i.iij.........", // int
    "j.jjj.........", // long
    "..............", // char
    "..............", // symbol
    "p.ppp..n..p...", // timestamp
    "m.mmm...i.....", // month
    "d.ddd....i....", // date
    "n.nnn.....n...", // timespan
    "u.uuu......u..", // minute
    "v.vvv.......v.", // second
    "t.ttt........t", // time
];

// `*`
const PRODUCTS: [&str; 14] = [
    "i.iij.....nuvt", // boolean
    "..............", // byte
    "i.iij.....nuvt", // short
    "i.iij.....nuvt", // int
    "j.jjj.....nuvt", // long
    "..............", // char
    "..............", // symbol
    "..............", // timestamp
    "..............", // month
    "..............", // date
    "n.nnn.........", // timespan
    "u.uuu.........", // minute
    "v.vvv.........", // second
    "t.ttt.........", // time
];

// `div`
const QUOTIENTS: [&str; 14] = [
    "i.iii.........", // boolean
    "..............", // byte
    "i.iii.........", // short
    "i.iii.........", // int
    "j.jjj.........", // long
    "..............", // char
    "..............", // symbol
    "..............", // timestamp
    "..............", // month
    "..............", // date
    "..............", // timespan
    "..............", // minute
    "..............", // second
    "..............", // time
];

// `mod`
const REMAINDERS: [&str; 14] = [
    "i.iij.........", // boolean
    "..............", // byte
    "i.iij.........", // short
    "i.iij.........", // int
    "j.jjj.........", // long
    "..............", // char
    "..............", // symbol
    "..............", // timestamp
    "..............", // month
    "..............", // date
    "..............", // timespan
    "..............", // minute
    "..............", // second
    "..............", // time
];

// `xbar`
const MULTIPLES: [&str; 14] = [
    "i.iij..pmdnuvt", // boolean
    "..............", // byte
    "i.iij..pmdnuvt", // short
    "i.iij..pmdnuvt", // int
    "j.jjj..pmdnuvt", // long
    "..............", // char
    "..............", // symbol
    "..............", // timestamp
    "..............", // month
    "..............", // date
    ".......p..n...", // timespan
    "..............", // minute
    "..............", // second
    "..............", // time
];

// `&` and `|`
const CHOICES: [&str; 14] = [
    "b.hij.........", // boolean
    ".x............", // byte
    "h.hij.........", // short
    "i.iij.........", // int
    "j.jjj.........", // long
    "..............", // char
    "..............", // symbol
    ".......p......", // timestamp
    "........m.....", // month
    ".........d....", // date
    "..........n...", // timespan
    "...........u..", // minute
    "............v.", // second
    ".............t", // time
];

// `= <> < > <= >= in within`
const COMPARISONS: [&str; 14] = [
    "bbbbb.........", // boolean
    "bbbbb.........", // byte
    "bbbbb.........", // short
    "bbbbb.........", // int
    "bbbbb.........", // long
    ".....b........", // char
    "......b.......", // symbol
    ".......b......", // timestamp
    "........b.....", // month
    ".........b....", // date
    "..........b...", // timespan
    "...........b..", // minute
    "............b.", // second
    ".............b", // time
];

// `like`
const MATCHES: [&str; 14] = [
    "..............", // boolean
    "..............", // byte
    "..............", // short
    "..............", // int
    "..............", // long
    "..............", // char
    ".....b........", // symbol
    "..............", // timestamp
    "..............", // month
    "..............", // date
    "..............", // timespan
    "..............", // minute
    "..............", // second
    "..............", // time
];

/// The table of each verb with two sides.
pub(crate) const TWO_SIDES: [(Verb, &[&str]); 17] = [
    (Verb::Add, &SUMS),
    (Verb::Sub, &DIFFERENCES),
    (Verb::Mul, &PRODUCTS),
    (Verb::Div, &QUOTIENTS),
    (Verb::Mod, &REMAINDERS),
    (Verb::Xbar, &MULTIPLES),
    (Verb::Eq, &COMPARISONS),
    (Verb::Ne, &COMPARISONS),
    (Verb::Lt, &COMPARISONS),
    (Verb::Gt, &COMPARISONS),
    (Verb::Le, &COMPARISONS),
    (Verb::Ge, &COMPARISONS),
    (Verb::Lesser, &CHOICES),
    (Verb::Greater, &CHOICES),
    (Verb::In, &COMPARISONS),
    (Verb::Within, &COMPARISONS),
    (Verb::Like, &MATCHES),
];

/// The line of each verb with one side.
pub(crate) const ONE_SIDE: [(Verb1, &str); 9] = [
    (Verb1::Not, "bbbbb........."),
    (Verb1::Neg, "i.hij.....nuvt"),
    (Verb1::Count, "jjjjjjjjjjjjjj"),
    (Verb1::Sum, "i.iij.....n..."),
    (Verb1::Min, "bxhij..pmdnuvt"),
    (Verb1::Max, "bxhij..pmdnuvt"),
    (Verb1::First, "bxhijcspmdnuvt"),
    (Verb1::Last, "bxhijcspmdnuvt"),
    (Verb1::Distinct, "bxhijcspmdnuvt"),
];
