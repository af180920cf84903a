//! The two forms of symbols: at most eight bytes each, and any length.
use q_values::{Form, ShortSymbol, Sym, Symbols};
use std::alloc::Global;
use std::process::Abort;

const SHORT: [&[u8]; 4] = [b"eightbyt", b"", b"\xff\x80", b"eightby"];

const LONG: [&[u8]; 3] = [b"a", b"ninebytes", b"\xffinebytes"];

fn push(rt: &impl Abort, symbols: &mut Symbols, alloc: Global, text: &[u8]) {
    let symbol = Sym::of(alloc, text).expect(rt, "memory");
    symbols.push(symbol.bytes()).expect(rt, "memory");
}

fn symbols(rt: &impl Abort, alloc: Global, texts: &[&[u8]]) -> Symbols {
    let mut found = Symbols::new(alloc);
    for text in texts {
        push(rt, &mut found, alloc, text);
    }
    found
}

fn assert_texts(rt: &impl Abort, symbols: &Symbols, is_short: bool, texts: &[&[u8]]) {
    assert_eq!(rt; matches!(symbols.form(), Form::Short(_)), is_short);
    assert_eq!(rt; symbols.len(), texts.len());
    for i in 0..texts.len() {
        assert_eq!(rt; symbols.get(i), Some(texts[i]));
    }
}

#[test]
fn eight_bytes_are_short(rt: HostRuntime) {
    let alloc = rt.alloc();
    let mut some = symbols(&rt, alloc, &SHORT);
    assert_texts(&rt, &some, true, &SHORT);
    assert_eq!(&rt;
        some.order(alloc).expect(&rt, "memory").as_slice(),
        &[1, 3, 0, 2][..]
    );
    push(&rt, &mut some, alloc, b"ninebytes");
    let texts: [&[u8]; 5] = [b"eightbyt", b"", b"\xff\x80", b"eightby", b"ninebytes"];
    assert_texts(&rt, &some, false, &texts);
    assert_eq!(&rt;
        some.order(alloc).expect(&rt, "memory").as_slice(),
        &[1, 3, 0, 4, 2][..]
    );
}

/// Appends the symbols 1 and 2 of the others.
fn append_two(rt: &impl Abort, symbols: &mut Symbols, more: &Symbols) {
    assert!(rt; more.len() > 2);
    symbols.append_part(more, 1, 2).expect(rt, "memory")
}

/// The symbols 2, 0 and 2.
fn gather_three(rt: &impl Abort, alloc: Global, symbols: &Symbols) -> Symbols {
    assert!(rt; symbols.len() > 2);
    symbols.gather(alloc, &[2, 0, 2]).expect(rt, "memory")
}

#[test]
fn parts_between_forms(rt: HostRuntime) {
    let alloc = rt.alloc();
    let mut some = symbols(&rt, alloc, &SHORT);
    let texts: [&[u8]; 3] = [b"\xff\x80", b"eightbyt", b"\xff\x80"];
    assert_texts(&rt, &gather_three(&rt, alloc, &some), true, &texts);
    let mut other = symbols(&rt, alloc, &LONG);
    let texts: [&[u8]; 3] = [b"\xffinebytes", b"a", b"\xffinebytes"];
    assert_texts(&rt, &gather_three(&rt, alloc, &other), false, &texts);
    append_two(&rt, &mut other, &some);
    let texts: [&[u8]; 5] = [b"a", b"ninebytes", b"\xffinebytes", b"", b"\xff\x80"];
    assert_texts(&rt, &other, false, &texts);
    some.truncate(1);
    append_two(&rt, &mut some, &other);
    let texts: [&[u8]; 3] = [b"eightbyt", b"ninebytes", b"\xffinebytes"];
    assert_texts(&rt, &some, false, &texts);
}

#[test]
fn parts_after_none(rt: HostRuntime) {
    let alloc = rt.alloc();
    let mut some = Symbols::new(alloc);
    assert_texts(&rt, &some, true, &[]);
    append_two(&rt, &mut some, &symbols(&rt, alloc, &SHORT));
    assert_texts(&rt, &some, true, &[b"", b"\xff\x80"]);
    let mut other = Symbols::new(alloc);
    append_two(&rt, &mut other, &symbols(&rt, alloc, &LONG));
    assert_texts(&rt, &other, false, &[b"ninebytes", b"\xffinebytes"]);
    let mut room = Symbols::new(alloc);
    room.reserve(2).expect(&rt, "memory");
    push(&rt, &mut room, alloc, b"a");
    assert_texts(&rt, &room, true, &[b"a"]);
}

#[test]
fn symbols_of_short_ones(rt: HostRuntime) {
    let alloc = rt.alloc();
    let short = [
        ShortSymbol::before_nul(b"eightbyt"),
        ShortSymbol::before_nul(b"a\0\0\0\0\0\0\0"),
    ];
    let items = Vec::from_slice(alloc, &short).expect(&rt, "memory");
    let some = Symbols::from_short(alloc, items).expect(&rt, "memory");
    assert_texts(&rt, &some, true, &[b"eightbyt", b"a"]);
    let none = Symbols::from_short(alloc, Vec::new(alloc)).expect(&rt, "memory");
    assert_texts(&rt, &none, true, &[]);
}

/// The bytes before a 0 are a symbol, and eight bytes without one.
#[test]
fn eight_bytes_are_read(rt: HostRuntime) {
    let texts: [(&[u8; 8], &[u8]); 4] = [
        (b"ab\0cdefg", b"ab"),
        (b"\0abcdefg", b""),
        (
            b"\xff\x80\xff\x80\xff\x80\xff\0",
            b"\xff\x80\xff\x80\xff\x80\xff",
        ),
        (b"eightbyt", b"eightbyt"),
    ];
    for (bytes, text) in texts {
        let symbol = ShortSymbol::before_nul(bytes);
        assert_eq!(&rt; symbol.bytes(), text);
        assert_eq!(&rt; symbol.len(), text.len());
    }
}

/// How many symbols the test at a real size has.
const COUNT: u32 = 100_000;

/// Five digits, the first ones 0 where the number is short.
fn digits_of(n: u32) -> [u8; 5] {
    [
        b'0' + (n / 10_000 % 10) as u8,
        b'0' + (n / 1_000 % 10) as u8,
        b'0' + (n / 100 % 10) as u8,
        b'0' + (n / 10 % 10) as u8,
        b'0' + (n % 10) as u8,
    ]
}

/// Symbols of 5 to 20 bytes, in descending order: 99999, 99998x, 99997xx ..
fn many(rt: &impl Abort, alloc: Global) -> Symbols {
    let mut found = Symbols::new(alloc);
    for i in 0..COUNT {
        let mut text = [b'x'; 20];
        text[..5].copy_from_slice(&digits_of(COUNT - 1 - i));
        push(rt, &mut found, alloc, &text[..5 + (i % 16) as usize]);
    }
    found
}

/// Whether these are the symbols of `many` in ascending order.
fn ascend(symbols: &Symbols) -> bool {
    (0..COUNT).all(|i| match symbols.get(i as usize) {
        Some(text) => {
            text.len() == 5 + ((COUNT - 1 - i) % 16) as usize && text.starts_with(&digits_of(i))
        }
        None => false,
    })
}

#[test]
fn many_long_symbols(rt: HostRuntime) {
    let alloc = rt.alloc();
    let some = many(&rt, alloc);
    assert_eq!(&rt; some.bytes_len(), 1_250_000);
    let order = some.order(alloc).expect(&rt, "memory");
    assert!(&rt;
        order
            .iter()
            .enumerate()
            .all(|(i, place)| *place == 99_999usize.saturating_sub(i))
    );
    let sorted = some.gather(alloc, order.as_slice()).expect(&rt, "memory");
    assert_eq!(&rt; sorted.len(), 100_000);
    assert_eq!(&rt; sorted.bytes_len(), 1_250_000);
    assert!(&rt; ascend(&sorted));
}

/// Forty different bytes.
const FORTY: &[u8; 40] = b"abcdefghijklmnopqrstuvwxyzABCDEFGHIJKLMN";

/// Symbols of no bytes to forty, over and over, so that some are pushed where there is room, and some where there is none.
#[test]
fn symbols_of_each_length_to_forty(rt: HostRuntime) {
    let alloc = rt.alloc();
    let mut some = symbols(&rt, alloc, &[b"ninebytes"]);
    for i in 0..41_000usize {
        push(&rt, &mut some, alloc, &FORTY[..i % 41]);
    }
    assert_eq!(&rt; some.len(), 41_001);
    assert!(&rt; (0..41_000usize).all(|i| some.get(i + 1) == Some(&FORTY[..i % 41])));
}
