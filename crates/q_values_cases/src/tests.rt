//! Tests with values from outside.
use q_values::{
    Atom, ByteKind, Column, IntegerKind, Kind, Limits, LongKind, Places, Sequence, Storage, Sym,
    SymRefusal, Symbols, Value, Values, Vector, VectorRefusal,
};
use std::alloc::Global;
use std::process::Abort;

fn booleans(rt: &impl Abort, alloc: Global, items: &[bool]) -> Vector {
    Vector::from_column(Column::Booleans(Vec::from_slice(alloc, items).expect(rt, "memory")))
}

fn bytes(rt: &impl Abort, alloc: Global, kind: ByteKind, items: &[u8]) -> Vector {
    let items = Vec::from_slice(alloc, items).expect(rt, "memory");
    Vector::from_column(Column::Bytes(kind, items))
}

fn shorts(rt: &impl Abort, alloc: Global, items: &[i16]) -> Vector {
    Vector::from_column(Column::Shorts(Vec::from_slice(alloc, items).expect(rt, "memory")))
}

fn integers(rt: &impl Abort, alloc: Global, kind: IntegerKind, items: &[i32]) -> Vector {
    let items = Vec::from_slice(alloc, items).expect(rt, "memory");
    Vector::from_column(Column::Integers(kind, items))
}

fn longs(rt: &impl Abort, alloc: Global, kind: LongKind, items: &[i64]) -> Vector {
    let items = Vec::from_slice(alloc, items).expect(rt, "memory");
    Vector::from_column(Column::Longs(kind, items))
}

fn symbols(rt: &impl Abort, alloc: Global, items: &[&str]) -> Vector {
    let mut found = Vector::new(alloc, Kind::Symbol);
    for item in items {
        found
            .push(Atom::Symbol(Sym::of(alloc, item.as_bytes()).expect(rt, "memory")))
            .expect(rt, "memory");
    }
    found
}

/// The stable order of a vector, its items 1 and 2, and its items 3, 0 and 0.
#[derive(Drop)]
struct Cuts {
    order: Places,
    part: Vector,
    picked: Vector,
}

fn cuts_of(rt: &impl Abort, alloc: Global, vector: &Vector) -> Cuts {
    assert!(rt; vector.len() > 3);
    let order = vector.order(alloc).expect(rt, "memory");
    let part = vector.take(alloc, 1, 2).expect(rt, "memory");
    let picked = vector.gather(alloc, &[3, 0, 0]).expect(rt, "memory");
    Cuts {
        order,
        part,
        picked,
    }
}

fn are_booleans(vector: &Vector, items: &[bool]) -> bool {
    matches!(vector.column(), Column::Booleans(found) if found.as_slice() == items)
}

fn are_bytes(vector: &Vector, kind: ByteKind, items: &[u8]) -> bool {
    matches!(vector.column(), Column::Bytes(k, found) if *k == kind && found.as_slice() == items)
}

fn are_shorts(vector: &Vector, items: &[i16]) -> bool {
    matches!(vector.column(), Column::Shorts(found) if found.as_slice() == items)
}

fn are_integers(vector: &Vector, kind: IntegerKind, items: &[i32]) -> bool {
    matches!(vector.column(), Column::Integers(k, found) if *k == kind && found.as_slice() == items)
}

fn are_longs(vector: &Vector, kind: LongKind, items: &[i64]) -> bool {
    matches!(vector.column(), Column::Longs(k, found) if *k == kind && found.as_slice() == items)
}

fn are_texts(symbols: &Symbols, items: &[&str]) -> bool {
    if symbols.len() != items.len() {
        return false;
    }
    (0..items.len()).all(|i| symbols.get(i) == Some(items[i].as_bytes()))
}

fn are_symbols(vector: &Vector, items: &[&str]) -> bool {
    match vector.column() {
        Column::Symbols(symbols) => are_texts(symbols, items),
        _ => false,
    }
}

fn assert_booleans(rt: &impl Abort, alloc: Global) {
    let vector = booleans(rt, alloc, &[true, false, true, false, true, false]);
    let cuts = cuts_of(rt, alloc, &vector);
    assert_eq!(rt; cuts.order.as_slice(), &[1, 3, 5, 0, 2, 4][..]);
    assert!(rt; are_booleans(&cuts.part, &[false, true]));
    assert!(rt; are_booleans(&cuts.picked, &[false, true, true]));
}

fn assert_bytes(rt: &impl Abort, alloc: Global, kind: ByteKind) {
    let vector = bytes(rt, alloc, kind, &[3, 0, 3, 1, 255, 254]);
    let cuts = cuts_of(rt, alloc, &vector);
    assert_eq!(rt; cuts.order.as_slice(), &[1, 3, 0, 2, 5, 4][..]);
    assert!(rt; are_bytes(&cuts.part, kind, &[0, 3]));
    assert!(rt; are_bytes(&cuts.picked, kind, &[1, 3, 3]));
}

fn assert_shorts(rt: &impl Abort, alloc: Global) {
    let vector = shorts(rt, alloc, &[3, i16::MIN, 3, 1, i16::MAX, -32767]);
    let cuts = cuts_of(rt, alloc, &vector);
    assert_eq!(rt; cuts.order.as_slice(), &[1, 5, 3, 0, 2, 4][..]);
    assert!(rt; are_shorts(&cuts.part, &[i16::MIN, 3]));
    assert!(rt; are_shorts(&cuts.picked, &[1, 3, 3]));
}

fn assert_integers(rt: &impl Abort, alloc: Global, kind: IntegerKind) {
    let vector = integers(rt, alloc, kind, &[3, i32::MIN, 3, 1, i32::MAX, -2147483647]);
    let cuts = cuts_of(rt, alloc, &vector);
    assert_eq!(rt; cuts.order.as_slice(), &[1, 5, 3, 0, 2, 4][..]);
    assert!(rt; are_integers(&cuts.part, kind, &[i32::MIN, 3]));
    assert!(rt; are_integers(&cuts.picked, kind, &[1, 3, 3]));
}

fn assert_longs(rt: &impl Abort, alloc: Global, kind: LongKind) {
    let vector = longs(
        rt,
        alloc,
        kind,
        &[3, i64::MIN, 3, 1, i64::MAX, -9223372036854775807],
    );
    let cuts = cuts_of(rt, alloc, &vector);
    assert_eq!(rt; cuts.order.as_slice(), &[1, 5, 3, 0, 2, 4][..]);
    assert!(rt; are_longs(&cuts.part, kind, &[i64::MIN, 3]));
    assert!(rt; are_longs(&cuts.picked, kind, &[1, 3, 3]));
}

fn assert_symbols(rt: &impl Abort, alloc: Global) {
    let vector = symbols(rt, alloc, &["b", "", "b", "a", "zz", "ab"]);
    let cuts = cuts_of(rt, alloc, &vector);
    assert_eq!(rt; cuts.order.as_slice(), &[1, 3, 5, 0, 2, 4][..]);
    assert!(rt; are_symbols(&cuts.part, &["", "b"]));
    assert!(rt; are_symbols(&cuts.picked, &["a", "b", "b"]));
}

/// Each kind, with its null and the ends of its numbers.
#[test]
fn orders_and_cuts_each_kind(rt: HostRuntime) {
    let alloc = rt.alloc();
    assert_booleans(&rt, alloc);
    assert_bytes(&rt, alloc, ByteKind::Byte);
    assert_bytes(&rt, alloc, ByteKind::Character);
    assert_shorts(&rt, alloc);
    assert_integers(&rt, alloc, IntegerKind::Integer);
    assert_integers(&rt, alloc, IntegerKind::Month);
    assert_integers(&rt, alloc, IntegerKind::Date);
    assert_integers(&rt, alloc, IntegerKind::Minute);
    assert_integers(&rt, alloc, IntegerKind::Second);
    assert_integers(&rt, alloc, IntegerKind::Time);
    assert_longs(&rt, alloc, LongKind::Long);
    assert_longs(&rt, alloc, LongKind::Timestamp);
    assert_longs(&rt, alloc, LongKind::Timespan);
    assert_symbols(&rt, alloc)
}

#[test]
fn refusals(rt: HostRuntime) {
    let alloc = rt.alloc();
    assert!(&rt; matches!(&Sym::of(alloc, &[0x61, 0]), Err(SymRefusal::HasNul(1))));
    let dates = integers(&rt, alloc, IntegerKind::Date, &[1]);
    let mut vector = longs(&rt, alloc, LongKind::Long, &[3, i64::MIN, 3, 1]);
    assert_eq!(&rt;
        vector.push(Atom::Integer(7)),
        Err(VectorRefusal::KindMismatch)
    );
    assert_eq!(&rt; vector.append(&dates), Err(VectorRefusal::KindMismatch));
    assert!(&rt; are_longs(&vector, LongKind::Long, &[3, i64::MIN, 3, 1]));
}

/// Appends three items from index 1 on, and then none.
fn append_three(rt: &impl Abort, vector: &mut Vector, more: &Vector) {
    assert!(rt; more.len() > 3);
    vector.append_part(more, 1, 3).expect(rt, "memory");
    vector.append_part(more, 1, 0).expect(rt, "memory");
}

#[test]
fn appends_symbols(rt: HostRuntime) {
    let alloc = rt.alloc();
    let more = symbols(&rt, alloc, &["zz", "cd", "", "e", "f"]);
    let mut joined = symbols(&rt, alloc, &["b"]);
    append_three(&rt, &mut joined, &more);
    assert!(&rt; are_symbols(&joined, &["b", "cd", "", "e"]));
    joined.append(&more).expect(&rt, "memory");
    assert!(&rt; are_symbols(&joined, &["b", "cd", "", "e", "zz", "cd", "", "e", "f"]));
    assert_eq!(&rt; joined.len(), 9);
    assert!(&rt;
        matches!(&joined.at(alloc, 1).expect(&rt, "memory"), Atom::Symbol(name) if name.bytes() == b"cd".as_slice())
    );
}

#[test]
fn appends_longs(rt: HostRuntime) {
    let alloc = rt.alloc();
    let more = longs(&rt, alloc, LongKind::Long, &[1, 2, 3, 4, 5]);
    let mut joined = longs(&rt, alloc, LongKind::Long, &[7]);
    append_three(&rt, &mut joined, &more);
    assert!(&rt; are_longs(&joined, LongKind::Long, &[7, 2, 3, 4]));
}

/// The type numbers of KX's Datatypes reference, and how wide each kind is in a message.
#[test]
fn type_numbers(rt: HostRuntime) {
    for (number, width) in [
        (1, 1),
        (4, 1),
        (5, 2),
        (6, 4),
        (7, 8),
        (10, 1),
        (11, 0),
        (12, 8),
        (13, 4),
        (14, 4),
        (16, 8),
        (17, 4),
        (18, 4),
        (19, 4),
    ] {
        let kind = Kind::from_type_number(number).expect(&rt, "a kind");
        assert_eq!(rt; u16::from(kind.type_number()), number);
        assert_eq!(rt; kind.width(), width);
    }
    for number in [0, 2, 3, 8, 9, 15, 20, 98, 256] {
        assert!(rt; Kind::from_type_number(number).is_none());
    }
    assert_eq!(rt;
        Kind::Second.storage(),
        Storage::Integer(IntegerKind::Second)
    );
}

#[test]
fn lists_of_values(rt: HostRuntime) {
    let alloc = rt.alloc();
    let mut values = Values::new(alloc);
    values
        .push(Value::Atom(Atom::Minute(570)))
        .expect(&rt, "memory");
    values.push(Value::Identity).expect(&rt, "memory");
    assert_eq!(&rt; values.len(), 2);
    assert!(&rt; matches!(values.get(0), Some(Value::Atom(Atom::Minute(570)))));
    assert!(&rt; matches!(values.at(1), Value::Identity));
    assert!(&rt; values.get(2).is_none());
    assert_eq!(&rt; values.iter().count(), 2);
}

#[test]
fn lists_of_numbers(rt: HostRuntime) {
    let mut numbers: Sequence<u32> = Sequence::new(rt.alloc());
    assert!(&rt; numbers.is_empty());
    numbers.push(4).expect(&rt, "memory");
    assert_eq!(&rt; numbers.as_slice(), [4].as_slice());
    assert_eq!(&rt; numbers.get(0), Some(&4));
    assert_eq!(&rt; numbers.iter().count(), 1);
    assert_eq!(&rt; Limits::standard().symbol, 256);
}

#[test]
fn lists_of_a_vector(rt: HostRuntime) {
    let alloc = rt.alloc();
    let items = Vec::from_slice(alloc, &[4u32, 7]).expect(&rt, "memory");
    let mut numbers = Sequence::from_vec(alloc, items).expect(&rt, "memory");
    numbers.push(1).expect(&rt, "memory");
    assert_eq!(&rt; numbers.into_vec().as_slice(), [4, 7, 1].as_slice());
    let none: Sequence<u32> = Sequence::from_vec(alloc, Vec::new(alloc)).expect(&rt, "memory");
    assert!(&rt; none.is_empty());
    assert_eq!(&rt; none.into_vec().len(), 0);
}

#[test]
fn atoms_of_a_vector(rt: HostRuntime) {
    let alloc = rt.alloc();
    let sizes = longs(&rt, alloc, LongKind::Long, &[3]);
    assert!(&rt;
        matches!(
            sizes.get(alloc, 0).expect(&rt, "memory"),
            Some(Atom::Long(3))
        )
    );
    assert!(&rt; sizes.get(alloc, 1).expect(&rt, "memory").is_none());
}
