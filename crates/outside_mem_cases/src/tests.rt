//! Each device used through its trait.
use outside_api::{Clock, Got, Link, LinkFault, Recorder, Tap, TapMessage};
use outside_mem::{
    MemClock, MemLink, MemRecorder, MemTap, Moments, Piece, Pieces, Receiving, Receivings,
    SteadyClock, Taking, Takings,
};
use q_values::{Column, Columns, LongKind, Names, Sym, TableValue, Text, Turn, Vector};
use std::alloc::Global;
use std::process::Abort;

fn piece(rt: &impl Abort, alloc: Global, bytes: &[u8]) -> Piece {
    let bytes = Vec::from_slice(alloc, bytes).expect(rt, "memory");
    Piece::Bytes(Text::from_vec(alloc, bytes).expect(rt, "memory"))
}

fn read_two<L: Link>(link: &mut L) -> (Got, [u8; 2]) {
    let mut buf = [0u8; 2];
    let got = link.read(&mut buf);
    (got, buf)
}

fn write_to<L: Link>(link: &mut L, bytes: &[u8]) -> Result<(), LinkFault> {
    link.write(bytes)
}

fn moments_of<C: Clock>(clock: &mut C) -> [i64; 3] {
    [clock.now(), clock.now(), clock.now()]
}

fn note_lengths<N: Recorder>(recorder: &mut N, lengths: &[u64]) {
    for length in lengths {
        recorder.note(Turn::Answered { length: *length });
    }
}

fn pieces(rt: &impl Abort, alloc: Global) -> Pieces {
    let mut pieces = Pieces::new(alloc);
    pieces.push(piece(rt, alloc, b"abc")).expect(rt, "memory");
    pieces.push(Piece::Fault).expect(rt, "memory");
    pieces.push(piece(rt, alloc, b"")).expect(rt, "memory");
    pieces.push(Piece::Idle).expect(rt, "memory");
    pieces.push(piece(rt, alloc, b"d")).expect(rt, "memory");
    pieces
}

fn takings(rt: &impl Abort, alloc: Global) -> Takings {
    let mut takings = Takings::new(alloc);
    takings.push(Taking::Front(0)).expect(rt, "memory");
    takings.push(Taking::All).expect(rt, "memory");
    takings.push(Taking::Front(1)).expect(rt, "memory");
    takings
}

fn scripted(rt: &impl Abort, alloc: Global) -> MemLink {
    let pieces = pieces(rt, alloc);
    let takings = takings(rt, alloc);
    MemLink::script(alloc, pieces, takings)
}

fn five_reads<L: Link>(link: &mut L) -> [(Got, [u8; 2]); 5] {
    [
        read_two(link),
        read_two(link),
        read_two(link),
        read_two(link),
        read_two(link),
    ]
}

#[test]
fn idle_and_link_faults(rt: HostRuntime) {
    let mut link = scripted(&rt, rt.alloc());
    let wanted = [
        (Got::Bytes(2), *b"ab"),
        (Got::Bytes(1), *b"c\0"),
        (Got::Failed, [0, 0]),
        (Got::Idle, [0, 0]),
        (Got::Bytes(1), *b"d\0"),
    ];
    assert_eq!(rt; five_reads(&mut link), wanted);
    assert_eq!(rt; five_reads(&mut link), [(Got::End, [0, 0]); 5]);
}

#[test]
fn first_write_fails(rt: HostRuntime) {
    let mut link = scripted(&rt, rt.alloc());
    assert!(rt; write_to(&mut link, b"xy").is_err());
    assert_eq!(rt; link.taken().len(), 0);
    assert!(rt; write_to(&mut link, b"xy").is_ok());
    assert!(rt; write_to(&mut link, b"xy").is_err());
    assert_eq!(rt; link.taken(), b"xyx".as_slice());
}

#[test]
fn ample_memory_calls(rt: HostRuntime) {
    let mut recorder = MemRecorder::with_room(rt.alloc(), 2).expect(&rt, "memory");
    note_lengths(&mut recorder, &[7, 8]);
    assert!(rt; !recorder.is_full());
    note_lengths(&mut recorder, &[9]);
    assert!(rt; recorder.is_full());
    let wanted = [Turn::Answered { length: 7 }, Turn::Answered { length: 8 }];
    assert_eq!(rt; recorder.turns(), wanted.as_slice());
}

#[test]
fn last_reading_is_repeated(rt: HostRuntime) {
    let mut moments = Moments::new(rt.alloc());
    moments.push(5).expect(&rt, "memory");
    moments.push(-7).expect(&rt, "memory");
    assert_eq!(rt; moments_of(&mut MemClock::new(moments)), [5, -7, -7]);
    assert_eq!(rt; moments_of(&mut SteadyClock::new(9)), [9, 9, 9]);
}

fn rows(rt: &impl Abort, alloc: Global, price: i64) -> TapMessage {
    let mut names = Names::new(alloc);
    names
        .push(Sym::copied(alloc, b"price").expect(rt, "memory"))
        .expect(rt, "memory");
    let mut prices = Vec::new(alloc);
    prices.push(price).expect(rt, "memory");
    prices.push(price).expect(rt, "memory");
    let mut columns = Columns::new(alloc);
    columns
        .push(Vector::from_column(Column::Longs(LongKind::Long, prices)))
        .expect(rt, "memory");
    let table = Sym::copied(alloc, b"trade").expect(rt, "memory");
    let rows = TableValue { names, columns };
    TapMessage::Rows { table, rows }
}

fn tap(rt: &impl Abort, alloc: Global) -> MemTap {
    let mut receivings = Receivings::new(alloc);
    receivings.push(Receiving::Succeeds).expect(rt, "memory");
    receivings.push(Receiving::Fails).expect(rt, "memory");
    MemTap::with_room(alloc, 2, receivings).expect(rt, "memory")
}

// Whether a message is of `trade`, with two rows of this price.
fn is_kept(message: &TapMessage, price: i64) -> bool {
    let TapMessage::Rows { table, rows } = message else {
        return false;
    };
    let Some(column) = rows.columns.get(0) else {
        return false;
    };
    let is_price = match column.column() {
        Column::Longs(_, items) => items.as_slice() == [price, price].as_slice(),
        _ => false,
    };
    table.bytes() == b"trade".as_slice() && is_price
}

// It takes the first message, the third and the fourth, and has room for two.
#[test]
fn tap_with_room_for_two(rt: HostRuntime) {
    let alloc = rt.alloc();
    let mut tap = tap(&rt, alloc);
    assert!(rt; tap.take(&rows(&rt, alloc, 1)).is_ok());
    assert!(rt; tap.take(&rows(&rt, alloc, 2)).is_err());
    assert!(rt; tap.take(&rows(&rt, alloc, 3)).is_ok());
    assert!(rt; tap.faults() == 1 && !tap.is_full());
    assert!(rt; tap.take(&TapMessage::End { date: 8_767 }).is_ok());
    assert!(rt; tap.is_full());
    let kept = tap.kept();
    assert!(rt; kept.len() == 2);
    assert!(rt; is_kept(&kept[0], 1) && is_kept(&kept[1], 3));
}

#[test]
fn tap_without_room(rt: HostRuntime) {
    let alloc = rt.alloc();
    let mut tap = MemTap::without_room(alloc);
    assert!(rt; tap.take(&rows(&rt, alloc, 1)).is_ok());
    assert!(rt; tap.is_full());
}
