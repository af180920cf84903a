//! Dates as text.

use q_text::write_date;

#[test]
fn dates_in_writing(rt: HostRuntime) {
    let alloc = rt.alloc();
    let mut text = Vec::new(alloc);
    for date in [8767, -106752, 106751, 59] {
        write_date(&mut text, date).expect(&rt, "memory");
    }
    assert!(rt; text.as_slice() == b"2024.01.021707.09.222292.04.102000.02.29".as_slice());
}
