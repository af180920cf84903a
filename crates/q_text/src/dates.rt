//! Dates as text.
ghost use Rattle.std.specs.Prelude.{◌≡◌, ◌<◌, ◌≤◌, ◌+◌, ◌++◌, OnOk, OnErr, vec_len, vec_capacity, pos, ◌+ℤ◌, ◌≤ℤ◌};
ghost use Rattle.jiff_core.specs.Date.{epoch_day};
ghost use Rattle.q_text.specs.Dates as spec;

use jiff_core::civil::Date;
use q_values::NoMemory;

// The calendar's day for a number of days since 2000.01.01, which is 10,957 days after 1970.01.01.
fn day_of_plant(date: &i32) -> Date
    requires { spec.IsPlantDate date.now }
    ensures number { epoch_day result ≡ date.now +ℤ pos 10957 }
    ensures positive { pos 1 ≤ℤ result.year }
{
    match Date::from_unix_epoch_day(i64::from(*date) + 10_957) {
        Ok(day) => day,
        Err(_) => unreachable!(),
    }
}

// The year, month and day of a date.
fn parts_of(date: &i32) -> (u16, u8, u8)
    requires { spec.IsPlantDate date.now }
    ensures { spec.IsDay date.now result.0 result.1 result.2 }
{
    let day = day_of_plant(date);
    (day.year as u16, day.month, day.day)
}

// Appends the last two digits of a number, for which room has been reserved.
fn push_two(out: &mut Vec<u8>, number: u16)
    requires { vec_len out.old + 2 ≤ vec_capacity out.old }
    ensures items { out.new.items ≡ out.old.items ++ spec.two_digits number }
    ensures len { vec_len out.new ≡ vec_len out.old + 2 }
    ensures room { vec_capacity out.new ≡ vec_capacity out.old }
{
    out.push_reserved(48 + (number / 10 % 10) as u8);
    out.push_reserved(48 + (number % 10) as u8);
}

// Appends yyyy.mm.dd, for which room has been reserved.
fn push_date(out: &mut Vec<u8>, year: u16, month: u8, day: u8)
    requires { vec_len out.old + 10 ≤ vec_capacity out.old }
    ensures { out.new.items ≡ out.old.items ++ spec.date_text year month day }
{
    push_two(out, year / 100);
    push_two(out, year);
    out.push_reserved(b'.');
    push_two(out, u16::from(month));
    out.push_reserved(b'.');
    push_two(out, u16::from(day));
}

/// Appends a date as `yyyy.mm.dd`. The date is a number of days since 2000.01.01, within the days that a timestamp
/// reaches. Out of memory, nothing is appended.
pub fn write_date(out: &mut Vec<u8>, date: i32) -> Result<(), NoMemory>
    requires { spec.IsPlantDate date }
    ensures ok { OnOk result (spec.AppendsDate out.old.items out.new.items date) }
    ensures err { OnErr result (out.new.items ≡ out.old.items) }
{
    let (year, month, day) = parts_of(&date);
    out.reserve(10)?;
    push_date(out, year, month, day);
    Ok(())
}
