//! The numbers of the files.
ghost use Rattle.std.specs.Prelude.{◌≡◌, ◌≤ℤ◌, negsuc};
ghost use Rattle.date_logs.specs.Restart as restart;

// The number of the log of 2000.01.01, day 0.
const FIRST_LOG: i64 = 1_000_000;

/// The number of the file of a date's log.
pub fn log_file(date: i32) -> u64
    requires { negsuc 106751 ≤ℤ date }
    ensures { result ≡ restart.log_file date }
{
    (FIRST_LOG + i64::from(date)) as u64
}
