//! Logs of dates, with a crash after each call of the disk and with each call failing once.

mod faults;
mod script;
mod stops;
