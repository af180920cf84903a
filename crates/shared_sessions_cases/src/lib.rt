//! Tests of sessions that share one plant over a disk in memory, through `shared_sessions::serve_shared`.
//!
//! ```text
//! told         a session asks, another's update is answered, and the first one asks again; a third one is told of it; one that
//!              chooses anew is told of it first
//! threads      four feeds and four readers beside each other, each on a thread of its own
//! subscribers  two feeds and three subscribers beside each other, while a date ends
//! ```
//!
//! The clients of `threads` check their own sessions from their turns: each message had its response, each text is answered
//! with the number of rows of the chronicle's beginning that its turn names, these never get shorter, and each has all that
//! the session had been told. Those of the others, in `meeting`, wait for one another between their messages, and are checked
//! once all have ended: what each was sent is compared byte by byte, for subscribers with what the log of the closed plant has
//! (`marks`, `checks`). The expected bytes are those of the IPC reference, written out in `bytes` and put together in `trades`.
//!
//! The crate has no code outside its tests. What one session answers is in `plant_vectors`, and what the calls of `Shared`
//! answer is in `plant_shared_cases`.
#![tactic(auto)]

#[cfg(test)]
mod bytes;
#[cfg(test)]
mod checks;
#[cfg(test)]
mod clients;
#[cfg(test)]
mod marks;
#[cfg(test)]
mod meeting;
#[cfg(test)]
mod plants;
#[cfg(test)]
mod subscribers;
#[cfg(test)]
mod threads;
#[cfg(test)]
mod told;
#[cfg(test)]
mod trades;
