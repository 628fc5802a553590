//! What a thread does that was refused memory, before it asks again.
use std::sync::Wait;
use std::thread::Parker;
use std::time::Duration;

/// How long it sleeps, in milliseconds: so long that asking again and again costs next to nothing.
const MOMENT: u64 = 10;

/// Sleeps a moment, or less.
pub fn rest<R: Wait>(rt: &R) {
    Parker::new().park_timeout(rt, Duration::from_millis(MOMENT));
}
