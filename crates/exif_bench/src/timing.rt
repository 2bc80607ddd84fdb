//! How long a work takes.

use crate::work::{Work, made_by, read};
use exif::{Error, Exif};
use std::alloc::Global;
use std::rt::Clock;
use std::time::Instant;

const ROUNDS: u64 = 15;

/// What several rounds of calls took and made.
#[derive(Clone, Copy)]
pub struct Times {
    /// The shortest time of a call, in ns.
    pub best: u64,
    /// The mean time of a call, in ns.
    pub mean: u64,
    /// What all calls made, so that none is left out.
    pub made: usize,
}

// The time of each of these calls in ns, and what they made.
fn round(
    rt: &(impl Clock + AllocGlobal),
    work: Work,
    bytes: &[u8],
    exif: &Exif,
    calls: u64,
) -> Result<(u64, usize), Error> {
    let alloc: Global = rt.alloc();
    let start = Instant::now(rt)?;
    let mut made = 0usize;
    for _ in 0..calls {
        made = made.wrapping_add(made_by(alloc, work, bytes, exif));
    }
    let taken = start.elapsed(rt)?;
    let ns = taken
        .as_secs()
        .saturating_mul(1_000_000_000)
        .saturating_add(u64::from(taken.subsec_nanos()));
    Ok((ns.checked_div(calls).unwrap_or(0), made))
}

/// The times of a work on a file, over rounds of so many calls.
pub fn time(
    rt: &(impl Clock + AllocGlobal),
    work: Work,
    bytes: &[u8],
    calls: u64,
) -> Result<Times, Error> {
    let exif = read(rt.alloc(), bytes)?;
    let mut times = Times {
        best: u64::MAX,
        mean: 0,
        made: made_by(rt.alloc(), work, bytes, &exif),
    };
    let mut sum = 0u64;
    for _ in 0..ROUNDS {
        let (each, made) = round(rt, work, bytes, &exif, calls)?;
        times.best = times.best.min(each);
        times.made = times.made.wrapping_add(made);
        sum = sum.saturating_add(each);
    }
    times.mean = sum / ROUNDS;
    Ok(times)
}
