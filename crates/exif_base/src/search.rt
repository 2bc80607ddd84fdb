//! A byte looked for among others.

ghost use Rattle.std.specs.Prelude.{◌≡◌, ◌≢◌, ◌+◌, ◌<◌, ◌≤◌, ℕ, length, slice_index};

use memchr::memchr;

/// How many bytes from `at` on and before `end` come before the first `stop`, at most `most`.
pub fn others_between(bytes: &[u8], at: usize, end: usize, stop: u8, most: u64) -> usize
    requires start { at ≤ end }
    requires end { end ≤ length bytes.now }
    ensures most { result ≤ most }
    ensures bound { at + result ≤ end }
    ensures others { (k : ℕ) → k < result → slice_index bytes.now (at + k) ≢ stop }
{
    let between = &bytes[at..end];
    let room = most.min(between.len() as u64) as usize;
    memchr(stop, &between[..room]).unwrap_or(room)
}
