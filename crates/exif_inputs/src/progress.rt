//! A line of progress.

ghost use Rattle.std.specs.Prelude.{◌≡◌, IfOk, None, Some, false, is_some, string_bytes, true};
ghost use Rattle.exif_decisions.specs.Tallies.{one_more};
ghost use Rattle.exif_base.specs.Sent.{Sends};
ghost use Rattle.exif_inputs.specs.Progress.{cleared_line, step_line};

use exif::Sink;
use exif_base::send_all;
use exif_decisions::is_line_due;
use std::alloc::{AllocError, Global};
use std::io;
use std::time::Instant;

/// How many files were done, in a line of a terminal that is written over.
#[derive(Drop)]
pub struct Progress {
    is_shown: bool,
    done: u64,
    // when the line was last written
    written: Option<Instant>,
}

impl Progress {
    /// No file is done; nothing is ever written where the line is not shown.
    pub fn new(is_shown: bool) -> Progress {
        Progress {
            is_shown,
            done: 0,
            written: None,
        }
    }

    /// Another file is done, and so many are left.
    pub fn step<E: Sink>(&mut self, rt: &HostRuntime, waiting: usize, err: &mut E) -> io::Result<()>
        ensures done { self.new.done ≡ one_more self.old.done }
        ensures hidden { self.old.is_shown ≡ false → err.new ≡ err.old }
    {
        self.done = self.done.saturating_add(1);
        if !self.is_shown || !self.is_due(Instant::now(rt)?) {
            return Ok(());
        }
        let line = step_line(rt.alloc(), self.done, waiting)?;
        send_all(err, line.as_bytes())
    }

    // Whether the line is to be written again now. It counts as written then.
    fn is_due(&mut self, now: Instant) -> bool
        ensures first { is_some self.old.written ≡ false → result ≡ true }
        ensures written { result ≡ true → self.new ≡ record self.old { written = Some now } }
        ensures kept { result ≡ false → self.new ≡ self.old }
    {
        let since = match self.written {
            Some(last) => Some(now.saturating_duration_since(last).as_millis()),
            None => None,
        };
        let is_due = is_line_due(since);
        if is_due {
            self.written = Some(now);
        }
        is_due
    }

    /// Removes the line, so that another can be written; nothing is written where there is none.
    pub fn clear<E: Sink>(&mut self, err: &mut E) -> io::Result<()>
        ensures none { is_some self.old.written ≡ false → err.new ≡ err.old }
        ensures sent { is_some self.old.written ≡ true
            → Sends E.Sink err.old err.new result cleared_line }
        ensures cleared { self.new ≡ record self.old { written = None } }
    {
        match self.written.take() {
            Some(_time) => send_all(err, b"\r\x1b[K"),
            None => Ok(()),
        }
    }
}

// The line: how many files were done, and how many are left.
fn step_line(alloc: Global, done: u64, left: usize) -> Result<String, AllocError>
    ensures { IfOk result (λ line. string_bytes line ≡ step_line done left) }
{
    format!(in alloc; "\r\x1b[K{done} files done, {left} left")
}
