//! Messages on standard error. Where it is closed or full they are lost, and the work goes on.

ghost use Rattle.std.specs.Prelude.{◌≡◌, IfErr};

use crate::progress::Progress;
use exif::Sink;
use exif_base::send_all;
use exif_decisions::Escaped;
use std::alloc::AllocError;
use std::fmt::Display;

/// Standard error, with a line of progress.
#[derive(Drop)]
pub struct Console<'r, E> {
    rt: &'r HostRuntime,
    err: &'r mut E,
    progress: Progress,
}

impl<'r, E: Sink> Console<'r, E> {
    /// A console on which nothing was written.
    pub fn new(rt: &'r HostRuntime, err: &'r mut E, shows_progress: bool) -> Console<'r, E> {
        Console {
            rt,
            err,
            progress: Progress::new(shows_progress),
        }
    }

    /// Writes a message about a file.
    pub fn say<T: Display>(&mut self, path: &str, what: &T) {
        let path = Escaped(path);
        let line = format!(in self.rt.alloc(); "mexaldor: {path}: {what}\n");
        self.write_made(line);
    }

    // Writes a line, if there was memory for it.
    fn write_made(&mut self, line: Result<String, AllocError>)
        ensures lost { IfErr line (λ e. self.new ≡ self.old) }
    {
        if let Ok(line) = line {
            self.write(line.as_str());
        }
    }

    /// Writes a line.
    pub fn write(&mut self, line: &str) {
        let _ = self.progress.clear(self.err);
        let _ = send_all(self.err, line.as_bytes());
    }

    /// Another file is done, and so many are left.
    pub fn step(&mut self, left: usize) {
        let _ = self.progress.step(self.rt, left, self.err);
    }

    /// Removes the line of progress.
    pub fn clear(&mut self) {
        let _ = self.progress.clear(self.err);
    }
}
