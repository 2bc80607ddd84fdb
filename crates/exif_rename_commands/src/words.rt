//! Why files get no other name, in words.

ghost use Rattle.std.specs.Prelude.{◌≡◌, IfOk, Some, string_bytes};
ghost use Rattle.exif_rename_commands.specs.Words.{not_back_text, not_moved_text, not_planned_text, wrong_line_text};

use exif_decisions::Escaped;
use exif_files::WriteError;
use exif_rename::PlanError;
use std::alloc::{AllocError, Global};
use std::fmt;

/// Why a file is not moved or copied.
#[derive(Drop)]
pub struct NotMoved(pub WriteError);

impl fmt::Display for NotMoved {
    ghost output = { not_moved_text };

    fn fmt<W: fmt::Write>(&self, f: &mut fmt::Formatter<W>) -> fmt::Result {
        match &self.0 {
            WriteError::Taken => f.write_str("its new name is taken"),
            error => write!(f, "{error}"),
        }
    }
}

/// Why no file is renamed.
#[derive(Drop)]
pub struct NotPlanned(pub PlanError);

impl fmt::Display for NotPlanned {
    ghost output = { not_planned_text };

    fn fmt<W: fmt::Write>(&self, f: &mut fmt::Formatter<W>) -> fmt::Result {
        match &self.0 {
            PlanError::Crowded(_) => {
                f.write_str("too many files have its new name; nothing is renamed")
            }
            error => write!(f, "{error}"),
        }
    }
}

/// Why a rename is not taken back.
#[derive(Clone, Copy)]
pub enum NotBack {
    /// It was a copy.
    Copy,
    /// The file is not there any more.
    Gone,
    /// Something has its old name.
    Taken,
}

/// Why a rename is not taken back, in words.
#[derive(Clone, Copy)]
pub struct NotBackLine<'a> {
    /// The cause.
    pub why: NotBack,
    /// The old name.
    pub old: &'a str,
}

impl fmt::Display for NotBackLine<'_> {
    ghost output = { λ line. Some (not_back_text line.why line.old.now) };

    fn fmt<W: fmt::Write>(&self, f: &mut fmt::Formatter<W>) -> fmt::Result {
        match self.why {
            NotBack::Copy => f.write_str("a copy, which is not taken back; remove it by rm"),
            NotBack::Gone => f.write_str("it is not there any more"),
            NotBack::Taken => {
                let old = Escaped(self.old);
                write!(f, "its old name is taken: {old}")
            }
        }
    }
}

/// Why no rename is taken back, where the line of this number is none of a run.
pub fn wrong_line(alloc: Global, number: usize) -> Result<String, AllocError>
    ensures { IfOk result (λ why. string_bytes why ≡ wrong_line_text number) }
{
    format!(in alloc; "line {number} is no line of rename, as 'OLD -> NEW'; nothing is done")
}
