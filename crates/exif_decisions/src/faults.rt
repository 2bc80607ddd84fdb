//! Faults that were skipped.

ghost use Rattle.std.specs.Prelude.{Some};
ghost use Rattle.exif_decisions.specs.Faults.{faults_text};

use std::fmt;

/// How many faults of a file were skipped, as a message says it: `2 faults were skipped`.
#[derive(Clone, Copy, Debug)]
pub struct SkippedFaults(pub usize);

impl fmt::Display for SkippedFaults {
    ghost output = { λ faults. Some (faults_text faults.0) };

    fn fmt<W: fmt::Write>(&self, f: &mut fmt::Formatter<W>) -> fmt::Result {
        let count = self.0;
        if count == 1 {
            return f.write_str("1 fault was skipped");
        }
        write!(f, "{count} faults were skipped")
    }
}
