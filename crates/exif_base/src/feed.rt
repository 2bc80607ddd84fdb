//! Bytes of which the next some are at hand, and can be looked at before they are taken.

ghost use Rattle.std.specs.Prelude.{◌≡◌, ◌+◌, ◌≤◌, ℕ, List, [], Option, length, take, is_err, OnOk, IfSome};
ghost use Rattle.std.specs.Io.{StartsWith};
ghost use Rattle.std.specs.Io.KnownBytes.{Consumes, IsAtEnd, Keeps};
ghost use Rattle.exif_base.specs.Device.{count_after};

use std::io;

/// Bytes of which the next some are at hand.
pub trait Feed {
    /// The bytes that are left, where they are known.
    ghost left: { Self → Option (List ℕ) };

    /// The bytes at hand.
    ghost hand: { Self → List ℕ };

    /// How many bytes are left at most.
    ghost most: { Self → ℕ };

    /// How many fetches failed, up to 2^64 - 1.
    ghost failures: { Self → ℕ };

    /// The names of the references that it reads through, the outermost first.
    ghost through: { Self → List ℕ };

    /// Has a byte at hand, or is at the end. Reads at most once, and only where none is at hand.
    fn fill(&mut self) -> io::Result<()>
        ensures bytes { Keeps (left self.old) (left self.new) }
        ensures end { OnOk result (hand self.new ≡ [] → IsAtEnd (left self.new)) }
        ensures most { most self.new ≤ most self.old }
        ensures count { failures self.new ≡ count_after (is_err result) (failures self.old) }
        ensures same { through self.new ≡ through self.old };

    /// The bytes at hand.
    fn at_hand(&self) -> &[u8]
        ensures hand { result.now ≡ hand self.now }
        ensures begins { IfSome (left self.now) (λ xs. StartsWith xs (hand self.now)) };

    /// Takes so many of the bytes at hand.
    fn pass(&mut self, n: usize)
        requires { n ≤ length (hand self.now) }
        ensures bytes { Consumes (left self.old) (left self.new) (take n (hand self.old)) }
        ensures most { most self.new + n ≡ most self.old }
        ensures count { failures self.new ≡ failures self.old }
        ensures same { through self.new ≡ through self.old };
}
