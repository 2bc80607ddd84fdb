//! Bytes that are read ahead, by blocks.

ghost use Rattle.std.specs.Prelude.{◌≡◌, ◌≢◌, ◌∷◌, ◌++◌, ◌+◌, ◌-◌, ◌^◌, ◌<◌, ◌≤◌, ℕ, length, min, take, drop, slice_index, is_err, true, OnOk};
ghost use Rattle.std.specs.Io.{StartsWith};
ghost use Rattle.std.specs.Io.KnownBytes.{IsAtEnd, Keeps, prepend_known};
ghost use Rattle.exif_base.specs.Reads.{Counts};

use crate::device::Source;
use crate::feed::Feed;
use crate::search::others_between;
use std::alloc::AllocError;
use std::io;

/// A source read in blocks: some bytes of the block are at hand, and the rest follows.
///
/// It reads where a byte is wanted and none is at hand, and then once, so a fault of the reader
/// comes where it would come without blocks. What was read and not taken is lost with it.
///
/// As a `Feed` it gives 2^64 - 1 bytes at most, so that it ends.
#[derive(Drop)]
pub struct Blocks<'a, R> {
    block: &'a mut [u8],
    at: usize,
    end: usize,
    budget: u64,
    source: &'a mut R,
    ghost in_range: { (at ≤ end) × (end ≤ length block.now) × (0 < length block.now) },
}

impl<'a, R> Blocks<'a, R> {
    ghost use Rattle.exif_base.specs.Blocks.{at_hand, blocks_budget, blocks_name, blocks_source};

    /// The first `filled` bytes of the block are at hand, and those of `source` follow.
    pub fn new(block: &'a mut [u8], filled: usize, source: &'a mut R) -> Blocks<'a, R>
        requires filled { filled ≤ length block.now }
        requires some { 0 < length block.now }
        ensures at_hand { at_hand result ≡ take filled block.old }
        ensures budget { blocks_budget result ≡ 2 ^ 64 - 1 }
        ensures source { blocks_source result ≡ source.old }
        ensures same { blocks_name result ≡ source.entry.ghost_name }
    {
        Blocks {
            block,
            at: 0,
            end: filled,
            budget: u64::MAX,
            source,
        }
    }

    // How many bytes at hand come before the first `stop`, at most `most`.
    fn others_at_hand(&self, stop: u8, most: u64) -> usize
        ensures most { result ≤ most }
        ensures bound { self.now.at + result ≤ self.now.end }
        ensures others { (k : ℕ) → k < result
            → slice_index self.now.block.now (self.now.at + k) ≢ stop }
    {
        others_between(self.block, self.at, self.end, stop, most)
    }

    // Takes bytes at hand, at most `most`, and answers how many.
    fn skip_at_hand(&mut self, most: u64) -> u64
        ensures count { result ≡ min (self.old.end - self.old.at) most }
        ensures at_hand { at_hand self.new ≡ drop result (at_hand self.old) }
        ensures source { blocks_source self.new ≡ blocks_source self.old }
        ensures same { blocks_name self.new ≡ blocks_name self.old }
    {
        let n = most.min((self.end - self.at) as u64);
        self.at += n as usize;
        n
    }

    // Copies as many buffered bytes as there is space for, and returns how many.
    fn copy_at_hand(&self, to: &mut [u8]) -> usize
        ensures count { result ≡ min (self.now.end - self.now.at) (length to.old) }
        ensures len { length to.new ≡ length to.old }
        ensures copied { take result to.new ≡ take result (at_hand self.now) }
    {
        copy_between(self.block, self.at, self.end, to)
    }

    // Puts the first n bytes at hand at the end of the list.
    fn copy_onto(&self, to: &mut Vec<u8>, n: usize) -> Result<(), AllocError>
        requires { n ≤ self.now.end - self.now.at }
        ensures copied { OnOk result (to.new.items ≡ to.old.items ++ take n (at_hand self.now)) }
        ensures kept { StartsWith to.new.items to.old.items }
    {
        to.extend_from_slice(&self.block[self.at..self.at + n])
    }
}

impl<'a, R: Source> Blocks<'a, R> {
    ghost use Rattle.exif_base.specs.Blocks.{at_hand, blocks_budget, blocks_name, blocks_source};

    // Whether so many bytes come as fast past the block, of which none is at hand.
    fn needs_no_block(&self, wanted: usize) -> bool
        ensures { result ≡ true → self.now.at ≡ self.now.end }
    {
        self.at == self.end && (wanted >= self.block.len() || self.source.is_at_hand())
    }

    // Reads the next block, where none of this one is at hand.
    fn fill_at_hand(&mut self) -> io::Result<()>
        ensures bytes { Keeps (prepend_known (at_hand self.old) (R.left (blocks_source self.old)))
            (prepend_known (at_hand self.new) (R.left (blocks_source self.new))) }
        ensures end { OnOk result
            (self.new.at ≡ self.new.end → IsAtEnd (R.left (blocks_source self.new))) }
        ensures counts { Counts R.Source (blocks_source self.old) (blocks_source self.new)
            (is_err result) }
        ensures stream { R.stream (blocks_source self.new) ≡ R.stream (blocks_source self.old) }
        ensures budget { blocks_budget self.new ≡ blocks_budget self.old }
        ensures same { blocks_name self.new ≡ blocks_name self.old }
    {
        if self.at < self.end {
            return Ok(());
        }
        let n = self.source.fetch(self.block)?;
        self.at = 0;
        self.end = n;
        Ok(())
    }
}

impl<'a, R: Source> Source for Blocks<'a, R> {
    ghost use Rattle.exif_base.specs.Blocks.{at_hand, blocks_name, blocks_source};

    ghost left = { λ b. prepend_known (at_hand b) (R.left (blocks_source b)) };

    ghost stream = { λ b. R.stream (blocks_source b) };

    ghost failures = { λ b. R.failures (blocks_source b) };

    ghost through = { λ b. blocks_name b ∷ R.through (blocks_source b) };

    fn fetch(&mut self, buf: &mut [u8]) -> io::Result<usize> {
        if self.needs_no_block(buf.len()) {
            let n = self.source.fetch(buf)?;
            return Ok(n);
        }
        self.fill_at_hand()?;
        let n = self.copy_at_hand(buf);
        self.at += n;
        Ok(n)
    }

    #[tactic(auto, using(crate::proofs::BlockSteps::at_hand_skipped))]
    fn skip(&mut self, len: u64) -> io::Result<u64> {
        let n = self.skip_at_hand(len);
        if n == len {
            return Ok(n);
        }
        let behind = self.source.skip(len - n)?;
        Ok(n + behind)
    }

    fn is_at_hand(&self) -> bool {
        self.source.is_at_hand()
    }

    fn take_at_hand(&mut self, list: &mut Vec<u8>, most: u64) -> Result<u64, AllocError> {
        if self.at == self.end {
            return self.source.take_at_hand(list, most);
        }
        let n = most.min((self.end - self.at) as u64) as usize;
        self.copy_onto(list, n)?;
        self.at += n;
        Ok(n as u64)
    }

    fn pass_others(&mut self, stop: u8, most: u64) -> u64 {
        if self.at == self.end {
            return self.source.pass_others(stop, most);
        }
        let n = self.others_at_hand(stop, most);
        self.at += n;
        n as u64
    }

    // Bytes at hand may be others than those of the source.
    fn offset(&mut self) -> Option<u64> {
        if self.at < self.end {
            return None;
        }
        self.source.offset()
    }

    fn fetch_at(&mut self, offset: u64, buf: &mut [u8]) -> io::Result<Option<usize>> {
        self.source.fetch_at(offset, buf)
    }
}

impl<'a, R: Source> Feed for Blocks<'a, R> {
    ghost use Rattle.exif_base.specs.Blocks.{at_hand, blocks_budget, blocks_name, blocks_source, cut_known};

    ghost left = { λ b. cut_known (blocks_budget b)
        (prepend_known (at_hand b) (R.left (blocks_source b))) };

    ghost hand = { λ b. take (blocks_budget b) (at_hand b) };

    ghost most = { blocks_budget };

    ghost failures = { λ b. R.failures (blocks_source b) };

    ghost through = { λ b. blocks_name b ∷ R.through (blocks_source b) };

    fn fill(&mut self) -> io::Result<()> {
        self.fill_at_hand()
    }

    fn at_hand(&self) -> &[u8] {
        let room = self.budget.min((self.end - self.at) as u64) as usize;
        &self.block[self.at..self.at + room]
    }

    fn pass(&mut self, n: usize) {
        self.at += n;
        self.budget -= n as u64;
    }
}

// Copies as many bytes from `at` on and before `end` as there is space for, and returns how many.
fn copy_between(block: &[u8], at: usize, end: usize, to: &mut [u8]) -> usize
    requires start { at ≤ end }
    requires end { end ≤ length block.now }
    ensures count { result ≡ min (end - at) (length to.old) }
    ensures len { length to.new ≡ length to.old }
    ensures copied { take result to.new ≡ take result (drop at (take end block.now)) }
{
    copy_front(&block[at..end], to)
}

// Copies as many bytes as both have, and answers how many.
fn copy_front(from: &[u8], to: &mut [u8]) -> usize
    ensures count { result ≡ min (length from.now) (length to.old) }
    ensures copied { to.new ≡ take result from.now ++ drop result to.old }
{
    let n = from.len().min(to.len());
    to[..n].copy_from_slice(&from[..n]);
    n
}
