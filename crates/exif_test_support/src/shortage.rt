//! Calls with as little memory as they can be left.
//!
//! All memory is taken, and some of it given back: so these tests need an allocator that hands out
//! again what was dropped, as that of a built program does. Under `rt try --test`, whose allocator
//! never does, each of them fails with out of memory; `rt test` is their judge.

use exif::Error;
use std::alloc::{AllocError, Global};
use std::io;
use std::io::Write;

/// Blocks of memory, to which no byte is written.
pub type Blocks = Vec<Vec<u8>>;

/// How many steps of 16 bytes a call needs at most.
pub const MAX_STEPS: u16 = 4000;

const MAX_BLOCKS: usize = 200_000;

// What stays free where most memory is taken: so many pieces, side by side, of this size.
const PIECES: usize = 40;

const PIECE: usize = 100_000;

// How many bytes of the stack each of two nested calls uses before memory is taken.
const STACK: usize = 1 << 18;

// A size that the allocator sets aside in no list of its own when it is freed.
const SPLIT: usize = 2048;

// Takes blocks of one size until one is refused.
fn take(alloc: Global, blocks: &mut Blocks, size: usize) -> Result<(), AllocError> {
    for _ in 0..MAX_BLOCKS {
        match Vec::with_capacity(alloc, size) {
            Ok(block) => blocks.push(block)?,
            Err(_refused) => break,
        }
    }
    Ok(())
}

// Lets the stack grow by half a megabyte, which it can't once all addresses are taken: two nested
// calls write a quarter each, and answer what they read there.
//
// Neither call is inlined: its caller would keep the space in its own frame.
#[inline(never)]
fn grow_stack(bytes: &[u8]) -> u64 {
    let mut space = [0u8; STACK];
    for (byte, new) in space.iter_mut().zip(bytes.iter()) {
        *byte = *new;
    }
    let inner = grow_stack_more(bytes);
    sum_of(&space).wrapping_add(inner)
}

#[inline(never)]
fn grow_stack_more(bytes: &[u8]) -> u64 {
    let mut space = [0u8; STACK];
    for (byte, new) in space.iter_mut().zip(bytes.iter()) {
        *byte = *new;
    }
    sum_of(&space)
}

fn sum_of(bytes: &[u8]) -> u64 {
    let mut sum = 0u64;
    for byte in bytes {
        sum = sum.wrapping_add(u64::from(*byte));
    }
    sum
}

/// Takes all memory but 4 MB: blocks of 64 GB, and then of half of that, down to 16 bytes.
pub fn take_most(alloc: Global) -> Result<Blocks, AllocError> {
    let bytes: Vec<u8> = Vec::from_slice(alloc, b"deep")?;
    if grow_stack(bytes.as_slice()) == 0 {
        return Err(AllocError);
    }
    let mut blocks = Vec::with_capacity(alloc, MAX_BLOCKS)?;
    let mut pieces: Blocks = Vec::with_capacity(alloc, PIECES)?;
    for _ in 0..PIECES {
        pieces.push(Vec::with_capacity(alloc, PIECE)?)?;
    }
    for halvings in 0..33u32 {
        take(alloc, &mut blocks, 1usize << (36 - halvings))?;
    }
    drop(pieces);
    Ok(blocks)
}

// Takes what `take_most` left.
fn take_small(alloc: Global, blocks: &mut Blocks) -> Result<(), AllocError> {
    for kilobytes in (1..65u32).rev() {
        take(alloc, blocks, 1024 * kilobytes as usize)?;
    }
    for sixteens in (1..65u32).rev() {
        take(alloc, blocks, 16 * sixteens as usize)?;
    }
    Ok(())
}

/// Takes what `take_most` left, all but so many bytes in one piece.
pub fn take_rest(alloc: Global, left: u16) -> Result<Blocks, AllocError> {
    let mut blocks = Vec::with_capacity(alloc, 1000)?;
    let piece: Vec<u8> = Vec::with_capacity(alloc, SPLIT + left as usize)?;
    take_small(alloc, &mut blocks)?;
    drop(piece);
    blocks.push(Vec::with_capacity(alloc, SPLIT)?)?;
    Ok(blocks)
}

/// What a call comes to where memory is short.
#[derive(Drop)]
pub enum Outcome {
    /// Memory ran out, and it gave nothing false.
    OutOfMemory,
    /// It answers as with all the memory.
    Right,
    /// It answers anything else.
    Wrong,
}

impl Outcome {
    /// The outcome of an answer that is no error.
    pub fn answered(is_right: bool) -> Outcome {
        if is_right {
            Outcome::Right
        } else {
            Outcome::Wrong
        }
    }

    /// The outcome of an error, of which only out of memory may come. It is let go by one call.
    pub fn refused(error: Error) -> Outcome {
        let is_short = matches!(&error, Error::OutOfMemory);
        drop(error);
        if is_short {
            Outcome::OutOfMemory
        } else {
            Outcome::Wrong
        }
    }
}

/// Why a call was not right at last.
#[derive(Debug, Drop)]
pub enum Shortage {
    /// It answered something wrong after so many steps.
    Wrong(u16),
    /// Memory was never enough.
    Never,
    /// The blocks themselves could not be kept.
    OutOfMemory,
}

impl From<AllocError> for Shortage {
    fn from(_error: AllocError) -> Shortage {
        Shortage::OutOfMemory
    }
}

/// Calls with no memory left, and then with ever more, until the answer is the right one. Any
/// other is out of memory. Gives in how many calls memory ran out.
pub fn in_turn<F: FnMut() -> Outcome + Drop>(alloc: Global, mut call: F) -> Result<u16, Shortage>
    requires { F.IsAlwaysCallable call }
{
    let _most = take_most(alloc)?;
    for step in 0..MAX_STEPS {
        let rest = take_rest(alloc, 16 * step)?;
        let outcome = call();
        drop(rest);
        match outcome {
            Outcome::OutOfMemory => {}
            Outcome::Right => return Ok(step),
            Outcome::Wrong => return Err(Shortage::Wrong(step)),
        }
    }
    Err(Shortage::Never)
}

/// A writer that takes what `take_most` left, whenever it is called.
#[derive(Drop)]
pub struct Greedy {
    /// The bytes that were written.
    pub written: Vec<u8>,
    blocks: Blocks,
    alloc: Global,
}

impl Greedy {
    /// A writer with space for so many bytes. For one more there is no memory, and the call fails.
    pub fn new(alloc: Global, space: usize) -> Result<Greedy, AllocError> {
        Ok(Greedy {
            written: Vec::with_capacity(alloc, space)?,
            blocks: Vec::with_capacity(alloc, 1000)?,
            alloc,
        })
    }
}

impl Write for Greedy {
    fn write(&mut self, buf: &[u8]) -> io::Result<usize> {
        take_small(self.alloc, &mut self.blocks)?;
        self.written.extend_from_slice(buf)?;
        Ok(buf.len())
    }

    fn flush(&mut self) -> io::Result<()> {
        Ok(())
    }
}
