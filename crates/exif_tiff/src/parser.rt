//! The parser of directories: one pass over the data, strict or lenient.

ghost use Rattle.std.specs.Prelude.{◌≡◌, ◌≤◌, ◌<◌, ◌+◌, ◌^◌, ◌-◌, length, [], OnOk};
ghost use Rattle.exif_tiff.specs.Trace.{directory_nodes, entry_nodes, pointer_nodes, chain_nodes, depth_of};
ghost use Rattle.exif_tiff.specs.Running.{run, on_opens, on_visit, on_found, on_met};
ghost use Rattle.exif_tiff.specs.Stops.{Follows, CountsTurns};

use crate::directory::{child_of, directory_end, entry_value, whole_entries};
use crate::offsets::Offsets;
use crate::stop::Stop;
use crate::{DirectoryOffset, EntryOffset, Fault};
use exif_base::Endian;
use exif_types::{Context, Field, In, Tag};
use std::alloc::{AllocError, Global};
use std::marker::Model;

/// A parser of directories, with what it has read and where that is, and how many entries it
/// may still visit.
#[derive(Drop)]
pub struct Parser {
    lenient: bool,
    left: u64,
    fields: Vec<Field>,
    faults: Vec<Fault>,
    offsets: Offsets,
}

impl Model for Parser {
    ghost use Rattle.exif_tiff.specs.Running.{Progress};

    ghost Value = { Progress };

    ghost view = { λ p. record {
      lenient = p.lenient;
      left = p.left;
      fields = p.fields.items;
      faults = p.faults.items;
      offsets = p.offsets;
    } };
}

impl Parser {
    /// A parser that has read nothing.
    pub fn new(alloc: Global, lenient: bool, left: u64, offsets: Offsets) -> Parser
        ensures { result ≡ record
            { lenient = lenient; left = left; fields = []; faults = []; offsets = offsets } }
    {
        Parser {
            lenient,
            left,
            fields: Vec::new(alloc),
            faults: Vec::new(alloc),
            offsets,
        }
    }

    /// The fields and the faults, in their order, and the offsets.
    pub fn into_parts(self) -> (Vec<Field>, Vec<Fault>, Offsets)
        ensures fields { result.0.items ≡ self.fields }
        ensures faults { result.1.items ≡ self.faults }
        ensures offsets { result.2 ≡ self.offsets }
    {
        let Parser {
            lenient: _,
            left: _,
            fields,
            faults,
            offsets,
        } = self;
        (fields, faults, offsets)
    }

    // Counts an entry.
    fn visit(&mut self) -> Result<(), Stop>
        ensures { Follows result self.new (on_visit self.old) }
    {
        if self.left == 0 {
            return Err(Stop::Fault(Fault::TooManyEntries));
        }
        self.left -= 1;
        Ok(())
    }

    // Reserves space for the fields of so many entries, but for none that may not be visited: as
    // much as a list has that grew to them one by one.
    fn make_room(&mut self, entries: usize) -> Result<(), AllocError>
        requires { entries < 2 ^ 32 }
        ensures { OnOk result (self.new ≡ self.old) }
    {
        let visited = (entries as u64).min(self.left);
        self.fields.reserve(visited.next_power_of_two() as usize)
    }

    // Notes a directory, where that is requested.
    fn opens(&mut self, directory: DirectoryOffset) -> Result<(), Stop>
        ensures { Follows result self.new (on_opens self.old directory) }
    {
        self.offsets.directory(directory)?;
        Ok(())
    }

    // Keeps a field, with the offset of its entry where that is requested. As a call of its own it
    // took 5 ns of the 71 that a field takes.
    #[inline(always)]
    fn found(&mut self, field: Field, offset: EntryOffset) -> Result<(), Stop>
        ensures { Follows result self.new (on_found self.old
            (record { field = field; entry = offset.entry; directory = offset.directory })) }
    {
        self.offsets.entry(offset)?;
        self.fields.push(field)?;
        Ok(())
    }

    /// Notes a fault, or stops at it where the parser is strict.
    pub fn met(&mut self, fault: Fault) -> Result<(), Stop>
        ensures { Follows result self.new (on_met self.old fault) }
    {
        if !self.lenient {
            return Err(Stop::Fault(fault));
        }
        self.faults.push(fault)?;
        Ok(())
    }

    /// Reads the chain of directories from an offset on, each entry in one turn.
    #[tactic(auto, using(crate::proofs::ParserTurns::counts_turns))]
    pub fn chain<E: Endian>(
        &mut self,
        alloc: Global,
        bytes: &[u8],
        limit: u16,
        first: u32,
    ) -> Result<(), Stop>
        requires { length bytes.now < 2 ^ 32 }
        ensures follows { Follows result self.new
            (run (chain_nodes limit E.number_of bytes.now 0 first) self.old) }
        ensures turns { CountsTurns result self.old self.new
            (chain_nodes limit E.number_of bytes.now 0 first) }
    {
        self.directories::<E>(alloc, bytes, limit, first)
    }

    // Reads each directory of the chain with its end.
    fn directories<E: Endian>(
        &mut self,
        alloc: Global,
        bytes: &[u8],
        limit: u16,
        first: u32,
    ) -> Result<(), Stop>
        requires { length bytes.now < 2 ^ 32 }
        ensures { Follows result self.new
            (run (chain_nodes limit E.number_of bytes.now 0 first) self.old) }
    {
        let mut offset = first;
        for number in 0..limit {
            if offset == 0 {
                return Ok(());
            }
            self.directory::<E>(alloc, bytes, Context::Tiff, In(number), offset)?;
            match directory_end::<E>(bytes, offset) {
                Ok(next) => offset = next,
                Err(fault) => return self.met(fault),
            }
        }
        if offset == 0 {
            return Ok(());
        }
        self.met(Fault::TooManyDirectories)
    }

    // Reads the directory at an offset with its children.
    #[cycle(nodes)]
    fn directory<E: Endian>(
        &mut self,
        alloc: Global,
        bytes: &[u8],
        context: Context,
        ifd_num: In,
        offset: u32,
    ) -> Result<(), Stop>
        requires { length bytes.now < 2 ^ 32 }
        ensures { Follows result self.new
            (run (directory_nodes (depth_of context) E.number_of bytes.now ifd_num.0 context offset)
            self.old) }
    {
        self.opens(DirectoryOffset { offset, context })?;
        let entries = whole_entries::<E>(bytes, offset);
        self.make_room(entries)?;
        let mut at = offset as usize + 2;
        for _ in 0..entries {
            self.entry::<E>(alloc, bytes, context, ifd_num, offset, at)?;
            at += 12;
        }
        Ok(())
    }

    // Reads the entry at an offset, of the directory at another.
    #[cycle(nodes)]
    fn entry<E: Endian>(
        &mut self,
        alloc: Global,
        bytes: &[u8],
        context: Context,
        ifd_num: In,
        directory: u32,
        at: usize,
    ) -> Result<(), Stop>
        requires small { length bytes.now < 2 ^ 32 }
        requires whole { at + 12 ≤ length bytes.now }
        ensures { Follows result self.new
            (run (entry_nodes
            (directory_nodes (depth_of context - 1) E.number_of bytes.now ifd_num.0)
            E.number_of bytes.now context ifd_num.0 directory at) self.old) }
    {
        self.visit()?;
        let Some(value) = entry_value::<E>(alloc, bytes, at)? else {
            return self.met(Fault::TruncatedValue);
        };
        let number = E::loadu16(bytes, at);
        match child_of(context, number) {
            Some(child) => self.pointer::<E>(alloc, bytes, child, ifd_num, value.get_uint(0)),
            None => self.found(
                Field {
                    tag: Tag(context, number),
                    ifd_num,
                    value,
                },
                EntryOffset {
                    entry: at as u32,
                    directory,
                },
            ),
        }
    }

    // Reads the child that a pointer names.
    #[cycle(nodes)]
    fn pointer<E: Endian>(
        &mut self,
        alloc: Global,
        bytes: &[u8],
        child: Context,
        ifd_num: In,
        offset: Option<u32>,
    ) -> Result<(), Stop>
        requires { length bytes.now < 2 ^ 32 }
        ensures { Follows result self.new
            (run (pointer_nodes (directory_nodes (depth_of child) E.number_of bytes.now ifd_num.0)
            E.number_of bytes.now child offset) self.old) }
    {
        let Some(offset) = offset else {
            return self.met(Fault::InvalidPointer);
        };
        self.directory::<E>(alloc, bytes, child, ifd_num, offset)?;
        match directory_end::<E>(bytes, offset) {
            Ok(0) => Ok(()),
            Ok(_) => self.met(Fault::UnexpectedNext),
            Err(fault) => self.met(fault),
        }
    }
}
