//! Readers of Exif metadata.

ghost use Rattle.std.specs.Prelude.{◌≡◌, ◌≤◌, ◌++◌, ◌^◌, length, take, All, map, IfOk, IfErr, IfSome, None, Some, Ok, false};
ghost use Rattle.exif_base.specs.Orders.{order_named};
ghost use Rattle.exif_base.specs.Reads.{Counts};
ghost use Rattle.exif_types.specs.Failures.{told_text, bytes_of, IsInvalidFormat};
ghost use Rattle.exif_types.specs.Refusals.{IsInterrupted, is_io};
ghost use Rattle.exif_tiff.specs.Faults.{text_of};
ghost use Rattle.exif_tiff.specs.Answers.{Whole, raw_answer};
ghost use Rattle.exif_tiff.specs.Trace.{header};
ghost use Rattle.exif_containers.specs.Container.{answer_as, container_answer, format_in};
ghost use Rattle.exif_containers.specs.GoingBack.{BeginsAt};
ghost use Rattle.exif_tiff.specs.Bounds.{ReportsAtMost};
ghost use Rattle.exif_reader.specs.Files.{AnswersOwnData, ReadsByNeed, ReadsContainer};
ghost use Rattle.exif_reader.specs.Sniffing.{has_io};
ghost use Rattle.exif_tiff.specs.Readings.{HoldsFront, ReadsAs, ReadsHeld};

use crate::by_need::{FRONT, parse_front, pass_rest};
use exif_base::{Blocks, Source};
use exif_containers::container::{BLOCK, Format, SNIFF_LEN, format_of, read_signature};
use exif_containers::{exif_attr_as, exif_attr_from};
use exif_segments::util::{read_at_most, read_rest};
use exif_tiff::Fault;
use exif_tiff::bytes::show_bytes;
use exif_tiff::laws::{a_front_may_say_all, answers_show_what_was_read, reading_is_bounded};
use exif_tiff::tiff::{self, Parsed};
use exif_types::{Error, Exif, exif_from_parts, partial_from_parts};
use std::alloc::{AllocError, Global};
use std::marker::Model;

/// A reader of Exif metadata: how it takes faults, and how many entries it visits at most. It holds
/// nothing of a file, so one reader serves for many.
///
/// ```
/// let mut reader = Reader::new();
/// reader.limit_entries(1000);
/// reader.read_from_container(alloc, &mut Seekable::new(picture))
/// ```
#[derive(Drop)]
pub struct Reader {
    lenient: bool,
    limit: Option<u64>,
}

/// What a stream begins as, and what reading it answers.
#[derive(Drop)]
pub struct Sniffed {
    /// The container that the first 4096 bytes begin, if they begin one.
    pub format: Option<Format>,
    /// What was read, or why nothing was.
    pub answer: Result<Exif, Error>,
}

impl Model for Reader {
    ghost use Rattle.exif_tiff.specs.Readings.{Mode};

    ghost Value = { Mode };

    ghost view = { λ r. record { lenient = r.lenient; limit = r.limit } };
}

/// The errors that these faults are, with their messages.
pub fn errors_of(alloc: Global, faults: &[Fault]) -> Result<Vec<Error>, AllocError>
    ensures texts { IfOk result
        (λ errors. map bytes_of (map told_text errors.items) ≡ map text_of faults.now) }
    ensures invalid { IfOk result (λ errors. All IsInvalidFormat errors.items) }
{
    let mut errors = Vec::with_capacity(alloc, faults.len())?;
    for fault in faults {
        errors.push(Error::InvalidFormat(fault.message()))?;
    }
    Ok(errors)
}

impl Reader {
    /// A strict reader without a limit.
    pub fn new() -> Reader
        ensures { result ≡ record { lenient = false; limit = None } }
    {
        Reader {
            lenient: false,
            limit: None,
        }
    }

    /// Sets whether the reader passes over soft faults, and then answers a `PartialResult`.
    ///
    /// Soft are faults of a directory, an entry or a value: what is broken is left out, and the
    /// rest is read. A header's faults, and the container's refusals, are answered in either mode.
    ///
    /// ```
    /// let mut reader = Reader::new();
    /// reader.continue_on_error(true);
    /// let mut faults = 0;
    /// let exif = match reader.read_from_container(alloc, &mut Seekable::new(file)) {
    ///     Ok(exif) => exif,
    ///     Err(error) => error.distill_partial_result(|errors| faults = errors.len())?,
    /// };
    /// ```
    pub fn continue_on_error(&mut self, lenient: bool) -> &mut Self
        ensures same { result.ghost_name ≡ self.entry.ghost_name }
        ensures value { result.now ≡ record self.old { lenient = lenient } }
    {
        self.lenient = lenient;
        self
    }

    /// Sets the most directory entries that one reading visits, for files of strangers: entries can
    /// share their directories, so that 14 KB hold millions of fields. A limit that is reached is a
    /// soft fault, and nothing behind it is read.
    ///
    /// ```
    /// let mut reader = Reader::new();
    /// reader.limit_entries(1000);
    /// ```
    pub fn limit_entries(&mut self, limit: u64) -> &mut Self
        ensures same { result.ghost_name ≡ self.entry.ghost_name }
        ensures value { result.now ≡ record self.old { limit = Some limit } }
    {
        self.limit = Some(limit);
        self
    }

    /// Reads TIFF data. Hard faults of the header come first, in either mode, and take no memory.
    /// Behind them, strict reading answers the first fault, and lenient reading all fields and, in
    /// a `PartialResult`, all faults.
    pub fn read_raw(&self, alloc: Global, bytes: Vec<u8>) -> Result<Exif, Error>
        ensures reads { ReadsAs
            (raw_answer self.now.lenient self.now.limit bytes.items) bytes.items result }
        ensures bounded { ReportsAtMost self.now.limit result }
    {
        show_bytes(bytes.as_slice());
        reading_is_bounded();
        self.read(alloc, bytes)
    }

    /// Reads the Exif data of a picture: TIFF data, or a JPEG, HEIF or WebP file. The first 4096
    /// bytes choose, whatever the cuts. Behind the container's data all is as `read_raw` has it; a
    /// refusal of the container is the answer in either mode. How far the source was read is left
    /// open.
    ///
    /// Whether or not the source's bytes are known, what comes back is what its own data (`buf`)
    /// answer, and any other error is a named refusal of a container or of data, out of memory,
    /// or the source's. A file is read by a `Seekable`, a pipe by a `Counted`.
    ///
    /// ```
    /// Reader::new().read_from_container(alloc, &mut Seekable::new(picture))
    /// ```
    pub fn read_from_container<R: Source>(
        &self,
        alloc: Global,
        source: &mut R,
    ) -> Result<Exif, Error>
        ensures reads { IfSome (R.left source.old)
            (λ bytes. ReadsContainer (raw_answer self.now.lenient self.now.limit)
            (container_answer bytes) result) }
        ensures own { AnswersOwnData (raw_answer self.now.lenient self.now.limit) result }
        ensures bounded { ReportsAtMost self.now.limit result }
        ensures counts { Counts R.Source source.old source.new (is_io result) }
    {
        let origin = source.offset();
        let exif = self.read_from(alloc, source, origin)?;
        Ok(exif)
    }

    // What `read_from_container` reads, where the first byte is at this offset. With none, the
    // stream is read in order.
    fn read_from<R: Source>(
        &self,
        alloc: Global,
        source: &mut R,
        origin: Option<u64>,
    ) -> Result<Exif, Error>
        ensures reads { IfSome (R.left source.old) (λ bytes.
            BeginsAt origin (R.stream source.old) (R.left source.old)
            → ReadsContainer (raw_answer self.now.lenient self.now.limit)
            (container_answer bytes) result) }
        ensures own { AnswersOwnData (raw_answer self.now.lenient self.now.limit) result }
        ensures bounded { ReportsAtMost self.now.limit result }
        ensures counts { Counts R.Source source.old source.new (is_io result) }
    {
        let bytes = exif_attr_from(alloc, source, origin)?;
        let exif = self.read_raw(alloc, bytes)?;
        Ok(exif)
    }

    /// Reads as `read_from_container` does, but of TIFF data no more than a front of 262,144 bytes,
    /// where strict reading meets no fault there: then all the data say the same. The rest is
    /// skipped, so a large file costs no more than a small one where its directories are in front.
    ///
    /// The fields, the faults and the byte order are those of `read_from_container`; the data that
    /// are passed on (`buf`) may be the front alone, so strips and thumbnails may lie behind it.
    /// An error of the device behind the front is not seen where the source seeks over it.
    ///
    /// ```
    /// Reader::new().read_by_need(alloc, &mut Seekable::new(picture))
    /// ```
    pub fn read_by_need<R: Source>(&self, alloc: Global, source: &mut R) -> Result<Exif, Error>
        ensures reads { IfSome (R.left source.old)
            (λ bytes. ReadsByNeed (raw_answer self.now.lenient self.now.limit)
            (container_answer bytes) result) }
        ensures own { AnswersOwnData (raw_answer self.now.lenient self.now.limit) result }
        ensures bounded { ReportsAtMost self.now.limit result }
        ensures counts { Counts R.Source source.old source.new (is_io result) }
    {
        let sniffed = self.read_with_format(alloc, source)?;
        sniffed.answer
    }

    /// Reads as [`read_by_need`](Reader::read_by_need) does, and answers the container too,
    /// whatever the reading says of it. The error is one of the source before the first 4096 bytes
    /// are read.
    pub fn read_with_format<R: Source>(
        &self,
        alloc: Global,
        source: &mut R,
    ) -> Result<Sniffed, Error>
        ensures format { IfOk result (λ s. IfSome (R.left source.old)
            (λ bytes. s.format ≡ format_in (take SNIFF_LEN bytes))) }
        ensures reads { IfOk result (λ s. IfSome (R.left source.old)
            (λ bytes. ReadsByNeed (raw_answer self.now.lenient self.now.limit)
            (container_answer bytes) s.answer)) }
        ensures own { IfOk result
            (λ s. AnswersOwnData (raw_answer self.now.lenient self.now.limit) s.answer) }
        ensures bounded { IfOk result (λ s. ReportsAtMost self.now.limit s.answer) }
        ensures interrupted { IfErr result IsInterrupted }
        ensures counts { Counts R.Source source.old source.new (has_io result) }
    {
        let origin = source.offset();
        if source.is_at_hand() {
            return self.read_through(alloc, source, origin, &mut [0; SNIFF_LEN]);
        }
        self.read_through(alloc, source, origin, &mut [0; BLOCK])
    }

    // The same through this block, where the first byte is at this offset. With none, the stream
    // is read in order.
    fn read_through<R: Source>(
        &self,
        alloc: Global,
        source: &mut R,
        origin: Option<u64>,
        block: &mut [u8],
    ) -> Result<Sniffed, Error>
        requires { SNIFF_LEN ≤ length block.now }
        ensures format { IfOk result (λ s. IfSome (R.left source.old)
            (λ bytes. s.format ≡ format_in (take SNIFF_LEN bytes))) }
        ensures reads { IfOk result (λ s. IfSome (R.left source.old) (λ bytes.
            BeginsAt origin (R.stream source.old) (R.left source.old)
            → ReadsByNeed (raw_answer self.now.lenient self.now.limit)
            (container_answer bytes) s.answer)) }
        ensures own { IfOk result
            (λ s. AnswersOwnData (raw_answer self.now.lenient self.now.limit) s.answer) }
        ensures bounded { IfOk result (λ s. ReportsAtMost self.now.limit s.answer) }
        ensures interrupted { IfErr result IsInterrupted }
        ensures counts { Counts R.Source source.old source.new (has_io result) }
    {
        let filled = read_signature(source, block)?;
        let format = format_of(&block[..filled]);
        let mut blocks = Blocks::new(block, filled, source);
        let answer = self.read_as(alloc, format, &mut blocks, origin);
        Ok(Sniffed { format, answer })
    }

    /// What [`read_by_need`](Reader::read_by_need) answers of a stream whose signature is that of
    /// this container, or of bytes that begin none. The first byte is at this offset; with none,
    /// the stream is read in order. It is for callers that have read the signature themselves.
    pub fn read_as<R: Source>(
        &self,
        alloc: Global,
        format: Option<Format>,
        source: &mut R,
        origin: Option<u64>,
    ) -> Result<Exif, Error>
        ensures reads { IfSome (R.left source.old) (λ bytes.
            BeginsAt origin (R.stream source.old) (R.left source.old)
            → ReadsByNeed (raw_answer self.now.lenient self.now.limit)
            (answer_as format bytes) result) }
        ensures own { AnswersOwnData (raw_answer self.now.lenient self.now.limit) result }
        ensures bounded { ReportsAtMost self.now.limit result }
        ensures counts { Counts R.Source source.old source.new (is_io result) }
    {
        match format {
            Some(Format::Tiff) => self.read_tiff(alloc, source),
            _ => self.read_whole(alloc, format, source, origin),
        }
    }

    // The same of all the data.
    fn read_whole<R: Source>(
        &self,
        alloc: Global,
        format: Option<Format>,
        source: &mut R,
        origin: Option<u64>,
    ) -> Result<Exif, Error>
        ensures reads { IfSome (R.left source.old) (λ bytes.
            BeginsAt origin (R.stream source.old) (R.left source.old)
            → ReadsContainer (raw_answer self.now.lenient self.now.limit)
            (answer_as format bytes) result) }
        ensures own { AnswersOwnData (raw_answer self.now.lenient self.now.limit) result }
        ensures bounded { ReportsAtMost self.now.limit result }
        ensures counts { Counts R.Source source.old source.new (is_io result) }
    {
        let bytes = exif_attr_as(alloc, format, source, origin)?;
        let exif = self.read_raw(alloc, bytes)?;
        Ok(exif)
    }

    // Reads TIFF data by a front of them, where that says all.
    fn read_tiff<R: Source>(&self, alloc: Global, source: &mut R) -> Result<Exif, Error>
        ensures reads { IfSome (R.left source.old) (λ bytes. ReadsHeld HoldsFront IsInterrupted
            (raw_answer self.now.lenient self.now.limit bytes) bytes result) }
        ensures own { AnswersOwnData (raw_answer self.now.lenient self.now.limit) result }
        ensures bounded { ReportsAtMost self.now.limit result }
        ensures counts { Counts R.Source source.old source.new (is_io result) }
    {
        let mut front = Vec::new(alloc);
        let n = read_at_most(source, &mut front, FRONT)?;
        if n < FRONT {
            let exif = self.read_raw(alloc, front)?;
            return Ok(exif);
        }
        match parse_front(alloc, front.as_slice(), self.limit)? {
            Some(parsed) => {
                let exif = self.read_no_more(alloc, source, front, parsed)?;
                Ok(exif)
            }
            None => {
                let exif = self.read_on(alloc, source, front)?;
                Ok(exif)
            }
        }
    }

    // What was read of TIFF data by a front of them that says all.
    fn read_no_more<R: Source>(
        &self,
        alloc: Global,
        source: &mut R,
        front: Vec<u8>,
        parsed: Parsed,
    ) -> Result<Exif, Error>
        requires whole { raw_answer false self.now.limit front.items ≡ Whole parsed.fields.items }
        requires order { header front.items ≡ Ok (order_named parsed.little_endian) }
        requires room { length front.items ≤ 2 ^ 32 }
        ensures reads { IfSome (R.left source.old) (λ rest. ReadsHeld HoldsFront IsInterrupted
            (raw_answer self.now.lenient self.now.limit (front.items ++ rest)) (front.items ++ rest)
            result) }
        ensures own { AnswersOwnData (raw_answer self.now.lenient self.now.limit) result }
        ensures bounded { ReportsAtMost self.now.limit result }
        ensures counts { Counts R.Source source.old source.new (is_io result) }
    {
        show_bytes(front.as_slice());
        reading_is_bounded();
        answers_show_what_was_read();
        a_front_may_say_all();
        if !pass_rest(source, front.len() as u64)? {
            return Err(Error::TooBig(Fault::DataTooLarge.message()));
        }
        let exif = exif_from_parts(alloc, front, parsed.fields, parsed.little_endian)?;
        Ok(exif)
    }

    // Reads TIFF data behind a front of them, and then all.
    fn read_on<R: Source>(
        &self,
        alloc: Global,
        source: &mut R,
        mut data: Vec<u8>,
    ) -> Result<Exif, Error>
        ensures reads { IfSome (R.left source.old) (λ rest. ReadsHeld HoldsFront IsInterrupted
            (raw_answer self.now.lenient self.now.limit (data.items ++ rest)) (data.items ++ rest)
            result) }
        ensures own { AnswersOwnData (raw_answer self.now.lenient self.now.limit) result }
        ensures bounded { ReportsAtMost self.now.limit result }
        ensures counts { Counts R.Source source.old source.new (is_io result) }
    {
        read_rest(source, &mut data)?;
        let exif = self.read_raw(alloc, data)?;
        Ok(exif)
    }

    fn read(&self, alloc: Global, bytes: Vec<u8>) -> Result<Exif, Error>
        ensures { ReadsAs
            (raw_answer self.now.lenient self.now.limit bytes.items) bytes.items result }
    {
        let parsed = tiff::parse(alloc, bytes.as_slice(), self.lenient, self.limit)?;
        let errors = errors_of(alloc, parsed.faults.as_slice())?;
        answers_show_what_was_read();
        let exif = exif_from_parts(alloc, bytes, parsed.fields, parsed.little_endian)?;
        if errors.is_empty() {
            return Ok(exif);
        }
        Err(Error::PartialResult(partial_from_parts(exif, errors)))
    }
}
