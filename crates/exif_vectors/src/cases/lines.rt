//! The lines of a case.

use crate::cases::case::{Block, BlockKind, Call, Case, Kind};
use crate::cases::error::CaseError;
use crate::cases::values::{field_of, tag_of};
use crate::cases::words::{Named, Word, bytes_of, number};
use exif::In;
use std::alloc::Global;

impl Case {
    /// Reads a line: its first word, the words behind it, and the text behind it.
    pub fn line(
        &mut self,
        alloc: Global,
        names: &[Named],
        head: &str,
        words: &[Word],
        rest: &str,
    ) -> Result<(), CaseError> {
        match head {
            "do" => self.options(words),
            "ends" => {
                self.end = String::from_str(alloc, rest)?;
                Ok(())
            }
            "prefixes" => {
                self.prefixes = Some(0);
                self.refusal = String::from_str(alloc, rest)?;
                Ok(())
            }
            "word" => {
                self.words.push(String::from_str(alloc, rest)?)?;
                Ok(())
            }
            "in" | "out" | "put" | "path" => self.bytes(head, bytes_of(alloc, names, words)?),
            "reads" | "limit" | "from" => self.number(head, number(first(words))?),
            _ => self.part(alloc, names, head, words),
        }
    }

    /// Reads a line of the text that is expected.
    pub fn output_line(&mut self, text: &str) -> Result<(), CaseError> {
        self.output.extend_from_slice(text.as_bytes())?;
        self.output.push(b'\n')?;
        Ok(())
    }

    fn bytes(&mut self, head: &str, bytes: Vec<u8>) -> Result<(), CaseError> {
        match head {
            "in" => self.input = bytes,
            "out" => self.output = bytes,
            "put" => self.put = Some(bytes),
            _ => self.path = bytes,
        }
        Ok(())
    }

    fn number(&mut self, head: &str, number: usize) -> Result<(), CaseError> {
        match head {
            "reads" => self.reads = Some(number),
            "from" => self.prefixes = Some(number),
            _ => self.limit = Some(number as u64),
        }
        Ok(())
    }

    fn part(
        &mut self,
        alloc: Global,
        names: &[Named],
        head: &str,
        words: &[Word],
    ) -> Result<(), CaseError> {
        match head {
            "field" => {
                self.fields.push(field_of(alloc, words)?)?;
                Ok(())
            }
            "tag" => {
                self.tag = Some(tag_of(first(words))?);
                Ok(())
            }
            "keep" => self.keep(words),
            "memory" => {
                self.short_of_memory = true;
                Ok(())
            }
            _ => {
                self.blocks.push(block_of(alloc, names, head, words)?)?;
                Ok(())
            }
        }
    }

    fn keep(&mut self, words: &[Word]) -> Result<(), CaseError> {
        for word in words {
            let (tag, _ifd_num) = tag_of(word.plain())?;
            self.kept.push(tag)?;
        }
        Ok(())
    }

    // Reads the words behind `do`.
    fn options(&mut self, words: &[Word]) -> Result<(), CaseError> {
        for word in words {
            self.option(word.plain())?;
        }
        Ok(())
    }

    fn option(&mut self, word: &str) -> Result<(), CaseError> {
        if let Some(call) = reading_call(word) {
            self.call = call;
            return Ok(());
        }
        if let Some(kind) = kind_of(word) {
            self.kind = kind;
            return Ok(());
        }
        match word {
            "lenient" => self.is_lenient = true,
            "little" => self.is_little = true,
            "all-metadata" => self.removes_all = true,
            "keep-orientation" => self.keeps_orientation = true,
            "exif-dates" => self.exif_dates = true,
            "target-shape" => self.target_shape = true,
            "xmp" => self.xmp = true,
            "icc" => self.icc = true,
            _ => return Err(CaseError::Line("unknown call or option")),
        }
        Ok(())
    }
}

fn first(words: &[Word]) -> &str {
    match words.first() {
        Some(word) => word.plain(),
        None => "",
    }
}

fn reading_call(word: &str) -> Option<Call> {
    match word {
        "report" => Some(Call::Report),
        "parse" => Some(Call::Parse),
        "raw" => Some(Call::Raw),
        "by-need" => Some(Call::ByNeed),
        "exif" => Some(Call::Exif),
        "json" => Some(Call::Json),
        "rewrite" => Some(Call::Rewrite),
        "scrub" => Some(Call::Scrub),
        "copy" => Some(Call::Copy),
        "keep" => Some(Call::Keep),
        "write" => Some(Call::Write),
        _ => changing_call(word),
    }
}

fn changing_call(word: &str) -> Option<Call> {
    match word {
        "set" => Some(Call::Set),
        "erase-field" => Some(Call::EraseField),
        "erase-gps" => Some(Call::EraseGps),
        "erase-all" => Some(Call::EraseAll),
        "scrub-file" => Some(Call::ScrubFile),
        "assign" => Some(Call::Assign),
        "shift" => Some(Call::Shift),
        "thumbnail" => Some(Call::Thumbnail),
        "copy-exif" => Some(Call::CopyExif),
        _ => text_call(word),
    }
}

fn text_call(word: &str) -> Option<Call> {
    match word {
        "text" => Some(Call::Text),
        "unit" => Some(Call::Unit),
        "date" => Some(Call::Date),
        "offset" => Some(Call::Offset),
        "rows" => Some(Call::Rows),
        "row" => Some(Call::Row),
        "describe" => Some(Call::Describe),
        "default" => Some(Call::Default),
        "type" => Some(Call::Type),
        _ => None,
    }
}

fn kind_of(word: &str) -> Option<Kind> {
    match word {
        "any" => Some(Kind::Any),
        "jpeg" => Some(Kind::Jpeg),
        "jpeg-blocks" => Some(Kind::JpegByBlocks),
        "cut-jpeg" => Some(Kind::CutJpeg),
        "webp" => Some(Kind::WebP),
        "heif" => Some(Kind::Heif),
        "data" => Some(Kind::Data),
        "stream" => Some(Kind::Stream),
        _ => None,
    }
}

// Blocks: the number of their directory, and a term for each.
fn block_of(
    alloc: Global,
    names: &[Named],
    head: &str,
    words: &[Word],
) -> Result<Block, CaseError> {
    let kind = match head {
        "strips" => BlockKind::Strips,
        "tiles" => BlockKind::Tiles,
        "thumbnail" => BlockKind::Jpeg,
        _ => return Err(CaseError::Line("unknown line")),
    };
    let Some((directory, terms)) = words.split_first() else {
        return Err(CaseError::Line("no directory"));
    };
    let Ok(ifd_num) = u16::try_from(number(directory.plain())?) else {
        return Err(CaseError::Line("no directory"));
    };
    let mut parts = Vec::new(alloc);
    for word in terms {
        parts.push(bytes_of(alloc, names, slice_of(word))?)?;
    }
    Ok(Block {
        kind,
        ifd_num: In(ifd_num),
        parts,
    })
}

fn slice_of(word: &Word) -> &[Word] {
    std::slice::from_ref(word)
}
