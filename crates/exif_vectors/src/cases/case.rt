//! A worked case: what is called, with which input, and which output is expected.

use exif::{Field, In, Tag};
use std::alloc::Global;

/// The call of a case.
#[derive(Clone, Copy)]
pub enum Call {
    Missing,
    Report,
    Parse,
    Raw,
    ByNeed,
    Exif,
    Json,
    Rewrite,
    Scrub,
    Copy,
    Keep,
    Write,
    Text,
    Unit,
    Date,
    Offset,
    Rows,
    Row,
    Describe,
    Default,
    Type,
    Set,
    EraseField,
    EraseGps,
    EraseAll,
    ScrubFile,
    Assign,
    Shift,
    Thumbnail,
    CopyExif,
}

/// How the input is read.
#[derive(Clone, Copy)]
pub enum Kind {
    /// By its signature.
    Any,
    Jpeg,
    /// As a JPEG stream, seven bytes at a time.
    JpegByBlocks,
    /// As a JPEG stream that may be cut off.
    CutJpeg,
    WebP,
    Heif,
    /// As TIFF data.
    Data,
    /// As a file that is read once and not held.
    Stream,
}

/// Strips, tiles or a thumbnail.
#[derive(Clone, Copy)]
pub enum BlockKind {
    Strips,
    Tiles,
    Jpeg,
}

/// Blocks of a directory.
#[derive(Drop)]
pub struct Block {
    pub kind: BlockKind,
    pub ifd_num: In,
    pub parts: Vec<Vec<u8>>,
}

/// A case.
#[derive(Drop)]
pub struct Case {
    pub name: String,
    pub call: Call,
    pub kind: Kind,
    pub is_lenient: bool,
    pub is_little: bool,
    pub removes_all: bool,
    pub keeps_orientation: bool,
    pub exif_dates: bool,
    pub target_shape: bool,
    pub xmp: bool,
    pub icc: bool,
    pub limit: Option<u64>,
    pub input: Vec<u8>,
    pub put: Option<Vec<u8>>,
    pub path: Vec<u8>,
    pub tag: Option<(Tag, In)>,
    pub kept: Vec<Tag>,
    pub fields: Vec<Field>,
    pub blocks: Vec<Block>,
    pub words: Vec<String>,
    pub output: Vec<u8>,
    pub end: String,
    pub reads: Option<usize>,
    /// How many bytes a prefix has at least that is refused, and with which text, if one is given.
    pub prefixes: Option<usize>,
    pub refusal: String,
    pub short_of_memory: bool,
}

impl Case {
    /// A case without a call.
    pub fn new(alloc: Global, name: String) -> Case {
        Case {
            name,
            call: Call::Missing,
            kind: Kind::Any,
            is_lenient: false,
            is_little: false,
            removes_all: false,
            keeps_orientation: false,
            exif_dates: false,
            target_shape: false,
            xmp: false,
            icc: false,
            limit: None,
            input: Vec::new(alloc),
            put: None,
            path: Vec::new(alloc),
            tag: None,
            kept: Vec::new(alloc),
            fields: Vec::new(alloc),
            blocks: Vec::new(alloc),
            words: Vec::new(alloc),
            output: Vec::new(alloc),
            end: String::new(alloc),
            reads: None,
            prefixes: None,
            refusal: String::new(alloc),
            short_of_memory: false,
        }
    }

    /// The first `word` of the case, or nothing.
    pub fn word(&self) -> &str {
        match self.words.first() {
            Some(word) => word.as_str(),
            None => "",
        }
    }
}
