//! The picture that a run over a catalogue gave last, and its row.

ghost use Rattle.std.specs.Prelude.{◌≡◌, [], ℕ, List, Option, if◌then◌else◌, not, false, true, IfOk, IfSome, None, OnOk, Some, map, option_map, string_bytes};
ghost use Rattle.std.specs.BTreeSet.{contains_text};
ghost use Rattle.std.specs.Str.{bytes_eq};
ghost use Rattle.sha2.specs.Sha256.{sha256};
ghost use Rattle.exif_catalog.specs.Values.{stored};
ghost use Rattle.exif_decisions.specs.declared.outcome.Outcome.TheVariants.{Done};
ghost use Rattle.exif_inputs.specs.Uses.{held};
ghost use Rattle.exif_gathering.specs.Last.{IsRowOf};
ghost use Rattle.exif_gathering.specs.Rows.{hex_text, known_stamp, row_for};

use crate::rows::{hash_of, known_stamp, row_for};
use exif::{Error, Exif};
use exif_catalog::{Found, SqlValue};
use exif_catalog_file::text_of;
use exif_decisions::Outcome;
use exif_formats::{Options, Picture, PictureFormat};
use exif_inputs::{FileStamp, Input, open, read, read_file, stamp_of};
use exif_reader::report::contents_of;
use std::alloc::{AllocError, Global};
use std::collections::BTreeSet;

/// The picture that was given last, and the paths of all that were given.
#[derive(Drop)]
pub struct LastPicture {
    /// Its path, as it was named or found.
    pub shown: String,
    /// The path of its row.
    pub path: String,
    /// The paths of all that were given.
    pub seen: BTreeSet<String>,
    /// What its file is.
    pub stamp: FileStamp,
    /// Whether it was found in a folder, and was not looked at.
    pub is_unseen: bool,
    /// How many faults were skipped in it.
    pub faults: usize,
    /// What became of it, where there is one.
    pub outcome: Option<Outcome>,
}

// Adds a path, and answers whether it is new.
fn add_path(seen: &mut BTreeSet<String>, path: &String) -> Result<bool, AllocError>
    ensures new { IfOk result (λ is_new.
        is_new ≡ not (contains_text seen.old (string_bytes path.now))) }
    ensures seen { OnOk result ((q : List ℕ) → contains_text seen.new q
        ≡ (if bytes_eq (string_bytes path.now) q then true else contains_text seen.old q)) }
{
    if seen.contains(path.as_str()) {
        return Ok(false);
    }
    seen.insert(path.clone()?)?;
    Ok(true)
}

impl LastPicture {
    /// No picture was given yet.
    pub fn new(alloc: Global) -> LastPicture
        ensures none { (result.outcome ≡ None) × (result.faults ≡ 0)
            × (result.is_unseen ≡ false) }
        ensures paths { (string_bytes result.shown ≡ []) × (string_bytes result.path ≡ []) }
        ensures seen { result.seen.keys ≡ [] }
    {
        LastPicture {
            shown: String::new(alloc),
            path: String::new(alloc),
            seen: BTreeSet::new(alloc),
            stamp: FileStamp::UNKNOWN,
            is_unseen: false,
            faults: 0,
            outcome: None,
        }
    }

    /// Begins with the picture at a path from the root of the file system on, which was named or
    /// found as `shown`. One that was there before, by whatever name, is not given again.
    pub fn begin(
        &mut self,
        rt: &HostRuntime,
        path: String,
        shown: String,
        is_unseen: bool,
    ) -> Result<Option<Found>, AllocError>
        ensures stamp { IfOk result (λ found. IfSome found
            (λ found. found.stamp ≡ known_stamp self.new.stamp)) }
        ensures begun { IfOk result (λ found. IfSome found (λ found.
            (self.new.outcome ≡ Some Done) × (self.new.faults ≡ 0))) }
        ensures unseen { IfOk result (λ found. IfSome found
            (λ found. self.new.is_unseen ≡ is_unseen)) }
        ensures new { IfOk result (λ found. IfSome found (λ found.
            contains_text self.old.seen (string_bytes self.new.path) ≡ false)) }
    {
        if !add_path(&mut self.seen, &path)? {
            return Ok(None);
        }
        self.stamp = stamp_of(rt, path.as_str());
        self.is_unseen = is_unseen;
        self.faults = 0;
        self.outcome = Some(Outcome::Done);
        let found = Found {
            path: text_of(rt.alloc(), path.as_bytes())?,
            stamp: known_stamp(self.stamp),
        };
        self.path = path;
        self.shown = shown;
        Ok(Some(found))
    }

    // The row of the picture by its Exif data, if it has some.
    fn row_of(
        &self,
        alloc: Global,
        format: Option<PictureFormat>,
        exif: Option<&Exif>,
        hash: Option<&str>,
    ) -> Result<Vec<SqlValue>, AllocError>
        ensures { IfOk result (λ row. map stored row.items ≡ row_for (string_bytes self.now.path)
            self.now.stamp (option_map (λ t. t.now) hash.entry) format
            (option_map (λ e. e.now.fields) exif.entry)) }
    {
        row_for(alloc, self.path.as_bytes(), self.stamp, hash, format, exif)
    }

    // Reads the picture, and answers its row.
    fn read_row(
        &mut self,
        alloc: Global,
        options: Options,
        input: Input,
        hash: Option<&str>,
    ) -> Result<Vec<SqlValue>, Error>
        ensures { IfOk result (λ row. IsRowOf (string_bytes self.old.path) self.old.stamp
            (option_map (λ t. t.now) hash.entry) options (held input) self.new.faults
            (map stored row.items)) }
    {
        let Picture { format, answer } = read(alloc, options, input)?;
        let (exif, faults) = contents_of(answer)?;
        self.faults = faults;
        Ok(self.row_of(alloc, format, exif.as_ref(), hash)?)
    }

    // The row of a picture of these bytes, with their hash.
    fn row_with_hash(
        &mut self,
        alloc: Global,
        options: Options,
        bytes: Vec<u8>,
    ) -> Result<Vec<SqlValue>, Error>
        ensures { IfOk result (λ row. IsRowOf (string_bytes self.old.path) self.old.stamp
            (Some (hex_text (sha256 bytes.items))) options (Some bytes.items) self.new.faults
            (map stored row.items)) }
    {
        let hash = hash_of(alloc, bytes.as_slice())?;
        self.read_row(alloc, options, Input::Bytes(bytes), Some(hash.as_str()))
    }

    /// The row of the picture, with the hash of the bytes that are read where it is asked for. Its
    /// faults are counted. It takes the memory of the file with a hash, and else of what is read.
    pub fn row(
        &mut self,
        rt: &HostRuntime,
        options: Options,
        has_hash: bool,
    ) -> Result<Vec<SqlValue>, Error>
        ensures hashed { has_hash ≡ true → IfOk result (λ row.
            (bytes : List ℕ) × IsRowOf (string_bytes self.old.path) self.old.stamp
            (Some (hex_text (sha256 bytes))) options (Some bytes) self.new.faults
            (map stored row.items)) }
        ensures plain { has_hash ≡ false → IfOk result (λ row.
            (bytes : Option (List ℕ)) × IsRowOf (string_bytes self.old.path) self.old.stamp
            None options bytes self.new.faults (map stored row.items)) }
    {
        let alloc = rt.alloc();
        if has_hash {
            let bytes = read_file(rt, self.path.as_str())?;
            return self.row_with_hash(alloc, options, bytes);
        }
        let input = open(rt, self.path.as_str())?;
        self.read_row(alloc, options, input, None)
    }
}
