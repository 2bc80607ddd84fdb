//! Laws of pictures. They hold for all bytes, and speak of the definitions alone.

ghost use Rattle.std.specs.Prelude.{ℕ, List};
ghost use Rattle.exif_formats.specs.Laws.{ContainersAreReadSo, RawFilesAreTiff};

/// A file that is a container of Exif data has its format, and its Exif data are those that
/// `exif_containers` finds.
pub fn containers_are_read_so()
    ensures same { (bytes : List ℕ) → ContainersAreReadSo bytes }
{}

/// What is read of a raw file of Olympus or Panasonic is TIFF data: they begin so, and go on as the
/// file does.
pub fn raw_files_are_tiff_data()
    ensures tiff { (bytes : List ℕ) → RawFilesAreTiff bytes }
{}
