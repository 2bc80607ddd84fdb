//! What holds of the datasets of IPTC data, whatever the bytes are.

ghost use Rattle.exif_iptc.specs.Promises.{NoByteIsSkipped};

/// No byte is skipped: [`scan`](crate::scan) finds datasets in order from the first byte on, each a
/// header and then its value, and the next one where it ends. Behind the last one only zeros are
/// left, or the data are refused there.
pub fn no_byte_is_skipped()
    ensures { NoByteIsSkipped }
{}
