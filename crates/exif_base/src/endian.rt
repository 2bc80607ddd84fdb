//! Numbers in both byte orders (TIFF 6.0, section 2, "Image File Header").

ghost use Rattle.std.specs.Prelude.{◌≡◌, ◌≤◌, ◌<◌, ◌+◌, ◌^◌, ◌++◌, ℕ, List, length, drop, take};
ghost use Rattle.byteorder.specs.Endian.{big_bytes, big_number, little_bytes, little_number};
ghost use Rattle.byteorder.specs.Numbers.{big_number-reads_back, little_number-reads_back};

use byteorder::ByteOrder;

/// A byte order, as the type of a reading or of a writing.
pub trait Endian {
    // The number in the first bytes of a list, as many as are requested.
    ghost number_of: { ℕ → List ℕ → ℕ };

    // The bytes of a number, as many as are requested.
    ghost bytes_of: { ℕ → ℕ → List ℕ };

    // The bytes that spell a number are read as it.
    ghost reads_back: { (n x : ℕ) (rest : List ℕ) → x < 256 ^ n
        → number_of n (bytes_of n x ++ rest) ≡ x };

    /// The 16-bit number whose bytes begin at `from`.
    fn loadu16(buf: &[u8], from: usize) -> u16
        requires { from + 2 ≤ length buf.now }
        ensures { result ≡ number_of 2 (drop from buf.now) };

    /// The 32-bit number whose bytes begin at `from`.
    fn loadu32(buf: &[u8], from: usize) -> u32
        requires { from + 4 ≤ length buf.now }
        ensures { result ≡ number_of 4 (drop from buf.now) };

    /// The 64-bit number whose bytes begin at `from`.
    fn loadu64(buf: &[u8], from: usize) -> u64
        requires { from + 8 ≤ length buf.now }
        ensures { result ≡ number_of 8 (drop from buf.now) };

    /// Puts a 16-bit number over the 2 bytes from `from` on. All others stay.
    fn writeu16(buf: &mut [u8], from: usize, num: u16)
        requires { from + 2 ≤ length buf.old }
        ensures written { buf.new
            ≡ take from buf.old ++ (bytes_of 2 num ++ drop (from + 2) buf.old) }
        ensures length { length buf.new ≡ length buf.old };

    /// Puts a 32-bit number over the 4 bytes from `from` on. All others stay.
    fn writeu32(buf: &mut [u8], from: usize, num: u32)
        requires { from + 4 ≤ length buf.old }
        ensures written { buf.new
            ≡ take from buf.old ++ (bytes_of 4 num ++ drop (from + 4) buf.old) }
        ensures length { length buf.new ≡ length buf.old };

    /// Puts a 64-bit number over the 8 bytes from `from` on. All others stay.
    fn writeu64(buf: &mut [u8], from: usize, num: u64)
        requires { from + 8 ≤ length buf.old }
        ensures written { buf.new
            ≡ take from buf.old ++ (bytes_of 8 num ++ drop (from + 8) buf.old) }
        ensures length { length buf.new ≡ length buf.old };
}

/// The highest byte first.
pub struct BigEndian;

/// The lowest byte first.
pub struct LittleEndian;

impl Endian for BigEndian {
    ghost number_of = { big_number };

    ghost bytes_of = { big_bytes };

    ghost reads_back = { big_number-reads_back };

    fn loadu16(buf: &[u8], from: usize) -> u16 {
        byteorder::BigEndian::read_u16(&buf[from..])
    }

    fn loadu32(buf: &[u8], from: usize) -> u32 {
        byteorder::BigEndian::read_u32(&buf[from..])
    }

    fn loadu64(buf: &[u8], from: usize) -> u64 {
        byteorder::BigEndian::read_u64(&buf[from..])
    }

    fn writeu16(buf: &mut [u8], from: usize, num: u16) {
        byteorder::BigEndian::write_u16(&mut buf[from..], num);
    }

    fn writeu32(buf: &mut [u8], from: usize, num: u32) {
        byteorder::BigEndian::write_u32(&mut buf[from..], num);
    }

    fn writeu64(buf: &mut [u8], from: usize, num: u64) {
        byteorder::BigEndian::write_u64(&mut buf[from..], num);
    }
}

impl Endian for LittleEndian {
    ghost number_of = { little_number };

    ghost bytes_of = { little_bytes };

    ghost reads_back = { little_number-reads_back };

    fn loadu16(buf: &[u8], from: usize) -> u16 {
        byteorder::LittleEndian::read_u16(&buf[from..])
    }

    fn loadu32(buf: &[u8], from: usize) -> u32 {
        byteorder::LittleEndian::read_u32(&buf[from..])
    }

    fn loadu64(buf: &[u8], from: usize) -> u64 {
        byteorder::LittleEndian::read_u64(&buf[from..])
    }

    fn writeu16(buf: &mut [u8], from: usize, num: u16) {
        byteorder::LittleEndian::write_u16(&mut buf[from..], num);
    }

    fn writeu32(buf: &mut [u8], from: usize, num: u32) {
        byteorder::LittleEndian::write_u32(&mut buf[from..], num);
    }

    fn writeu64(buf: &mut [u8], from: usize, num: u64) {
        byteorder::LittleEndian::write_u64(&mut buf[from..], num);
    }
}

/// Which of the two byte orders.
#[derive(Clone, Copy, Debug, PartialEq, Eq)]
pub enum Order {
    /// The highest byte first, `MM` in a header.
    Big,
    /// The lowest byte first, `II` in a header.
    Little,
}
