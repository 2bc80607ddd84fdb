//! Whether the tables of a JPEG segment fill it (ITU-T T.81, B.2.4.1, B.2.4.2).

ghost use Rattle.std.specs.Prelude.{◌≡◌};
ghost use Rattle.exif_lengths.specs.Tables.{huffman_fits, huffman_step, is_whole, no_table, quantization_begun, quantization_fits, quantization_step};

/// A table that is being read.
#[derive(Clone, Copy)]
pub struct Table {
    /// How many counts of codes are to come.
    pub counts: u8,
    /// How many bytes are to come behind them.
    pub left: u64,
}

// No table has begun.
fn no_table() -> Table
    ensures { result ≡ no_table }
{
    Table { counts: 0, left: 0 }
}

// Whether a table has all its bytes.
fn is_whole(table: Table) -> bool
    ensures { result ≡ is_whole table }
{
    table.counts == 0 && table.left == 0
}

// A quantization table whose first byte is this: its precision is in the upper half.
fn quantization_begun(byte: u8) -> Option<Table>
    ensures { result ≡ quantization_begun byte }
{
    match byte {
        0x00..=0x0f => Some(Table {
            counts: 0,
            left: 64,
        }),
        0x10..=0x1f => Some(Table {
            counts: 0,
            left: 128,
        }),
        _ => None,
    }
}

// One byte of quantization tables more.
fn quantization_step(table: Option<Table>, byte: u8) -> Option<Table>
    ensures { result ≡ quantization_step table byte }
{
    let Some(table) = table else {
        return None;
    };
    if table.left == 0 {
        return quantization_begun(byte);
    }
    Some(Table {
        counts: 0,
        left: table.left - 1,
    })
}

/// Whether bytes are whole quantization tables.
pub fn quantization_fits(bytes: &[u8]) -> bool
    ensures { result ≡ quantization_fits bytes.now }
{
    let mut table = Some(no_table());
    for byte in bytes {
        table = quantization_step(table, *byte);
    }
    match table {
        Some(table) => is_whole(table),
        None => false,
    }
}

// One byte of Huffman tables more: a class, 16 counts, and as many codes as they say in all.
fn huffman_step(table: Table, byte: u8) -> Table
    ensures { result ≡ huffman_step table byte }
{
    if 0 < table.counts {
        return Table {
            counts: table.counts - 1,
            left: table.left.saturating_add(u64::from(byte)),
        };
    }
    if 0 < table.left {
        return Table {
            counts: 0,
            left: table.left - 1,
        };
    }
    Table {
        counts: 16,
        left: 0,
    }
}

/// Whether bytes are whole Huffman tables.
pub fn huffman_fits(bytes: &[u8]) -> bool
    ensures { result ≡ huffman_fits bytes.now }
{
    let mut table = no_table();
    for byte in bytes {
        table = huffman_step(table, *byte);
    }
    is_whole(table)
}
