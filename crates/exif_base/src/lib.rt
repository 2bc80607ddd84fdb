//! What every layer of `exif` stands on: numbers in both byte orders, lists of values, the devices
//! that bytes come from and go to, and the reads and sends over them.
#![tactic(auto)]

pub mod blocks;
pub mod device;
pub mod endian;
pub mod feed;
pub mod items;
pub mod read;
mod search;
pub mod seekable;
pub mod send;

pub use blocks::Blocks;
pub use device::{Counted, Sink, Source};
pub use endian::{BigEndian, Endian, LittleEndian, Order};
pub use feed::Feed;
pub use items::Items;
pub use read::{
    ReadFault, discard_exact, read_at_most, read_exact, read_exact_len, read_front, read_to_end,
    read8, read16, read64,
};
pub use seekable::{ReadSeek, Seekable};
pub use send::send_all;
