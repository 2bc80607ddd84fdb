//! Numbers, items and values, sent as they are spelled.

ghost use Rattle.std.specs.Prelude.{◌≡◌, ◌≤◌, replicate, ◌++◌, [], ◌∷◌, List, ℕ};
ghost use Rattle.exif_base.specs.Sent.{Sends};
ghost use Rattle.exif_layout.specs.Encoding.{spelled, encode};
ghost use Rattle.std.specs.List.{flat_map};
ghost use Rattle.std.specs.Int.{w8, w16, w32, cast_unsigned};
ghost use Rattle.exif_base.specs.declared.endian.Order.{Order};
ghost use Rattle.exif_types.specs.Texts.{ended};

use exif_base::{BigEndian, Endian, Items, LittleEndian, Order, Sink, send_all};
use exif_types::{Rational, SRational, Value};
use std::io;

/// The 2 bytes that spell a number.
pub fn spelled_u16(order: Order, x: u16) -> [u8; 2]
    ensures { result ≡ spelled order 2 x }
{
    let mut bytes = [0; 2];
    match order {
        Order::Big => BigEndian::writeu16(&mut bytes, 0, x),
        Order::Little => LittleEndian::writeu16(&mut bytes, 0, x),
    }
    bytes
}

/// The 4 bytes that spell a number.
pub fn spelled_u32(order: Order, x: u32) -> [u8; 4]
    ensures { result ≡ spelled order 4 x }
{
    let mut bytes = [0; 4];
    match order {
        Order::Big => BigEndian::writeu32(&mut bytes, 0, x),
        Order::Little => LittleEndian::writeu32(&mut bytes, 0, x),
    }
    bytes
}

// The 8 bytes that spell a number.
fn spelled_u64(order: Order, x: u64) -> [u8; 8]
    ensures { result ≡ spelled order 8 x }
{
    let mut bytes = [0; 8];
    match order {
        Order::Big => BigEndian::writeu64(&mut bytes, 0, x),
        Order::Little => LittleEndian::writeu64(&mut bytes, 0, x),
    }
    bytes
}

// The 8 bytes that spell two numbers of 2 bytes and one of 4, one behind the other.
fn spelled_head(order: Order, tag: u16, kind: u16, count: u32) -> [u8; 8]
    ensures { result ≡ spelled order 2 tag ++ (spelled order 2 kind ++ spelled order 4 count) }
{
    let mut bytes = [0; 8];
    bytes[..2].copy_from_slice(&spelled_u16(order, tag));
    bytes[2..4].copy_from_slice(&spelled_u16(order, kind));
    bytes[4..].copy_from_slice(&spelled_u32(order, count));
    bytes
}

// The 12 bytes of an entry, of which the last four are given.
fn spelled_entry(order: Order, tag: u16, kind: u16, count: u32, element: [u8; 4]) -> [u8; 12]
    ensures { result ≡ (spelled order 2 tag ++ (spelled order 2 kind ++ spelled order 4 count))
        ++ element }
{
    let mut bytes = [0; 12];
    bytes[..8].copy_from_slice(&spelled_head(order, tag, kind, count));
    bytes[8..].copy_from_slice(&element);
    bytes
}

/// The bytes of a number of 2 bytes, and two zeros.
pub fn spelled_short(order: Order, x: u16) -> [u8; 4]
    ensures { result ≡ spelled order 2 x ++ replicate 2 0 }
{
    let mut bytes = [0; 4];
    bytes[..2].copy_from_slice(&spelled_u16(order, x));
    bytes
}

/// Sends an entry, of which the last four bytes are given.
pub fn send_entry<W: Sink>(
    out: &mut W,
    order: Order,
    tag: u16,
    kind: u16,
    count: u32,
    element: [u8; 4],
) -> io::Result<()>
    ensures sends { Sends W.Sink out.old out.new result
        ((spelled order 2 tag ++ (spelled order 2 kind ++ spelled order 4 count)) ++ element) }
{
    send_all(out, &spelled_entry(order, tag, kind, count, element))
}

/// Sends the tag of an entry, the number of its type and its count.
pub fn send_head<W: Sink>(
    out: &mut W,
    order: Order,
    tag: u16,
    kind: u16,
    count: u32,
) -> io::Result<()>
    ensures sends { Sends W.Sink out.old out.new result
        (spelled order 2 tag ++ (spelled order 2 kind ++ spelled order 4 count)) }
{
    send_all(out, &spelled_head(order, tag, kind, count))
}

/// Sends a number of 2 bytes.
pub fn send_u16<W: Sink>(out: &mut W, order: Order, x: u16) -> io::Result<()>
    ensures sends { Sends W.Sink out.old out.new result (spelled order 2 x) }
{
    send_all(out, &spelled_u16(order, x))
}

/// Sends a number of 4 bytes.
pub fn send_u32<W: Sink>(out: &mut W, order: Order, x: u32) -> io::Result<()>
    ensures sends { Sends W.Sink out.old out.new result (spelled order 4 x) }
{
    send_all(out, &spelled_u32(order, x))
}

/// Sends a number of 8 bytes.
pub fn send_u64<W: Sink>(out: &mut W, order: Order, x: u64) -> io::Result<()>
    ensures sends { Sends W.Sink out.old out.new result (spelled order 8 x) }
{
    send_all(out, &spelled_u64(order, x))
}

/// Sends up to four zeros.
pub fn send_zeros<W: Sink>(out: &mut W, count: usize) -> io::Result<()>
    requires { count ≤ 4 }
    ensures sends { Sends W.Sink out.old out.new result (replicate count 0) }
{
    let zeros = [0; 4];
    send_all(out, &zeros[..count])
}

/// An item of a value.
trait Item {
    // The bytes that spell it.
    ghost spelled: { Order → Self → List ℕ };

    /// Sends the bytes that spell it.
    fn send<W: Sink>(&self, out: &mut W, order: Order) -> io::Result<()>
        ensures sends { Sends W.Sink out.old out.new result (spelled order self.now) };
}

impl Item for u16 {
    ghost spelled = { λ order x. spelled order 2 x };

    fn send<W: Sink>(&self, out: &mut W, order: Order) -> io::Result<()> {
        send_u16(out, order, *self)
    }
}

impl Item for u32 {
    ghost spelled = { λ order x. spelled order 4 x };

    fn send<W: Sink>(&self, out: &mut W, order: Order) -> io::Result<()> {
        send_u32(out, order, *self)
    }
}

impl Item for u64 {
    ghost spelled = { λ order x. spelled order 8 x };

    fn send<W: Sink>(&self, out: &mut W, order: Order) -> io::Result<()> {
        send_u64(out, order, *self)
    }
}

impl Item for i8 {
    ghost spelled = { λ order x. cast_unsigned w8 x ∷ [] };

    fn send<W: Sink>(&self, out: &mut W, order: Order) -> io::Result<()> {
        send_all(out, &[self.cast_unsigned()])
    }
}

impl Item for i16 {
    ghost spelled = { λ order x. spelled order 2 (cast_unsigned w16 x) };

    fn send<W: Sink>(&self, out: &mut W, order: Order) -> io::Result<()> {
        send_u16(out, order, self.cast_unsigned())
    }
}

impl Item for i32 {
    ghost spelled = { λ order x. spelled order 4 (cast_unsigned w32 x) };

    fn send<W: Sink>(&self, out: &mut W, order: Order) -> io::Result<()> {
        send_u32(out, order, self.cast_unsigned())
    }
}

impl Item for Rational {
    ghost spelled = { λ order x. spelled order 4 x.num ++ spelled order 4 x.denom };

    fn send<W: Sink>(&self, out: &mut W, order: Order) -> io::Result<()> {
        send_u32(out, order, self.num)?;
        send_u32(out, order, self.denom)
    }
}

impl Item for SRational {
    ghost spelled = { λ order x. spelled order 4 (cast_unsigned w32 x.num)
        ++ spelled order 4 (cast_unsigned w32 x.denom) };

    fn send<W: Sink>(&self, out: &mut W, order: Order) -> io::Result<()> {
        send_u32(out, order, self.num.cast_unsigned())?;
        send_u32(out, order, self.denom.cast_unsigned())
    }
}

impl Item for Items<u8> {
    ghost spelled = { λ order text. ended text };

    fn send<W: Sink>(&self, out: &mut W, order: Order) -> io::Result<()> {
        send_all(out, self.as_slice())?;
        send_zeros(out, 1)
    }
}

// Sends items one behind the other.
fn send_items<T: Item, W: Sink>(out: &mut W, order: Order, items: &Items<T>) -> io::Result<()>
    ensures sends { Sends W.Sink out.old out.new result (flat_map (T.spelled order) items.now) }
{
    for item in items.as_slice() {
        item.send(out, order)?;
    }
    Ok(())
}

/// Sends the bytes that spell a value.
pub fn send_value<W: Sink>(out: &mut W, order: Order, value: &Value) -> io::Result<()>
    ensures sends { Sends W.Sink out.old out.new result (encode order value.now) }
{
    match value {
        Value::Byte(items) | Value::Undefined(items, _) => send_all(out, items.as_slice()),
        Value::Ascii(texts) => send_items(out, order, texts),
        Value::Short(items) => send_items(out, order, items),
        Value::Long(items) | Value::Float(items) => send_items(out, order, items),
        Value::Rational(items) => send_items(out, order, items),
        Value::SByte(items) => send_items(out, order, items),
        Value::SShort(items) => send_items(out, order, items),
        Value::SLong(items) => send_items(out, order, items),
        Value::SRational(items) => send_items(out, order, items),
        Value::Double(items) => send_items(out, order, items),
        Value::Unknown(_, _, _) => Ok(()),
    }
}
