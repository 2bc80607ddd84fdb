//! Plans, sent strictly forward.

ghost use Rattle.std.specs.Prelude.{◌≡◌, ◌+◌, ◌*◌, ◌++◌, ◌^◌, ◌<◌, ◌≤◌, length, map, false, IfSome};
ghost use Rattle.std.specs.List.{flat_map, AllByRecursion};
ghost use Rattle.exif_writer.specs.Sending.{block_offset, context_offset, sum_of, settled, Settles, element, slot_text, IsReady, entries_text, slots_text, value_text, values_text, blocks_text};
ghost use Rattle.exif_layout.specs.EntryContents.{lens};
ghost use Rattle.exif_layout.specs.Encoding.{spelled, encode};
ghost use Rattle.exif_layout.specs.Offsets.{offsets_from};
ghost use Rattle.exif_layout.specs.Image.{header_text, order_mark};
ghost use Rattle.exif_base.specs.Sent.{Sends};
ghost use Rattle.exif_writer.specs.Plans.{IsReadyPlan, directories_text, plan_values_text, plan_blocks_text, plan_text, plans_text, sent_image};

use crate::plan::{Offsets, Plan, Slot};
use exif_base::{Order, Sink, send_all};
use exif_layout::BlockKind;
use exif_layout::content::Content;
use exif_layout::item::{
    send_entry, send_head, send_u16, send_u32, send_value, send_zeros, spelled_short, spelled_u32,
};
use exif_types::Context;
use std::io;

impl Offsets {
    // Where the blocks of a kind begin.
    fn block(&self, kind: BlockKind) -> u32
        ensures { result ≡ block_offset self.now kind }
    {
        match kind {
            BlockKind::Strips => self.strips,
            BlockKind::Tiles => self.tiles,
            BlockKind::Jpeg => self.jpeg,
        }
    }

    // Where the directory of a context is.
    fn context(&self, context: Context) -> u32
        ensures { result ≡ context_offset self.now context }
    {
        match context {
            Context::Tiff => self.tiff,
            Context::Exif => self.exif,
            Context::Gps => self.gps,
            Context::Interop => self.interop,
        }
    }
}

// Sends the offsets of blocks that are one behind the other.
fn send_offsets<W: Sink>(out: &mut W, order: Order, first: u32, blocks: &[&[u8]]) -> io::Result<()>
    requires { first + sum_of blocks.now ≤ 4294967295 }
    ensures sends { Sends W.Sink out.old out.new result
        (flat_map (spelled order 4) (offsets_from first (lens blocks.now))) }
{
    let mut offset = first;
    for block in blocks {
        send_u32(out, order, offset)?;
        offset += block.len() as u32;
    }
    Ok(())
}

// Sends the lengths of blocks.
fn send_lengths<W: Sink>(out: &mut W, order: Order, blocks: &[&[u8]]) -> io::Result<()>
    requires { sum_of blocks.now ≤ 4294967295 }
    ensures sends { Sends W.Sink out.old out.new result
        (flat_map (spelled order 4) (lens blocks.now)) }
{
    for block in blocks {
        send_u32(out, order, block.len() as u32)?;
    }
    Ok(())
}

// Sends the bytes of a value.
#[tactic(auto, using(crate::proofs::SendSizes::encode_moved))]
fn send_content<W: Sink>(
    out: &mut W,
    order: Order,
    offsets: &Offsets,
    content: &Content,
) -> io::Result<()>
    requires { Settles offsets.now content.now }
    ensures sends { Sends W.Sink out.old out.new result
        (encode order (settled offsets.now content.now)) }
{
    match content {
        Content::Known(noted) => send_value(out, order, noted.value()),
        Content::OneShort(x) => send_u16(out, order, *x),
        Content::OneLong(x) => send_u32(out, order, *x),
        Content::OffsetsOf(kind, blocks) => send_offsets(out, order, offsets.block(*kind), blocks),
        Content::LengthsOf(_, blocks) => send_lengths(out, order, blocks),
        Content::OffsetOf(context) => send_u32(out, order, offsets.context(*context)),
    }
}

#[tactic(auto, using(crate::proofs::SendSizes::count_within))]
impl<'a> Slot<'a> {
    // Sends the last four bytes of the entry.
    fn send_element<W: Sink>(&self, out: &mut W, order: Order, offsets: &Offsets) -> io::Result<()>
        requires { Settles offsets.now self.now.content }
        ensures sends { Sends W.Sink out.old out.new result (element order offsets.now self.now) }
    {
        if self.size <= 4 {
            send_content(out, order, offsets, &self.content)?;
            send_zeros(out, (4 - self.size) as usize)
        } else {
            send_u32(out, order, self.offset)
        }
    }

    // The last four bytes of the entry, where they are one number: the offset of the value, or the
    // value itself.
    fn number(&self, order: Order) -> Option<[u8; 4]>
        ensures { IfSome result
            (λ bytes. (offsets : Offsets) → element order offsets self.now ≡ bytes) }
    {
        if self.size > 4 {
            return Some(spelled_u32(order, self.offset));
        }
        match self.content {
            Content::OneShort(x) if self.size == 2 => Some(spelled_short(order, x)),
            Content::OneLong(x) if self.size == 4 => Some(spelled_u32(order, x)),
            _ => None,
        }
    }

    // Sends the entry: in one piece, where its last four bytes are one number.
    fn send<W: Sink>(&self, out: &mut W, order: Order, offsets: &Offsets) -> io::Result<()>
        requires { IsReady offsets.now self.now }
        ensures sends { Sends W.Sink out.old out.new result (slot_text order offsets.now self.now) }
    {
        let kind = self.content.type_number();
        let count = self.content.count();
        if let Some(number) = self.number(order) {
            return send_entry(out, order, self.tag, kind, count, number);
        }
        send_head(out, order, self.tag, kind, count)?;
        self.send_element(out, order, offsets)
    }

    // Sends the value, if it isn't in its entry.
    fn send_value<W: Sink>(&self, out: &mut W, order: Order, offsets: &Offsets) -> io::Result<()>
        requires { IsReady offsets.now self.now }
        ensures sends { Sends W.Sink out.old out.new result
            (value_text order offsets.now self.now) }
    {
        if self.size <= 4 {
            return Ok(());
        }
        send_zeros(out, usize::from(self.padded))?;
        send_content(out, order, offsets, &self.content)
    }
}

// Sends the entries of a directory.
fn send_entries<W: Sink>(
    out: &mut W,
    order: Order,
    offsets: &Offsets,
    slots: &[Slot],
) -> io::Result<()>
    requires { AllByRecursion (IsReady offsets.now) slots.now }
    ensures sends { Sends W.Sink out.old out.new result (entries_text order offsets.now slots.now) }
{
    for slot in slots {
        slot.send(out, order, offsets)?;
    }
    Ok(())
}

/// Sends a directory, if it has entries.
pub fn send_directory<W: Sink>(
    out: &mut W,
    order: Order,
    offsets: &Offsets,
    slots: &[Slot],
    next: u32,
) -> io::Result<()>
    requires few { length slots.now ≤ 65535 }
    requires ready { AllByRecursion (IsReady offsets.now) slots.now }
    ensures sends { Sends W.Sink out.old out.new result
        (slots_text order offsets.now next slots.now) }
{
    if slots.is_empty() {
        return Ok(());
    }
    send_u16(out, order, slots.len() as u16)?;
    send_entries(out, order, offsets, slots)?;
    send_u32(out, order, next)
}

/// Sends the values of a directory that aren't in its entries.
pub fn send_values<W: Sink>(
    out: &mut W,
    order: Order,
    offsets: &Offsets,
    slots: &[Slot],
) -> io::Result<()>
    requires { AllByRecursion (IsReady offsets.now) slots.now }
    ensures sends { Sends W.Sink out.old out.new result (values_text order offsets.now slots.now) }
{
    for slot in slots {
        slot.send_value(out, order, offsets)?;
    }
    Ok(())
}

/// Sends blocks one behind the other.
pub fn send_blocks<W: Sink>(out: &mut W, blocks: &[&[u8]]) -> io::Result<()>
    ensures sends { Sends W.Sink out.old out.new result (blocks_text blocks.now) }
{
    for block in blocks {
        send_all(out, block)?;
    }
    Ok(())
}

impl<'a> Plan<'a> {
    // Sends the four directories, behind a zero where the first needs one.
    fn send_directories<W: Sink>(&self, out: &mut W, order: Order) -> io::Result<()>
        requires { IsReadyPlan self.now }
        ensures sends { Sends W.Sink out.old out.new result (directories_text order self.now) }
    {
        let offsets = &self.offsets;
        send_zeros(out, (offsets.start % 2) as usize)?;
        send_directory(out, order, offsets, self.tiff.as_slice(), offsets.next)?;
        send_directory(out, order, offsets, self.exif.as_slice(), 0)?;
        send_directory(out, order, offsets, self.gps.as_slice(), 0)?;
        send_directory(out, order, offsets, self.interop.as_slice(), 0)
    }

    // Sends the values that aren't in their entries.
    fn send_values<W: Sink>(&self, out: &mut W, order: Order) -> io::Result<()>
        requires { IsReadyPlan self.now }
        ensures sends { Sends W.Sink out.old out.new result (plan_values_text order self.now) }
    {
        let offsets = &self.offsets;
        send_values(out, order, offsets, self.tiff.as_slice())?;
        send_values(out, order, offsets, self.exif.as_slice())?;
        send_values(out, order, offsets, self.gps.as_slice())?;
        send_values(out, order, offsets, self.interop.as_slice())
    }

    // Sends the blocks.
    fn send_blocks<W: Sink>(&self, out: &mut W) -> io::Result<()>
        ensures sends { Sends W.Sink out.old out.new result (plan_blocks_text self.now) }
    {
        send_blocks(out, self.strips)?;
        send_blocks(out, self.tiles)?;
        send_blocks(out, self.jpeg)
    }

    // Sends all parts.
    fn send<W: Sink>(&self, out: &mut W, order: Order) -> io::Result<()>
        requires { IsReadyPlan self.now }
        ensures sends { Sends W.Sink out.old out.new result (plan_text order self.now) }
    {
        self.send_directories(out, order)?;
        self.send_values(out, order)?;
        self.send_blocks(out)
    }
}

// The two bytes that say a byte order.
fn order_mark(order: Order) -> [u8; 2]
    ensures { result ≡ order_mark order }
{
    match order {
        Order::Big => *b"MM",
        Order::Little => *b"II",
    }
}

// Sends the byte order, the number 42 and the offset of the first directory.
fn send_header<W: Sink>(out: &mut W, order: Order) -> io::Result<()>
    ensures sends { Sends W.Sink out.old out.new result (header_text order) }
{
    send_all(out, &order_mark(order))?;
    send_u16(out, order, 42)?;
    send_u32(out, order, 8)
}

// Sends the plans one behind the other.
fn send_plans<'a, W: Sink>(out: &mut W, order: Order, plans: &[Plan<'a>]) -> io::Result<()>
    requires { AllByRecursion IsReadyPlan plans.now }
    ensures sends { Sends W.Sink out.old out.new result (plans_text order plans.now) }
{
    for plan in plans {
        plan.send(out, order)?;
    }
    Ok(())
}

/// Sends an image and flushes once.
pub fn send_image<'a, W: Sink>(out: &mut W, order: Order, plans: &[Plan<'a>]) -> io::Result<()>
    requires { AllByRecursion IsReadyPlan plans.now }
    ensures sends { Sends W.Sink out.old out.new result (sent_image order plans.now) }
{
    send_header(out, order)?;
    send_plans(out, order, plans)?;
    out.flush()?;
    Ok(())
}
