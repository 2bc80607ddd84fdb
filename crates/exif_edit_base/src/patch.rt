//! Bytes put over others.

ghost use Rattle.std.specs.Prelude.{◌≡◌, ◌≤◌, ◌+◌, All, length, IfOk};
ghost use Rattle.exif_edit_base.specs.Patches.{FitsIn, padded, patched, put_at, put_back, swapped, swapped_back, taken, zeros_over};

use exif_base::Items;
use std::alloc::{AllocError, Global};
use std::mem;

/// A stretch of the data.
#[derive(Clone, Copy, Debug)]
pub struct Span {
    pub offset: u32,
    pub len: usize,
}

/// Bytes that an edit puts over as many others.
#[derive(Debug, Drop)]
pub struct Patch {
    /// Where they begin, counted from the first byte of the data or of the file.
    pub offset: u64,
    /// The bytes.
    pub bytes: Items<u8>,
}

/// Puts bytes over those at an offset.
pub fn put(bytes: &mut [u8], offset: usize, encoded: &[u8])
    requires { offset + length encoded.now ≤ length bytes.old }
    ensures value { bytes.new ≡ put_at offset encoded.now bytes.old }
    ensures len { length bytes.new ≡ length bytes.old }
{
    bytes[offset..offset + encoded.len()].copy_from_slice(encoded);
}

/// Puts patches over the bytes, one after another.
pub fn apply(patches: &[Patch], bytes: &mut [u8])
    requires { All (FitsIn (length bytes.old)) patches.now }
    ensures value { bytes.new ≡ patched patches.now bytes.old }
    ensures len { length bytes.new ≡ length bytes.old }
{
    for patch in patches {
        put(bytes, patch.offset as usize, patch.bytes.as_slice());
    }
}

// Puts a patch over the bytes, and what was there into the patch.
fn exchange_one(alloc: Global, bytes: &mut [u8], patch: &mut Patch)
    requires { FitsIn (length bytes.old) patch.old }
    ensures value { bytes.new ≡ put_at patch.old.offset patch.old.bytes bytes.old }
    ensures len { length bytes.new ≡ length bytes.old }
    ensures taken { patch.new ≡ taken bytes.old patch.old }
{
    let mut encoded = mem::replace(&mut patch.bytes, Items::from_vec(Vec::new(alloc))).into_vec();
    let offset = patch.offset as usize;
    bytes[offset..offset + encoded.len()].swap_with_slice(encoded.as_mut_slice());
    patch.bytes = Items::from_vec(encoded);
}

/// Puts patches over the bytes, one after another, and what was there into the patches. It takes
/// no memory, and [`put_back`] undoes it.
pub fn exchange(alloc: Global, bytes: &mut [u8], patches: &mut [Patch])
    requires { All (FitsIn (length bytes.old)) patches.old }
    ensures value { bytes.new ≡ patched patches.old bytes.old }
    ensures len { length bytes.new ≡ length bytes.old }
    ensures swapped { patches.new ≡ swapped patches.old bytes.old }
{
    for patch in patches.iter_mut() {
        exchange_one(alloc, bytes, patch);
    }
}

/// The same from the last patch to the first.
pub fn put_back(alloc: Global, bytes: &mut [u8], patches: &mut [Patch])
    requires { All (FitsIn (length bytes.old)) patches.old }
    ensures value { bytes.new ≡ put_back patches.old bytes.old }
    ensures len { length bytes.new ≡ length bytes.old }
    ensures swapped { patches.new ≡ swapped_back patches.old bytes.old }
{
    let mut i = patches.len();
    while i > 0 {
        i -= 1;
        exchange_one(alloc, bytes, &mut patches[i]);
    }
}

/// A copy of the bytes with patches put over them.
pub fn patched(alloc: Global, patches: &[Patch], bytes: &[u8]) -> Result<Vec<u8>, AllocError>
    requires { All (FitsIn (length bytes.now)) patches.now }
    ensures { IfOk result (λ v. v.items ≡ patched patches.now bytes.now) }
{
    let mut out = Vec::from_slice(alloc, bytes)?;
    apply(patches, out.as_mut_slice());
    Ok(out)
}

/// Bytes, and zeros behind them up to a length.
pub fn padded(alloc: Global, len: usize, encoded: &[u8]) -> Result<Vec<u8>, AllocError>
    requires { length encoded.now ≤ len }
    ensures { IfOk result (λ v. v.items ≡ padded len encoded.now) }
{
    let mut out = Vec::with_capacity(alloc, len)?;
    out.extend_from_slice(encoded)?;
    for _ in 0..len - encoded.len() {
        out.push(0)?;
    }
    Ok(out)
}

/// Zeros over a span.
pub fn zeros(alloc: Global, span: Span) -> Result<Patch, AllocError>
    ensures { IfOk result (λ p. p ≡ zeros_over span) }
{
    let encoded = vec![in alloc; 0u8; span.len]?;
    Ok(Patch {
        offset: span.offset as u64,
        bytes: Items::from_vec(encoded),
    })
}
