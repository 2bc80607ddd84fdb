//! Names and their namespaces.

ghost use Rattle.std.specs.Prelude.{◌≡◌, ◌≤◌, length, IfOk, None};
ghost use Rattle.exif_xml.specs.Names.{binding_of, is_prefix_byte, lookup, qname_of, resolve, resolved, with_binding, with_bindings};
ghost use Rattle.exif_xml.specs.Scans.{run};

use crate::attribute::Attribute;
use crate::fault::Fault;
use crate::span::{Span, slice_of};
use std::alloc::AllocError;

/// A namespace declaration: `xmlns:prefix="uri"`, or `xmlns="uri"` for names without a prefix.
#[derive(Clone, Copy, Debug, PartialEq, Eq)]
pub struct Binding {
    /// The prefix; empty for the default namespace.
    pub prefix: Span,
    /// The URI as it is written.
    pub uri: Span,
}

/// A name with its namespace.
#[derive(Clone, Copy, Debug, PartialEq, Eq)]
pub struct Name {
    /// The prefix as it is written; empty without one.
    pub prefix: Span,
    /// The URI of the namespace; empty where the name has none.
    pub uri: Span,
    /// The local part, behind the prefix and its colon.
    pub local: Span,
}

/// A qualified name (Namespaces in XML 1.0, 4).
#[derive(Clone, Copy, Debug, PartialEq, Eq)]
pub struct QName {
    /// The prefix; empty without a colon.
    pub prefix: Span,
    /// The local part, behind the first colon.
    pub local: Span,
}

// Whether a byte is not a colon.
fn is_prefix_byte(b: u8) -> bool
    ensures { result ≡ is_prefix_byte b }
{
    b != b':'
}

// How many bytes are before the first colon.
fn prefix_len(input: &[u8]) -> usize
    ensures value { result ≡ run is_prefix_byte input.now }
    ensures within { result ≤ length input.now }
{
    for i in 0..input.len() {
        if !is_prefix_byte(input[i]) {
            return i;
        }
    }
    input.len()
}

/// The prefix and the local part of a name, cut at its first colon; without one the prefix is
/// empty.
pub fn qname_of(document: &[u8], name: Span) -> QName
    ensures { result ≡ qname_of document.now name }
{
    let bytes = slice_of(document, name);
    let n = prefix_len(bytes);
    if n < bytes.len() {
        return QName {
            prefix: Span {
                start: name.start,
                end: name.start + n,
            },
            local: Span {
                start: name.start + n + 1,
                end: name.end,
            },
        };
    }
    QName {
        prefix: Span {
            start: name.start,
            end: name.start,
        },
        local: name,
    }
}

// The namespace of a prefix: the one that was declared last.
fn lookup(document: &[u8], bindings: &[Binding], prefix: &[u8]) -> Option<Span>
    ensures { result ≡ lookup document.now prefix.now None bindings.now }
{
    let mut found = None;
    for i in 0..bindings.len() {
        let binding = bindings[i];
        if slice_of(document, binding.prefix) == prefix {
            found = Some(binding.uri);
        }
    }
    found
}

// The namespace declaration that an attribute is.
fn binding_of(document: &[u8], attribute: Attribute) -> Option<Binding>
    ensures { result ≡ binding_of document.now attribute }
{
    let name = slice_of(document, attribute.name);
    if name == b"xmlns".as_slice() {
        return Some(Binding {
            prefix: Span { start: 0, end: 0 },
            uri: attribute.value,
        });
    }
    if name.starts_with(b"xmlns:") {
        return Some(Binding {
            prefix: Span {
                start: attribute.name.start + 6,
                end: attribute.name.end,
            },
            uri: attribute.value,
        });
    }
    None
}

// The declarations with one more, if there is one.
fn with_binding(
    mut bindings: Vec<Binding>,
    binding: Option<Binding>,
) -> Result<Vec<Binding>, AllocError>
    ensures { IfOk result (λ v. v.items ≡ with_binding bindings.items binding) }
{
    if let Some(binding) = binding {
        bindings.push(binding)?;
    }
    Ok(bindings)
}

/// The namespace declarations in scope, with those among the attributes of one more start tag added
/// at the end (Namespaces in XML 1.0, 6.1). `bindings.truncate(n)` takes them out of scope again.
///
/// It takes memory for the list.
pub fn with_bindings(
    document: &[u8],
    bindings: Vec<Binding>,
    attributes: &[Attribute],
) -> Result<Vec<Binding>, AllocError>
    ensures { IfOk result
        (λ v. v.items ≡ with_bindings document.now bindings.items attributes.now) }
{
    let mut all = bindings;
    for i in 0..attributes.len() {
        all = with_binding(all, binding_of(document, attributes[i]))?;
    }
    Ok(all)
}

// The name whose prefix has this namespace.
fn resolved(qname: QName, uri: Option<Span>) -> Result<Name, Fault>
    ensures { result ≡ resolved qname uri }
{
    match uri {
        Some(uri) => Ok(Name {
            prefix: qname.prefix,
            uri,
            local: qname.local,
        }),
        None => {
            if qname.prefix.start == qname.prefix.end {
                return Ok(Name {
                    prefix: qname.prefix,
                    uri: Span { start: 0, end: 0 },
                    local: qname.local,
                });
            }
            Err(Fault::UndeclaredPrefix)
        }
    }
}

/// The name of an element with its namespace, by the declarations in scope: the last one of its
/// prefix counts. A name without a prefix has no namespace where there is no default one. It needs
/// no memory.
///
/// # Errors
///
/// [`Fault::UndeclaredPrefix`] for a prefix without a declaration in scope.
#[tactic(auto, unfolding(crate::specs::Names::resolve))]
pub fn resolve(document: &[u8], bindings: &[Binding], name: Span) -> Result<Name, Fault>
    ensures { result ≡ resolve document.now bindings.now name }
{
    let qname = qname_of(document, name);
    let uri = lookup(document, bindings, slice_of(document, qname.prefix));
    resolved(qname, uri)
}
