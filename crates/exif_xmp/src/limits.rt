//! What a packet may have at most.

/// How many elements may be in one another.
pub const MAX_DEPTH: usize = 64;
/// How many properties a packet may have.
pub const MAX_PROPERTIES: usize = 65_535;
/// How many items an array may have.
pub const MAX_ITEMS: usize = 65_535;
/// How many namespace declarations may be in scope.
pub const MAX_BINDINGS: usize = 256;
/// How many bytes the path of a property may have.
pub const MAX_PATH_LEN: usize = 1_024;
/// How many bytes the URI of a namespace may have.
pub const MAX_URI_LEN: usize = 512;
