//! The bytes that are buffered for a run of lines.

/// Buffered bytes, and how many the reader gave up to their end.
#[derive(Clone, Copy)]
pub(crate) struct Buffered<'a> {
    pub(crate) bytes: &'a [u8],
    pub(crate) given: u64,
}
