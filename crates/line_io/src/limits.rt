//! How much is read and kept at once: each limit once.

/// Bytes of a line of a log, without its LF; a longer line is refused.
pub const MOST_LINE_BYTES: usize = 4_096;

/// Bytes that are kept of a line: one more than a line may have, so that a longer one shows.
pub const KEPT_BYTES: usize = MOST_LINE_BYTES + 1;

/// Bytes that are read at once at most.
pub const BUFFER_BYTES: usize = 1_048_576;

/// Bytes that are read at once at first.
pub const FIRST_BUFFER_BYTES: usize = 65_536;

/// Bytes that a counted reader gives; a read after this many returns an error.
pub const MOST_GIVEN_BYTES: u64 = 1 << 62;

/// Bytes for which there is room where a report waits to be written.
pub const PENDING_BYTES: usize = 65_536;

// What the format of a log promises, each limit once more by its number.
const _: () = prove!(MOST_LINE_BYTES == 4_096 && MOST_GIVEN_BYTES == 4_611_686_018_427_387_904);
