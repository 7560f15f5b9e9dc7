//! How large what a log says may be, and how a log may be run: each limit once. The longest line is `MOST_LINE_BYTES` of
//! `line_io`.

/// Accesses of a statement; a line that declares one more is refused.
pub const MOST_ACCESSES: usize = 16;

/// Steps of a body; a line with one more is refused.
pub const MOST_STEPS: usize = 64;

/// Numbers that a body answers, so OUT steps of a body; a line with one more is refused.
pub const MOST_OUTPUTS: usize = 8;

/// Registers of a body, numbered from 0; a line that names one of this number or above is refused.
pub const MOST_REGISTERS: usize = 16;

/// Columns of a table, so numbers of a row; a table with more isn't created.
pub const MOST_COLUMNS: usize = 8;

/// Numbers that a value has room for, be it a row or what a body answers.
pub const MOST_VALUES: usize = MOST_COLUMNS;

const _: () = prove!(MOST_OUTPUTS <= MOST_VALUES);

/// Grantees of a deed, and so positions of a grant.
pub const MOST_GRANTEES: usize = 8;

/// Bytes of a user's or a table's name; a longer name is refused.
pub const MOST_NAME_BYTES: usize = 32;

/// Users of a log, and its tables as well; a statement that would bring in one more of either is refused.
pub const MOST_NAMES: usize = 65_536;

/// Places of a log; each statement after the last of them is refused.
pub const MOST_PLACES: u64 = 4_294_967_295;

/// Statements of a batch; a run by larger batches is refused.
pub const MOST_BATCH_STATEMENTS: u64 = 65_536;

/// Partitions by which a batch is placed; a run by more is refused.
pub const MOST_PARTITIONS: usize = 64;

/// Workers that run a batch; a run by more is refused.
pub const MOST_WORKERS: usize = 64;

/// Batches before which the rows are kept; a run that is to keep more is refused.
pub const MOST_KEPT_BATCHES: u64 = 65_535;

// What the format of a log promises, and then what the options of a run do, each limit once more by its number.
const _: () = prove!(
    MOST_ACCESSES == 16 && MOST_STEPS == 64 && MOST_OUTPUTS == 8 && MOST_REGISTERS == 16
);

const _: () = prove!(MOST_COLUMNS == 8 && MOST_GRANTEES == 8 && MOST_NAME_BYTES == 32);

const _: () = prove!(MOST_NAMES == 65_536 && MOST_PLACES == 4_294_967_295);

const _: () = prove!(MOST_WORKERS == 64 && MOST_PARTITIONS == 64);

const _: () = prove!(MOST_BATCH_STATEMENTS == 65_536 && MOST_KEPT_BATCHES == 65_535);
