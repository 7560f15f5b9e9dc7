//! Which partition a key, and which the deeds on a table belong to.

ghost use Rattle.std.specs.Prelude.{◌≡◌, ◌<◌};
ghost use Rattle.placing.specs.Parts.{key_partition, table_partition};

use model_base::{Key, Table};

/// The partition of a key, of this many.
pub fn partition_of(key: Key, partitions: usize) -> usize
    requires { 0 < partitions }
    ensures value { result ≡ key_partition partitions key.table key.row }
    ensures below { result < partitions }
{
    (key.table.0 as usize + key.row as usize) % partitions
}

/// The partition of the deeds on a table, of this many.
pub fn partition_of_table(table: Table, partitions: usize) -> usize
    requires { 0 < partitions }
    ensures value { result ≡ table_partition partitions table }
    ensures below { result < partitions }
{
    table.0 as usize % partitions
}
