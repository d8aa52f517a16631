// A pack in chunks, and the least tree over them. The yard profile's sizes and limits stand here alone.
ghost use Rattle.std.specs.Prelude.{◌≡◌, ◌≤◌};
ghost use Rattle.tree.specs.Pack.{chunk_size, chunks, size, levels, leaf_places, root_node};

use crate::bin;

pub const CHUNK_SIZE: u32 = 1024;

pub const MAX_LENGTH: u32 = 524_288;

// How many chunks a pack of this length has.
pub fn chunk_count(length: u32) -> u32
    ensures { result ≡ chunks chunk_size length }
{
    length.div_ceil(CHUNK_SIZE)
}

// The size of chunk i: 0 past the end, as its definition says.
pub fn chunk_size(length: u32, i: u32) -> u32
    ensures { result ≡ size chunk_size length i }
{
    let before = i.saturating_mul(CHUNK_SIZE);
    CHUNK_SIZE.min(length.saturating_sub(before))
}

// The height of the least tree with at least n leaves.
pub fn levels(n: u32) -> u32
    ensures { (result ≡ levels n) × (result ≤ 32) }
{
    32 - n.saturating_sub(1).leading_zeros()
}

// Its leaf places.
pub fn leaf_places(n: u32) -> u64
    ensures { result ≡ leaf_places n }
{
    bin::pow2(levels(n))
}

// Its root.
pub fn root_node(n: u32) -> u64
    ensures { result ≡ root_node n }
{
    leaf_places(n) - 1
}
