// The chunks that a message names, first and last, both included.
ghost use Rattle.std.specs.Prelude.{◌≡◌, ◌+◌, ◌≤◌};
ghost use Rattle.wire.specs.Place.{place_size, named_size};
ghost use Rattle.tree.proofs.Promise.{covers};

use format::{Addressing, Format};
use tree::bin;

#[derive(Clone, Copy)]
pub struct Range {
    pub first: u32,
    pub last: u32,
}

// The bins that name no chunk and all chunks.
pub const EMPTY_BIN: u32 = 0xffff_ffff;

pub const EVERYTHING_BIN: u32 = 0x7fff_ffff;

// The bytes that name chunks.
fn place_size(format: Format) -> usize
    ensures { (result ≡ place_size format) × (4 ≤ result) × (result ≤ 8) }
{
    match format.addressing {
        Addressing::Bins => 4,
        Addressing::Ranges => 8,
    }
}

// The size of a type and chunks.
pub fn named_size(format: Format) -> usize
    ensures { (result ≡ named_size format) × (5 ≤ result) × (result ≤ 9) }
{
    1 + place_size(format)
}

// Whether the chunks from first to last are those of a node.
pub fn is_node(first: u32, last: u32) -> bool
    ensures { result ≡ covers (first + last) first last }
{
    bin::node_of_range(first, last).is_some()
}
