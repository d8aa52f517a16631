// The numbers of the crate tree for Rust: nodes, lengths, peaks and sending orders, as the comparisons link them.
ghost use Rattle.std.specs.Prelude.{◌≡◌, length};
ghost use Rattle.tree.specs.Bin.{height, first, last};
ghost use Rattle.tree.specs.Steps.{parent, sibling};
ghost use Rattle.tree.specs.Pack.{chunk_size, chunks, size, leaf_places, root_node};
ghost use Rattle.tree.specs.Peaks.{peaks, sent};
ghost use Rattle.tree.specs.Steps.{listed};

use tree::{bin, pack, peaks};

#[unsafe(no_mangle)]
pub extern "C" fn tree_height(b: u64) -> u32
    ensures { result ≡ height b }
{
    bin::height(b)
}

#[unsafe(no_mangle)]
pub extern "C" fn tree_first(b: u32) -> u32
    ensures { result ≡ first b }
{
    bin::first(b)
}

#[unsafe(no_mangle)]
pub extern "C" fn tree_last(b: u32) -> u32
    ensures { result ≡ last b }
{
    bin::last(b)
}

#[unsafe(no_mangle)]
pub extern "C" fn tree_parent(b: u32) -> u64
    ensures { result ≡ parent b }
{
    bin::parent(b)
}

#[unsafe(no_mangle)]
pub extern "C" fn tree_sibling(b: u32) -> u64
    ensures { result ≡ sibling b }
{
    bin::sibling(b)
}

#[unsafe(no_mangle)]
pub extern "C" fn tree_chunk_count(length: u32) -> u32
    ensures { result ≡ chunks chunk_size length }
{
    pack::chunk_count(length)
}

#[unsafe(no_mangle)]
pub extern "C" fn tree_chunk_size(length: u32, i: u32) -> u32
    ensures { result ≡ size chunk_size length i }
{
    pack::chunk_size(length, i)
}

#[unsafe(no_mangle)]
pub extern "C" fn tree_leaf_places(n: u32) -> u64
    ensures { result ≡ leaf_places n }
{
    pack::leaf_places(n)
}

#[unsafe(no_mangle)]
pub extern "C" fn tree_root_node(n: u32) -> u64
    ensures { result ≡ root_node n }
{
    pack::root_node(n)
}

// The peaks of n chunks, as far as the room goes, and how many there are.
#[unsafe(no_mangle)]
pub extern "C" fn tree_peaks(room: &mut [u64], n: u32) -> usize
    ensures { (result ≡ length (peaks n)) × (room.new ≡ listed room.old 0 (peaks n)) }
{
    peaks::peaks(room, n)
}

// The nodes that go out with chunk c of n, likewise.
#[unsafe(no_mangle)]
pub extern "C" fn tree_sent(room: &mut [u64], n: u32, c: u32) -> usize
    ensures { (result ≡ length (sent n c)) × (room.new ≡ listed room.old 0 (sent n c)) }
{
    peaks::sent(room, n, c)
}
