// The calls of the crate store for C and Rust, on numbers and slices alone: what the comparisons and the benchmark
// link. An order's root is eight words; a call with another number of them is refused with 11, before all else. No call
// here looks at the order's method.
#![tactic(auto)]

ghost use Rattle.std.specs.Prelude.{◌≡◌};
ghost use Rattle.base.specs.Out.{out_at, out_of, named_by};
ghost use Rattle.store.proofs.Promise.{hash_in, rooms_of, integrity_of, root_of, start_spec, build_spec, take_spec};
ghost use Rattle.store_c.specs.Root.{rooted, root_put};

pub mod nodes;

use base::{NO_NODE, Refusal};
use order::Order;
use store::calls;
use verdict::integrity::Integrity;
use verdict::room;

// Starts a store under an order.
#[unsafe(no_mangle)]
pub extern "C" fn store_start(
    root: &[u32],
    length: u32,
    chunks: &[u8],
    map: &mut [u32],
    hashes: &mut [u32],
    trusted: &mut [u32],
) -> u32
    ensures { out_of result 0
        (rooms_of chunks.now map.new hashes.new trusted.new)
        ≡ rooted root.now
        (rooms_of chunks.now map.old hashes.old trusted.old)
        (start_spec (rooms_of chunks.now map.old hashes.old trusted.old)
        (hash_in root.now 0) length) }
{
    if root.len() != 8 {
        return Refusal::RoomTooSmall.number();
    }
    let order = Order {
        root: room::read(root, 0),
        length,
        method: format::RANGES,
    };
    match calls::start(order, chunks, map, hashes, trusted) {
        Ok(()) => 0,
        Err(refusal) => refusal.number(),
    }
}

// Builds a whole store of a length from its content, and writes its root.
#[unsafe(no_mangle)]
pub extern "C" fn store_build(
    root: &mut [u32],
    length: u32,
    chunks: &mut [u8],
    map: &mut [u32],
    hashes: &mut [u32],
    trusted: &mut [u32],
    content: &[u8],
) -> u32
    ensures { (out_of result 0
        (rooms_of chunks.new map.new hashes.new trusted.new)
        ≡ rooted root.old
        (rooms_of chunks.old map.old hashes.old trusted.old)
        (build_spec (rooms_of chunks.old map.old hashes.old trusted.old)
        length content.now))
        × (root.new ≡ root_put result root.old (root_of content.now)) }
{
    if root.len() != 8 {
        return Refusal::RoomTooSmall.number();
    }
    match calls::build(length, chunks, map, hashes, trusted, content) {
        Ok(found) => {
            room::write(root, 0, found);
            0
        }
        Err(refusal) => refusal.number(),
    }
}

// Takes chunk c with the hashes that came: entries has a node's number and the place of its hash in bytes in turn. The
// node that 9 or 10 names is written as its number, none as 2^64 - 1.
#[unsafe(no_mangle)]
pub extern "C" fn store_take(
    root: &[u32],
    length: u32,
    chunks: &mut [u8],
    map: &mut [u32],
    hashes: &mut [u32],
    trusted: &mut [u32],
    c: u32,
    chunk: &[u8],
    entries: &[u64],
    bytes: &[u8],
    node: &mut u64,
) -> u32
    ensures { out_at result 0 (named_by node.new)
        (rooms_of chunks.new map.new hashes.new trusted.new)
        ≡ rooted root.now
        (rooms_of chunks.old map.old hashes.old trusted.old)
        (take_spec (rooms_of chunks.old map.old hashes.old trusted.old)
        (hash_in root.now 0) length c chunk.now
        (integrity_of entries.now bytes.now)) }
{
    if root.len() != 8 {
        *node = NO_NODE;
        return Refusal::RoomTooSmall.number();
    }
    let order = Order {
        root: room::read(root, 0),
        length,
        method: format::RANGES,
    };
    let integrity = Integrity { entries, bytes };
    match calls::take(order, chunks, map, hashes, trusted, c, chunk, integrity) {
        Ok(()) => {
            *node = NO_NODE;
            0
        }
        Err(refusal) => {
            *node = base::node_number(refusal.node());
            refusal.number()
        }
    }
}
