// The calls on the rooms: start a store, build a whole one, take a chunk. Any order, any rooms, any numbers and any
// bytes get an answer, and a refusal changes nothing.
// The rooms are slices here and no struct, since the C interface lends them so, and lends `start` its chunks shared.
ghost use Rattle.std.specs.Prelude.{◌≡◌, ◌+◌, ◌*◌, ◌<◌, ◌≤◌, length, IfOk};
ghost use Rattle.hash.proofs.Promise.{bytes_of};
ghost use Rattle.tree.specs.Pack.{chunk_size, max_length};
ghost use Rattle.verdict.specs.Integrity.{integrity_in};
ghost use Rattle.verdict.specs.Rooms.{rooms_of, count_of};
ghost use Rattle.store.specs.Building.{root_of};
ghost use Rattle.store.specs.Calls.{start_spec, build_spec, take_spec};
ghost use Rattle.store.specs.Steps.{found_root, given_root, store_if_fits};
ghost use Rattle.base.specs.Out.{answer_of, out_by};

use crate::answers::Sizes;
use crate::content::Content;
use crate::nodes::Nodes;
use crate::{building, storing};
use base::Refusal;
use hash::value::HashValue;
use order::Order;
use tree::pack;
use verdict::integrity::Integrity;
use verdict::verdicts::Place;
use verdict::{peaks, verdicts};

// Starts a store under an order.
pub fn start(
    order: Order,
    chunks: &[u8],
    map: &mut [u32],
    hashes: &mut [u32],
    trusted: &mut [u32],
) -> Result<(), Refusal>
    ensures { out_by result 0
        (rooms_of chunks.now map.new hashes.new trusted.new)
        ≡ start_spec (rooms_of chunks.now map.old hashes.old trusted.old)
        (bytes_of order.root.words) order.length }
{
    Sizes::of(chunks, map, hashes, trusted).order_answer(order.length)?;
    let n = pack::chunk_count(order.length);
    building::start(map, &mut Nodes { hashes, trusted }, order.root, n);
    Ok(())
}

// Builds a whole store of a length from its content, and gives its root; a refusal stands for the filler.
pub fn build(
    length: u32,
    chunks: &mut [u8],
    map: &mut [u32],
    hashes: &mut [u32],
    trusted: &mut [u32],
    content: &[u8],
) -> Result<HashValue, Refusal>
    ensures out { out_by result 0
        (rooms_of chunks.new map.new hashes.new trusted.new)
        ≡ build_spec (rooms_of chunks.old map.old hashes.old trusted.old)
        length content.now }
    ensures root { IfOk result (λ root. bytes_of root.words ≡ root_of content.now) }
    ensures given { given_root (λ root. bytes_of root.words) result
        ≡ found_root (answer_of result) (root_of content.now) }
{
    Sizes::of(chunks, map, hashes, trusted).build_answer(length, content.len())?;
    let n = pack::chunk_count(length);
    let nodes = &mut Nodes { hashes, trusted };
    Ok(building::build(chunks, map, nodes, Content { bytes: content, n }))
}

// Stores the chunk where it fits, and otherwise gives what the verdict says.
fn store_if_fits(
    chunks: &mut [u8],
    map: &mut [u32],
    hashes: &mut [u32],
    trusted: &mut [u32],
    root: HashValue,
    n: u32,
    c: u32,
    chunk: &[u8],
    integrity: Integrity,
) -> Result<(), Refusal>
    requires { (c < n) × (n ≤ count_of max_length)
        × (chunk_size * c + length chunk.now ≤ length chunks.old) }
    ensures { out_by result 0
        (rooms_of chunks.new map.new hashes.new trusted.new)
        ≡ store_if_fits (rooms_of chunks.old map.old hashes.old trusted.old)
        (bytes_of root.words) n c chunk.now (integrity_in integrity.entry) }
{
    let opened = peaks::all_trusted(trusted, n);
    let place = Place { n, c, opened };
    let mut scratch = [0u32; verdicts::SCRATCH];
    let t = verdicts::judge(&mut scratch, hashes, trusted, place, root, chunk, integrity)?;
    let nodes = &mut Nodes { hashes, trusted };
    storing::store(chunks, map, nodes, place, t, &scratch, chunk, integrity);
    Ok(())
}

// Takes chunk c with the hashes that came: stores it if it fits.
// `c, chunk, integrity` stay three: a struct of them would be made for one call and taken apart in the next.
pub fn take(
    order: Order,
    chunks: &mut [u8],
    map: &mut [u32],
    hashes: &mut [u32],
    trusted: &mut [u32],
    c: u32,
    chunk: &[u8],
    integrity: Integrity,
) -> Result<(), Refusal>
    ensures { out_by result 0
        (rooms_of chunks.new map.new hashes.new trusted.new)
        ≡ take_spec (rooms_of chunks.old map.old hashes.old trusted.old)
        (bytes_of order.root.words) order.length c chunk.now
        (integrity_in integrity.entry) }
{
    let length = order.length;
    Sizes::of(chunks, map, hashes, trusted).take_answer(length, c, chunk.len())?;
    let n = pack::chunk_count(length);
    store_if_fits(
        chunks, map, hashes, trusted, order.root, n, c, chunk, integrity,
    )
}
