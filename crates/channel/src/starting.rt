// Starting a store under an order, and building a whole one from its content.
ghost use Rattle.std.specs.Prelude.{◌≡◌};
ghost use Rattle.bits.proofs.Promise.{clear_words};
ghost use Rattle.store.proofs.Promise.{count_of};
ghost use Rattle.base.specs.Out.{out_by};
ghost use Rattle.channel.specs.World.{world_of};
ghost use Rattle.channel.specs.Answers.{peer_words};
ghost use Rattle.channel.specs.Starting.{start_spec, build_spec};

use crate::rooms;
use crate::rooms::Sizes;
use base::Refusal;
use order::Order;
use store::calls;
use table::rows::ROWS;
use table::words;

// Clears all rows of a room for what peers have or want, of a pack of this length: one call of `clear_words`.
fn clear_rows(ws: &mut [u32], length: u32)
    ensures { ws.new ≡ clear_words ws.old 0 (peer_words (count_of length)) }
{
    let row = bits::row_words(u64::from(tree::pack::chunk_count(length))) as usize;
    bits::clear_words(ws, 0, ROWS * row);
}

// Starts a store under an order. The words of the state need not be one.
// The rooms one by one: (a) C lends the chunks and the reply `const` (ppspp_start).
pub fn start(
    state: &mut [u32],
    chunks: &[u8],
    map: &mut [u32],
    hashes: &mut [u32],
    trusted: &mut [u32],
    has: &mut [u32],
    wants: &mut [u32],
    reply: &[u8],
    order: Order,
) -> Result<(), Refusal>
    ensures { out_by result 0
        (world_of state.new chunks.now map.new hashes.new
        trusted.new has.new wants.new reply.now)
        ≡ start_spec
        (world_of state.old chunks.now map.old hashes.old
        trusted.old has.old wants.old reply.now)
        order }
{
    rooms::method_answer(order.method)?;
    Sizes::of(state, chunks, map, hashes, trusted, has, wants, reply).order_answer(order.length)?;
    // The store refuses nothing now.
    calls::start(order, chunks, map, hashes, trusted).unwrap();
    clear_rows(has, order.length);
    clear_rows(wants, order.length);
    words::put_fresh(state, order);
    Ok(())
}

// Builds a whole store from its content, under an order whose root is not looked at: the root found takes its place.
// The rooms one by one: (a) C lends the reply `const` (ppspp_build).
pub fn build(
    state: &mut [u32],
    chunks: &mut [u8],
    map: &mut [u32],
    hashes: &mut [u32],
    trusted: &mut [u32],
    has: &mut [u32],
    wants: &mut [u32],
    reply: &[u8],
    order: Order,
    content: &[u8],
) -> Result<(), Refusal>
    ensures { out_by result 0
        (world_of state.new chunks.new map.new hashes.new
        trusted.new has.new wants.new reply.now)
        ≡ build_spec
        (world_of state.old chunks.old map.old hashes.old
        trusted.old has.old wants.old reply.now)
        order content.now }
{
    let length = order.length;
    rooms::method_answer(order.method)?;
    Sizes::of(state, chunks, map, hashes, trusted, has, wants, reply).build_answer(
        length,
        content.len(),
    )?;
    // The store refuses nothing now.
    let root = calls::build(length, chunks, map, hashes, trusted, content).unwrap();
    clear_rows(has, length);
    clear_rows(wants, length);
    words::put_fresh(state, Order { root, ..order });
    Ok(())
}
