// Starting a store, and building a whole one.
ghost use Rattle.std.specs.Prelude.{◌≡◌};
ghost use Rattle.channel.proofs.Promise.{out_of, world_of, start_spec, build_spec};
ghost use Rattle.loader.specs.Order.{order_from};

use crate::order_bytes::ORDER_BYTES;
use crate::{answers, order_bytes};
use channel::starting;

// Starts a store under an order.
#[unsafe(no_mangle)]
pub extern "C" fn ppspp_start(
    state: &mut [u32],
    chunks: &[u8],
    map: &mut [u32],
    hashes: &mut [u32],
    trusted: &mut [u32],
    has: &mut [u32],
    wants: &mut [u32],
    reply: &[u8],
    order: &[u8; ORDER_BYTES],
) -> u32
    ensures { out_of result 0
        (world_of state.new chunks.now map.new hashes.new
        trusted.new has.new wants.new reply.now)
        ≡ start_spec
        (world_of state.old chunks.now map.old hashes.old
        trusted.old has.old wants.old reply.now)
        (order_from order.now) }
{
    let under = order_bytes::read(order);
    let started = starting::start(
        state, chunks, map, hashes, trusted, has, wants, reply, under,
    );
    answers::number(started)
}

// Builds a whole store from its content, under an order whose root is not looked at.
#[unsafe(no_mangle)]
pub extern "C" fn ppspp_build(
    state: &mut [u32],
    chunks: &mut [u8],
    map: &mut [u32],
    hashes: &mut [u32],
    trusted: &mut [u32],
    has: &mut [u32],
    wants: &mut [u32],
    reply: &[u8],
    order: &[u8; ORDER_BYTES],
    content: &[u8],
) -> u32
    ensures { out_of result 0
        (world_of state.new chunks.new map.new hashes.new
        trusted.new has.new wants.new reply.now)
        ≡ build_spec
        (world_of state.old chunks.old map.old hashes.old
        trusted.old has.old wants.old reply.now)
        (order_from order.now) content.now }
{
    let under = order_bytes::read(order);
    let built = starting::build(
        state, chunks, map, hashes, trusted, has, wants, reply, under, content,
    );
    answers::number(built)
}
