// The calls on a running store: open a channel, take in a datagram, write a chunk, ask.
ghost use Rattle.std.specs.Prelude.{◌≡◌};
ghost use Rattle.channel.proofs.Promise.{out_at, out_of, named_by, world_of, open_spec, take_spec, write_spec, ask_spec};
ghost use Rattle.table.proofs.Promise.{flag};

use crate::answers;
use channel::rooms::Rooms;
use channel::{asking, opening, taking, writing};
use held::Held;

// Opens a channel under an ID; the reply is our HANDSHAKE.
#[unsafe(no_mangle)]
pub extern "C" fn ppspp_open(
    state: &mut [u32],
    chunks: &[u8],
    map: &[u32],
    hashes: &[u32],
    trusted: &[u32],
    has: &mut [u32],
    wants: &mut [u32],
    reply: &mut [u8],
    id: u32,
    written: &mut usize,
) -> u32
    ensures { out_of result written.new
        (world_of state.new chunks.now map.now hashes.now
        trusted.now has.new wants.new reply.new)
        ≡ open_spec
        (world_of state.old chunks.now map.now hashes.now
        trusted.now has.old wants.old reply.old)
        id }
{
    let opened = opening::open(state, chunks, map, hashes, trusted, has, wants, reply, id);
    *written = answers::length(opened);
    answers::number(opened)
}

// Takes in a datagram at a clock; the ID is for a channel that it may open. The node that 9 or 10 names is written as
// its number, none as 2^64 - 1.
#[unsafe(no_mangle)]
pub extern "C" fn ppspp_take(
    state: &mut [u32],
    chunks: &mut [u8],
    map: &mut [u32],
    hashes: &mut [u32],
    trusted: &mut [u32],
    has: &mut [u32],
    wants: &mut [u32],
    reply: &mut [u8],
    clock: u64,
    id: u32,
    datagram: &[u8],
    written: &mut usize,
    node: &mut u64,
) -> u32
    ensures { out_at result written.new (named_by node.new)
        (world_of state.new chunks.new map.new hashes.new
        trusted.new has.new wants.new reply.new)
        ≡ take_spec
        (world_of state.old chunks.old map.old hashes.old
        trusted.old has.old wants.old reply.old)
        clock id datagram.now }
{
    let mut rooms = Rooms {
        state,
        chunks,
        map,
        hashes,
        trusted,
        has,
        wants,
        reply,
    };
    let taken = taking::take(&mut rooms, clock, id, datagram);
    *written = answers::length(taken);
    *node = answers::node(taken);
    answers::number(taken)
}

// Writes the datagram of a chunk for the channel open under an ID, with the clock as its timestamp.
#[unsafe(no_mangle)]
pub extern "C" fn ppspp_write(
    state: &[u32],
    chunks: &[u8],
    map: &[u32],
    hashes: &[u32],
    trusted: &[u32],
    has: &[u32],
    wants: &[u32],
    reply: &mut [u8],
    id: u32,
    chunk: u32,
    clock: u64,
    written: &mut usize,
) -> u32
    ensures { out_of result written.new
        (world_of state.now chunks.now map.now hashes.now
        trusted.now has.now wants.now reply.new)
        ≡ write_spec
        (world_of state.now chunks.now map.now hashes.now
        trusted.now has.now wants.now reply.old)
        id chunk clock }
{
    let sent = writing::write(
        state, chunks, map, hashes, trusted, has, wants, reply, id, chunk, clock,
    );
    *written = answers::length(sent);
    answers::number(sent)
}

// Asks how many chunks are held, and whether that is all of them.
#[unsafe(no_mangle)]
pub extern "C" fn ppspp_ask(state: &[u32], map: &[u32], held: &mut u32, whole: &mut u32) -> u32
    ensures { (result ≡ (ask_spec state.now map.now).answer)
        × (held.new ≡ (ask_spec state.now map.now).held)
        × (whole.new ≡ flag (ask_spec state.now map.now).whole) }
{
    let asked = asking::ask(state, map);
    let found = asked.unwrap_or(Held {
        count: 0,
        whole: false,
    });
    *held = found.count;
    *whole = u32::from(found.whole);
    answers::number(asked)
}
