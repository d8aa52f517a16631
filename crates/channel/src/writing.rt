// Writing the datagram of one chunk on one channel.
ghost use Rattle.std.specs.Prelude.{◌≡◌};
ghost use Rattle.base.specs.Out.{Answers, out_by, len_of};
ghost use Rattle.channel.specs.World.{world_of};
ghost use Rattle.channel.specs.Write.{held_answer, write_spec};

use crate::outcome::Outcome;
use crate::rooms::Sizes;
use base::Refusal;
use table::{answers, words};
use tree::pack;
use tree::pack::CHUNK_SIZE;

// Chunk c is one of n, and held.
fn held_answer(n: u32, c: u32, map: &[u32]) -> Result<(), Refusal>
    ensures { Answers result (held_answer n c map.now) }
{
    if n <= c {
        return Err(Refusal::PastPack);
    }
    if !bits::test(map, c as usize) {
        return Err(Refusal::NotHeld);
    }
    Ok(())
}

// The datagram for chunk c on the channel of an ID, with the clock as its timestamp: the hashes that go out with it,
// then DATA; its length. The rooms one by one: (a) C lends all but the reply `const` (ppspp_write).
pub fn write(
    state: &[u32],
    chunks: &[u8],
    map: &[u32],
    hashes: &[u32],
    trusted: &[u32],
    has: &[u32],
    wants: &[u32],
    reply: &mut [u8],
    id: u32,
    c: u32,
    clock: u64,
) -> Outcome
    ensures { out_by result (len_of result)
        (world_of state.now chunks.now map.now hashes.now
        trusted.now has.now wants.now reply.new)
        ≡ write_spec
        (world_of state.now chunks.now map.now hashes.now
        trusted.now has.now wants.now reply.old)
        id c clock }
{
    let length = words::length_in(state);
    let n = pack::chunk_count(length);
    Sizes::of(state, chunks, map, hashes, trusted, has, wants, reply).own_answer(length)?;
    let i = answers::write_answer(state, id)?;
    held_answer(n, c, map)?;
    let peer = words::row_at(state, i).peer;
    let format = words::format_in(state);
    let from = CHUNK_SIZE as usize * c as usize;
    let end = from + pack::chunk_size(length, c) as usize;
    let chunk = &chunks[from..end];
    Ok(replies::chunk(reply, format, hashes, peer, n, c, clock, chunk))
}
