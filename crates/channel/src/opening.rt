// Opening a channel: by a call of ours, or by a peer's HANDSHAKE.
ghost use Rattle.std.specs.Prelude.{◌≡◌, ◌+◌, ◌*◌, ◌<◌, ◌≤◌, length};
ghost use Rattle.wire.proofs.Promise.{max_size};
ghost use Rattle.table.proofs.Promise.{row_count, lowest_free};
ghost use Rattle.base.specs.Out.{out_by, len_of};
ghost use Rattle.channel.specs.World.{channels_of, world_of, out_of, cleared_row, table_rows};
ghost use Rattle.channel.specs.Opening.{occupied, open_spec};

use crate::outcome::Outcome;
use crate::rooms::Sizes;
use table::rows::{Phase, Row};
use table::{answers, words};
use tree::pack;

// Clears row i of a room for what peers have or want, of n chunks.
fn clear_row(ws: &mut [u32], n: u32, i: usize)
    requires { i ≤ row_count }
    ensures { ws.new ≡ cleared_row n i ws.old }
{
    let words = bits::row_words(u64::from(n)) as usize;
    let from = words * i;
    bits::clear_words(ws, from, from + words);
}

// A channel in row i, the lowest free one; the reply is our HANDSHAKE, of this length. The rooms come one by one: `open`,
// which calls it, has no `Rooms`.
pub(crate) fn occupy(
    state: &mut [u32],
    has: &mut [u32],
    wants: &mut [u32],
    reply: &mut [u8],
    i: usize,
    row: Row,
) -> usize
    requires max_size_in_bounds { max_size ≤ length reply.old }
    requires i_value { (i ≡ lowest_free (table_rows state.old)) × (i < row_count) }
    ensures { out_of 0 result
        (channels_of state.new has.new wants.new reply.new)
        ≡ occupied
        (channels_of state.old has.old wants.old reply.old)
        row }
{
    let n = pack::chunk_count(words::length_in(state));
    let root = words::root_in(state);
    let format = words::format_in(state);
    clear_row(has, n, i);
    clear_row(wants, n, i);
    let sent = replies::handshake(reply, format, row.peer, row.id, root);
    words::put_row(state, i, row);
    sent
}

// Opens a channel under an ID: it calls, and the reply is our HANDSHAKE to channel 0, of this length.
// The rooms one by one: (a) C lends the pack's four `const` (ppspp_open).
pub fn open(
    state: &mut [u32],
    chunks: &[u8],
    map: &[u32],
    hashes: &[u32],
    trusted: &[u32],
    has: &mut [u32],
    wants: &mut [u32],
    reply: &mut [u8],
    id: u32,
) -> Outcome
    ensures { out_by result (len_of result)
        (world_of state.new chunks.now map.now hashes.now
        trusted.now has.new wants.new reply.new)
        ≡ open_spec
        (world_of state.old chunks.now map.now hashes.now
        trusted.now has.old wants.old reply.old)
        id }
{
    let length = words::length_in(state);
    Sizes::of(state, chunks, map, hashes, trusted, has, wants, reply).own_answer(length)?;
    let i = answers::open_answer(state, id)?;
    let row = Row {
        phase: Phase::Calling,
        id,
        peer: 0,
        choked: false,
    };
    Ok(occupy(state, has, wants, reply, i, row))
}
