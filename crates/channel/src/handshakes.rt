// A HANDSHAKE taken in: it opens a channel, or changes the row that it goes to.
ghost use Rattle.std.specs.Prelude.{◌≡◌, ◌≤◌, length};
ghost use Rattle.hash.proofs.Promise.{bytes_of};
ghost use Rattle.wire.proofs.Promise.{min_size, max_size};
ghost use Rattle.base.specs.Out.{out_by, len_of};
ghost use Rattle.channel.specs.World.{beside};
ghost use Rattle.channel.specs.Lent.{Kept, rooms_in, channels_in, world_in};
ghost use Rattle.channel.specs.Take.{ours, handshake_taken};

use crate::opening;
use crate::rooms::Rooms;
use base::Refusal;
use hash::value;
use hash::value::HashValue;
use table::rows::{Phase, Row};
use table::{answers, words};
use wire::bytes;
use wire::message::Options;

// Whether 32 bytes from a place of a datagram are the root's. `same` is `==`, told by the bytes, as `ours` has it.
fn is_root(root: HashValue, datagram: &[u8], at: usize) -> bool
    ensures { result ≡ ours (bytes_of root.words) datagram.now (Options.Fixed at) }
{
    if datagram.len() < 32 || datagram.len() - 32 < at {
        return false;
    }
    value::same(value::load(datagram, at), root)
}

// Whether a HANDSHAKE's options are the fixed ones around the order's root.
fn is_ours(root: HashValue, options: Options, datagram: &[u8]) -> bool
    ensures { result ≡ ours (bytes_of root.words) datagram.now options }
{
    match options {
        Options::Fixed { root: at } => is_root(root, datagram, at),
        Options::EndOnly | Options::Other => false,
    }
}

// A HANDSHAKE alone, of a datagram with its destination; the reply's length.
pub(crate) fn handshake(
    rooms: &mut Rooms<'_>,
    id: u32,
    source: u32,
    options: Options,
    datagram: &[u8],
) -> Result<usize, Refusal>
    requires max_size_in_bounds { max_size ≤ length rooms.old.reply.now }
    requires min_size_in_bounds { min_size ≤ length datagram.now }
    ensures kept { Kept rooms.old rooms.new }
    ensures out { out_by result (len_of result) (world_in rooms.new)
        ≡ beside (rooms_in rooms.old)
        (handshake_taken (channels_in rooms.old) id datagram.now source options) }
{
    let to = bytes::load32(datagram, 0);
    let state = &mut *rooms.state;
    let ours = is_ours(words::root_in(state), options, datagram);
    let i = answers::handshake_answer(state, to, source, ours, id)?;
    if to == 0 {
        let row = Row {
            phase: Phase::Open,
            id,
            peer: source,
            choked: false,
        };
        return Ok(opening::occupy(state, rooms.has, rooms.wants, rooms.reply, i, row));
    }
    let row = words::row_at(state, i).after(source);
    words::put_row(state, i, row);
    Ok(0)
}
