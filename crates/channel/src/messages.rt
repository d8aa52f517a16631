// Messages other than a HANDSHAKE: why they are refused, their effects, and the chunk that DATA brings with its reply.
ghost use Rattle.std.specs.Prelude.{◌≡◌, ◌+◌, ◌<◌, ◌≤◌, true, length, IfOk};
ghost use Rattle.wire.proofs.Promise.{min_size, max_size, survey_all};
ghost use Rattle.replies.proofs.Promise.{Sends};
ghost use Rattle.bits.proofs.Promise.{bit_at};
ghost use Rattle.store.proofs.Promise.{length_answer};
ghost use Rattle.table.proofs.Promise.{row_count};
ghost use Rattle.base.specs.Out.{Answers, out_by, len_of};
ghost use Rattle.channel.specs.World.{beside, order_length, order_format, chunk_count};
ghost use Rattle.channel.specs.Lent.{Kept, Ordered, rooms_in, channels_in, world_in};
ghost use Rattle.channel.specs.Take.{row_for, messages_number, affected, messages_taken};
ghost use Rattle.channel.specs.Take.{acknowledgement, data_taken};

use crate::rooms::Rooms;
use base::Refusal;
use format::Format;
use held::interval;
use store::calls;
use table::rows::Row;
use table::{answers, words};
use tree::pack;
use verdict::integrity::Integrity;
use wire::bytes;
use wire::limits::MIN_SIZE;
use wire::survey::Survey;

// The row of the channel that messages other than a HANDSHAKE go to; or 5, 3 or 7.
fn row_for(rooms: &Rooms<'_>, datagram: &[u8], survey: Survey) -> Result<usize, Refusal>
    requires state_value { length_answer (order_length rooms.now.state.now) ≡ 0 }
    requires min_size_in_bounds { min_size ≤ length datagram.now }
    requires survey_value { survey ≡ survey_all (order_format rooms.now.state.now) datagram.now }
    ensures answer { Answers result (messages_number rooms.now.state.now datagram.now) }
    ensures row { IfOk result (λ i. (i ≡ row_for rooms.now.state.now datagram.now) × (i < row_count)) }
{
    let keepalive = datagram.len() == MIN_SIZE;
    let i = answers::messages_answer(rooms.state, bytes::load32(datagram, 0), keepalive)?;
    if pack::chunk_count(words::length_in(rooms.state)) <= survey.highest {
        return Err(Refusal::PastPack);
    }
    Ok(i)
}

// The effects of messages on the channel in row i, which they go to. What a call requires of row and survey stands in two
// or three contracts here: no value holds these together.
fn apply_messages(rooms: &mut Rooms<'_>, format: Format, i: usize, datagram: &[u8])
    requires ordered { Ordered rooms.old.state.now format }
    requires i_value { (i ≡ row_for rooms.old.state.now datagram.now) × (i < row_count) }
    ensures kept { Kept rooms.old rooms.new }
    ensures pack { rooms_in rooms.new ≡ rooms_in rooms.old }
    ensures channels { channels_in rooms.new ≡ affected (channels_in rooms.old) datagram.now }
{
    let state = &mut *rooms.state;
    let row = words::row_at(state, i);
    let n = pack::chunk_count(words::length_in(state));
    let base = 32 * (bits::row_words(u64::from(n)) as usize * i);
    let choked = effects::apply(
        rooms.has,
        rooms.wants,
        format,
        n,
        base,
        row.choked,
        datagram,
    );
    if choked != row.choked {
        words::put_row(state, i, Row { choked, ..row });
    }
}

// Messages without DATA. There is no reply: its length is 0.
pub(crate) fn take_messages(
    rooms: &mut Rooms<'_>,
    format: Format,
    datagram: &[u8],
    survey: Survey,
) -> Result<usize, Refusal>
    requires ordered { Ordered rooms.old.state.now format }
    requires min_size_in_bounds { min_size ≤ length datagram.now }
    requires survey_value { survey ≡ survey_all (order_format rooms.old.state.now) datagram.now }
    ensures kept { Kept rooms.old rooms.new }
    ensures out { out_by result (len_of result) (world_in rooms.new)
        ≡ beside (rooms_in rooms.old) (messages_taken (channels_in rooms.old) datagram.now) }
{
    let i = row_for(rooms, datagram, survey)?;
    if survey.effective {
        apply_messages(rooms, format, i, datagram);
    }
    Ok(0)
}

// What DATA brings: its chunk's number, its timestamp, and the `len` bytes from `start` on of a datagram.
#[derive(Clone, Copy)]
pub(crate) struct Data {
    pub chunk: u32,
    pub timestamp: u64,
    pub start: usize,
    pub len: usize,
}

// The ACK of the biggest complete interval around a chunk, which is held, to the peer of the channel that it came on;
// its length.
fn acknowledge(
    state: &[u32],
    map: &[u32],
    reply: &mut [u8],
    format: Format,
    i: usize,
    clock: u64,
    came: Data,
    datagram: &[u8],
) -> usize
    requires max_size_in_bounds { max_size ≤ length reply.old }
    requires ordered { Ordered state.now format }
    requires c_bound { (came.chunk < chunk_count state.now) × (bit_at map.now came.chunk ≡ true) }
    requires i_value { i ≡ row_for state.now datagram.now }
    ensures { Sends reply.old
        (acknowledgement state.now map.now datagram.now clock came.chunk came.timestamp)
        reply.new result }
{
    let peer = words::row_at(state, i).peer;
    let delay = clock.wrapping_sub(came.timestamp);
    let n = pack::chunk_count(words::length_in(state));
    let named = interval::complete_interval(format, map, n, came.chunk);
    replies::ack(reply, format, peer, named.first, named.last, delay)
}

// Messages with DATA, whose INTEGRITY messages are in `entries`: the chunk is stored where it may be, and the reply is
// an ACK, of this length.
pub(crate) fn take_data(
    rooms: &mut Rooms<'_>,
    format: Format,
    clock: u64,
    came: Data,
    entries: &[u64],
    datagram: &[u8],
    survey: Survey,
) -> Result<usize, Refusal>
    requires ordered { Ordered rooms.old.state.now format }
    requires max_size_in_bounds { max_size ≤ length rooms.old.reply.now }
    requires min_size_in_bounds { min_size ≤ length datagram.now }
    requires len_in_bounds { came.start + came.len ≤ length datagram.now }
    requires survey_value { survey ≡ survey_all (order_format rooms.old.state.now) datagram.now }
    ensures kept { Kept rooms.old rooms.new }
    ensures out { out_by result (len_of result) (world_in rooms.new)
        ≡ data_taken (world_in rooms.old) clock datagram.now entries.now came.chunk came.timestamp
        came.start came.len }
{
    let i = row_for(rooms, datagram, survey)?;
    let order = rooms.order();
    let end = came.start + came.len;
    let chunk = &datagram[came.start..end];
    let integrity = Integrity {
        entries,
        bytes: datagram,
    };
    calls::take(
        order,
        rooms.chunks,
        rooms.map,
        rooms.hashes,
        rooms.trusted,
        came.chunk,
        chunk,
        integrity,
    )?;
    // Both are only read: (c) after `&*rooms.state` a proof knows the number of words, and none of them.
    let state = &mut *rooms.state;
    let map = &mut *rooms.map;
    let sent = acknowledge(state, map, rooms.reply, format, i, clock, came, datagram);
    if survey.effective {
        apply_messages(rooms, format, i, datagram);
    }
    Ok(sent)
}
