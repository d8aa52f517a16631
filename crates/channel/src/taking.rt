// Taking in a datagram: its checks in 01's order, then its effects and its reply.
ghost use Rattle.std.specs.Prelude.{◌≡◌, ◌≤◌, length};
ghost use Rattle.wire.proofs.Promise.{max_size, Fronted};
ghost use Rattle.base.specs.Out.{out_by, len_of};
ghost use Rattle.channel.specs.Lent.{Kept, Ordered, world_in};
ghost use Rattle.channel.specs.Take.{layout_in, take_spec};
ghost use Rattle.channel.specs.Steps.{ruled_of, ruled_by};

use crate::messages::Data;
use crate::outcome::Taken;
use crate::rooms::Rooms;
use crate::{handshakes, messages};
use base::Refusal;
use format::Format;
use wire::layout::Layout;
use wire::limits::ENTRIES;
use wire::pass;
use wire::pass::Front;
use wire::survey::Survey;

// What a datagram of sound size comes to, unless it is refused: it is taken, with a reply of this length; or it has
// messages without DATA, which are still to be taken, with this survey.
#[derive(Clone, Copy)]
pub enum Ruling {
    Taken(usize),
    MessagesLeft(Survey),
}

// A datagram that has others than plain messages: its scratch is made here alone.
fn rule_behind(
    rooms: &mut Rooms<'_>,
    format: Format,
    clock: u64,
    id: u32,
    datagram: &[u8],
    front: Front,
) -> Result<Ruling, Refusal>
    requires ordered { Ordered rooms.old.state.now format }
    requires max_size_in_bounds { max_size ≤ length rooms.old.reply.now }
    requires fronted { Fronted format datagram.now front }
    ensures kept { Kept rooms.old rooms.new }
    ensures ruled { ruled_of result (world_in rooms.new)
        ≡ ruled_by (world_in rooms.old) clock id datagram.now
        (layout_in rooms.old.state.now datagram.now).layout }
{
    let mut entries = [0u64; ENTRIES];
    let pass = pass::rest(format, datagram, &mut entries, front)?;
    match pass.layout {
        Layout::HandshakeAlone { source, options } => {
            let sent = handshakes::handshake(rooms, id, source, options, datagram)?;
            Ok(Ruling::Taken(sent))
        }
        Layout::Messages { .. } => Ok(Ruling::MessagesLeft(pass.survey)),
        Layout::MessagesAndData {
            chunk,
            timestamp,
            start,
            len,
            entries: n,
        } => {
            let came = Data {
                chunk,
                timestamp,
                start,
                len,
            };
            let nodes = &entries[..n];
            let sent = messages::take_data(
                rooms,
                format,
                clock,
                came,
                nodes,
                datagram,
                pass.survey,
            )?;
            Ok(Ruling::Taken(sent))
        }
    }
}

// A datagram of sound size. Its messages, if it has no DATA, are left to the caller: they are taken at one place,
// which the compiler puts in line.
fn rule(
    rooms: &mut Rooms<'_>,
    format: Format,
    clock: u64,
    id: u32,
    datagram: &[u8],
    front: Front,
) -> Result<Ruling, Refusal>
    requires ordered { Ordered rooms.old.state.now format }
    requires max_size_in_bounds { max_size ≤ length rooms.old.reply.now }
    requires fronted { Fronted format datagram.now front }
    ensures kept { Kept rooms.old rooms.new }
    ensures ruled { ruled_of result (world_in rooms.new)
        ≡ ruled_by (world_in rooms.old) clock id datagram.now
        (layout_in rooms.old.state.now datagram.now).layout }
{
    if front.at == datagram.len() {
        return Ok(Ruling::MessagesLeft(front.survey));
    }
    rule_behind(rooms, format, clock, id, datagram, front)
}

// Takes in a datagram at a clock; `id` is for a channel that it may open. The reply's length.
pub fn take(rooms: &mut Rooms<'_>, clock: u64, id: u32, datagram: &[u8]) -> Taken
    ensures kept { Kept rooms.old rooms.new }
    ensures out { out_by result (len_of result) (world_in rooms.new)
        ≡ take_spec (world_in rooms.old) clock id datagram.now }
{
    rooms.own_answer()?;
    if !pass::has_size(datagram) {
        return Err(Refusal::DatagramSize);
    }
    let format = rooms.format();
    let front = pass::plain_front(format, datagram);
    match rule(rooms, format, clock, id, datagram, front)? {
        Ruling::Taken(sent) => Ok(sent),
        Ruling::MessagesLeft(survey) => messages::take_messages(rooms, format, datagram, survey),
    }
}
