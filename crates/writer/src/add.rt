// Beginning a datagram in a lent room, and adding a message to it.
ghost use Rattle.std.specs.Prelude.{◌≡◌, ◌≤◌, length, true, None, OnOk};
ghost use Rattle.base.specs.Out.{Answers, len_of, out_by};
ghost use Rattle.base.specs.Refusal.{number, node};
ghost use Rattle.wire.specs.Layout.{layout_of};
ghost use Rattle.wire.specs.Steps.{Fronted};
ghost use Rattle.writer.specs.Add.{add_answer, add_spec, begin_spec};
ghost use Rattle.writer.specs.Steps.{part_so, allowed, node_of, own_fault, seen_fault, Told, Addable};

use crate::place::Writer;
use crate::{place, size};
use base::Refusal;
use format::Format;
use wire::layout::Layout;
use wire::limits::{ENTRIES, MAX_SIZE, MIN_SIZE};
use wire::message::Message;
use wire::pass::Front;
use wire::{bytes, layout, pass, range};

// The node of an INTEGRITY, by the number that it has if its range is one's.
fn node_of(message: Message) -> Option<u64>
    ensures { result ≡ node_of message }
{
    match message {
        Message::Integrity { first, last, .. } => Some(u64::from(first) + u64::from(last)),
        _ => None,
    }
}

// Whether a message that may not name everything may name the chunks from first to last.
fn names_part(format: Format, first: u32, last: u32) -> bool
    ensures { result ≡ part_so format first last true }
{
    place::nameable(format, first, last) && !place::is_everything(format, first, last)
}

// Whether the table allows a message's chunks: DATA one, ACK some in order, INTEGRITY those of a node.
fn allowed(format: Format, message: Message) -> bool
    ensures { result ≡ allowed format message }
{
    match message {
        Message::Data { first, last, .. } => names_part(format, first, last) && first == last,
        Message::Ack { first, last, .. } => names_part(format, first, last) && first <= last,
        Message::Integrity { first, last, .. } => {
            names_part(format, first, last) && range::is_node(first, last)
        }
        Message::Have { first, last }
        | Message::Request { first, last }
        | Message::Cancel { first, last } => place::nameable(format, first, last) && first <= last,
        Message::Handshake { .. } | Message::Empty { .. } => true,
        Message::Choke | Message::Unchoke => true,
    }
}

// What a message by itself is refused for, behind `len` bytes of a datagram with its destination.
fn own_answer(format: Format, destination: u32, len: usize, message: Message) -> Result<(), Refusal>
    ensures { Answers result (own_fault format destination len message) }
{
    if let Message::Handshake { source, options } = message {
        if len != MIN_SIZE {
            return Err(Refusal::Handshake);
        }
        layout::handshake_fault(destination, source, options)?;
    }
    if !allowed(format, message) {
        return Err(Refusal::Layout);
    }
    Ok(())
}

// Refused as the layout does, for a node that is among the entries.
fn seen_answer(entries: &[u64], node: Option<u64>) -> Result<(), Refusal>
    ensures { Answers result (seen_fault entries.now node) }
{
    match node {
        Some(b) if layout::seen(entries, b) => Err(Refusal::Layout),
        _ => Ok(()),
    }
}

// What a datagram so far, which has others than plain messages, says to one message more: what it is refused for
// itself, or else what refuses the message behind it. Its scratch is made here alone.
fn behind_others(
    format: Format,
    prefix: &[u8],
    front: Front,
    node: Option<u64>,
) -> Result<Result<(), Refusal>, Refusal>
    requires { Fronted format prefix.now front }
    ensures { Told result (layout_of format prefix.now) node }
{
    let mut entries = [0u64; ENTRIES];
    let pass = pass::rest(format, prefix, &mut entries, front)?;
    match pass.layout {
        Layout::HandshakeAlone { .. } => Ok(Err(Refusal::Handshake)),
        Layout::Messages { entries: n } => Ok(seen_answer(&entries[..n], node)),
        Layout::MessagesAndData { .. } => Ok(Err(Refusal::Layout)),
    }
}

// The same of any datagram.
fn behind(format: Format, prefix: &[u8], node: Option<u64>) -> Result<Result<(), Refusal>, Refusal>
    ensures { Told result (layout_of format prefix.now) node }
{
    if !pass::has_size(prefix) {
        return Err(Refusal::DatagramSize);
    }
    let front = pass::plain_front(format, prefix);
    if front.at == prefix.len() {
        return Ok(Ok(()));
    }
    behind_others(format, prefix, front, node)
}

// What adding a message to the first `len` bytes of the room is refused for.
fn add_answer(
    room: &[u8],
    format: Format,
    len: usize,
    message: Message,
    bytes: &[u8],
) -> Result<(), Refusal>
    ensures answer { Answers result (add_answer format room.now len message bytes.now) }
    ensures addable { OnOk result (Addable format (length room.now) len message (length bytes.now)) }
{
    if room.len() < MAX_SIZE {
        return Err(Refusal::RoomTooSmall);
    }
    if MAX_SIZE < len {
        return Err(Refusal::DatagramSize);
    }
    let prefix = &room[..len];
    let behind = behind(format, prefix, node_of(message))?;
    if !size::writable(format, bytes.len(), message) {
        return Err(Refusal::Layout);
    }
    if MAX_SIZE - len < size::size_of(format, message, bytes) {
        return Err(Refusal::DatagramSize);
    }
    behind?;
    own_answer(format, bytes::load32(prefix, 0), len, message)
}

// Begins a datagram: its destination channel; the datagram's length.
pub fn begin(room: &mut [u8], destination: u32) -> Result<usize, Refusal>
    ensures { out_by result (len_of result) room.new ≡ begin_spec room.old destination }
{
    if room.len() < MAX_SIZE {
        return Err(Refusal::RoomTooSmall);
    }
    room[..MIN_SIZE].copy_from_slice(&destination.to_be_bytes());
    Ok(MIN_SIZE)
}

// Adds a message to the datagram in the first `len` bytes of the room, a number that the loader keeps; its hash, chunk or
// root is taken from `bytes`; the datagram's length.
pub fn add(
    room: &mut [u8],
    format: Format,
    len: usize,
    message: Message,
    bytes: &[u8],
) -> Result<usize, Refusal>
    ensures { out_by result (len_of result) room.new
        ≡ add_spec format room.old len message bytes.now }
{
    add_answer(room, format, len, message, bytes)?;
    let mut writer = Writer {
        room,
        at: len,
        format,
    };
    writer.put(message, bytes);
    Ok(writer.at)
}
