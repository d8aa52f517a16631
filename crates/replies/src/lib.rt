// The datagrams that a store sends: our HANDSHAKE, an ACK, one chunk with its hashes. Each is written from the front of
// the reply room, and what stands past it stays. That the room has 2,048 bytes is asked by each: a struct that holds a
// `&mut` can have no fact of its own yet.
#![tactic(auto)]

ghost use Rattle.std.specs.Prelude.{◌≡◌, true, ◌≤◌, ◌<◌, ◌^◌, length, map, IfSome};
ghost use Rattle.std.specs.Option.{option_to_list};
ghost use Rattle.hash.proofs.Promise.{bytes_of};
ghost use Rattle.tree.proofs.Promise.{chunk_size, chunks, max_length, sent};
ghost use Rattle.store.proofs.Promise.{hash_in};
ghost use Rattle.wire.proofs.Promise.{min_size, max_size, integrity_size};
ghost use Rattle.writer.proofs.Promise.{Free, Wrote, bytes32, nameable};
ghost use Rattle.replies.specs.Replies.{handshake_reply, ack_reply, hash_item, chunk_reply};
ghost use Rattle.replies.specs.Steps.{at_front, node_items, Puts, Sends};

use format::Format;
use hash::value;
use hash::value::HashValue;
use tree::{bin, pack, peaks};
use verdict::room;
use wire::message::{INTEGRITY, Options};
use writer::place::Writer;

// A writer behind the destination, which stands at the front of the reply room.
fn begin<'a>(reply: &'a mut [u8], format: Format, destination: u32) -> Writer<'a>
    requires { min_size ≤ length reply.old }
    ensures same_reference { result.room.ghost_name ≡ reply.entry.ghost_name }
    ensures begun { Wrote (at_front reply.entry format) result (bytes32 destination) }
{
    let mut writer = Writer {
        room: reply,
        at: 0,
        format,
    };
    writer.number32(destination);
    writer
}

// Our HANDSHAKE from a source channel, with the fixed options around the root; its length.
pub fn handshake(
    reply: &mut [u8],
    format: Format,
    destination: u32,
    source: u32,
    root: HashValue,
) -> usize
    requires { max_size ≤ length reply.old }
    ensures { Sends reply.old (handshake_reply format destination source (bytes_of root.words))
        reply.new result }
{
    let mut writer = begin(reply, format, destination);
    writer.put_handshake(source, Options::Fixed { root: 0 }, &value::bytes(root));
    writer.at
}

// An ACK of the chunks from first to last, which the method names; its length.
pub fn ack(
    reply: &mut [u8],
    format: Format,
    destination: u32,
    first: u32,
    last: u32,
    delay: u64,
) -> usize
    requires max_size_in_bounds { max_size ≤ length reply.old }
    requires last_value { nameable format first last ≡ true }
    ensures { Sends reply.old (ack_reply format destination first last delay) reply.new result }
{
    let mut writer = begin(reply, format, destination);
    writer.put_ack(first, last, delay);
    writer.at
}

// The hash of node b.
fn put_hash(writer: &mut Writer<'_>, hashes: &[u32], b: u64)
    requires { Free writer.old 32 }
    ensures { Wrote writer.old writer.new (hash_in hashes.now b) }
{
    writer.bytes(&value::bytes(room::read(hashes, b)));
}

// The INTEGRITY of a node, if there is one.
fn put_node(writer: &mut Writer<'_>, hashes: &[u32], node: Option<u64>)
    requires free { Free writer.old (integrity_size writer.old.format) }
    requires node_bound { IfSome node (λ b. b < 2 ^ 31) }
    ensures { Puts writer.old (map (hash_item hashes.now) (option_to_list node)) writer.new }
{
    if let Some(b) = node {
        writer.name(INTEGRITY, bin::first(b as u32), bin::last(b as u32));
        put_hash(writer, hashes, b);
    }
}

// The hashes that go out with chunk c of n behind the destination, height by height from the top.
fn put_hashes(writer: &mut Writer<'_>, hashes: &[u32], n: u32, c: u32)
    requires behind { (writer.old.at ≡ min_size) × (max_size ≤ length writer.old.room.now) }
    requires n_bound { n ≤ chunks chunk_size max_length }
    ensures { Puts writer.old (node_items hashes.now (sent n c)) writer.new }
{
    for h in (0..=pack::levels(n)).rev() {
        put_node(writer, hashes, peaks::sent_sibling(n, c, h));
        put_node(writer, hashes, peaks::sent_peak(n, h));
    }
}

// The datagram of chunk c of n: the hashes that go out with it, in the sending order, then DATA; its length.
pub fn chunk(
    reply: &mut [u8],
    format: Format,
    hashes: &[u32],
    destination: u32,
    n: u32,
    c: u32,
    timestamp: u64,
    bytes: &[u8],
) -> usize
    requires max_size_in_bounds { max_size ≤ length reply.old }
    requires n_bound { n ≤ chunks chunk_size max_length }
    requires bytes_len_bound { length bytes.now ≤ chunk_size }
    requires c_lt_n { c < n }
    ensures { Sends reply.old
        (chunk_reply format hashes.now destination n c timestamp bytes.now) reply.new result }
{
    let mut writer = begin(reply, format, destination);
    put_hashes(&mut writer, hashes, n, c);
    writer.put_data(c, c, timestamp, 0, bytes.len(), bytes);
    writer.at
}
