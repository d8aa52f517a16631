// Definitions and laws that all crates share: one of two by a test, the same strings, one of some numbers, what a call
// gives back; why one is refused, and the node that a refusal names.
#![tactic(auto)]

ghost use Rattle.std.specs.Prelude.{◌≡◌, Option, Some, None, length};
ghost use Rattle.base.specs.Out.{node_number};
ghost use Rattle.base.specs.Refusal.{number, node};

// What stands for no node where a number is wanted, which C gets: no tree over a pack has it.
pub const NO_NODE: u64 = 18446744073709551615;

// The number of the node named.
pub fn node_number(named: Option<u64>) -> u64
    ensures { result ≡ node_number named }
{
    named.unwrap_or(NO_NODE)
}

// The bytes of a slice into another as long. By a loop: the library's `copy_from_slice` calls the C library's memmove,
// which include/ppspp.h doesn't name, and this becomes memcpy.
pub fn copy(to: &mut [u8], from: &[u8])
    requires { length to.old ≡ length from.now }
    ensures { to.new ≡ from.now }
{
    for (i, byte) in from.iter().enumerate() {
        to[i] = *byte;
    }
}

// Why a call is refused (01, "Numbers given back").
#[derive(Clone, Copy, PartialEq, Eq)]
pub enum Refusal {
    // A datagram under 4 or over 2,048 bytes.
    DatagramSize,
    // A message that the layout refuses.
    Layout,
    // A HANDSHAKE that is not alone, or out of place; a message to a channel that is not open.
    Handshake,
    // Options other than ours.
    Options,
    // No row has the datagram's destination.
    NoChannel,
    TableFull,
    // A chunk past the pack.
    PastPack,
    // A chunk of another length than its own.
    ChunkSize,
    // The hash of this node is needed and isn't there.
    HashMissing(u64),
    // The hash of this node is not the one that came or was climbed to.
    HashWrong(u64),
    RoomTooSmall,
    // The order's length or method, or the content's length.
    Order,
    NotHeld,
    // A channel is to be opened under ID 0 or one in use.
    ChannelId,
}

impl Refusal {
    // Its number in 01's table.
    pub fn number(self) -> u32
        ensures { result ≡ number self }
    {
        match self {
            Refusal::DatagramSize => 1,
            Refusal::Layout => 2,
            Refusal::Handshake => 3,
            Refusal::Options => 4,
            Refusal::NoChannel => 5,
            Refusal::TableFull => 6,
            Refusal::PastPack => 7,
            Refusal::ChunkSize => 8,
            Refusal::HashMissing(_) => 9,
            Refusal::HashWrong(_) => 10,
            Refusal::RoomTooSmall => 11,
            Refusal::Order => 12,
            Refusal::NotHeld => 13,
            Refusal::ChannelId => 14,
        }
    }

    // The node that it names.
    pub fn node(self) -> Option<u64>
        ensures { result ≡ node self }
    {
        match self {
            Refusal::HashMissing(b) | Refusal::HashWrong(b) => Some(b),
            _ => None,
        }
    }
}
