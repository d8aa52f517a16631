// Datagrams of RFC 7574, section 8, in the yard profile: the messages as values, one message at a cursor, the layout
// checks over a whole datagram. A format and a datagram stay two parameters: what a function needs of the datagram differs.
#![tactic(auto)]

pub mod bytes; // big-endian numbers
pub mod chunks; // the bytes that name chunks
pub mod layout; // what a datagram is
pub mod limits; // the sizes of the yard profile
pub mod message; // the messages as values
pub mod options; // the options of a HANDSHAKE
pub mod pass; // the size and layout checks over a datagram
pub mod plain; // messages told by their size
pub mod range; // the chunks that a message names
pub mod read; // one message at a cursor
pub mod survey; // what messages name and do
