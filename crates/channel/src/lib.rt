// The channels of a store: 01's entry points over eight lent rooms, the state's words among them. Any words, any
// rooms, any numbers and any bytes get an answer; a refusal changes nothing.
#![tactic(auto)]

pub mod asking; // ask: the held count, whole or not
pub mod datagrams; // begin a datagram, add a message to it
pub mod opening; // open a channel
pub mod outcome; // what a call gives back
pub mod rooms; // the eight lent rooms, and what refuses them: 12 and 11
pub mod starting; // start a store, build a whole one
pub mod taking; // take in a datagram
pub mod writing; // write the datagram of one chunk
mod handshakes; // a HANDSHAKE taken in
mod messages; // other messages taken in
