// Datagrams written: begun in a lent room, a message added to them. What is added reads back as it was.
#![tactic(auto)]

pub mod add; // beginning a datagram, and adding a message to it
pub mod place; // big-endian numbers and bytes into a room
pub mod put; // a message into a room
mod size; // what a message takes
