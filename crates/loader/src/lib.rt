// The entry points for C and Rust, on numbers and slices alone; include/ppspp.h declares them. A slice is a pointer and
// a length there. No call requires anything. Each is the entry point of the crate channel over the rooms that are lent;
// what is added here is its form: an order as bytes, a message in numbers, the sizes of the rooms.
#![tactic(auto)]

mod answers; // the result of a call in numbers
pub mod datagrams; // a datagram, message by message, written and read
mod message; // a message in numbers
mod order_bytes; // an order as a C program has it
pub mod running; // open a channel, take in a datagram, write a chunk, ask
pub mod sizes; // the sizes of the rooms
pub mod starting; // start a store, build one
