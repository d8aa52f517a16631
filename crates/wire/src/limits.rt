// The sizes of a datagram in the yard profile.

// A datagram has its destination, four bytes, at least.
pub const MIN_SIZE: usize = 4;

pub const MAX_SIZE: usize = 2048;

// Room for the nodes of a datagram, two words for each INTEGRITY message: 55 of 37 bytes, the fewest that one has, fit.
pub const ENTRIES: usize = 110;
