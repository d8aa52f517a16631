// The messages of a datagram as values: numbers, and places of bytes in a slice beside them.

// The types of messages (RFC 7574, 8); 5 to 7 are refused here.
// Bytes, and no enum: 01 names a match on the type byte, with ranges for the refused types.
pub const HANDSHAKE: u8 = 0;

pub const DATA: u8 = 1;

pub const ACK: u8 = 2;

pub const HAVE: u8 = 3;

pub const INTEGRITY: u8 = 4;

pub const REQUEST: u8 = 8;

pub const CANCEL: u8 = 9;

pub const CHOKE: u8 = 10;

pub const UNCHOKE: u8 = 11;

// The options of a HANDSHAKE.
#[derive(Clone, Copy)]
pub enum Options {
    // The fixed ones, around the 32 bytes of a swarm ID, which begin at root.
    Fixed { root: usize },
    EndOnly,
    Other,
}

#[derive(Clone, Copy)]
pub enum Message {
    Handshake {
        source: u32,
        options: Options,
    },
    // The chunk's bytes begin at start and are len many. What is read names one chunk; what is to be added may name
    // others.
    Data {
        first: u32,
        last: u32,
        timestamp: u64,
        start: usize,
        len: usize,
    },
    Ack {
        first: u32,
        last: u32,
        delay: u64,
    },
    Have {
        first: u32,
        last: u32,
    },
    // The 32 bytes of the hash begin at hash.
    Integrity {
        first: u32,
        last: u32,
        hash: usize,
    },
    Request {
        first: u32,
        last: u32,
    },
    Cancel {
        first: u32,
        last: u32,
    },
    Choke,
    Unchoke,
    // HAVE, REQUEST or CANCEL, by its type, over no chunk at all, under bins alone. A number: one that is to be added may
    // have any type from the caller, and `writable_empty` of the crate writer refuses the others.
    Empty {
        kind: u8,
    },
}

// Where reading stands in a datagram.
#[derive(Clone, Copy)]
pub struct Cursor {
    pub at: usize,
}

// What stands at a cursor; `step_number` (specs/Read) gives its number. Three cases by name are plainer than an Option of a
// Result, in which each reader would match the same three.
#[derive(Clone, Copy)]
pub enum Step {
    Read { message: Message, next: Cursor },
    End,
    Refused,
}
