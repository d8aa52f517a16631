// The lines of the replay program: hexadecimal frames in, answers out. No input or output here.
#![tactic(auto)]

pub mod answers; // an answer's line, the closing line
pub mod buffer; // a room, and how much of it is in use
pub mod frames; // the bytes of a line
mod hex; // digits and bytes
pub mod lines; // where a line ends
