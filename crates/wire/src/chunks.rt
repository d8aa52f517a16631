// The bytes by which a message names chunks. They are read here alone.
ghost use Rattle.std.specs.Prelude.{◌≡◌, ◌+◌, ◌≤◌, ◌<◌, length, not, ltb, None, IfSome};
ghost use Rattle.wire.specs.Place.{named_size, first_of, last_of, is_empty, is_special, reach};
ghost use Rattle.wire.specs.Read.{names_node};
ghost use Rattle.wire.specs.Steps.{range_of};

use crate::bytes;
use crate::range::{EMPTY_BIN, EVERYTHING_BIN, Range, is_node, named_size};
use format::{Addressing, Format};
use tree::bin;

// A message from its type on, not cut short before the end of its chunks, which stand behind the type.
#[derive(Clone, Copy)]
pub struct Chunks<'a> {
    pub format: Format,
    pub rest: &'a [u8],
    ghost whole: { named_size format ≤ length rest.now },
}

impl<'a> Chunks<'a> {
    // None where the message is cut short; it has `behind` bytes behind its chunks.
    pub(crate) fn of(format: Format, rest: &'a [u8], behind: usize) -> Option<Chunks<'a>>
        requires { behind ≤ 32 }
        ensures cut { result ≡ None → length rest.now < named_size format + behind }
        ensures whole { IfSome result (λ c. (c.format ≡ format) × (c.rest.now ≡ rest.now)
            × (named_size format + behind ≤ length rest.now)) }
    {
        if rest.len() < named_size(format) + behind {
            return None;
        }
        Some(Chunks { format, rest })
    }

    // First and last of them.
    pub fn read(self) -> Range
        ensures { result ≡ range_of self.entry.format self.entry.rest.now }
    {
        match self.format.addressing {
            Addressing::Bins => {
                let b = bytes::load32(self.rest, 1);
                Range {
                    first: bin::first(b),
                    last: bin::last(b),
                }
            }
            Addressing::Ranges => Range {
                first: bytes::load32(self.rest, 1),
                last: bytes::load32(self.rest, 5),
            },
        }
    }

    // Whether they are none at all.
    pub fn is_empty(self) -> bool
        ensures { result ≡ is_empty self.entry.format self.entry.rest.now }
    {
        match self.format.addressing {
            Addressing::Bins => bytes::load32(self.rest, 1) == EMPTY_BIN,
            Addressing::Ranges => false,
        }
    }

    // Whether they are none or all, as only HAVE, REQUEST and CANCEL may say.
    pub(crate) fn is_special(self) -> bool
        ensures { result ≡ is_special self.entry.format self.entry.rest.now }
    {
        match self.format.addressing {
            Addressing::Bins => {
                let b = bytes::load32(self.rest, 1);
                b == EMPTY_BIN || b == EVERYTHING_BIN
            }
            Addressing::Ranges => false,
        }
    }

    // Whether they are those of a node. A bin is one, unless it is special.
    pub(crate) fn names_node(self) -> bool
        ensures { result ≡ names_node self.entry.format self.entry.rest.now }
    {
        if self.is_special() {
            return false;
        }
        match self.format.addressing {
            Addressing::Bins => true,
            Addressing::Ranges => {
                is_node(bytes::load32(self.rest, 1), bytes::load32(self.rest, 5))
            }
        }
    }

    // Whether they are in order, as those of a bin are.
    pub(crate) fn in_order(self) -> bool
        ensures { result
            ≡ not (ltb (last_of self.entry.format self.entry.rest.now)
            (first_of self.entry.format self.entry.rest.now)) }
    {
        match self.format.addressing {
            Addressing::Bins => true,
            Addressing::Ranges => bytes::load32(self.rest, 1) <= bytes::load32(self.rest, 5),
        }
    }

    // The last of them.
    pub(crate) fn last(self) -> u32
        ensures { result ≡ last_of self.entry.format self.entry.rest.now }
    {
        match self.format.addressing {
            Addressing::Bins => bin::last(bytes::load32(self.rest, 1)),
            Addressing::Ranges => bytes::load32(self.rest, 5),
        }
    }

    // The number of their node, if they are those of one.
    pub(crate) fn node(self) -> u64
        ensures { result
            ≡ first_of self.entry.format self.entry.rest.now + last_of self.entry.format self.entry.rest.now }
    {
        match self.format.addressing {
            Addressing::Bins => u64::from(bytes::load32(self.rest, 1)),
            Addressing::Ranges => {
                u64::from(bytes::load32(self.rest, 1)) + u64::from(bytes::load32(self.rest, 5))
            }
        }
    }

    // The chunk by which HAVE, REQUEST, CANCEL or ACK is past the pack, if it is; 0 where they are none.
    // Beside `last`: of a bin each takes another end.
    pub(crate) fn reach(self) -> u32
        ensures { result ≡ reach self.entry.format
            (first_of self.entry.format self.entry.rest.now) (last_of self.entry.format self.entry.rest.now) }
    {
        match self.format.addressing {
            Addressing::Bins => bin::first(bytes::load32(self.rest, 1)),
            Addressing::Ranges => bytes::load32(self.rest, 5),
        }
    }
}
