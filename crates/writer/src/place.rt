// Big-endian numbers and bytes into a lent room, one behind the other.
ghost use Rattle.std.specs.Prelude.{◌≡◌, ◌∷◌, [], length, true};
ghost use Rattle.wire.specs.Place.{named_size};
ghost use Rattle.writer.specs.Bytes.{bytes32, bytes64, nameable, is_everything, name_bytes, empty_bytes};
ghost use Rattle.writer.specs.Writer.{Free, Wrote};

use format::{Addressing, Format};
use wire::range;
use wire::range::{EMPTY_BIN, EVERYTHING_BIN};

// Whether the method names the chunks from first to last: two numbers, as `Message` has them, since each call would
// first make a `Range` of them.
#[tactic(auto, unfolding(crate::specs::Bytes::nameable))]
pub(crate) fn nameable(format: Format, first: u32, last: u32) -> bool
    ensures { result ≡ nameable format first last }
{
    match format.addressing {
        Addressing::Bins => {
            u64::from(first) + u64::from(last) < u64::from(EMPTY_BIN) && range::is_node(first, last)
        }
        Addressing::Ranges => true,
    }
}

// Whether they are everything, by the bin that says so.
#[tactic(auto, unfolding(crate::specs::Bytes::is_everything))]
pub(crate) fn is_everything(format: Format, first: u32, last: u32) -> bool
    ensures { result ≡ is_everything format first last }
{
    match format.addressing {
        Addressing::Bins => u64::from(first) + u64::from(last) == u64::from(EVERYTHING_BIN),
        Addressing::Ranges => false,
    }
}

// Where a datagram is written: its room, the place of the next byte, and the format.
#[derive(Drop)]
pub struct Writer<'a> {
    pub room: &'a mut [u8],
    pub at: usize,
    pub format: Format,
}

impl Writer<'_> {
    pub(crate) fn byte(&mut self, x: u8)
        requires { Free self.old 1 }
        ensures { Wrote self.old self.new (x ∷ []) }
    {
        self.room[self.at] = x;
        self.at += 1;
    }

    pub fn bytes(&mut self, bytes: &[u8])
        requires { Free self.old (length bytes.now) }
        ensures { Wrote self.old self.new bytes.now }
    {
        let end = self.at + bytes.len();
        base::copy(&mut self.room[self.at..end], bytes);
        self.at = end;
    }

    // And `number64`: one for both would need a trait for `to_be_bytes`.
    pub fn number32(&mut self, x: u32)
        requires { Free self.old 4 }
        ensures { Wrote self.old self.new (bytes32 x) }
    {
        self.bytes(&x.to_be_bytes());
    }

    pub(crate) fn number64(&mut self, x: u64)
        requires { Free self.old 8 }
        ensures { Wrote self.old self.new (bytes64 x) }
    {
        self.bytes(&x.to_be_bytes());
    }

    // A message's type and the chunks that it names, which are written here alone. That they can be named hangs on the
    // format, which the writer has: a type for it would be made for one call and taken apart in it.
    pub fn name(&mut self, kind: u8, first: u32, last: u32)
        requires free { Free self.old (named_size self.old.format) }
        requires named { nameable self.old.format first last ≡ true }
        ensures { Wrote self.old self.new (name_bytes self.old.format kind first last) }
    {
        self.byte(kind);
        match self.format.addressing {
            Addressing::Bins => self.number32(first + last),
            Addressing::Ranges => {
                self.number32(first);
                self.number32(last);
            }
        }
    }

    // A message's type, and no chunk.
    pub(crate) fn empty(&mut self, kind: u8)
        requires { Free self.old 5 }
        ensures { Wrote self.old self.new (empty_bytes kind) }
    {
        self.byte(kind);
        self.number32(EMPTY_BIN);
    }
}
