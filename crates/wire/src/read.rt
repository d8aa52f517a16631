// One message at a cursor. None is refused.
ghost use Rattle.std.specs.Prelude.{◌≡◌, ◌+◌, ◌≤◌, ◌<◌, ◌^◌, length};
ghost use Rattle.wire.specs.Options.{options_size};
ghost use Rattle.wire.specs.Read.{kind_of, handshake_at, data_at, integrity_at, ack_at, named, ranged_at};
ghost use Rattle.wire.specs.Read.{typed, step_at};
ghost use Rattle.wire.specs.Steps.{step_said};

use crate::chunks::Chunks;
use crate::message::{
    ACK, CANCEL, CHOKE, Cursor, DATA, HANDSHAKE, HAVE, INTEGRITY, Message, Options, REQUEST, Step,
    UNCHOKE,
};
use crate::{bytes, options, range};
use format::Format;

// What is left of a datagram from a message's type on, or from its options on, and where it stands.
#[derive(Clone, Copy)]
struct Rest<'a> {
    format: Format,
    bytes: &'a [u8],
    at: usize,
    ghost ends: { at + length bytes.now < 2 ^ 64 },
}

// HAVE, REQUEST or CANCEL, by its type.
fn named(kind: u8, first: u32, last: u32) -> Message
    ensures { result ≡ named kind first last }
{
    match kind {
        HAVE => Message::Have { first, last },
        REQUEST => Message::Request { first, last },
        _ => Message::Cancel { first, last },
    }
}

impl Rest<'_> {
    // The kind of the options of sound layout that begin it and have `size` bytes.
    fn kind(self, size: usize) -> Options
        requires { size ≡ options_size self.bytes.now }
        ensures { result ≡ kind_of self.entry.format self.entry.at self.entry.bytes.now }
    {
        if size == 1 {
            return Options::EndOnly;
        }
        if options::is_fixed(self.format, self.bytes) {
            return Options::Fixed {
                root: self.at + options::ROOT_PLACE,
            };
        }
        Options::Other
    }

    fn handshake(self) -> Option<(Message, Cursor)>
        ensures { step_said result ≡ handshake_at self.entry.format self.entry.at self.entry.bytes.now }
    {
        if self.bytes.len() < 5 {
            return None;
        }
        let options = Rest {
            format: self.format,
            bytes: &self.bytes[5..],
            at: self.at + 5,
        };
        let size = options::options_size(options.bytes)?;
        let message = Message::Handshake {
            source: bytes::load32(self.bytes, 1),
            options: options.kind(size),
        };
        let next = Cursor {
            at: self.at + 5 + size,
        };
        Some((message, next))
    }

    fn chunk(self) -> Option<(Message, Cursor)>
        ensures { step_said result ≡ data_at self.entry.format self.entry.at self.entry.bytes.now }
    {
        let chunks = Chunks::of(self.format, self.bytes, 8)?;
        if chunks.is_special() {
            return None;
        }
        let r = chunks.read();
        if r.first != r.last {
            return None;
        }
        let named = range::named_size(self.format);
        let head = named + 8;
        let message = Message::Data {
            first: r.first,
            last: r.last,
            timestamp: bytes::load64(self.bytes, named),
            start: self.at + head,
            len: self.bytes.len() - head,
        };
        let end = self.at + self.bytes.len();
        Some((message, Cursor { at: end }))
    }

    fn integrity(self) -> Option<(Message, Cursor)>
        ensures { step_said result ≡ integrity_at self.entry.format self.entry.at self.entry.bytes.now }
    {
        let chunks = Chunks::of(self.format, self.bytes, 32)?;
        if !chunks.names_node() {
            return None;
        }
        let r = chunks.read();
        let named = range::named_size(self.format);
        let message = Message::Integrity {
            first: r.first,
            last: r.last,
            hash: self.at + named,
        };
        let next = Cursor {
            at: self.at + (named + 32),
        };
        Some((message, next))
    }

    fn ack(self) -> Option<(Message, Cursor)>
        ensures { step_said result ≡ ack_at self.entry.format self.entry.at self.entry.bytes.now }
    {
        let chunks = Chunks::of(self.format, self.bytes, 8)?;
        if chunks.is_special() {
            return None;
        }
        let r = chunks.read();
        if r.last < r.first {
            return None;
        }
        let named = range::named_size(self.format);
        let message = Message::Ack {
            first: r.first,
            last: r.last,
            delay: bytes::load64(self.bytes, named),
        };
        let next = Cursor {
            at: self.at + (named + 8),
        };
        Some((message, next))
    }

    fn ranged(self, kind: u8) -> Option<(Message, Cursor)>
        ensures { step_said result ≡ ranged_at self.entry.format kind self.entry.at self.entry.bytes.now }
    {
        let chunks = Chunks::of(self.format, self.bytes, 0)?;
        let next = Cursor {
            at: self.at + range::named_size(self.format),
        };
        if chunks.is_empty() {
            return Some((Message::Empty { kind }, next));
        }
        let r = chunks.read();
        if r.last < r.first {
            return None;
        }
        Some((named(kind, r.first, r.last), next))
    }

    // The message of a type.
    fn typed(self, kind: u8) -> Option<(Message, Cursor)>
        requires { 1 ≤ length self.bytes.now }
        ensures { step_said result ≡ typed self.entry.format kind self.entry.at self.entry.bytes.now }
    {
        match kind {
            HANDSHAKE => self.handshake(),
            DATA => self.chunk(),
            ACK => self.ack(),
            HAVE | REQUEST | CANCEL => self.ranged(kind),
            INTEGRITY => self.integrity(),
            5..=7 => None,
            CHOKE => Some((Message::Choke, Cursor { at: self.at + 1 })),
            UNCHOKE => Some((Message::Unchoke, Cursor { at: self.at + 1 })),
            12..=254 => None,
            255 => None,
        }
    }
}

// What stands at a cursor of a datagram: a message and the next cursor, the end, or a refusal.
pub fn read(format: Format, datagram: &[u8], cursor: Cursor) -> Step
    ensures { result ≡ step_at format datagram.now cursor.at }
{
    let at = cursor.at;
    if datagram.len() <= at {
        return Step::End;
    }
    let rest = Rest {
        format,
        bytes: &datagram[at..],
        at,
    };
    match rest.typed(rest.bytes[0]) {
        Some((message, next)) => Step::Read { message, next },
        None => Step::Refused,
    }
}
