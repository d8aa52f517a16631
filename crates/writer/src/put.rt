// A message into a lent room. Its hash, chunk or root is taken from `bytes`.
ghost use Rattle.std.specs.Prelude.{◌≡◌, ◌+◌, ◌≤◌, [], true, length};
ghost use Rattle.wire.specs.declared.message.Options;
ghost use Rattle.wire.specs.declared.message.Message;
ghost use Rattle.wire.specs.Place.{timed_size, integrity_size};
ghost use Rattle.wire.specs.Options.{fixed_size};
ghost use Rattle.writer.specs.Bytes.{nameable};
ghost use Rattle.writer.specs.Message.{option_bytes, bytes_of, writable, writable_options};
ghost use Rattle.writer.specs.Steps.{option_span, size_of, allowed};
ghost use Rattle.writer.specs.Writer.{Free, Wrote};

use crate::place::Writer;
use wire::message::{Message, Options};
use wire::options::FIXED_HEAD;
use wire::{message, options};

impl Writer<'_> {
    // The fixed options, around the root.
    fn put_fixed(&mut self, root: usize, bytes: &[u8])
        requires free { Free self.old fixed_size }
        requires root_in_bounds { root + 32 ≤ length bytes.now }
        ensures { Wrote self.old self.new (option_bytes self.old.format bytes.now (Options.Fixed root)) }
    {
        self.bytes(&FIXED_HEAD);
        self.bytes(&bytes[root..root + 32]);
        self.bytes(&options::fixed_tail(self.format));
    }

    fn put_options(&mut self, options: Options, bytes: &[u8])
        requires free { Free self.old (option_span options) }
        requires options_value { writable_options (length bytes.now) options ≡ true }
        ensures { Wrote self.old self.new (option_bytes self.old.format bytes.now options) }
    {
        match options {
            Options::Fixed { root } => self.put_fixed(root, bytes),
            Options::EndOnly => self.byte(255),
            Options::Other => {}
        }
    }

    // A HANDSHAKE, as `put` puts it, for whoever has its parts.
    pub fn put_handshake(&mut self, source: u32, options: Options, bytes: &[u8])
        requires free { Free self.old (5 + option_span options) }
        requires options_value { writable_options (length bytes.now) options ≡ true }
        ensures { Wrote self.old self.new
            (bytes_of self.old.format bytes.now (Message.Handshake source options)) }
    {
        self.byte(message::HANDSHAKE);
        self.number32(source);
        self.put_options(options, bytes);
    }

    // A DATA message, likewise: its chunk is the `len` bytes from `start` on.
    pub fn put_data(
        &mut self,
        first: u32,
        last: u32,
        timestamp: u64,
        start: usize,
        len: usize,
        bytes: &[u8],
    )
        requires free { Free self.old (timed_size self.old.format + len) }
        requires len_in_bounds { start + len ≤ length bytes.now }
        requires named { nameable self.old.format first last ≡ true }
        ensures { Wrote self.old self.new
            (bytes_of self.old.format bytes.now (Message.Data first last timestamp start len)) }
    {
        self.name(message::DATA, first, last);
        self.number64(timestamp);
        self.bytes(&bytes[start..start + len]);
    }

    // An ACK, likewise. It takes no bytes.
    pub fn put_ack(&mut self, first: u32, last: u32, delay: u64)
        requires free { Free self.old (timed_size self.old.format) }
        requires named { nameable self.old.format first last ≡ true }
        ensures { Wrote self.old self.new
            (bytes_of self.old.format [] (Message.Ack first last delay)) }
    {
        self.name(message::ACK, first, last);
        self.number64(delay);
    }

    fn put_integrity(&mut self, first: u32, last: u32, hash: usize, bytes: &[u8])
        requires free { Free self.old (integrity_size self.old.format) }
        requires hash_in_bounds { hash + 32 ≤ length bytes.now }
        requires named { nameable self.old.format first last ≡ true }
        ensures { Wrote self.old self.new
            (bytes_of self.old.format bytes.now (Message.Integrity first last hash)) }
    {
        self.name(message::INTEGRITY, first, last);
        self.bytes(&bytes[hash..hash + 32]);
    }

    // A message.
    pub(crate) fn put(&mut self, message: Message, bytes: &[u8])
        requires free { Free self.old (size_of self.old.format message) }
        requires message_value { writable self.old.format (length bytes.now) message ≡ true }
        requires message_value_2 { allowed self.old.format message ≡ true }
        ensures { Wrote self.old self.new (bytes_of self.old.format bytes.now message) }
    {
        match message {
            Message::Handshake { source, options } => self.put_handshake(source, options, bytes),
            Message::Data {
                first,
                last,
                timestamp,
                start,
                len,
            } => self.put_data(first, last, timestamp, start, len, bytes),
            Message::Ack { first, last, delay } => self.put_ack(first, last, delay),
            Message::Have { first, last } => self.name(message::HAVE, first, last),
            Message::Integrity { first, last, hash } => self.put_integrity(
                first, last, hash, bytes,
            ),
            Message::Request { first, last } => self.name(message::REQUEST, first, last),
            Message::Cancel { first, last } => self.name(message::CANCEL, first, last),
            Message::Choke => self.byte(message::CHOKE),
            Message::Unchoke => self.byte(message::UNCHOKE),
            Message::Empty { kind } => self.empty(kind),
        }
    }
}
