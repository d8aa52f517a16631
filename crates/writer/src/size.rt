// What a message takes: whether it can be written from a source, and its size.
ghost use Rattle.std.specs.Prelude.{◌≡◌, ◌+◌, ◌≤◌, true, length};
ghost use Rattle.wire.specs.Options.{fixed_size};
ghost use Rattle.wire.specs.declared.message.Message;
ghost use Rattle.writer.specs.Lists.{HasWidths};
ghost use Rattle.writer.specs.Message.{in_bounds, writable, writable_options};
ghost use Rattle.writer.specs.Steps.{option_span, size_of};

use format::{Addressing, Format};
use wire::message::{Message, Options};
use wire::options::FIXED_SIZE;
use wire::{plain, range};

// Whether n bytes from `at` on lie in `size` bytes.
fn in_bounds(size: usize, at: usize, n: usize) -> bool
    ensures { result ≡ in_bounds size at n }
{
    n <= size && at <= size - n
}

#[tactic(auto, unfolding(crate::specs::Message::writable_options))]
fn writable_options(size: usize, options: Options) -> bool
    ensures { result ≡ writable_options size options }
{
    match options {
        Options::Fixed { root } => in_bounds(size, root, 32),
        Options::EndOnly => true,
        Options::Other => false,
    }
}

// Whether HAVE, REQUEST or CANCEL over no chunk can be written.
#[tactic(auto, unfolding(crate::specs::Message::writable))]
fn writable_empty(format: Format, kind: u8) -> bool
    ensures { result ≡ writable format 0 (Message.Empty kind) }
{
    plain::is_ranged(kind) && matches!(format.addressing, Addressing::Bins)
}

// Whether a message can be written from `size` bytes.
#[tactic(auto, unfolding(crate::specs::Message::writable))]
pub(crate) fn writable(format: Format, size: usize, message: Message) -> bool
    ensures { result ≡ writable format size message }
{
    match message {
        Message::Handshake { options, .. } => writable_options(size, options),
        Message::Data { start, len, .. } => in_bounds(size, start, len),
        Message::Integrity { hash, .. } => in_bounds(size, hash, 32),
        Message::Empty { kind } => writable_empty(format, kind),
        _ => true,
    }
}

#[tactic(auto, unfolding(crate::specs::Steps::option_span))]
fn option_span(options: Options) -> usize
    ensures { (result ≡ option_span options) × (result ≤ fixed_size) }
{
    match options {
        Options::Fixed { .. } => FIXED_SIZE,
        Options::EndOnly => 1,
        Options::Other => 0,
    }
}

// The size of a message whose bytes lie in `bytes`; its numbers have the widths of the table.
#[tactic(auto, unfolding(crate::specs::Steps::size_of))]
pub(crate) fn size_of(format: Format, message: Message, bytes: &[u8]) -> usize
    requires { writable format (length bytes.now) message ≡ true }
    ensures size { (result ≡ size_of format message) × (result ≤ length bytes.now + 64) }
    ensures widths { HasWidths message }
{
    let named = range::named_size(format);
    match message {
        Message::Handshake { options, .. } => 5 + option_span(options),
        Message::Data { len, .. } => named + 8 + len,
        Message::Ack { .. } => named + 8,
        Message::Integrity { .. } => named + 32,
        Message::Have { .. } | Message::Request { .. } | Message::Cancel { .. } => named,
        Message::Empty { .. } => named,
        Message::Choke | Message::Unchoke => 1,
    }
}
