// Plain messages: those that may change what a channel knows of its peer, which are ACK, HAVE, REQUEST, CANCEL, CHOKE
// and UNCHOKE. A pass over a datagram tells them by their size, without a message value.
ghost use Rattle.std.specs.Prelude.{◌≡◌, length};
ghost use Rattle.wire.specs.Read.{step_at, is_ranged};
ghost use Rattle.wire.specs.Steps.{is_single, ranged_size, ack_size, plain_size, is_node, some_size};

use crate::chunks::Chunks;
use crate::message::{ACK, CANCEL, CHOKE, HAVE, INTEGRITY, REQUEST, UNCHOKE};
use crate::range;
use format::Format;

// CHOKE and UNCHOKE: a type alone.
fn is_single(kind: u8) -> bool
    ensures { result ≡ is_single kind }
{
    kind == CHOKE || kind == UNCHOKE
}

// HAVE, REQUEST and CANCEL: a type and chunks.
pub fn is_ranged(kind: u8) -> bool
    ensures { result ≡ is_ranged kind }
{
    matches!(kind, HAVE | REQUEST | CANCEL)
}

// The size of HAVE, REQUEST or CANCEL, if the message has as many bytes and its chunks are in order, or none.
fn ranged_size(format: Format, rest: &[u8]) -> Option<usize>
    ensures { result ≡ some_size (ranged_size format rest.now) }
{
    let chunks = Chunks::of(format, rest, 0)?;
    if !chunks.in_order() {
        return None;
    }
    Some(range::named_size(format))
}

// The size of ACK, if the message has as many bytes and its chunks are in order, and neither none nor all.
fn ack_size(format: Format, rest: &[u8]) -> Option<usize>
    ensures { result ≡ some_size (ack_size format rest.now) }
{
    let chunks = Chunks::of(format, rest, 8)?;
    if chunks.is_special() || !chunks.in_order() {
        return None;
    }
    Some(range::named_size(format) + 8)
}

// The size of the plain message at a place of a datagram, if one stands there.
pub(crate) fn any_size(format: Format, datagram: &[u8], at: usize) -> Option<usize>
    ensures { result ≡ some_size (plain_size format (step_at format datagram.now at)) }
{
    if datagram.len() <= at {
        return None;
    }
    let rest = &datagram[at..];
    let kind = rest[0];
    if is_single(kind) {
        return Some(1);
    }
    if is_ranged(kind) {
        return ranged_size(format, rest);
    }
    if kind == ACK {
        return ack_size(format, rest);
    }
    None
}

// The same. The types of one byte are told before the call: what is behind it is too large to be put in line.
pub fn size(format: Format, datagram: &[u8], at: usize) -> Option<usize>
    ensures { result ≡ some_size (plain_size format (step_at format datagram.now at)) }
{
    if datagram.len() <= at {
        return None;
    }
    let rest = &datagram[at..];
    if is_single(rest[0]) {
        return Some(1);
    }
    any_size(format, datagram, at)
}

// Whether an INTEGRITY message stands at a place of a datagram.
pub(crate) fn is_node(format: Format, datagram: &[u8], at: usize) -> bool
    ensures { result ≡ is_node (step_at format datagram.now at) }
{
    if datagram.len() <= at {
        return false;
    }
    let rest = &datagram[at..];
    if rest[0] != INTEGRITY {
        return false;
    }
    match Chunks::of(format, rest, 32) {
        Some(chunks) => chunks.names_node(),
        None => false,
    }
}
