// What a datagram is, and the rules of the layout for a HANDSHAKE and for nodes that came before.
ghost use Rattle.std.specs.Prelude.{◌≡◌, ◌≤◌, length};
ghost use Rattle.base.specs.Out.{Answers};
ghost use Rattle.wire.specs.Limits.{min_size};
ghost use Rattle.wire.specs.Layout.{seen, is_end_only, handshake_fault, handshake_layout, layout_said};

use crate::bytes;
use crate::limits::MIN_SIZE;
use crate::message::Options;
use base::Refusal;

// What a datagram is, if it is not refused. `entries` says how many words of the room for nodes are written.
#[derive(Clone, Copy)]
pub enum Layout {
    HandshakeAlone {
        source: u32,
        options: Options,
    },
    // No DATA among them.
    Messages {
        entries: usize,
    },
    MessagesAndData {
        chunk: u32,
        timestamp: u64,
        start: usize,
        len: usize,
        entries: usize,
    },
}

// Whether a node is among the entries, one after another.
fn seen_among(entries: &[u64], node: u64) -> bool
    ensures { result ≡ seen node entries.now }
{
    let (pairs, _) = entries.as_chunks::<2>();
    pairs.iter().any(|pair| pair[0] == node)
}

// Whether a node is among the entries, a node's number and a place in turn: four at a time, which took half the time.
pub fn seen(entries: &[u64], node: u64) -> bool
    ensures { result ≡ seen node entries.now }
{
    let mut rest = entries;
    while let [a, _, b, _, c, _, d, _, behind @ ..] = rest {
        if *a == node || *b == node || *c == node || *d == node {
            return true;
        }
        rest = behind;
    }
    seen_among(rest, node)
}

fn is_end_only(options: Options) -> bool
    ensures { result ≡ is_end_only options }
{
    matches!(options, Options::EndOnly)
}

// A HANDSHAKE with both channel numbers 0 is refused, and one that closes with other options than End.
pub fn handshake_fault(destination: u32, source: u32, options: Options) -> Result<(), Refusal>
    ensures { Answers result (handshake_fault destination source options) }
{
    if source != 0 {
        return Ok(());
    }
    if destination == 0 || !is_end_only(options) {
        return Err(Refusal::Handshake);
    }
    Ok(())
}

// A HANDSHAKE from `at` to `next`: it is to be alone.
pub(crate) fn handshake(
    datagram: &[u8],
    at: usize,
    next: usize,
    source: u32,
    options: Options,
) -> Result<Layout, Refusal>
    requires { min_size ≤ length datagram.now }
    ensures { layout_said result ≡ handshake_layout datagram.now at next source options }
{
    if at != MIN_SIZE || next != datagram.len() {
        return Err(Refusal::Handshake);
    }
    handshake_fault(bytes::load32(datagram, 0), source, options)?;
    Ok(Layout::HandshakeAlone { source, options })
}
