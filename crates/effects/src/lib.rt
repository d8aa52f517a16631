// What the messages of a datagram do to a channel: what they change of what the peer has, what it wants and the choke
// mark.
#![tactic(auto)]

ghost use Rattle.std.specs.Prelude.{◌≡◌, ◌≤◌, ◌<◌, ◌^◌, length, get_or};
ghost use Rattle.wire.proofs.Promise.{named_size, step_at, plain_message};
ghost use Rattle.writer.proofs.Promise.{read_all};
ghost use Rattle.effects.specs.Effects.{peer_of, have, inside, effect, effects};
ghost use Rattle.effects.specs.Steps.{peer_in, Kept, turn_of, turned};

use format::Format;
use wire::chunks::Chunks;
use wire::limits::MIN_SIZE;
use wire::message::{ACK, CANCEL, CHOKE, Cursor, HAVE, REQUEST, Step};
use wire::{plain, read};

// The end of chunks up to `last` of n: their part inside the pack.
fn inside(n: u32, last: u32) -> usize
    ensures { (result ≡ inside n last) × (result ≤ n) }
{
    (last as usize + 1).min(n as usize)
}

// A channel of a pack of n chunks: what its peer has and wants, from bit `base` of the two rooms on, and whether the
// peer choked us.
#[derive(Drop)]
struct Channel<'a> {
    has: &'a mut [u32],
    wants: &'a mut [u32],
    choked: bool,
    n: u32,
    base: usize,
}

impl Channel<'_> {
    // HAVE and ACK: the peer has the chunks, and wants them no more.
    fn have(&mut self, from: usize, upto: usize)
        ensures kept { Kept self.old self.new }
        ensures effect { peer_in self.new ≡ have from upto (peer_in self.old) }
    {
        bits::set_range(self.has, from, upto);
        bits::clear_range(self.wants, from, upto);
    }

    // The effect of a plain message, which `rest` begins with. It is told by its type: no message value is made for it.
    fn apply_plain(&mut self, format: Format, rest: &[u8])
        requires base_bound { self.old.base < 2 ^ 32 }
        requires in_bounds { 1 ≤ length rest.now }
        requires format_in_bounds { get_or rest.now 0 0 ≤ 9 → named_size format ≤ length rest.now }
        ensures kept { Kept self.old self.new }
        ensures effect { peer_in self.new
            ≡ effect self.old.n self.old.base (plain_message format rest.now) (peer_in self.old) }
    {
        let kind = rest[0];
        if CANCEL < kind {
            self.choked = kind == CHOKE;
            return;
        }
        let chunks = Chunks { format, rest };
        if chunks.is_empty() {
            return;
        }
        let range = chunks.read();
        let from = self.base + range.first as usize;
        let upto = self.base + inside(self.n, range.last);
        match kind {
            ACK | HAVE => self.have(from, upto),
            REQUEST => bits::set_range(self.wants, from, upto),
            _ => bits::clear_range(self.wants, from, upto),
        }
    }

    // The effect of what stands at `at`; where the next message stands, if any.
    fn apply_turn(&mut self, format: Format, datagram: &[u8], at: usize) -> Option<usize>
        requires { self.old.base < 2 ^ 32 }
        ensures kept { Kept self.old self.new }
        ensures effect { turn_of (peer_in self.new) result
            ≡ turned self.old.n self.old.base (peer_in self.old) (step_at format datagram.now at) }
    {
        if let Some(size) = plain::size(format, datagram, at) {
            self.apply_plain(format, &datagram[at..]);
            return Some(at + size);
        }
        match read::read(format, datagram, Cursor { at }) {
            Step::Read { next, .. } => Some(next.at),
            Step::End | Step::Refused => None,
        }
    }
}

// The effects of a datagram's messages on a channel of a pack of n chunks, one after the other; whether the peer choked
// us afterwards. Each message has a byte at least.
// The parameters stay apart: else the one caller would make the `Channel`.
pub fn apply(
    has: &mut [u32],
    wants: &mut [u32],
    format: Format,
    n: u32,
    base: usize,
    choked: bool,
    datagram: &[u8],
) -> bool
    requires { base < 2 ^ 32 }
    ensures { peer_of has.new wants.new result
        ≡ effects n base (read_all format datagram.now) (peer_of has.old wants.old choked) }
{
    let mut channel = Channel {
        has,
        wants,
        choked,
        n,
        base,
    };
    let mut at = MIN_SIZE;
    for _turn in 0..datagram.len() {
        match channel.apply_turn(format, datagram, at) {
            Some(next) => at = next,
            None => return channel.choked,
        }
    }
    channel.choked
}
