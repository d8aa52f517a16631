// The eight lent rooms, their sizes, and what refuses a call by these alone: 12 and 11.
ghost use Rattle.std.specs.Prelude.{◌≡◌, nat_lt};
ghost use Rattle.base.specs.Out.{Answers};
ghost use Rattle.base.specs.Pick.{pick};
ghost use Rattle.table.proofs.Promise.{state_words, order_in};
ghost use Rattle.channel.specs.World.{world_of, order_format};
ghost use Rattle.channel.specs.Lent.{world_in};
ghost use Rattle.channel.specs.Answers.{method_answer, channel_rooms_answer, own_rooms_answer};
ghost use Rattle.channel.specs.Sizes.{sizes_of, all_answer, own_answer, built_answer};

use base::Refusal;
use format::Format;
use order::Order;
use store::answers;
use table::rows::ROWS;
use table::words;
use table::words::STATE_WORDS;
use wire::limits::MAX_SIZE;

// The rooms of a store: the words of its state, its pack's four rooms, what the peers have and want, and the reply.
#[derive(Drop)]
pub struct Rooms<'a> {
    pub state: &'a mut [u32],
    pub chunks: &'a mut [u8],
    pub map: &'a mut [u32],
    pub hashes: &'a mut [u32],
    pub trusted: &'a mut [u32],
    pub has: &'a mut [u32],
    pub wants: &'a mut [u32],
    pub reply: &'a mut [u8],
}

impl Rooms<'_> {
    // They suffice for the store's own order.
    pub(crate) fn own_answer(&self) -> Result<(), Refusal>
        ensures { Answers result (own_rooms_answer (world_in self.now)) }
    {
        let length = words::length_in(self.state);
        Sizes::of(
            self.state,
            self.chunks,
            self.map,
            self.hashes,
            self.trusted,
            self.has,
            self.wants,
            self.reply,
        )
        .own_answer(length)
    }

    // The store's order.
    pub(crate) fn order(&self) -> Order
        ensures { result ≡ order_in self.now.state.now }
    {
        words::order_in(self.state)
    }

    // What the order settles of a datagram's form.
    pub(crate) fn format(&self) -> Format
        ensures { result ≡ order_format self.now.state.now }
    {
        words::format_in(self.state)
    }
}

// The sizes of the eight rooms: of the chunks and the reply in bytes, of the others in words.
#[derive(Clone, Copy)]
pub struct Sizes {
    pub state: usize,
    pub store: answers::Sizes,
    pub has: usize,
    pub wants: usize,
    pub reply: usize,
}

impl Sizes {
    // The sizes of these rooms.
    pub fn of(
        state: &[u32],
        chunks: &[u8],
        map: &[u32],
        hashes: &[u32],
        trusted: &[u32],
        has: &[u32],
        wants: &[u32],
        reply: &[u8],
    ) -> Sizes
        ensures { result ≡ sizes_of
            (world_of state.now chunks.now map.now hashes.now trusted.now has.now wants.now reply.now) }
    {
        Sizes {
            state: state.len(),
            store: answers::Sizes::of(chunks, map, hashes, trusted),
            has: has.len(),
            wants: wants.len(),
            reply: reply.len(),
        }
    }

    // The rooms for the state, for what the peers have and want, and for the reply suffice for a pack of this length.
    fn channels_answer(self, length: u32) -> Result<(), Refusal>
        ensures { Answers result (channel_rooms_answer length self.state self.has self.wants self.reply) }
    {
        let row = bits::row_words(u64::from(tree::pack::chunk_count(length)));
        let words = ROWS as u64 * row;
        if STATE_WORDS <= self.state
            && words <= self.has as u64
            && words <= self.wants as u64
            && MAX_SIZE <= self.reply
        {
            return Ok(());
        }
        Err(Refusal::RoomTooSmall)
    }

    // All eight suffice for a pack of this length, which may be ordered.
    pub fn order_answer(self, length: u32) -> Result<(), Refusal>
        ensures { Answers result (all_answer length self) }
    {
        self.store.order_answer(length)?;
        self.channels_answer(length)
    }

    // The same under the store's own order, which words that are too few for a state do not have.
    pub fn own_answer(self, length: u32) -> Result<(), Refusal>
        ensures { Answers result (own_answer length self) }
    {
        if self.state < STATE_WORDS {
            return Err(Refusal::RoomTooSmall);
        }
        self.order_answer(length)
    }

    // The same for building, from a content of so many bytes.
    pub fn build_answer(self, length: u32, content: usize) -> Result<(), Refusal>
        ensures { Answers result (built_answer length content self) }
    {
        self.store.build_answer(length, content)?;
        self.channels_answer(length)
    }
}

// A paper gives this method. It is a number: C gives it, and one that is no method's is refused.
pub fn method_answer(method: u32) -> Result<(), Refusal>
    ensures { Answers result (method_answer method) }
{
    if format::is_method(method) {
        Ok(())
    } else {
        Err(Refusal::Order)
    }
}
