// What refuses a call, in 01's order, by the order's length and the rooms' sizes alone.
ghost use Rattle.std.specs.Prelude.{◌≡◌};
ghost use Rattle.base.specs.Out.{Answers};
ghost use Rattle.verdict.specs.Rooms.{rooms_of};
ghost use Rattle.store.specs.Answers.{earlier, length_answer, room_answer, order_answer, chunk_answer, sizes_of};
ghost use Rattle.store.specs.Calls.{build_answer};

use base::Refusal;
use tree::pack;

// The order's length is neither 0 nor over the limit.
pub fn length_answer(length: u32) -> Result<(), Refusal>
    ensures { Answers result (length_answer length) }
{
    if length == 0 || length > pack::MAX_LENGTH {
        return Err(Refusal::Order);
    }
    Ok(())
}

// Chunk c is one of the pack, and has this length.
fn chunk_answer(length: u32, c: u32, size: usize) -> Result<(), Refusal>
    ensures { Answers result (chunk_answer length c size) }
{
    if pack::chunk_count(length) <= c {
        return Err(Refusal::PastPack);
    }
    if size != pack::chunk_size(length, c) as usize {
        return Err(Refusal::ChunkSize);
    }
    Ok(())
}

// The sizes of a store's rooms: the chunks' in bytes, the others' in words.
#[derive(Clone, Copy)]
pub struct Sizes {
    pub chunks: usize,
    pub map: usize,
    pub hashes: usize,
    pub trusted: usize,
}

impl Sizes {
    // The sizes of these rooms.
    pub fn of(chunks: &[u8], map: &[u32], hashes: &[u32], trusted: &[u32]) -> Sizes
        ensures { result ≡ sizes_of (rooms_of chunks.now map.now hashes.now trusted.now) }
    {
        Sizes {
            chunks: chunks.len(),
            map: map.len(),
            hashes: hashes.len(),
            trusted: trusted.len(),
        }
    }

    // No room is too small for a pack of this length.
    fn room_answer(self, length: u32) -> Result<(), Refusal>
        ensures { Answers result (room_answer length self.chunks self.map self.hashes self.trusted) }
    {
        let n = pack::chunk_count(length);
        let w = pack::leaf_places(n);
        let map_words = bits::row_words(u64::from(n));
        let trusted_words = bits::row_words(2 * w);
        if length as usize <= self.chunks
            && map_words <= self.map as u64
            && 16 * w <= self.hashes as u64
            && trusted_words <= self.trusted as u64
        {
            return Ok(());
        }
        Err(Refusal::RoomTooSmall)
    }

    // A pack of this length may be ordered into the rooms.
    pub fn order_answer(self, length: u32) -> Result<(), Refusal>
        ensures { Answers result (order_answer length self.chunks self.map self.hashes self.trusted) }
    {
        length_answer(length)?;
        self.room_answer(length)
    }

    // A pack of this length may be built in the rooms, from a content of so many bytes.
    pub fn build_answer(self, length: u32, content: usize) -> Result<(), Refusal>
        ensures { Answers result
            (build_answer length content self.chunks self.map self.hashes self.trusted) }
    {
        length_answer(length)?;
        if content != length as usize {
            return Err(Refusal::Order);
        }
        self.room_answer(length)
    }

    // A chunk of so many bytes may be taken as chunk c, whatever its hashes.
    pub(crate) fn take_answer(self, length: u32, c: u32, size: usize) -> Result<(), Refusal>
        ensures { Answers result
            (earlier (order_answer length self.chunks self.map self.hashes self.trusted)
            (chunk_answer length c size)) }
    {
        self.order_answer(length)?;
        chunk_answer(length, c, size)
    }
}
