// A content that a store is built from, and the hashes of its nodes.
ghost use Rattle.std.specs.Prelude.{◌≡◌, ◌+◌, ◌*◌, ◌/◌, ◌<◌, ◌≤◌, ◌^◌, length};
ghost use Rattle.hash.proofs.Promise.{bytes_of, sha256};
ghost use Rattle.tree.specs.Pack.{chunk_size};
ghost use Rattle.verdict.specs.Rooms.{count_of, chunk_in};
ghost use Rattle.store.specs.Steps.{Filled};
ghost use Rattle.store.specs.Building.{tree_of};

use hash::value::HashValue;
use hash::{message, node};
use tree::pack::CHUNK_SIZE;
use tree::peaks::nth;
use verdict::room;

// Its bytes, and how many chunks they make.
#[derive(Clone, Copy)]
pub struct Content<'a> {
    pub bytes: &'a [u8],
    pub n: u32,
    ghost counted: { n ≡ count_of (length bytes.now) },
}

impl Content<'_> {
    // The hash of chunk i.
    fn leaf(self, i: usize) -> HashValue
        requires { chunk_size * i < length self.bytes.now }
        ensures { bytes_of result.words
            ≡ sha256 (chunk_in (length self.entry.bytes.now) self.entry.bytes.now i) }
    {
        let size = CHUNK_SIZE as usize;
        let at = size * i;
        let end = self.bytes.len().min(at + size);
        message::sha256(&self.bytes[at..end])
    }

    // The hash of the k-th node of height h, inside the n chunks: of a chunk, or of the two children in the room.
    pub fn hash_of(self, hashes: &[u32], h: u32, k: u32) -> HashValue
        requires h_bound { (h ≤ 32)
            × (k < self.n / 2 ^ h)
            × (16 * self.n ≤ length hashes.now + 8) }
        requires filled { Filled hashes.now (tree_of self.bytes.now) self.n h }
        ensures { bytes_of result.words ≡ tree_of self.entry.bytes.now h (k * 2 ^ h) }
    {
        if h == 0 {
            return self.leaf(k as usize);
        }
        let first = 2 * u64::from(k);
        let left = room::read(hashes, nth(first, h - 1));
        let right = room::read(hashes, nth(first + 1, h - 1));
        node::parent(left, right)
    }
}
