// The hash room: eight words a node, read and written by its number.
ghost use Rattle.std.specs.Prelude.{◌≡◌, ◌*◌, ◌/◌, ◌<◌, ◌≤◌, length, get_or, MatchOption};
ghost use Rattle.hash.proofs.Promise.{words, bytes_of};
ghost use Rattle.verdict.specs.Room.{words_at, hash_in, put_hash};

use hash::value;
use hash::value::HashValue;

// The words of the hash of node b, if the room has a place for it.
fn place(hashes: &[u32], b: u64) -> Option<&[u32; 8]>
    ensures { MatchOption result (length hashes.now / 8 ≤ b)
        (λ w. (b < length hashes.now / 8) × (w.now ≡ words_at 8 hashes.now (8 * b))) }
{
    let (places, _) = hashes.as_chunks::<8>();
    places.get(b as usize)
}

// The hash of node b; of a node past the room the filler, as `hash_in` says.
pub fn read(hashes: &[u32], b: u64) -> HashValue
    ensures { bytes_of result.words ≡ hash_in hashes.now b }
{
    match place(hashes, b) {
        Some(words) => HashValue { words: *words },
        None => value::zero(),
    }
}

// Word j of the hash of node b; of a node past the room the filler's.
pub fn word(hashes: &[u32], b: u64, j: usize) -> u32
    requires { j < 8 }
    ensures { result ≡ get_or (words 8 (hash_in hashes.now b)) j 0 }
{
    match place(hashes, b) {
        Some(words) => words[j],
        None => 0,
    }
}

// Writes the hash of node b, if the room has a place for it.
pub fn write(hashes: &mut [u32], b: u64, v: HashValue)
    ensures { hashes.new ≡ put_hash hashes.old b (bytes_of v.words) }
{
    if b < (hashes.len() / 8) as u64 {
        let i = 8 * b as usize;
        hashes[i..i + 8].copy_from_slice(&v.words);
    }
}
