// The sizes of the rooms for a pack, and the layout of the state's words.
ghost use Rattle.std.specs.Prelude.{◌≡◌};
ghost use Rattle.store.proofs.Promise.{count_of, map_words, hash_words, trusted_words};
ghost use Rattle.table.proofs.Promise.{layout_version, state_words};
ghost use Rattle.channel.proofs.Promise.{peer_words};

use table::rows::ROWS;
use table::words::{LAYOUT_VERSION, STATE_WORDS};

#[unsafe(no_mangle)]
pub extern "C" fn ppspp_layout_version() -> u32
    ensures { result ≡ layout_version }
{
    LAYOUT_VERSION
}

#[unsafe(no_mangle)]
pub extern "C" fn ppspp_state_words() -> usize
    ensures { result ≡ state_words }
{
    STATE_WORDS
}

// The chunks of a pack of this length.
#[unsafe(no_mangle)]
pub extern "C" fn ppspp_chunk_count(length: u32) -> u32
    ensures { result ≡ count_of length }
{
    tree::pack::chunk_count(length)
}

#[unsafe(no_mangle)]
pub extern "C" fn ppspp_map_words(n: u32) -> usize
    ensures { result ≡ map_words n }
{
    bits::row_words(u64::from(n)) as usize
}

#[unsafe(no_mangle)]
pub extern "C" fn ppspp_hash_words(n: u32) -> usize
    ensures { result ≡ hash_words n }
{
    (16 * tree::pack::leaf_places(n)) as usize
}

#[unsafe(no_mangle)]
pub extern "C" fn ppspp_trusted_words(n: u32) -> usize
    ensures { result ≡ trusted_words n }
{
    bits::row_words(2 * tree::pack::leaf_places(n)) as usize
}

#[unsafe(no_mangle)]
pub extern "C" fn ppspp_peer_words(n: u32) -> usize
    ensures { result ≡ peer_words n }
{
    ROWS * bits::row_words(u64::from(n)) as usize
}
