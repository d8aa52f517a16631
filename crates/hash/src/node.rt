// The hash of two hashes, one after the other: a parent in a Merkle tree.
ghost use Rattle.std.specs.Prelude.{◌≡◌, ◌++◌};
ghost use Rattle.hash.specs.Word.{bytes_of};
ghost use Rattle.hash.specs.Sha256.{sha256};

use crate::block::{blocks, mix};
use crate::constants::END_OF_64;
use crate::message::initial;
use crate::value::{HashValue, pair_bytes};

// SHA-256 of the 64 bytes left, right: one block, and one whose sums are known.
pub fn parent(left: HashValue, right: HashValue) -> HashValue
    ensures { bytes_of result.words ≡ sha256 (bytes_of left.words ++ bytes_of right.words) }
{
    let m = pair_bytes(left, right);
    let v = blocks(initial(), &m);
    mix(v, &END_OF_64)
}
