// Padding, and the hash value of a message: FIPS 180-4, sections 5.1.1, 5.3.3 and 6.2.
ghost use Rattle.std.specs.Prelude.{◌≡◌, ◌+◌, ◌-◌, ◌<◌, ◌≤◌, ◌∷◌, ◌++◌, length, replicate};
ghost use Rattle.std.proofs.lemmas.List.Edits.{sets};
ghost use Rattle.hash.specs.Word.{be, bytes_of};
ghost use Rattle.hash.specs.Message.{H0, finished};
ghost use Rattle.hash.specs.Sha256.{sha256 as SHA256};

use crate::block::{blocks, mix};
use crate::constants::{END_OF_1024, INITIAL};
use crate::value::HashValue;

// The hash value before the first block.
pub fn initial() -> HashValue
    ensures { result.words ≡ H0 }
{
    HashValue { words: INITIAL }
}

// The bytes of a part of a block, the byte that ends them, and zeros.
fn marked(tail: &[u8]) -> [u8; 128]
    requires { length tail.now < 64 }
    ensures { result ≡ tail.now ++ (0x80 ∷ replicate (127 - length tail.now) 0) }
{
    let mut b = [0u8; 128];
    let n = tail.len();
    b[..n].copy_from_slice(tail);
    b[n] = 0x80;
    b
}

// The eight bytes of x, the highest first, written at a place.
fn with_length(mut b: [u8; 128], at: usize, x: u64) -> [u8; 128]
    requires { at + 8 ≤ 128 }
    ensures { result ≡ sets b at (be 8 x) }
{
    b[at..at + 8].copy_from_slice(&x.to_be_bytes());
    b
}

// The last hash value of a message of n bytes, whose last bytes, less than a block, are tail: one block more, or two.
fn pad(v: HashValue, tail: &[u8], n: u64) -> HashValue
    requires { length tail.now < 64 }
    ensures { result.words ≡ finished v.words tail.now n }
{
    let count = (tail.len() + 72) / 64;
    let end = 64 * count;
    let b = with_length(marked(tail), end - 8, n << 3);
    blocks(v, &b[..end])
}

// The last hash value of a message of n bytes, whose bytes after the blocks that led to v are tail. The block that ends
// a message of 1,024 bytes, a whole chunk, has a known schedule: that is for speed alone.
pub fn finish(v: HashValue, tail: &[u8], n: u64) -> HashValue
    ensures { result.words ≡ finished v.words tail.now n }
{
    let from = 64 * (tail.len() / 64);
    let u = blocks(v, tail);
    if tail.len() == from && n == 1024 {
        return mix(u, &END_OF_1024);
    }
    pad(u, &tail[from..], n)
}

// SHA-256 of a message.
pub fn sha256(m: &[u8]) -> HashValue
    ensures { bytes_of result.words ≡ SHA256 m.now }
{
    finish(initial(), m, m.len() as u64)
}
