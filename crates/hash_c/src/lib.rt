// The calls of the crate hash for C and Rust, on numbers and slices alone: what the comparisons and the benchmark link.
// A hash value is eight words behind a reference. Each export is one call.
#![tactic(auto)]

ghost use Rattle.std.specs.Prelude.{◌≡◌, ◌++◌, ◌+◌, ◌≤◌, length, take, drop};
ghost use Rattle.hash.specs.Word.{words, bytes_of};
ghost use Rattle.hash.specs.Block.{compressed};
ghost use Rattle.hash.specs.Message.{H0, finished};
ghost use Rattle.hash.specs.Sha256.{sha256};
ghost use Rattle.hash.proofs.Promise.{same};

use hash::value::HashValue;

// SHA-256 of a message.
#[unsafe(no_mangle)]
pub extern "C" fn hash_sha256(m: &[u8], out: &mut [u8; 32])
    ensures { out.new ≡ sha256 m.now }
{
    *out = hash::value::bytes(hash::message::sha256(m));
}

// The hash value before the first block.
#[unsafe(no_mangle)]
pub extern "C" fn hash_initial(out: &mut [u32; 8])
    ensures { out.new ≡ H0 }
{
    let HashValue { words } = hash::message::initial();
    *out = words;
}

// The hash value after the block at a place.
#[unsafe(no_mangle)]
pub extern "C" fn hash_compress(v: &mut [u32; 8], b: &[u8], at: usize)
    requires { at + 64 ≤ length b.now }
    ensures { v.new ≡ compressed v.old (take 64 (drop at b.now)) }
{
    let HashValue { words } = hash::block::compress(HashValue { words: *v }, b, at);
    *v = words;
}

// The last hash value of a message of n bytes, whose bytes after the blocks that led to v are tail.
#[unsafe(no_mangle)]
pub extern "C" fn hash_finish(v: &[u32; 8], tail: &[u8], n: u64, out: &mut [u32; 8])
    ensures { out.new ≡ finished v.now tail.now n }
{
    let HashValue { words } = hash::message::finish(HashValue { words: *v }, tail, n);
    *out = words;
}

// SHA-256 of the 64 bytes left, right.
#[unsafe(no_mangle)]
pub extern "C" fn hash_parent(left: &[u32; 8], right: &[u32; 8], out: &mut [u32; 8])
    ensures { bytes_of out.new
        ≡ sha256 (bytes_of left.now ++ bytes_of right.now) }
{
    let HashValue { words } = hash::node::parent(
        HashValue { words: *left },
        HashValue { words: *right },
    );
    *out = words;
}

// The hash value whose 32 bytes stand at a place.
#[unsafe(no_mangle)]
pub extern "C" fn hash_load(b: &[u8], at: usize, out: &mut [u32; 8])
    requires { at + 32 ≤ length b.now }
    ensures { out.new ≡ words 8 (drop at b.now) }
{
    let HashValue { words } = hash::value::load(b, at);
    *out = words;
}

// The 32 bytes of a hash value.
#[unsafe(no_mangle)]
pub extern "C" fn hash_bytes(v: &[u32; 8], out: &mut [u8; 32])
    ensures { out.new ≡ bytes_of v.now }
{
    *out = hash::value::bytes(HashValue { words: *v });
}

// Whether two hash values are the same.
#[unsafe(no_mangle)]
pub extern "C" fn hash_same(v: &[u32; 8], u: &[u32; 8]) -> bool
    ensures { result ≡ same (bytes_of v.now) (bytes_of u.now) }
{
    hash::value::same(HashValue { words: *v }, HashValue { words: *u })
}
