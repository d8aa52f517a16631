// A hash value: its eight words, and the 32 bytes that they stand for (FIPS 180-4, sections 3.1 and 6.2).
ghost use Rattle.std.specs.Prelude.{◌≡◌, ◌+◌, ◌*◌, ◌≤◌, ◌++◌, length, drop, replicate};
ghost use Rattle.base.specs.Same.{same};
ghost use Rattle.hash.specs.Word.{word32, words, bytes_of};

// Eight words: a hash value, and the working variables a to h on the way to the next.
#[derive(Clone, Copy, PartialEq, Eq)]
pub struct HashValue {
    pub words: [u32; 8],
}

// The word whose four bytes stand at a place, the highest first. Crate wire has the same: neither cites the other.
fn word(b: &[u8], at: usize) -> u32
    requires { at + 4 ≤ length b.now }
    ensures { result ≡ word32 b.now at }
{
    u32::from_be_bytes([b[at], b[at + 1], b[at + 2], b[at + 3]])
}

// The hash value whose 32 bytes stand at a place.
pub fn load(b: &[u8], at: usize) -> HashValue
    requires { at + 32 ≤ length b.now }
    ensures { result.words ≡ words 8 (drop at b.now) }
{
    HashValue {
        words: std::array::from_fn(|i| word(b, at + 4 * i)),
    }
}

// Writes the bytes of words, of each the highest first.
fn write(b: &mut [u8], w: &[u32])
    requires { length b.old ≡ 4 * length w.now }
    ensures { b.new ≡ bytes_of w.now }
{
    for (i, x) in w.iter().enumerate() {
        b[4 * i..4 * i + 4].copy_from_slice(&x.to_be_bytes());
    }
}

// The 32 bytes of a hash value.
pub fn bytes(v: HashValue) -> [u8; 32]
    ensures { result ≡ bytes_of v.words }
{
    let mut b = [0u8; 32];
    write(&mut b, &v.words);
    b
}

// The sixteen words of two hash values.
pub(crate) fn pair(left: HashValue, right: HashValue) -> [u32; 16]
    ensures { result ≡ left.words ++ right.words }
{
    let mut w = [0u32; 16];
    w[..8].copy_from_slice(&left.words);
    w[8..].copy_from_slice(&right.words);
    w
}

// The 64 bytes of two hash values, one after the other.
pub(crate) fn pair_bytes(left: HashValue, right: HashValue) -> [u8; 64]
    ensures { result ≡ bytes_of left.words ++ bytes_of right.words }
{
    let mut b = [0u8; 64];
    write(&mut b[..32], &left.words);
    write(&mut b[32..], &right.words);
    b
}

// Whether two hash values are the same.
pub fn same(v: HashValue, u: HashValue) -> bool
    ensures { result ≡ same (bytes_of v.words) (bytes_of u.words) }
{
    v == u
}

// The filler: 32 zero bytes.
pub fn zero() -> HashValue
    ensures { bytes_of result.words ≡ replicate 32 0 }
{
    HashValue { words: [0; 8] }
}
