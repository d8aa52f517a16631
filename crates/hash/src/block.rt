// The hash value after a block: FIPS 180-4, section 6.2.2.
ghost use Rattle.std.specs.Prelude.{◌≡◌, ◌+◌, ◌/◌, ◌≤◌, length, take, drop};
ghost use Rattle.hash.specs.Block.{next, round, rounds, schedule, sums, mixed, compressed};
ghost use Rattle.hash.specs.Message.{after};
ghost use Rattle.hash.specs.Rows.{rows_of_k, Stepped, Advanced, summed_rounds, mixed_sums};

use crate::constants::K;
use crate::value::{HashValue, load, pair};
use crate::word::{add, big_sigma0, big_sigma1, ch, maj, small_sigma0, small_sigma1};

// The working variables, and the sixteen words of the schedule that the next rounds use.
#[derive(Clone, Copy)]
struct Working {
    variables: HashValue,
    schedule: [u32; 16],
}

// One round, with its constant and its word. The sums are grouped for speed.
fn round(v: HashValue, k: u32, w: u32) -> HashValue
    ensures { result.words ≡ round v.words k w }
{
    let [a, b, c, d, e, f, g, h] = v.words;
    let t1 = add(add(add(h, big_sigma1(e)), ch(e, f, g)), add(k, w));
    let t2 = add(big_sigma0(a), maj(a, b, c));
    HashValue {
        words: [add(t1, t2), a, b, c, add(d, t1), e, f, g],
    }
}

// The word of the schedule that follows sixteen, of which these are number 14, 9, 1 and 0.
fn next(w14: u32, w9: u32, w1: u32, w0: u32) -> u32
    ensures { result ≡ next w14 w9 w1 w0 }
{
    add(add(add(small_sigma1(w14), w9), small_sigma0(w1)), w0)
}

// Sixteen rounds, given the sum of each one's constant and word.
// In line: a `for` over the sums is not unrolled, and runs 1.5 times as many instructions.
fn rounds(v: HashValue, s: &[u32; 16]) -> HashValue
    ensures { result.words ≡ summed_rounds v.words s.now }
{
    let v1 = round(v, s[0], 0);
    let v2 = round(v1, s[1], 0);
    let v3 = round(v2, s[2], 0);
    let v4 = round(v3, s[3], 0);
    let v5 = round(v4, s[4], 0);
    let v6 = round(v5, s[5], 0);
    let v7 = round(v6, s[6], 0);
    let v8 = round(v7, s[7], 0);
    let v9 = round(v8, s[8], 0);
    let v10 = round(v9, s[9], 0);
    let v11 = round(v10, s[10], 0);
    let v12 = round(v11, s[11], 0);
    let v13 = round(v12, s[12], 0);
    let v14 = round(v13, s[13], 0);
    let v15 = round(v14, s[14], 0);
    round(v15, s[15], 0)
}

// One round with its constant and, in step with it, the next word of the schedule. The words move up by one place:
// where the compiler has sixteen such steps in line, that costs nothing.
fn step(s: Working, k: u32) -> Working
    ensures { Stepped k s.variables.words s.schedule result.variables.words result.schedule }
{
    let w = s.schedule;
    let last = next(w[14], w[9], w[1], w[0]);
    Working {
        variables: round(s.variables, k, w[0]),
        schedule: std::array::from_fn(|i| if i < 15 { w[i + 1] } else { last }),
    }
}

// Sixteen rounds with their constants and, in step with them, the next sixteen words of the schedule.
// In line: a `for` over the constants is not unrolled, and takes 1.5 times as long.
#[inline(always)]
fn advance(s: Working, k: &[u32; 16]) -> Working
    ensures { Advanced k.now s.variables.words s.schedule result.variables.words result.schedule }
{
    let s1 = step(s, k[0]);
    let s2 = step(s1, k[1]);
    let s3 = step(s2, k[2]);
    let s4 = step(s3, k[3]);
    let s5 = step(s4, k[4]);
    let s6 = step(s5, k[5]);
    let s7 = step(s6, k[6]);
    let s8 = step(s7, k[7]);
    let s9 = step(s8, k[8]);
    let s10 = step(s9, k[9]);
    let s11 = step(s10, k[10]);
    let s12 = step(s11, k[11]);
    let s13 = step(s12, k[12]);
    let s14 = step(s13, k[13]);
    let s15 = step(s14, k[14]);
    step(s15, k[15])
}

// The sums of the words of two hash values.
fn sums(v: HashValue, u: HashValue) -> HashValue
    ensures { result.words ≡ sums v.words u.words }
{
    HashValue {
        words: std::array::from_fn(|i| add(v.words[i], u.words[i])),
    }
}

// The hash value after a block whose sums of constants and words are known, sixteen a row.
pub(crate) fn mix(v: HashValue, s: &[[u32; 16]; 4]) -> HashValue
    ensures { result.words ≡ mixed_sums v.words s.now }
{
    let mut u = v;
    for row in s {
        u = rounds(u, row);
    }
    sums(v, u)
}

// The hash value after a block's sixteen words. The constants are lent, so that a long message needs one copy of them.
fn compress_words(v: HashValue, w: [u32; 16], k: &[[u32; 16]; 4]) -> HashValue
    requires { k.now ≡ rows_of_k }
    ensures { result.words ≡ mixed v.words (schedule w) }
{
    let mut s = Working {
        variables: v,
        schedule: w,
    };
    for row in &k[..3] {
        s = advance(s, row);
    }
    sums(v, advance(s, &k[3]).variables)
}

// The hash value after the block of 64 bytes at a place.
fn block_at(v: HashValue, b: &[u8], at: usize, k: &[[u32; 16]; 4]) -> HashValue
    requires { (at + 64 ≤ length b.now) × (k.now ≡ rows_of_k) }
    ensures { result.words ≡ compressed v.words (take 64 (drop at b.now)) }
{
    compress_words(v, pair(load(b, at), load(b, at + 32)), k)
}

// The hash value after all whole blocks of b. Every block goes through this one loop, in which the compiler places the
// rounds.
pub fn blocks(v: HashValue, b: &[u8]) -> HashValue
    ensures { result.words ≡ after v.words (length b.now / 64) b.now }
{
    let k = K;
    let mut u = v;
    for i in 0..b.len() / 64 {
        u = block_at(u, b, 64 * i, &k);
    }
    u
}

// The hash value after the block of 64 bytes at a place.
pub fn compress(v: HashValue, b: &[u8], at: usize) -> HashValue
    requires { at + 64 ≤ length b.now }
    ensures { result.words ≡ compressed v.words (take 64 (drop at b.now)) }
{
    blocks(v, &b[at..at + 64])
}
