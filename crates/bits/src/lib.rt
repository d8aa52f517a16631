// Bit rows in lent words: bit i stands in word i / 32, at place i % 32, the low bit first.
// A bit past the room is never set, and setting or clearing it has no effect.
#![tactic(auto)]

ghost use Rattle.std.specs.Prelude.{◌≡◌, ℕ, ◌+◌, ◌*◌, ◌/◌, ◌^◌, ◌<◌, ◌≤◌, get_or};
ghost use Rattle.bits.specs.Bits.{bit_at, set_bit, clear_bit, set_range, clear_range, clear_words};
ghost use Rattle.bits.specs.Bits.{count_bits, ones_over, row_words};
ghost use Rattle.bits.specs.Steps.{mask, change_word, change_bit, change_range};

pub mod search;

// Whether a bit is set.
pub fn test(ws: &[u32], i: usize) -> bool
    ensures { result ≡ bit_at ws.now i }
{
    let w = i / 32;
    let k = i % 32;
    if w < ws.len() {
        (ws[w] >> k) & 1 == 1
    } else {
        false
    }
}

// A word with the bits of a mask set where ON, else clear.
fn change_word<const ON: bool>(x: u32, bits: u32) -> u32
    ensures { result ≡ change_word ON x bits }
{
    if ON { x | bits } else { x & !bits }
}

// Sets one bit where ON, else clears it.
fn change<const ON: bool>(ws: &mut [u32], i: usize)
    ensures { ws.new ≡ change_bit ON ws.old i }
{
    let w = i / 32;
    let k = i % 32;
    if w < ws.len() {
        ws[w] = change_word::<ON>(ws[w], 1u32 << k);
    }
}

// Sets one bit.
pub fn set(ws: &mut [u32], i: usize)
    ensures { ws.new ≡ set_bit ws.old i }
{
    change::<true>(ws, i);
}

// Clears one bit.
pub fn clear(ws: &mut [u32], i: usize)
    ensures { ws.new ≡ clear_bit ws.old i }
{
    change::<false>(ws, i);
}

// The word whose bits from a up to but not including b are set.
fn mask(a: usize, b: usize) -> u32
    requires { (a ≤ b) × (b ≤ 32) }
    ensures { result ≡ mask a b }
{
    ((1u64 << b) - (1u64 << a)) as u32
}

// Sets or clears the bits from one up to but not including another, all of one word.
fn change_part<const ON: bool>(ws: &mut [u32], from: usize, upto: usize)
    requires { (from < upto) × (upto ≤ 32 * (from / 32 + 1)) }
    ensures { ws.new ≡ change_range ON ws.old from upto }
{
    let w = from / 32;
    let part = mask(from % 32, upto - 32 * w);
    if w < ws.len() {
        ws[w] = change_word::<ON>(ws[w], part);
    }
}

// Sets or clears all bits of the words from one up to but not including another. That a word fits its type is required
// only because it is not known of the old words once they are filled.
fn change_words<const ON: bool>(ws: &mut [u32], from: usize, upto: usize)
    requires { (i : ℕ) → get_or ws.old i 0 < 2 ^ 32 }
    ensures { ws.new ≡ change_range ON ws.old (32 * from) (32 * upto) }
{
    let end = upto.min(ws.len());
    if from < end {
        ws[from..end].fill(change_word::<ON>(0, u32::MAX));
    }
}

// Sets or clears the bits from one up to but not including another.
fn change_range<const ON: bool>(ws: &mut [u32], from: usize, upto: usize)
    ensures { ws.new ≡ change_range ON ws.old from upto }
{
    if upto <= from {
        return;
    }
    let first = from / 32;
    let last = (upto - 1) / 32;
    if first == last {
        change_part::<ON>(ws, from, upto);
        return;
    }
    change_part::<ON>(ws, from, 32 * (first + 1));
    change_words::<ON>(ws, first + 1, last);
    change_part::<ON>(ws, 32 * last, upto);
}

// Sets the bits from one up to but not including another.
pub fn set_range(ws: &mut [u32], from: usize, upto: usize)
    ensures { ws.new ≡ set_range ws.old from upto }
{
    change_range::<true>(ws, from, upto);
}

// Clears the bits from one up to but not including another.
pub fn clear_range(ws: &mut [u32], from: usize, upto: usize)
    ensures { ws.new ≡ clear_range ws.old from upto }
{
    change_range::<false>(ws, from, upto);
}

// Clears the words from one up to but not including another.
pub fn clear_words(ws: &mut [u32], from: usize, upto: usize)
    ensures { ws.new ≡ clear_words ws.old from upto }
{
    change_words::<false>(ws, from, upto);
}

// A word of a row; 0 past its end, as `get_or` says. Crate table has one too: it is one call of the library.
fn word(ws: &[u32], w: usize) -> u32
    ensures { result ≡ get_or ws.now w 0 }
{
    ws.get(w).copied().unwrap_or(0)
}

// How many bits of the first n words are set.
fn ones_over(ws: &[u32], n: usize) -> u32
    requires { n < 2 ^ 27 }
    ensures { (result ≡ ones_over ws.now n) × (result ≤ 32 * n) }
{
    let mut ones: u32 = 0;
    for w in 0..n.min(ws.len()) {
        ones += ws[w].count_ones();
    }
    ones
}

// How many of the first `upto` bits are set, whatever stands past them.
pub fn count(ws: &[u32], upto: u32) -> u32
    ensures { result ≡ count_bits ws.now upto }
{
    let whole = (upto / 32) as usize;
    let next = word(ws, whole);
    let part = next % (1u32 << (upto % 32));
    ones_over(ws, whole) + part.count_ones()
}

// How many words a row of n bits takes.
pub fn row_words(n: u64) -> u64
    ensures { result ≡ row_words n }
{
    n.div_ceil(32)
}
