// The run of set bits around a place, by words. What looks in front and what looks from the end stay two: one for both
// would take the iterator, the slice that is left and the count of ones as parameters.
ghost use Rattle.std.specs.Prelude.{◌≡◌, ◌+◌, ◌-◌, ◌%◌, min};
ghost use Rattle.std.specs.List.{prefix_len};
ghost use mathlib.Core.List.{reverse};
ghost use Rattle.bits.specs.Bits.{held_from, held_below};
ghost use Rattle.bits.specs.Steps.{is_ones, is_block, front_blocks, end_blocks, OnesInFront, OnesAtEnd};

// The place behind the set bits from place i on, one after another, below place `upto` and in the word of place i.
fn stop_in_word(ws: &[u32], i: usize, upto: usize) -> usize
    ensures { result ≡ i + min (held_from ws.now (upto - i) i) (32 - i % 32) }
{
    let w = i / 32;
    if upto <= i || ws.len() <= w {
        return i;
    }
    let ones = (!(ws[w] >> (i % 32))).trailing_zeros() as usize;
    i + ones.min(upto - i)
}

// How many blocks of eight words in front are all ones, one after another, and how many at the end.
fn blocks_in_front(ws: &[u32]) -> usize
    ensures { result ≡ prefix_len is_block (front_blocks ws.now) }
{
    let (blocks, _) = ws.as_chunks::<8>();
    blocks.iter().take_while(|b| **b == [u32::MAX; 8]).count()
}

fn blocks_at_end(ws: &[u32]) -> usize
    ensures { result ≡ prefix_len is_block (reverse (end_blocks ws.now)) }
{
    let (_, blocks) = ws.as_rchunks::<8>();
    blocks
        .iter()
        .rev()
        .take_while(|b| **b == [u32::MAX; 8])
        .count()
}

// How many words in front are all ones, one after another, and how many at the end.
fn words_in_front(ws: &[u32]) -> usize
    ensures { result ≡ prefix_len is_ones ws.now }
{
    ws.iter().take_while(|x| **x == u32::MAX).count()
}

fn words_at_end(ws: &[u32]) -> usize
    ensures { result ≡ prefix_len is_ones (reverse ws.now) }
{
    ws.iter().rev().take_while(|x| **x == u32::MAX).count()
}

// The same words, first by blocks, for speed, and then one by one.
fn ones_in_front(ws: &[u32]) -> usize
    ensures { OnesInFront ws.now result }
{
    let n = 8 * blocks_in_front(ws);
    n + words_in_front(&ws[n..])
}

fn ones_at_end(ws: &[u32]) -> usize
    ensures { OnesAtEnd ws.now result }
{
    let n = 8 * blocks_at_end(ws);
    n + words_at_end(&ws[..ws.len() - n])
}

// How many bits from place x on are set, one after another, below place `upto`.
pub fn run_from(ws: &[u32], x: usize, upto: usize) -> usize
    ensures { result ≡ held_from ws.now (upto - x) x }
{
    let stop = stop_in_word(ws, x, upto);
    if stop % 32 != 0 {
        return stop - x;
    }
    let w = stop / 32;
    let end = ws.len().min(upto / 32);
    let ones = if w < end {
        ones_in_front(&ws[w..end])
    } else {
        0
    };
    stop_in_word(ws, 32 * (w + ones), upto) - x
}

// How many bits are set directly below place c, one after another.
pub fn run_below(ws: &[u32], c: usize) -> usize
    ensures { result ≡ held_below ws.now c }
{
    if c == 0 {
        return 0;
    }
    let top = c - 1;
    let w = top / 32;
    if ws.len() <= w {
        return 0;
    }
    let head = (!(ws[w] << (31 - top % 32))).leading_zeros() as usize;
    if head <= top % 32 {
        return head;
    }
    let left = w - ones_at_end(&ws[..w]);
    if left == 0 {
        return c;
    }
    c - 32 * left + (!ws[left - 1]).leading_zeros() as usize
}
