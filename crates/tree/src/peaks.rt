// Nodes by chunk and height: those above a chunk and their siblings, the peaks of n, and what goes out with a chunk.
// A height is a number that a loop counts, small enough for each shift: a type for it would be made in each turn.
ghost use Rattle.std.specs.Prelude.{◌≡◌, suc, ◌+◌, ◌*◌, ◌^◌, ◌<◌, ◌≤◌, length, nat_le, Some, None};
ghost use Rattle.std.specs.Option.{option_to_list};
ghost use Rattle.std.specs.Bool.{then_some};
ghost use Rattle.std.proofs.lemmas.List.Edits.{sets};
ghost use Rattle.tree.specs.Bin.{bin};
ghost use Rattle.tree.specs.Node.{above, sibling_from, num};
ghost use Rattle.tree.specs.Peaks.{peaks, sent};
ghost use Rattle.tree.specs.State.{is_peak};
ghost use Rattle.tree.specs.Steps.{peak_bit, peak_at, sibling_at, listed};

use crate::{bin, pack};

// The first chunk of the node of height h above chunk c.
pub fn above(c: u32, h: u32) -> u64
    requires { h < 60 }
    ensures { (result ≡ above h c) × (result ≤ c) }
{
    let w = bin::pow2(h);
    (u64::from(c) / w) * w
}

// Bit h of x: whether the node of height h above chunk x is a right child, and whether x chunks have a peak of that
// height.
pub fn bit(x: u32, h: u32) -> bool
    requires { h < 60 }
    ensures { result ≡ peak_bit x h }
{
    (u64::from(x) / bin::pow2(h)) % 2 == 1
}

// The k-th node of height h, from 0 on.
pub fn nth(k: u64, h: u32) -> u64
    requires { (h < 60) × (k * 2 ^ h < 2 ^ 62) }
    ensures { result ≡ bin h (k * 2 ^ h) }
{
    let w = bin::pow2(h);
    2 * (k * w) + (w - 1)
}

// The node of height h above chunk c.
pub fn node(c: u32, h: u32) -> u64
    requires { h < 60 }
    ensures { result ≡ bin h (above h c) }
{
    nth(u64::from(c) / bin::pow2(h), h)
}

// The index of its sibling among the nodes of its height, from the left.
pub fn sibling_index(c: u32, h: u32) -> u64
    requires { h < 60 }
    ensures { result * 2 ^ h ≡ sibling_from h c }
{
    let k = u64::from(c) / bin::pow2(h);
    if k % 2 == 0 { k + 1 } else { k - 1 }
}

// The sibling.
pub fn sibling(c: u32, h: u32) -> u64
    requires { h < 60 }
    ensures { result ≡ num (sibling_at c h) }
{
    nth(sibling_index(c, h), h)
}

// The index among the nodes of height h of the one that is the peak of n where bit h of n is set.
pub fn peak_index(n: u32, h: u32) -> u64
    requires { h < 60 }
    ensures { result * 2 ^ h ≡ above (suc h) n }
{
    2 * (u64::from(n) / bin::pow2(h) / 2)
}

// The peak of n of height h, where bit h of n is set.
pub fn peak(n: u32, h: u32) -> u64
    requires { h < 60 }
    ensures { result ≡ num (peak_at n h) }
{
    nth(peak_index(n, h), h)
}

// The peak of height h, if n has one: it goes out with each chunk.
pub fn sent_peak(n: u32, h: u32) -> Option<u64>
    requires { h < 60 }
    ensures { result ≡ then_some (peak_bit n h) (num (peak_at n h)) }
{
    bit(n, h).then_some(peak(n, h))
}

// Whether the node of height h above chunk c lies within 0..n-1.
pub fn inside(n: u32, c: u32, h: u32) -> bool
    requires { h < 60 }
    ensures { result ≡ nat_le (above h c + 2 ^ h) n }
{
    above(c, h) + bin::pow2(h) <= u64::from(n)
}

// Whether the node of height h above chunk c is a peak of n.
pub fn is_peak(n: u32, c: u32, h: u32) -> bool
    requires { h < 59 }
    ensures { result ≡ is_peak n h (above h c) }
{
    inside(n, c, h) && !inside(n, c, h + 1)
}

// The sibling of height h, if it goes out with chunk c of n.
pub fn sent_sibling(n: u32, c: u32, h: u32) -> Option<u64>
    requires { h < 59 }
    ensures { result ≡ then_some (nat_le (above (suc h) c + 2 ^ suc h) n) (num (sibling_at c h)) }
{
    inside(n, c, h + 1).then_some(sibling(c, h))
}

// Puts a node, if there is one, at place k of the room, if it has that place; the next place.
fn put(room: &mut [u64], k: usize, node: Option<u64>) -> usize
    requires { k < 2 ^ 32 }
    ensures { (result ≡ k + length (option_to_list node)) × (room.new ≡ sets room.old k (option_to_list node)) }
{
    let Some(b) = node else {
        return k;
    };
    if k < room.len() {
        room[k] = b;
    }
    k + 1
}

// Lists what goes out with chunk c of n, in the sending order, as far as the room goes; how many there are. The count
// goes on past the room's end, so no slice of the room holds what is listed.
pub fn sent(room: &mut [u64], n: u32, c: u32) -> usize
    ensures { (result ≡ length (sent n c)) × (room.new ≡ listed room.old 0 (sent n c)) }
{
    let mut k = 0;
    for h in (0..pack::levels(n) + 1).rev() {
        k = put(room, k, sent_sibling(n, c, h));
        k = put(room, k, sent_peak(n, h));
    }
    k
}

// Lists the peaks of n, largest first, likewise. (b) They are what `sent` lists for chunk n, which lies past the pack:
// to look there for siblings in vain takes half as long again.
pub fn peaks(room: &mut [u64], n: u32) -> usize
    ensures { (result ≡ length (peaks n)) × (room.new ≡ listed room.old 0 (peaks n)) }
{
    let mut k = 0;
    for h in (0..pack::levels(n) + 1).rev() {
        k = put(room, k, sent_peak(n, h));
    }
    k
}
