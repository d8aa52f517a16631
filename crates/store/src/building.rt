// Starting a store in its rooms, and building a whole one from its content.
ghost use Rattle.std.specs.Prelude.{◌≡◌, suc, ◌+◌, ◌*◌, ◌/◌, ◌<◌, ◌≤◌, ◌^◌, [], length};
ghost use Rattle.bits.proofs.Promise.{set_range};
ghost use Rattle.hash.proofs.Promise.{bytes_of};
ghost use Rattle.tree.specs.Bin.{bin};
ghost use Rattle.tree.specs.Pack.{levels, leaf_places};
ghost use Rattle.verdict.specs.Rooms.{rooms_of, count_of};
ghost use Rattle.store.specs.Nodes.{Kept, Puts};
ghost use Rattle.store.specs.Steps.{Filled, put_level, put_levels};
ghost use Rattle.store.specs.Building.{clear_row, start_rooms, tree_of, root_of, build_rooms};

use crate::content::Content;
use crate::nodes::Nodes;
use crate::storing;
use hash::value::HashValue;
use tree::peaks::nth;
use verdict::peaks;

// Clears the row of n bits.
// One call of `clear_words`, over the words of n bits.
fn clear_row(ws: &mut [u32], n: u64)
    ensures { ws.new ≡ clear_row ws.old n }
{
    bits::clear_words(ws, 0, bits::row_words(n) as usize);
}

// Clears the rows, and writes and trusts the root's hash.
pub fn start(map: &mut [u32], nodes: &mut Nodes<'_>, root: HashValue, n: u32)
    ensures kept { Kept nodes.old nodes.new }
    ensures rooms { rooms_of [] map.new nodes.new.hashes.now nodes.new.trusted.now
        ≡ start_rooms (rooms_of [] map.old nodes.old.hashes.now nodes.old.trusted.now) n
        (bytes_of root.words) }
{
    let w = tree::pack::leaf_places(n);
    clear_row(map, u64::from(n));
    clear_row(nodes.trusted, 2 * w);
    nodes.trust(w - 1, root);
}

impl Nodes<'_> {
    // Writes the hash of the content's k-th node of height h, and trusts it.
    fn put_node(&mut self, content: Content<'_>, h: u32, k: u32)
        requires h_bound { (h ≤ 32)
            × (k < content.n / 2 ^ h)
            × (16 * content.n ≤ length self.old.hashes.now + 8) }
        requires filled { Filled self.old.hashes.now (tree_of content.bytes.now) content.n h }
        ensures kept { Kept self.old self.new }
        ensures puts { Puts (λ put l. put l (bin h (k * 2 ^ h)) (tree_of content.entry.bytes.now h (k * 2 ^ h)))
            self.old self.new }
    {
        // Only read: after `self.hashes` is passed as `&[u32]` a proof knows the number of words, and none of them.
        let hashes = &mut *self.hashes;
        let v = content.hash_of(hashes, h, k);
        self.trust(nth(u64::from(k), h), v);
    }

    // Every node of height h inside the pack.
    fn put_level(&mut self, content: Content<'_>, h: u32)
        requires h_bound { (h ≤ 32)
            × (16 * content.n ≤ length self.old.hashes.now + 8) }
        requires filled { Filled self.old.hashes.now (tree_of content.bytes.now) content.n h }
        ensures kept { Kept self.old self.new }
        ensures puts { Puts (λ put. put_level put (tree_of content.entry.bytes.now) h (content.entry.n / 2 ^ h))
            self.old self.new }
    {
        let count = (u64::from(content.n) / tree::bin::pow2(h)) as u32;
        for k in 0..count {
            self.put_node(content, h, k);
        }
    }

    // Every node inside the pack.
    // Beside `put_peaks`: a loop over heights each, which calls another method.
    fn put_levels(&mut self, content: Content<'_>)
        requires { 16 * content.n ≤ length self.old.hashes.now + 8 }
        ensures kept { Kept self.old self.new }
        ensures puts { Puts (λ put. put_levels put (tree_of content.entry.bytes.now) content.entry.n
            (suc (levels content.entry.n))) self.old self.new }
    {
        for h in 0..=tree::pack::levels(content.n) {
            self.put_level(content, h);
        }
    }
}

// Clears the rows, and sets the n map bits.
fn mark_all(map: &mut [u32], trusted: &mut [u32], n: u32)
    ensures { (map.new ≡ set_range (clear_row map.old n) 0 n)
        × (trusted.new ≡ clear_row trusted.old (2 * leaf_places n)) }
{
    clear_row(map, u64::from(n));
    bits::set_range(map, 0, n as usize);
    clear_row(trusted, 2 * tree::pack::leaf_places(n));
}

// Builds a whole store of a content; its root.
pub fn build(
    chunks: &mut [u8],
    map: &mut [u32],
    nodes: &mut Nodes<'_>,
    content: Content<'_>,
) -> HashValue
    requires { (16 * leaf_places content.n ≤ length nodes.old.hashes.now)
        × (length content.bytes.now ≤ length chunks.old) }
    ensures kept { Kept nodes.old nodes.new }
    ensures root { bytes_of result.words ≡ root_of content.entry.bytes.now }
    ensures rooms { rooms_of chunks.new map.new nodes.new.hashes.now nodes.new.trusted.now
        ≡ build_rooms (rooms_of chunks.old map.old nodes.old.hashes.now nodes.old.trusted.now)
        (count_of (length content.entry.bytes.now)) content.entry.bytes.now }
{
    let n = content.n;
    storing::copy_in(chunks, 0, content.bytes);
    mark_all(map, nodes.trusted, n);
    nodes.put_levels(content);
    // Only read, as in `put_node`.
    let hashes = &mut *nodes.hashes;
    let held: &[u32] = hashes;
    let root = peaks::root_of_peaks(&held, n, tree::pack::levels(n));
    nodes.trust(tree::pack::root_node(n), root);
    root
}
