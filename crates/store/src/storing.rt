// Storing a chunk that fits: its bytes, its map bit, and the hashes that hang it.
ghost use Rattle.std.specs.Prelude.{◌≡◌, suc, ◌+◌, ◌*◌, ◌<◌, ◌≤◌, length};
ghost use Rattle.hash.proofs.Promise.{bytes_of, sha256};
ghost use Rattle.base.specs.Pick.{pick};
ghost use Rattle.tree.specs.Bin.{bin};
ghost use Rattle.tree.specs.Node.{above, sibling_from};
ghost use Rattle.tree.specs.Pack.{chunk_size, levels};
ghost use Rattle.tree.specs.Peaks.{peaks};
ghost use Rattle.tree.specs.Steps.{peak_bit};
ghost use Rattle.tree.specs.Verdicts.{every};
ghost use Rattle.verdict.specs.Room.{hash_in};
ghost use Rattle.verdict.specs.Integrity.{integrity_in};
ghost use Rattle.verdict.specs.Rooms.{rooms_of};
ghost use Rattle.verdict.specs.Steps.{trusted_in, got_by};
ghost use Rattle.store.specs.Nodes.{Kept, Puts};
ghost use Rattle.store.specs.Steps.{Climbed, put_if, put_peaks, put_path};
ghost use Rattle.store.specs.Storing.{copied, store_spec};

use crate::nodes::Nodes;
use hash::value::HashValue;
use tree::pack::CHUNK_SIZE;
use verdict::integrity::Integrity;
use verdict::room;
use verdict::verdicts::{Place, SCRATCH};

// The bytes of src into dst from a place on.
// One call of the library, at the chunk's place.
pub fn copy_in(dst: &mut [u8], at: usize, src: &[u8])
    requires { at + length src.now ≤ length dst.old }
    ensures { dst.new ≡ copied dst.old at src.now }
{
    base::copy(&mut dst[at..at + src.len()], src);
}

impl Nodes<'_> {
    // The peak of height h that came, where n has one.
    fn put_peak(&mut self, integrity: Integrity, n: u32, h: u32)
        requires { h < 59 }
        ensures kept { Kept self.old self.new }
        ensures puts { Puts (λ put l. put_if put (peak_bit n h) l (bin h (above (suc h) n))
            (got_by (integrity_in integrity.entry) h (above (suc h) n))) self.old self.new }
    {
        if let Some(b) = tree::peaks::sent_peak(n, h) {
            self.trust(b, integrity.get(b));
        }
    }

    // All of them.
    fn put_peaks(&mut self, integrity: Integrity, n: u32)
        ensures kept { Kept self.old self.new }
        ensures puts { Puts (λ put. put_peaks put (got_by (integrity_in integrity.entry)) n (suc (levels n)))
            self.old self.new }
    {
        for h in 0..=tree::pack::levels(n) {
            self.put_peak(integrity, n, h);
        }
    }

    // The node of height h above chunk c, whose hash is own, and its sibling.
    fn put_pair(&mut self, integrity: Integrity, c: u32, h: u32, own: HashValue)
        requires { h < 59 }
        ensures kept { Kept self.old self.new }
        ensures puts { Puts (λ put l. put (put l (bin h (above h c)) (bytes_of own.words))
            (bin h (sibling_from h c)) (got_by (integrity_in integrity.entry) h (sibling_from h c)))
            self.old self.new }
    {
        self.trust(tree::peaks::node(c, h), own);
        let s = tree::peaks::sibling(c, h);
        self.trust(s, integrity.get(s));
    }

    // The path from chunk c up to below height t, with the hashes of its own nodes copied from the scratch.
    fn put_path(&mut self, scratch: &[u32; SCRATCH], integrity: Integrity, c: u32, t: u32)
        requires { t ≤ 33 }
        ensures kept { Kept self.old self.new }
        ensures puts { Puts (λ put. put_path put (hash_in scratch.now)
            (got_by (integrity_in integrity.entry)) c t) self.old self.new }
    {
        for h in 0..t {
            let own = room::read(scratch, u64::from(h));
            self.put_pair(integrity, c, h, own);
        }
    }
}

// Stores a chunk, found to fit below the trusted node of height t, with the hashes of its climb in the scratch. A chunk
// already held changes nothing.
pub fn store(
    chunks: &mut [u8],
    map: &mut [u32],
    nodes: &mut Nodes<'_>,
    place: Place,
    t: u32,
    scratch: &[u32; SCRATCH],
    chunk: &[u8],
    integrity: Integrity,
)
    requires t_bound { (t ≤ 33)
        × (chunk_size * place.c + length chunk.now ≤ length chunks.old)
        × Climbed scratch.now (got_by (integrity_in integrity)) (sha256 chunk.now) place.c t }
    requires opened_value { place.opened ≡ every (trusted_in nodes.old.trusted.now) (peaks place.n) }
    ensures kept { Kept nodes.old nodes.new }
    ensures rooms { rooms_of chunks.new map.new nodes.new.hashes.now nodes.new.trusted.now
        ≡ store_spec (rooms_of chunks.old map.old nodes.old.hashes.now nodes.old.trusted.now) place.n
        place.c t chunk.now (integrity_in integrity.entry) }
{
    let i = place.c as usize;
    let held = bits::test(map, i);
    if held {
        return;
    }
    copy_in(chunks, CHUNK_SIZE as usize * i, chunk);
    bits::set(map, i);
    if !place.opened {
        nodes.put_peaks(integrity, place.n);
    }
    nodes.put_path(scratch, integrity, place.c, t);
}
