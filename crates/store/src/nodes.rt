// The nodes of a store's tree: their hashes in the hash room, and the row of those that are trusted.
ghost use Rattle.hash.proofs.Promise.{bytes_of};
ghost use Rattle.store.specs.Nodes.{Kept, Puts};

use hash::value::HashValue;
use verdict::room;

#[derive(Drop)]
pub struct Nodes<'a> {
    pub hashes: &'a mut [u32],
    pub trusted: &'a mut [u32],
}

impl Nodes<'_> {
    // Writes node b's hash and trusts it.
    pub fn trust(&mut self, b: u64, v: HashValue)
        ensures kept { Kept self.old self.new }
        ensures puts { Puts (λ put l. put l b (bytes_of v.words)) self.old self.new }
    {
        room::write(self.hashes, b, v);
        bits::set(self.trusted, b as usize);
    }
}
