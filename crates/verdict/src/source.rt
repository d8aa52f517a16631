// What hashes of nodes are read from: those that came, or the room.
ghost use Rattle.std.specs.Prelude.{◌≡◌, ℕ, List};
ghost use Rattle.hash.proofs.Promise.{bytes_of};
ghost use Rattle.verdict.specs.Integrity.{integrity_in};
ghost use Rattle.verdict.specs.Room.{hash_in};
ghost use Rattle.verdict.specs.Steps.{got_at};

use crate::integrity::Integrity;
use crate::room;
use hash::value::HashValue;

pub trait Source {
    ghost hash_at: { Self → ℕ → List ℕ };

    // Node b's hash, or the filler if there is none.
    fn hash(&self, b: u64) -> HashValue
        ensures { bytes_of result.words ≡ hash_at self.now b };
}

impl Source for Integrity<'_> {
    ghost hash_at = { λ o. got_at (integrity_in o) };

    fn hash(&self, b: u64) -> HashValue {
        self.get(b)
    }
}

impl Source for &[u32] {
    ghost hash_at = { λ h. hash_in h.now };

    fn hash(&self, b: u64) -> HashValue {
        room::read(self, b)
    }
}
