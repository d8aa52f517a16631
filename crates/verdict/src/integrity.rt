// The hashes that came with a chunk: pairs of a node's number and the place of its hash in a slice of bytes.
ghost use Rattle.std.specs.Prelude.{◌≡◌, ◌+◌, ◌≤◌, length, drop, MatchOption};
ghost use Rattle.std.proofs.Math.Option.{none, some};
ghost use Rattle.hash.proofs.Promise.{bytes_of, words};
ghost use Rattle.verdict.specs.Integrity.{integrity_in, find, hash_for};
ghost use Rattle.verdict.specs.Steps.{came, got_at};

use hash::value;
use hash::value::HashValue;

// A node's number and a place in turn, and the bytes.
#[derive(Clone, Copy)]
pub struct Integrity<'a> {
    pub entries: &'a [u64],
    pub bytes: &'a [u8],
}

// The place that the first entry for node b names.
fn find(entries: &[u64], b: u64) -> Option<u64>
    ensures { result ≡ find entries.now b }
{
    let (pairs, _) = entries.as_chunks::<2>();
    pairs.iter().find(|pair| pair[0] == b).map(|pair| pair[1])
}

impl Integrity<'_> {
    // The place of node b's hash, if it came.
    fn place(self, b: u64) -> Option<usize>
        ensures { MatchOption result (hash_for (integrity_in self.entry) b ≡ none)
            (λ at. (at + 32 ≤ length self.entry.bytes.now)
            × (hash_for (integrity_in self.entry) b ≡ some (bytes_of (words 8 (drop at self.entry.bytes.now))))) }
    {
        let last = self.bytes.len().checked_sub(32)?;
        let at = find(self.entries, b)? as usize;
        if at <= last { Some(at) } else { None }
    }

    // Whether node b's hash came.
    pub(crate) fn has(self, b: u64) -> bool
        ensures { result ≡ came (integrity_in self.entry) b }
    {
        self.place(b).is_some()
    }

    // Node b's hash, or the filler if it didn't come, as `got_at` says.
    pub fn get(self, b: u64) -> HashValue
        ensures { bytes_of result.words ≡ got_at (integrity_in self.entry) b }
    {
        match self.place(b) {
            Some(at) => value::load(self.bytes, at),
            None => value::zero(),
        }
    }
}
