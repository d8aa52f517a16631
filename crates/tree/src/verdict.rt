// What becomes of a chunk that came.
ghost use Rattle.std.specs.Prelude.{◌≡◌};
ghost use Rattle.tree.specs.Verdicts.{refusal_of};

use base::Refusal;

// The height of the trusted node that the chunk hangs from, which may be its own leaf; or why it doesn't fit.
pub type Verdict = Result<u32, Fault>;

#[derive(Clone, Copy)]
pub enum Fault {
    // This node's hash is needed and isn't there.
    Missing(u64),
    // The peaks don't give the root, this node.
    WrongPeaks(u64),
    // The climb misses this node, which counts as trusted.
    WrongClimb(u64),
}

impl From<Fault> for Refusal {
    ghost from_gives = { λ fault refusal. refusal ≡ refusal_of fault };

    fn from(fault: Fault) -> Refusal {
        match fault {
            Fault::Missing(b) => Refusal::HashMissing(b),
            Fault::WrongPeaks(b) | Fault::WrongClimb(b) => Refusal::HashWrong(b),
        }
    }
}
