// Which chunk may be stored, at SHA-256: the hash room, the hashes that came, the peaks, the climb and the verdict.
#![tactic(auto)]

pub mod integrity;
pub mod peaks;
pub mod room;
pub mod source;
pub mod verdicts;
