// The hash tree of a pack: its nodes by number, its peaks, what goes out with a chunk. The theory of taking a chunk,
// over any hash, stands in specs/ and proofs/.
#![tactic(auto)]

pub mod bin;
pub mod pack;
pub mod peaks;
pub mod verdict;
