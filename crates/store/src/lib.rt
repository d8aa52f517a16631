// The chunk store in lent rooms, at SHA-256: started, built, and a chunk taken that may be stored.
#![tactic(auto)]

pub mod answers;
mod building;
pub mod calls;
mod content;
mod nodes;
mod storing;
