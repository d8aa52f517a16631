// SHA-256 (FIPS 180-4). Each function's contract is an equation with a definition of specs/.
#![tactic(auto)]

pub mod block;
mod constants;
pub mod message;
pub mod node;
pub mod value;
mod word;
