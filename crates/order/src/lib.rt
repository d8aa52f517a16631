// What a store works under (01; 02, No. 1): the root's hash, the pack's length and the method of addressing chunks.
#![tactic(auto)]

use hash::value::HashValue;

#[derive(Clone, Copy)]
pub struct Order {
    pub root: HashValue,
    pub length: u32,
    // The method's number as the order names it, and no `Addressing`: a call refuses an order whose number is no method's,
    // as crate format tells.
    pub method: u32,
}
