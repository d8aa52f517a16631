// An order as a C program has it: 40 bytes, the root, the length and the method of addressing.
ghost use Rattle.std.specs.Prelude.{◌≡◌, ◌+◌, ◌≤◌, ◌<◌};
ghost use Rattle.loader.specs.Order.{le32, order_from};

use hash::value;
use order::Order;

pub const ORDER_BYTES: usize = 40;

// The number in four bytes, the low one first.
fn load(order: &[u8; ORDER_BYTES], at: usize) -> u32
    requires { at + 4 ≤ 40 }
    ensures { result ≡ le32 order.now at }
{
    u32::from_le_bytes([order[at], order[at + 1], order[at + 2], order[at + 3]])
}

// The order in them.
pub(crate) fn read(order: &[u8; ORDER_BYTES]) -> Order
    ensures { result ≡ order_from order.now }
{
    let root = value::load(order, 0);
    Order {
        root,
        length: load(order, 32),
        method: load(order, 36),
    }
}
