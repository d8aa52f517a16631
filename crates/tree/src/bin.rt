// Nodes by their bin numbers (RFC 7574, 4.2).
ghost use Rattle.std.specs.Prelude.{◌≡◌, ◌+◌, ◌^◌, ◌<◌, ◌≤◌};
ghost use Rattle.tree.specs.Bin.{height, first, last};
ghost use Rattle.tree.specs.Steps.{parent, sibling};
ghost use Rattle.tree.specs.Range.{node_of_range};

// 2 to the h.
pub fn pow2(h: u32) -> u64
    requires { h < 64 }
    ensures { (result ≡ 2 ^ h) × (0 < result) }
{
    1 << h
}

// The height of node b: the ones at the low end of its number.
pub fn height(b: u64) -> u32
    ensures { (result ≡ height b) × (2 ^ result ≤ b + 1) }
{
    b.wrapping_add(1).trailing_zeros()
}

// The first chunk that node b covers.
pub fn first(b: u32) -> u32
    ensures { result ≡ first b }
{
    let x = u64::from(b);
    ((x + 1 - pow2(height(x))) / 2) as u32
}

// The last chunk that node b covers.
pub fn last(b: u32) -> u32
    ensures { result ≡ last b }
{
    b - first(b)
}

// The sibling of node b, whose number may need a bit more.
pub fn sibling(b: u32) -> u64
    ensures { result ≡ sibling b }
{
    let x = u64::from(b);
    let w = pow2(height(x));
    if (x / (2 * w)) % 2 == 0 {
        x + 2 * w
    } else {
        x - 2 * w
    }
}

// The parent of node b: halfway to the sibling.
pub fn parent(b: u32) -> u64
    ensures { result ≡ parent b }
{
    (u64::from(b) + sibling(b)) / 2
}

// The node that covers exactly the chunks from start to end, for any two numbers.
pub fn node_of_range(start: u32, end: u32) -> Option<u64>
    ensures { result ≡ node_of_range start end }
{
    let f = u64::from(start);
    let b = f + u64::from(end);
    (2 * f + pow2(height(b)) == b + 1).then_some(b)
}
