// The biggest complete interval of held chunks around one, which an ACK names.
ghost use Rattle.std.specs.Prelude.{◌≡◌, ◌≤◌, ◌<◌};
ghost use Rattle.held.specs.Interval.{run_around, is_within, height_within, complete_interval};

use bits::search;
use format::{Addressing, Format};
use tree::{bin, pack, peaks};
use wire::range::Range;

// The run of held chunks around chunk c of n.
fn run_around(map: &[u32], n: u32, c: u32) -> Range
    ensures { result ≡ run_around map.now n c }
{
    let below = search::run_below(map, c as usize);
    let behind = search::run_from(map, c as usize + 1, n as usize);
    Range {
        first: c - below as u32,
        last: c + behind as u32,
    }
}

// Whether the node of height h above chunk c lies within an interval. The type is wire's, so this is no method.
fn is_within(h: u32, c: u32, interval: Range) -> bool
    requires { h < 60 }
    ensures { result ≡ is_within h c interval }
{
    let from = peaks::above(c, h);
    u64::from(interval.first) <= from && from + (bin::pow2(h) - 1) <= u64::from(interval.last)
}

// The largest height up to `most` at which it does, where c is one of its chunks.
fn height_within(most: u32, c: u32, interval: Range) -> u32
    requires { (most < 59) × (interval.first ≤ c) × (c ≤ interval.last) }
    ensures { (result ≡ height_within most c interval) × (result ≤ most) }
{
    for h in 0..most {
        if !is_within(h + 1, c, interval) {
            return h;
        }
    }
    most
}

// The biggest complete interval around the held chunk c of n that the method names.
pub fn complete_interval(format: Format, map: &[u32], n: u32, c: u32) -> Range
    ensures { result ≡ complete_interval format map.now n c }
{
    let run = run_around(map, n, c);
    match format.addressing {
        Addressing::Ranges => run,
        Addressing::Bins => {
            let h = height_within(pack::levels(n), c, run);
            let first = peaks::above(c, h);
            Range {
                first: first as u32,
                last: (first + (bin::pow2(h) - 1)) as u32,
            }
        }
    }
}
