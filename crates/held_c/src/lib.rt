// The crate held for Rust, on numbers and slices alone: what the comparisons and the benchmark link.
#![tactic(auto)]

ghost use Rattle.std.specs.Prelude.{◌≡◌, ◌+◌, ◌*◌, ◌^◌};
ghost use Rattle.format.specs.Format.{format_of};
ghost use Rattle.held.proofs.Promise.{complete_interval};

use held::interval;

// The biggest complete interval around the held chunk c of n: its first chunk, and its last in the upper half. Any
// number for a method of addressing but that of bins counts as ranges.
#[unsafe(no_mangle)]
pub extern "C" fn held_interval(addressing: u32, map: &[u32], n: u32, c: u32) -> u64
    ensures { result ≡ (complete_interval (format_of addressing) map.now n c).last * 2 ^ 32
        + (complete_interval (format_of addressing) map.now n c).first }
{
    let found = interval::complete_interval(format::of_method(addressing), map, n, c);
    u64::from(found.last) * 0x1_0000_0000 + u64::from(found.first)
}
