// The peaks of n: trusted, combined to the root.
ghost use Rattle.std.specs.Prelude.{◌≡◌, ◌≤◌, ◌<◌, ◌^◌, false, not};
ghost use Rattle.hash.proofs.Promise.{bytes_of, sha256};
ghost use Rattle.base.specs.Pick.{pick};
ghost use Rattle.tree.specs.Peaks.{peaks};
ghost use Rattle.tree.specs.Steps.{peak_bit, peak_at, folded};
ghost use Rattle.tree.specs.Tree.{given};
ghost use Rattle.tree.specs.Verdicts.{every};
ghost use Rattle.verdict.specs.Room.{filler};
ghost use Rattle.verdict.specs.Steps.{trusted_in, by_node};

use crate::source::Source;
use hash::value::HashValue;
use hash::{node, value};

// Whether n has a peak of height h that is not trusted.
fn peak_untrusted(trusted: &[u32], n: u32, h: u32) -> bool
    requires { h < 59 }
    ensures { result ≡ pick (peak_bit n h) (not (trusted_in trusted.now (peak_at n h))) false }
{
    match tree::peaks::sent_peak(n, h) {
        Some(b) => !bits::test(trusted, b as usize),
        None => false,
    }
}

// Whether all peaks of n are trusted. A `for` knows that each height is small, which a closure for `all` would have to ask.
pub fn all_trusted(trusted: &[u32], n: u32) -> bool
    ensures { result ≡ every (trusted_in trusted.now) (peaks n) }
{
    for h in 0..tree::pack::levels(n) + 1 {
        if peak_untrusted(trusted, n, h) {
            return false;
        }
    }
    true
}

// One step of combining the peaks of n, from height h to the next: fillers go by place.
fn fold<S: Source>(source: &S, n: u32, h: u32, acc: HashValue) -> HashValue
    requires { h < 59 }
    ensures { bytes_of result.words
        ≡ folded sha256 filler n (by_node (S.hash_at source.now)) h (bytes_of acc.words) }
{
    if let Some(b) = tree::peaks::sent_peak(n, h) {
        return node::parent(source.hash(b), acc);
    }
    if tree::peaks::above(n, h) == u64::from(n) {
        return acc;
    }
    node::parent(acc, value::zero())
}

// The root that the peaks of n give in a tree of `top` levels; of 2 to the top chunks it is the one peak.
pub fn root_of_peaks<S: Source>(source: &S, n: u32, top: u32) -> HashValue
    requires { (top ≤ 32) × (n ≤ 2 ^ top) }
    ensures { bytes_of result.words ≡ given sha256 filler n (by_node (S.hash_at source.now)) top 0 }
{
    let w = tree::bin::pow2(top);
    if u64::from(n) == w {
        return source.hash(w - 1);
    }
    let mut acc = value::zero();
    for h in 0..top {
        acc = fold(source, n, h, acc);
    }
    acc
}
