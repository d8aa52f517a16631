// Whether a chunk that came may be stored: the climb to the first trusted node, and the verdict. Its place and the hashes
// that came stay two: the one is of the pack, the other of the datagram, and some functions take one alone.
ghost use Rattle.std.specs.Prelude.{◌≡◌, suc, ◌+◌, ◌≤◌, ◌<◌, ◌^◌, true, false, [], ◌++◌, ltb};
ghost use Rattle.std.specs.Bool.{then_some};
ghost use Rattle.hash.proofs.Promise.{bytes_of, sha256, same};
ghost use Rattle.base.specs.Pick.{pick};
ghost use Rattle.tree.specs.Node.{above, sibling_from, num};
ghost use Rattle.tree.specs.Pack.{levels, least_from};
ghost use Rattle.tree.specs.Peaks.{peaks, siblings, sort};
ghost use Rattle.tree.specs.Steps.{peak_bit, peak_at, sibling_at};
ghost use Rattle.tree.specs.Tree.{given, joined, climb};
ghost use Rattle.tree.specs.Verdicts.{every, is_missing, first_of};
ghost use Rattle.verdict.specs.Room.{filler};
ghost use Rattle.verdict.specs.Integrity.{integrity_in, came_from};
ghost use Rattle.verdict.specs.Steps.{trusted_in, got_by, room_counts, room_counted, named_node, kept};
ghost use Rattle.verdict.specs.Steps.{judged_of, weighed, judge_spec};

use crate::integrity::Integrity;
use crate::{peaks, room};
use hash::value::HashValue;
use hash::{message, node, value};
use tree::verdict::{Fault, Verdict};

// The words of a scratch: eight for a climb's node of each height below that of the tree over the longest pack, so that
// storing hashes none again.
pub const SCRATCH: usize = 72;

// The place of a chunk that came: chunk c of n, and whether the peaks of n are trusted.
#[derive(Clone, Copy)]
pub struct Place {
    pub n: u32,
    pub c: u32,
    pub opened: bool,
}

// The sibling of the node of height h above chunk c, if it is needed, h being below t, and did not come.
fn missing_sibling(integrity: Integrity, c: u32, t: u32, h: u32) -> Option<u64>
    requires { h < 59 }
    ensures { result
        ≡ then_some (pick (ltb h t) (is_missing (came_from (integrity_in integrity.entry)) (sibling_at c h)) false)
        (num (sibling_at c h)) }
{
    let b = tree::peaks::sibling(c, h);
    (h < t && !integrity.has(b)).then_some(b)
}

// The peak of height h, if n has one that is needed, the peaks not being trusted, and did not come.
fn missing_peak(integrity: Integrity, opened: bool, n: u32, h: u32) -> Option<u64>
    requires { h < 59 }
    ensures { result
        ≡ then_some (pick opened false (pick (peak_bit n h)
        (is_missing (came_from (integrity_in integrity.entry)) (peak_at n h)) false))
        (num (peak_at n h)) }
{
    let b = tree::peaks::sent_peak(n, h)?;
    (!opened && !integrity.has(b)).then_some(b)
}

// The first node in the sending order that did not come and that the chunk needs, to be hung from the node of height t.
fn first_missing(integrity: Integrity, place: Place, t: u32) -> Option<u64>
    requires { above t place.c + 2 ^ t ≤ place.n }
    ensures { result ≡ named_node (first_of
        (is_missing (came_from (integrity_in integrity.entry)))
        (sort (pick place.opened [] (peaks place.n) ++ siblings place.c t))) }
{
    for h in (0..tree::pack::levels(place.n) + 1).rev() {
        if let Some(b) = missing_sibling(integrity, place.c, t, h) {
            return Some(b);
        }
        if let Some(b) = missing_peak(integrity, place.opened, place.n, h) {
            return Some(b);
        }
    }
    None
}

// Whether the node of height h above the chunk counts as trusted.
fn counts(trusted: &[u32], place: Place, h: u32) -> bool
    requires { h < 59 }
    ensures { result ≡ room_counts place.opened place.n trusted.now h (above h place.c) }
{
    let b = tree::peaks::node(place.c, h);
    bits::test(trusted, b as usize) || !place.opened && tree::peaks::is_peak(place.n, place.c, h)
}

// The height of the first node at or above the chunk that counts as trusted. By `for`, as `peaks::all_trusted`.
fn reach(trusted: &[u32], place: Place) -> u32
    ensures { (result
        ≡ least_from (λ h. room_counts place.opened place.n trusted.now h (above h place.c))
        (suc (levels place.n)) 0)
        × (result ≤ 33) }
{
    let end = tree::pack::levels(place.n) + 1;
    for h in 0..end {
        if counts(trusted, place, h) {
            return h;
        }
    }
    end
}

// One step of the climb from chunk c, from height h to the next: left then right.
fn step(integrity: Integrity, c: u32, h: u32, acc: HashValue) -> HashValue
    requires { h < 59 }
    ensures { bytes_of result.words
        ≡ joined sha256 c h (bytes_of acc.words)
        (got_by (integrity_in integrity.entry) h (sibling_from h c)) }
{
    let s = integrity.get(tree::peaks::sibling(c, h));
    if tree::peaks::bit(c, h) {
        node::parent(s, acc)
    } else {
        node::parent(acc, s)
    }
}

// The climb from chunk c, whose leaf has the hash v, to the node of height t above; the scratch keeps those below.
fn climb(
    scratch: &mut [u32; SCRATCH],
    integrity: Integrity,
    c: u32,
    v: HashValue,
    t: u32,
) -> HashValue
    requires { t ≤ 33 }
    ensures { (bytes_of result.words
        ≡ climb sha256 (got_by (integrity_in integrity.entry)) (bytes_of v.words) c t)
        × (scratch.new
        ≡ kept scratch.old (got_by (integrity_in integrity.entry)) (bytes_of v.words) c t) }
{
    let mut acc = v;
    for h in 0..t {
        room::write(scratch, u64::from(h), acc);
        acc = step(integrity, c, h, acc);
    }
    acc
}

// The hash that counts for the node of height t above the chunk: a peak's came where the peaks aren't trusted yet.
fn target(hashes: &[u32], integrity: Integrity, place: Place, t: u32) -> HashValue
    requires { t ≤ 33 }
    ensures { bytes_of result.words
        ≡ room_counted place.opened place.n hashes.now (integrity_in integrity.entry) t
        (above t place.c) }
{
    let b = tree::peaks::node(place.c, t);
    if !place.opened && tree::peaks::is_peak(place.n, place.c, t) {
        integrity.get(b)
    } else {
        room::read(hashes, b)
    }
}

// Whether the peaks are trusted, or give the root.
fn rooted(integrity: Integrity, place: Place, root: HashValue) -> bool
    ensures { result ≡ pick place.opened true
        (same (given sha256 filler place.n (got_by (integrity_in integrity.entry)) (levels place.n) 0)
        (bytes_of root.words)) }
{
    let top = tree::pack::levels(place.n);
    place.opened || value::same(peaks::root_of_peaks(&integrity, place.n, top), root)
}

// Whether the climb from the leaf's hash gives the hash that counts for the node of height t; the scratch keeps it.
fn met(
    scratch: &mut [u32; SCRATCH],
    hashes: &[u32],
    integrity: Integrity,
    place: Place,
    t: u32,
    leaf: HashValue,
) -> bool
    requires { t ≤ 33 }
    ensures { (result ≡ same
        (climb sha256 (got_by (integrity_in integrity.entry)) (bytes_of leaf.words) place.c t)
        (room_counted place.opened place.n hashes.now (integrity_in integrity.entry) t
        (above t place.c)))
        × (scratch.new
        ≡ kept scratch.old (got_by (integrity_in integrity.entry))
        (bytes_of leaf.words) place.c t) }
{
    let x = climb(scratch, integrity, place.c, leaf, t);
    let y = target(hashes, integrity, place, t);
    value::same(x, y)
}

// What becomes of a chunk where no hash is missing, to be hung from the node of height t. The chunk is hashed once, and
// only where that decides; the scratch then keeps the climb.
fn weigh(
    scratch: &mut [u32; SCRATCH],
    hashes: &[u32],
    place: Place,
    root: HashValue,
    t: u32,
    chunk: &[u8],
    integrity: Integrity,
) -> Verdict
    requires { t ≤ 33 }
    ensures { judged_of result scratch.new
        ≡ weighed scratch.old place.n (bytes_of root.words) hashes.now place.opened place.c t
        chunk.now (integrity_in integrity.entry) }
{
    if !rooted(integrity, place, root) {
        return Err(Fault::WrongPeaks(tree::pack::root_node(place.n)));
    }
    let leaf = message::sha256(chunk);
    if !met(scratch, hashes, integrity, place, t, leaf) {
        return Err(Fault::WrongClimb(tree::peaks::node(place.c, t)));
    }
    Ok(t)
}

// What becomes of a chunk that came with these hashes.
pub fn judge(
    scratch: &mut [u32; SCRATCH],
    hashes: &[u32],
    trusted: &[u32],
    place: Place,
    root: HashValue,
    chunk: &[u8],
    integrity: Integrity,
) -> Verdict
    requires { (place.c < place.n) × (place.opened ≡ every (trusted_in trusted.now) (peaks place.n)) }
    ensures { judged_of result scratch.new
        ≡ judge_spec scratch.old place.n (bytes_of root.words) hashes.now trusted.now place.c
        chunk.now (integrity_in integrity.entry) }
{
    let t = reach(trusted, place);
    match first_missing(integrity, place, t) {
        Some(b) => Err(Fault::Missing(b)),
        None => weigh(scratch, hashes, place, root, t, chunk, integrity),
    }
}
