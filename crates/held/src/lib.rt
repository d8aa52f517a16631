// What is held: how many chunks of a length the map has, and whether it has all.
#![tactic(auto)]

ghost use Rattle.std.specs.Prelude.{◌≡◌};
ghost use Rattle.base.specs.Out.{Answers};
ghost use Rattle.held.specs.Held.{asked_by, ask_number, held_spec};

use base::Refusal;
use store::answers;

pub mod interval;

// How many chunks are held, and whether that is all of them.
#[derive(Clone, Copy)]
pub struct Held {
    pub count: u32,
    pub whole: bool,
}

// The length may be ordered, and a map of so many words has a bit for each of the n chunks.
fn ask_answer(length: u32, n: u32, map: usize) -> Result<(), Refusal>
    ensures { Answers result (ask_number length n map) }
{
    answers::length_answer(length)?;
    if (map as u64) < bits::row_words(u64::from(n)) {
        return Err(Refusal::RoomTooSmall);
    }
    Ok(())
}

// The count of the map's chunks, and whether that is all of them.
pub fn ask(length: u32, map: &[u32]) -> Result<Held, Refusal>
    ensures { asked_by result ≡ held_spec length map.now }
{
    let n = tree::pack::chunk_count(length);
    ask_answer(length, n, map.len())?;
    let count = bits::count(map, n);
    Ok(Held {
        count,
        whole: count == n,
    })
}
