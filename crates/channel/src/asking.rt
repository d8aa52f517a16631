// Asking: the held count, and whole or not.
ghost use Rattle.std.specs.Prelude.{◌≡◌};
ghost use Rattle.held.proofs.Promise.{asked_by};
ghost use Rattle.channel.specs.Ask.{ask_spec};

use base::Refusal;
use held::Held;
use table::words;
use table::words::STATE_WORDS;

// How many chunks the map has, and whether it has all.
pub fn ask(state: &[u32], map: &[u32]) -> Result<Held, Refusal>
    ensures { asked_by result ≡ ask_spec state.now map.now }
{
    if state.len() < STATE_WORDS {
        return Err(Refusal::RoomTooSmall);
    }
    held::ask(words::length_in(state), map)
}
