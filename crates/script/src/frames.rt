// The frame of a line: how many bytes it has, or none.
ghost use Rattle.std.specs.Prelude.{◌≡◌};
ghost use Rattle.script.specs.Frames.{has_length};
ghost use Rattle.script.specs.Steps.{framed, frame_spec};

use crate::hex;

// Whether a line of this length has from `least` to `most` characters, and an even number.
#[tactic(auto, using(std::proofs::lemmas::Bool::Decides::nat_tests), unfolding(crate::specs::Frames::has_length))]
fn has_length(len: usize, least: usize, most: usize) -> bool
    ensures { result ≡ has_length least most len }
{
    least <= len && len <= most && len % 2 == 0
}

// Reads the frame of a line to the front of a room, and gives how many bytes it has. A line of another length, or one
// for a larger room, leaves the room as it is; one with another character does not.
pub fn read(line: &[u8], least: usize, most: usize, room: &mut [u8]) -> Option<usize>
    ensures { framed result room.new ≡ frame_spec least most line.now room.old }
{
    let len = line.len() / 2;
    if has_length(line.len(), least, most) && len <= room.len() && hex::decode(line, room) {
        return Some(len);
    }
    None
}
