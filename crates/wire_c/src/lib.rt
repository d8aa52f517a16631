// The layout checks of the crate wire for Rust, on numbers and slices alone: what the comparisons and the benchmark
// link.
//
// A HANDSHAKE's fields are its source, and of its options 1 and the place of the root for the fixed ones, 2 and 0 for
// End alone, 0 and 0 for others, and a zero; DATA's are the chunk's number, the timestamp, and the place and the number
// of the chunk's bytes.
//
// A slice that is too short for its words is answered with 11, before all else.
#![tactic(auto)]

mod words; // the words of a layout

ghost use Rattle.std.specs.Prelude.{◌≡◌};
ghost use Rattle.format.specs.Format.{format_of};
ghost use Rattle.wire_c.specs.Calls.{laid_of, layout_told};

use base::Refusal;
use wire::limits::ENTRIES;
use wire::pass;

// The number of a datagram's layout under a method of addressing; any number but that of bins counts as ranges. Unless
// it is refused, `out` gets six words: 1 for a HANDSHAKE alone, 2 for messages without DATA, 3 for messages with DATA;
// four for the fields of that HANDSHAKE or DATA, else zeros; and how many words of `entries` are written, which is 0 for
// a HANDSHAKE.
#[unsafe(no_mangle)]
pub extern "C" fn wire_layout(
    addressing: u32,
    datagram: &[u8],
    entries: &mut [u64],
    out: &mut [u64],
) -> u32
    ensures { laid_of result entries.new out.new
        ≡ layout_told (format_of addressing) datagram.now entries.old out.old }
{
    if out.len() < 6 {
        return Refusal::RoomTooSmall.number();
    }
    if entries.len() < ENTRIES {
        return Refusal::RoomTooSmall.number();
    }
    match pass::check(format::of_method(addressing), datagram, entries) {
        Ok(layout) => {
            words::put_layout(out, layout);
            0
        }
        Err(refusal) => refusal.number(),
    }
}
