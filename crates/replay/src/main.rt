// The replay program (01, "The replay program"): reads lines of hexadecimal from standard input, and writes the answer
// to each to standard output. Its memory is the same for any input, and it allocates none. A read that fails counts as
// the end of input. A write that fails loses its bytes, and that is not told.
#![tactic(auto)]

ghost use Rattle.std.specs.Prelude.{◌≤◌, [], length};
ghost use Rattle.channel.proofs.Promise.{world_in, Kept};
ghost use Rattle.script.proofs.Promise.{filled_in, SameRoom, line_size};
ghost use Rattle.trace.proofs.Promise.{replay_of, ReplayRooms, Fed};

use channel::rooms::Rooms;
use script::buffer::Buffer;
use std::io::{Read, Write};
use table::words::STATE_WORDS;
use trace::limits::LINE_ROOM;
use trace::session::Session;
use trace::{ending, session, stream};
use wire::limits::MAX_SIZE;

// The bytes of the room for input, and of that for output.
const BLOCK_ROOM: usize = 65536;

// Writes what is in the output room. What a write that fails comes to is let go.
fn flush(output: &mut impl Write, out: &Buffer<'_>)
    requires { out.now.used ≤ length out.now.room.now }
{
    let _ = output.write_all(out.front());
}

// Answers the lines of a block; what is left is a line that has begun. As many as fit the output room are answered and
// written, until all of the block is read.
fn feed(
    output: &mut impl Write,
    session: Session,
    rooms: &mut Rooms<'_>,
    line: &mut Buffer<'_>,
    block: &[u8],
    out: &mut Buffer<'_>,
) -> Session
    requires { line_size (length rooms.old.reply.now) ≤ length out.old.room.now }
    ensures kept { Kept rooms.old rooms.new }
    ensures same { SameRoom line.old line.new × SameRoom out.old out.new }
    ensures fed { Fed
        (replay_of (world_in rooms.old) session.id session.stage)
        (filled_in line.old)
        block.now []
        (replay_of (world_in rooms.new) result.id result.stage)
        (filled_in line.new) }
{
    let mut current = session;
    let mut rest = block;
    // As many bytes as one call reads are gone each time: no index counts.
    while !rest.is_empty() {
        let p = stream::answer_lines(current, rooms, line, rest, out);
        flush(output, out);
        current = p.session;
        let read = p.read;
        rest = &rest[read..];
    }
    current
}

// Reads block after block, and ends. A proved loop has to end, and nothing says that the input does: it makes so many
// turns that no run uses them up.
fn run(
    input: &mut impl Read,
    output: &mut impl Write,
    rooms: &mut Rooms<'_>,
    line: &mut [u8],
    block: &mut [u8],
    out: &mut [u8],
)
    requires { ReplayRooms (world_in rooms.old) line.old out.old }
{
    let mut line = Buffer {
        room: line,
        used: 0,
    };
    let mut out = Buffer { room: out, used: 0 };
    let mut current = session::fresh();
    for _ in 0..u64::MAX {
        let n = input.read(block).unwrap_or(0);
        if n == 0 {
            break;
        }
        current = feed(output, current, rooms, &mut line, &block[..n], &mut out);
    }
    let len = line.used;
    ending::finish(current, rooms, line.room, len, &mut out);
    flush(output, &out);
}

// The rooms of a store for 32 chunks, and those for a line, for input and for output: they suffice. The words of the
// state are none with an order until line one starts the store.
fn main(rt: HostRuntime) {
    let mut input = rt.stdin();
    let mut output = rt.stdout();
    let mut state = [0u32; STATE_WORDS];
    let mut chunks = [0u8; 32768];
    let mut map = [0u32; 1];
    let mut hashes = [0u32; 512];
    let mut trusted = [0u32; 2];
    let mut has = [0u32; 16];
    let mut wants = [0u32; 16];
    let mut reply = [0u8; MAX_SIZE];
    let mut rooms = Rooms {
        state: &mut state,
        chunks: &mut chunks,
        map: &mut map,
        hashes: &mut hashes,
        trusted: &mut trusted,
        has: &mut has,
        wants: &mut wants,
        reply: &mut reply,
    };
    let mut line = [0u8; LINE_ROOM];
    let mut block = [0u8; BLOCK_ROOM];
    let mut out = [0u8; BLOCK_ROOM];
    run(
        &mut input,
        &mut output,
        &mut rooms,
        &mut line,
        &mut block,
        &mut out,
    );
}
