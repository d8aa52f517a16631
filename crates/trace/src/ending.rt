// The end of the input: the line that has begun, and what stands at the end of the output.
ghost use Rattle.std.specs.Prelude.{◌≡◌};
ghost use Rattle.channel.proofs.Promise.{world_in, Kept};
ghost use Rattle.script.proofs.Promise.{filled, filled_in, SameRoom, appended};
ghost use Rattle.trace.specs.Session.{replay_of, end_at};
ghost use Rattle.trace.specs.Stream.{stream_of, input_done, finished};

use crate::limits::BAD_FIRST;
use crate::session::{Session, Stage};
use crate::stream;
use channel::asking;
use channel::rooms::Rooms;
use script::buffer::Buffer;

// Answers the line that has begun, if one has.
fn end_input(
    session: Session,
    rooms: &mut Rooms<'_>,
    line: &[u8],
    len: usize,
    out: &mut Buffer<'_>,
) -> Session
    ensures kept { Kept rooms.old rooms.new }
    ensures same { SameRoom out.old out.new }
    ensures done { stream_of
        (replay_of (world_in rooms.new) result.id result.stage)
        (filled line.now 0) 0 (filled_in out.new)
        ≡ input_done (stream_of
        (replay_of (world_in rooms.old) session.id session.stage)
        (filled line.now len) 0 (filled_in out.old)) }
{
    if len == 0 {
        return session;
    }
    stream::end_line(session, rooms, line, len, out)
}

// Adds what stands at the end of the output. Where asking is refused, nothing is held.
fn put_end(out: &mut Buffer<'_>, stage: Stage, rooms: &Rooms<'_>)
    ensures same { SameRoom out.old out.new }
    ensures appended { filled_in out.new
        ≡ appended out.old.room.now out.old.used (end_at stage (world_in rooms.now)) }
{
    match stage {
        Stage::First => out.answer_line(BAD_FIRST, &[]),
        Stage::Later => match asking::ask(rooms.state, rooms.map) {
            Ok(held) => out.closing_line(held.whole, held.count),
            Err(_) => out.closing_line(false, 0),
        },
        Stage::Over => {}
    }
}

// Where the input ends: answers the line that has begun, and adds what stands at the end, from the front of an output
// room on. It only reads the line: the clause has the same room with nothing in use.
// (a) `finish`: the line stays bytes and a count, since whoever lends it shared has no Buffer: its room is `&mut`.
pub fn finish(
    session: Session,
    rooms: &mut Rooms<'_>,
    line: &[u8],
    len: usize,
    out: &mut Buffer<'_>,
) -> Session
    ensures kept { Kept rooms.old rooms.new }
    ensures same { SameRoom out.old out.new }
    ensures finished { stream_of
        (replay_of (world_in rooms.new) result.id result.stage)
        (filled line.now 0) 0 (filled_in out.new)
        ≡ finished
        (replay_of (world_in rooms.old) session.id session.stage)
        (filled line.now len) out.old.room.now }
{
    out.used = 0;
    let after = end_input(session, rooms, line, len, out);
    put_end(out, after.stage, rooms);
    after
}
