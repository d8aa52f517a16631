// The lines of the blocks that input comes in, and what is written for them.
ghost use Rattle.std.specs.Prelude.{◌≡◌, ℕ, ◌≤◌, false, length, nat_lt};
ghost use Rattle.base.specs.Pick.{pick};
ghost use Rattle.channel.proofs.Promise.{world_in, Kept};
ghost use Rattle.script.proofs.Promise.{filled, filled_in, SameRoom, fits, appended};
ghost use Rattle.trace.specs.Session.{replay_of};
ghost use Rattle.trace.specs.Steps.{spoken};
ghost use Rattle.trace.specs.Stream.{stream_of, line_done, advanced, answer_lines};

use crate::session;
use crate::session::{Reply, Session};
use channel::rooms::Rooms;
use script::buffer::Buffer;
use script::lines;

// The session, and how much of a block was read.
#[derive(Clone, Copy)]
pub struct Progress {
    pub session: Session,
    pub read: usize,
}

// ---- one line

// Adds what is written for a line.
fn put_answer(out: &mut Buffer<'_>, answer: Option<Reply>, rooms: &Rooms<'_>)
    ensures same { SameRoom out.old out.new }
    ensures appended { filled_in out.new
        ≡ appended out.old.room.now out.old.used (spoken answer rooms.now.reply.now) }
{
    if let Some(a) = answer {
        let len = a.len.min(rooms.reply.len());
        out.answer_line(a.number, &rooms.reply[..len]);
    }
}

// Answers the line that has begun. It only reads the line: the clause has the same room with nothing in use.
pub(crate) fn end_line(
    session: Session,
    rooms: &mut Rooms<'_>,
    line: &[u8],
    len: usize,
    out: &mut Buffer<'_>,
) -> Session
    ensures kept { Kept rooms.old rooms.new }
    ensures same { SameRoom out.old out.new }
    ensures done { (read : ℕ) → stream_of
        (replay_of (world_in rooms.new) result.id result.stage)
        (filled line.now 0) read (filled_in out.new)
        ≡ line_done (stream_of
        (replay_of (world_in rooms.old) session.id session.stage)
        (filled line.now len) read (filled_in out.old)) }
{
    let n = len.min(line.len());
    let answered = session::answer(session, rooms, &line[..n]);
    put_answer(out, answered.answer, rooms);
    answered.session
}

// Reads what is left of a block, up to and with its first line feed, and answers the line that ends there.
fn advance(
    session: Session,
    rooms: &mut Rooms<'_>,
    line: &mut Buffer<'_>,
    block: &[u8],
    read: usize,
    out: &mut Buffer<'_>,
) -> Progress
    requires { read ≤ length block.now }
    ensures kept { Kept rooms.old rooms.new }
    ensures same { SameRoom line.old line.new × SameRoom out.old out.new }
    ensures advanced { stream_of
        (replay_of (world_in rooms.new) result.session.id result.session.stage)
        (filled_in line.new) result.read (filled_in out.new)
        ≡ advanced block.now (stream_of
        (replay_of (world_in rooms.old) session.id session.stage)
        (filled_in line.old) read (filled_in out.old)) }
{
    let rest = &block[read..];
    let n = lines::before_feed(rest);
    line.keep(&rest[..n]);
    if n == rest.len() {
        return Progress {
            session,
            read: read + n,
        };
    }
    // Only read, as in crate channel's `take_data`.
    let room = &mut *line.room;
    let after = end_line(session, rooms, room, line.used, out);
    line.used = 0;
    Progress {
        session: after,
        read: read + n + 1,
    }
}

// ---- the lines of a block

// Whether it goes on in a block of this length: something is left of it, and the line of an answer with any reply fits
// behind what is to be written.
fn goes_on(block: usize, read: usize, out: &Buffer<'_>, reply: usize) -> bool
    ensures { result ≡ pick (nat_lt read block) (fits (length out.now.room.now) out.now.used reply) false }
{
    read < block && out.fits(reply)
}

// Answers the lines of a block from the front of an output room on, as many as fit there.
pub fn answer_lines(
    session: Session,
    rooms: &mut Rooms<'_>,
    line: &mut Buffer<'_>,
    block: &[u8],
    out: &mut Buffer<'_>,
) -> Progress
    ensures kept { Kept rooms.old rooms.new }
    ensures same { SameRoom line.old line.new × SameRoom out.old out.new }
    ensures lines { stream_of
        (replay_of (world_in rooms.new) result.session.id result.session.stage)
        (filled_in line.new) result.read (filled_in out.new)
        ≡ answer_lines
        (replay_of (world_in rooms.old) session.id session.stage)
        (filled_in line.old) block.now out.old.room.now }
{
    out.used = 0;
    let mut p = Progress { session, read: 0 };
    // It goes on by what was read of the block: no index counts.
    while goes_on(block.len(), p.read, out, rooms.reply.len()) {
        p = advance(p.session, rooms, line, block, p.read, out);
    }
    p
}
