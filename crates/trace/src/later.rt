// Later lines: each is a clock and a datagram, which is taken in.
ghost use Rattle.std.specs.Prelude.{◌≡◌, ◌≤◌, length};
ghost use Rattle.channel.proofs.Promise.{world_in, Kept};
ghost use Rattle.trace.specs.Session.{replay_of, answer_of, opened, next_id, frame_taken, later_line};
ghost use Rattle.trace.specs.Steps.{spoken};

use crate::limits::{BAD_LINE, DIGITS_MAX, DIGITS_MIN, FRAME_MAX};
use crate::session::{Answered, Reply, Session, Stage};
use channel::rooms::Rooms;
use channel::taking;
use script::frames;
use wire::bytes;

// Whether a datagram that was taken opened a channel: it went to channel 0.
fn opened(datagram: &[u8]) -> bool
    ensures { result ≡ opened 0 datagram.now }
{
    4 <= datagram.len() && bytes::load32(datagram, 0) == 0
}

// The ID for the next channel, behind a datagram that was taken: one more after each channel that was opened.
fn next_id(id: u32, datagram: &[u8]) -> u32
    ensures { result ≡ next_id id 0 datagram.now }
{
    if opened(datagram) {
        id.wrapping_add(1)
    } else {
        id
    }
}

// Takes in the frame of a line: a clock, then a datagram.
fn take(session: Session, rooms: &mut Rooms<'_>, frame: &[u8]) -> Answered
    requires { 8 ≤ length frame.now }
    ensures kept { Kept rooms.old rooms.new }
    ensures answered { answer_of
        (replay_of (world_in rooms.new) result.session.id result.session.stage)
        (spoken result.answer rooms.new.reply.now)
        ≡ frame_taken (replay_of (world_in rooms.old) session.id session.stage) frame.now }
{
    let clock = bytes::load64(frame, 0);
    let id = session.id;
    let datagram = &frame[8..];
    let (next, number, len) = match taking::take(rooms, clock, id, datagram) {
        Ok(len) => (next_id(id, datagram), 0, len),
        Err(refusal) => (id, refusal.number() as u8, 0),
    };
    Answered {
        session: Session {
            id: next,
            stage: Stage::Later,
        },
        answer: Some(Reply { number, len }),
    }
}

// Takes in the datagram of a line.
pub(crate) fn later_line(session: Session, rooms: &mut Rooms<'_>, line: &[u8]) -> Answered
    ensures kept { Kept rooms.old rooms.new }
    ensures answered { answer_of
        (replay_of (world_in rooms.new) result.session.id result.session.stage)
        (spoken result.answer rooms.new.reply.now)
        ≡ later_line (replay_of (world_in rooms.old) session.id session.stage) line.now }
{
    let mut frame = [0u8; FRAME_MAX];
    match frames::read(line, DIGITS_MIN, DIGITS_MAX, &mut frame) {
        Some(len) => take(session, rooms, &frame[..len]),
        None => Answered {
            session,
            answer: Some(Reply {
                number: BAD_LINE,
                len: 0,
            }),
        },
    }
}
