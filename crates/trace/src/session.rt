// A store under replay, line after line: line one is its order, each later one a datagram.
ghost use Rattle.std.specs.Prelude.{◌≡◌};
ghost use Rattle.channel.proofs.Promise.{world_in, Kept};
ghost use Rattle.trace.specs.declared.session.Stage.TheVariants.{First};
ghost use Rattle.trace.specs.Session.{replay_of, answer_of, line_answer};
ghost use Rattle.trace.specs.Steps.{spoken};

use crate::{first, later};
use channel::rooms::Rooms;

#[derive(Clone, Copy)]
pub enum Stage {
    // Line one is to come.
    First,
    // The store is started.
    Later,
    // Line one was bad: nothing more is answered.
    Over,
}

// The ID for the next channel, and which line is to come. It is a value of its own, which each line gives anew: in one
// struct with the rooms two numbers would need a loan of all.
#[derive(Clone, Copy)]
pub struct Session {
    pub id: u32,
    pub stage: Stage,
}

// What is written for a line: a number, and so many bytes of the reply room, which is lent apart.
#[derive(Clone, Copy)]
pub struct Reply {
    pub number: u8,
    pub len: usize,
}

// What a line gives: the session after it, and what is written, if anything is.
#[derive(Clone, Copy)]
pub struct Answered {
    pub session: Session,
    pub answer: Option<Reply>,
}

// Before line one.
pub fn fresh() -> Session
    ensures { (result.id ≡ 1) × (result.stage ≡ First) }
{
    Session {
        id: 1,
        stage: Stage::First,
    }
}

// Answers a line.
pub(crate) fn answer(session: Session, rooms: &mut Rooms<'_>, line: &[u8]) -> Answered
    ensures kept { Kept rooms.old rooms.new }
    ensures answered { answer_of
        (replay_of (world_in rooms.new) result.session.id result.session.stage)
        (spoken result.answer rooms.new.reply.now)
        ≡ line_answer (replay_of (world_in rooms.old) session.id session.stage) line.now }
{
    match session.stage {
        Stage::First => first::first_line(session, rooms, line),
        Stage::Later => later::later_line(session, rooms, line),
        Stage::Over => Answered {
            session,
            answer: None,
        },
    }
}
