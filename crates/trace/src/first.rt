// Line one: the order that the store is started under.
ghost use Rattle.std.specs.Prelude.{◌≡◌, ◌≤◌, length, Some, None};
ghost use Rattle.base.specs.Pick.{pick};
ghost use Rattle.wire.proofs.Promise.{be32};
ghost use Rattle.channel.proofs.Promise.{world_in, Kept, order_of};
ghost use Rattle.trace.specs.Limits.{bad_first, replay_method};
ghost use Rattle.trace.specs.declared.session.Stage.TheVariants.{Over};
ghost use Rattle.trace.specs.Session.{replay_of, answer_of, takes_length, is_order, line_order, first_line};
ghost use Rattle.trace.specs.Steps.{reply_of, spoken};

use crate::limits::{BAD_FIRST, LENGTH_MAX, ORDER_DIGITS, ORDER_SIZE};
use crate::session::{Answered, Reply, Session, Stage};
use channel::rooms::Rooms;
use channel::starting;
use format::RANGES;
use hash::value;
use order::Order;
use script::frames;
use wire::bytes;

// Whether a pack may have this length.
#[tactic(auto, using(std::proofs::lemmas::Bool::Decides::nat_tests), unfolding(crate::specs::Session::takes_length))]
fn takes_length(length: u32) -> bool
    ensures { result ≡ takes_length length }
{
    0 < length && length <= LENGTH_MAX
}

// The order of line one's bytes, a root and then a length, if a pack may have that length.
fn order_in(frame: &[u8]) -> Option<Order>
    requires { 36 ≤ length frame.now }
    ensures { result
        ≡ pick (takes_length (be32 frame.now 32))
        (Some (order_of frame.now (be32 frame.now 32) replay_method)) None }
{
    let length = bytes::load32(frame, 32);
    if !takes_length(length) {
        return None;
    }
    Some(Order {
        root: value::load(frame, 0),
        length,
        method: RANGES,
    })
}

// The order of line one, if it is good.
fn order_of(line: &[u8]) -> Option<Order>
    ensures { result ≡ pick (is_order line.now) (Some (line_order line.now)) None }
{
    let mut frame = [0u8; ORDER_SIZE];
    frames::read(line, ORDER_DIGITS, ORDER_DIGITS, &mut frame)?;
    order_in(&frame)
}

// What a bad line one gives: its number is written, and nothing more is answered.
fn bad_first(id: u32) -> Answered
    ensures { (result.session.id ≡ id) × (result.session.stage ≡ Over)
        × (result.answer ≡ Some (reply_of bad_first 0)) }
{
    Answered {
        session: Session {
            id,
            stage: Stage::Over,
        },
        answer: Some(Reply {
            number: BAD_FIRST,
            len: 0,
        }),
    }
}

// Starts the store.
pub(crate) fn first_line(session: Session, rooms: &mut Rooms<'_>, line: &[u8]) -> Answered
    ensures kept { Kept rooms.old rooms.new }
    ensures answered { answer_of
        (replay_of (world_in rooms.new) result.session.id result.session.stage)
        (spoken result.answer rooms.new.reply.now)
        ≡ first_line (replay_of (world_in rooms.old) session.id session.stage) line.now }
{
    let id = session.id;
    let Some(order) = order_of(line) else {
        return bad_first(id);
    };
    // Both are only read, as in crate channel's `take_data`.
    let chunks = &mut *rooms.chunks;
    let reply = &mut *rooms.reply;
    let started = starting::start(
        rooms.state,
        chunks,
        rooms.map,
        rooms.hashes,
        rooms.trusted,
        rooms.has,
        rooms.wants,
        reply,
        order,
    );
    match started {
        Ok(()) => Answered {
            session: Session {
                id,
                stage: Stage::Later,
            },
            answer: None,
        },
        Err(_) => bad_first(id),
    }
}
