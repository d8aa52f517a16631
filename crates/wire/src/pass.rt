// The size and layout checks over a whole datagram, message by message from left to right, with the survey of its messages.
ghost use Rattle.std.specs.Prelude.{◌≡◌, ◌+◌, ◌≤◌, length};
ghost use Rattle.wire.specs.Limits.{min_size, max_size};
ghost use Rattle.wire.specs.Read.{step_at};
ghost use Rattle.wire.specs.Layout.{checked_of, layout_said};
ghost use Rattle.wire.specs.Steps.{Fronted, entry_words, has_size, check_spec, survey_spec, pass_said, turn_said};
ghost use Rattle.wire.specs.Steps.{turned_of, noted, turn_at, last_on, last_at, Standing};

use crate::chunks::Chunks;
use crate::layout::Layout;
use crate::limits::{ENTRIES, MAX_SIZE, MIN_SIZE};
use crate::message::{Cursor, Message, Step};
use crate::survey::Survey;
use crate::{layout, plain, range, read};
use base::Refusal;
use format::Format;
use std::ops::ControlFlow;

// What a pass gives.
#[derive(Clone, Copy)]
pub struct Pass {
    pub layout: Layout,
    pub survey: Survey,
}

// Where a pass stands behind the plain messages at the front: the place, and the survey so far.
// It is handed on once, with the datagram that the caller has: a struct of the three would be made for that call.
#[derive(Clone, Copy)]
pub struct Front {
    pub at: usize,
    pub survey: Survey,
}

// Passes over the plain messages at the front of a datagram of sound size. No room is needed for them, and most datagrams
// have no others.
pub fn plain_front(format: Format, datagram: &[u8]) -> Front
    requires min_size_in_bounds { min_size ≤ length datagram.now }
    requires datagram_len_bound { length datagram.now ≤ max_size }
    ensures { Fronted format datagram.now result }
{
    let mut at = MIN_SIZE;
    let mut survey = Survey::none();
    // It goes on by the size of what stands there: no index counts.
    while let Some(size) = plain::size(format, datagram, at) {
        survey = survey.acting(format, &datagram[at..], size);
        at += size;
    }
    Front { at, survey }
}

// Where the pass stands: the place, how many words of the entries are written, and the survey so far. The entries
// themselves are lent beside it, since a struct with them could not be copied.
#[derive(Clone, Copy)]
pub struct Reached {
    pub at: usize,
    pub entries: usize,
    pub survey: Survey,
}

// Where the pass stands after a message, or what it gives if it is over.
type Turn = Result<ControlFlow<Pass, Reached>, Refusal>;

// Notes the node of an INTEGRITY message, unless it came before; `behind` is where the pass stands after it.
fn note(entries: &mut [u64], behind: Reached, node: u64, hash: usize) -> Turn
    requires { behind.entries + 2 ≤ length entries.old }
    ensures { turned_of (turn_said result) entries.new
        ≡ noted entries.old behind.entries behind.survey node hash behind.at }
{
    let used = behind.entries;
    if layout::seen(&entries[0..used], node) {
        return Err(Refusal::Layout);
    }
    entries[used] = node;
    entries[used + 1] = hash as u64;
    Ok(ControlFlow::Continue(Reached {
        at: behind.at,
        entries: used + 2,
        survey: behind.survey,
    }))
}

// A message from where the pass stands to `next` that is neither plain nor INTEGRITY.
fn last_message(
    datagram: &[u8],
    reached: Reached,
    next: usize,
    message: Message,
) -> Result<Pass, Refusal>
    requires { min_size ≤ length datagram.now }
    ensures { pass_said result
        ≡ last_on datagram.now reached.entries reached.at reached.survey next message }
{
    match message {
        Message::Handshake { source, options } => Ok(Pass {
            layout: layout::handshake(datagram, reached.at, next, source, options)?,
            survey: Survey::none(),
        }),
        Message::Data {
            first,
            last,
            timestamp,
            start,
            len,
        } => Ok(Pass {
            layout: Layout::MessagesAndData {
                chunk: first,
                timestamp,
                start,
                len,
                entries: reached.entries,
            },
            survey: reached.survey.naming(last),
        }),
        _ => Err(Refusal::Layout),
    }
}

// What stands where the pass does, where it is neither a plain message nor INTEGRITY.
fn last_turn(format: Format, datagram: &[u8], reached: Reached) -> Result<Pass, Refusal>
    requires { min_size ≤ length datagram.now }
    ensures { pass_said result ≡ last_at datagram.now reached.entries reached.at reached.survey
        (step_at format datagram.now reached.at) }
{
    match read::read(format, datagram, Cursor { at: reached.at }) {
        Step::Read { message, next } => last_message(datagram, reached, next.at, message),
        Step::End => Ok(Pass {
            layout: Layout::Messages {
                entries: reached.entries,
            },
            survey: reached.survey,
        }),
        Step::Refused => Err(Refusal::Layout),
    }
}

// What stands where the pass does.
fn take_turn(format: Format, datagram: &[u8], entries: &mut [u64], reached: Reached) -> Turn
    requires { Standing datagram.now (length entries.old) reached.at reached.entries }
    ensures { turned_of (turn_said result) entries.new
        ≡ turn_at format datagram.now entries.old reached.entries reached.at reached.survey
        (step_at format datagram.now reached.at) }
{
    let at = reached.at;
    if let Some(size) = plain::any_size(format, datagram, at) {
        return Ok(ControlFlow::Continue(Reached {
            at: at + size,
            entries: reached.entries,
            survey: reached.survey.acting(format, &datagram[at..], size),
        }));
    }
    if plain::is_node(format, datagram, at) {
        let named = range::named_size(format);
        let chunks = Chunks {
            format,
            rest: &datagram[at..],
        };
        let behind = Reached {
            at: at + (named + 32),
            entries: reached.entries,
            survey: reached.survey.naming(chunks.last()),
        };
        return note(entries, behind, chunks.node(), at + named);
    }
    let pass = last_turn(format, datagram, reached)?;
    Ok(ControlFlow::Break(pass))
}

// The messages behind the front.
fn pass_behind(
    format: Format,
    datagram: &[u8],
    entries: &mut [u64],
    front: Front,
) -> Result<Pass, Refusal>
    requires fronted { Fronted format datagram.now front }
    requires entry_words_in_bounds { entry_words ≤ length entries.old }
    ensures { (checked_of (pass_said result).layout entries.new
        ≡ check_spec format entries.old datagram.now)
        × ((pass_said result).survey ≡ survey_spec format datagram.now) }
{
    let mut reached = Reached {
        at: front.at,
        entries: 0,
        survey: front.survey,
    };
    // Each message has a byte at least.
    for _ in front.at..datagram.len() {
        match take_turn(format, datagram, entries, reached)? {
            ControlFlow::Continue(next) => reached = next,
            ControlFlow::Break(pass) => return Ok(pass),
        }
    }
    Ok(Pass {
        layout: Layout::Messages {
            entries: reached.entries,
        },
        survey: reached.survey,
    })
}

// Goes on behind the front. The nodes of INTEGRITY messages and the places of their hashes are written to `entries`,
// scratch of the caller, from its front, as far as the messages were read.
pub fn rest(
    format: Format,
    datagram: &[u8],
    entries: &mut [u64; ENTRIES],
    front: Front,
) -> Result<Pass, Refusal>
    requires { Fronted format datagram.now front }
    ensures { (checked_of (pass_said result).layout entries.new
        ≡ check_spec format entries.old datagram.now)
        × ((pass_said result).survey ≡ survey_spec format datagram.now) }
{
    pass_behind(format, datagram, entries, front)
}

// Whether a datagram has a sound size.
pub fn has_size(datagram: &[u8]) -> bool
    ensures { result ≡ has_size (length datagram.now) }
{
    MIN_SIZE <= datagram.len() && datagram.len() <= MAX_SIZE
}

// The checks of size and layout, for whoever has a slice for the entries.
pub fn check(format: Format, datagram: &[u8], entries: &mut [u64]) -> Result<Layout, Refusal>
    requires { entry_words ≤ length entries.old }
    ensures { checked_of (layout_said result) entries.new ≡ check_spec format entries.old datagram.now }
{
    if !has_size(datagram) {
        return Err(Refusal::DatagramSize);
    }
    let pass = pass_behind(format, datagram, entries, plain_front(format, datagram))?;
    Ok(pass.layout)
}
