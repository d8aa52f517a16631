// A store's state as lent words: the layout's version, the root's eight, the length, the method of addressing, and four
// for each of the 16 rows. A word past the room is read as 0 and not written.
// The words have no type of their own: (d) a caller is lent them to write, and would wrap them anew for each read.
ghost use Rattle.std.specs.Prelude.{◌≡◌, ◌<◌, ◌≤◌, get_or, set, length};
ghost use Rattle.std.proofs.lemmas.List.Edits.{sets};
ghost use Rattle.format.specs.Format.{format_of};
ghost use Rattle.table.specs.Rows.{row_count, in_table, lowest_free, row_of, open_row_of, row_at};
ghost use Rattle.table.specs.Words.{state_words, rows_place, row_place, phase_of, row_in, rows_in, has_order, order_in};
ghost use Rattle.table.specs.Words.{phase_word, row_cells, put_row, order_words, fresh_words};

use crate::rows::{Phase, ROWS, Row};
use format::Format;
use hash::value::HashValue;
use order::Order;

// The layout's version, its number of words, where the method stands and the rows begin, and the words of a row.
pub const LAYOUT_VERSION: u32 = 2;

pub const STATE_WORDS: usize = 75;

const METHOD_PLACE: usize = 10;

const ROWS_PLACE: usize = 11;

const ROW_WORDS: usize = 4;

// ---- a word

// The word at a place; 0 past the room, as `get_or` says.
fn word(words: &[u32], at: usize) -> u32
    ensures { result ≡ get_or words.now at 0 }
{
    words.get(at).copied().unwrap_or(0)
}

// By index, and not by `get_mut`: (c) after that a proof knows the length of the words and none of them.
fn put_word(words: &mut [u32], at: usize, x: u32)
    ensures { words.new ≡ set words.old at x }
{
    if at < words.len() {
        words[at] = x;
    }
}

// ---- the order

// Whether the words have an order: they are of this version, and their method is one that a paper gives.
fn has_order(words: &[u32]) -> bool
    ensures { result ≡ has_order words.now }
{
    word(words, 0) == LAYOUT_VERSION && format::is_method(word(words, METHOD_PLACE))
}

// The order; in words without one, zeros and the method of ranges, as its definition says of any words.
pub fn order_in(words: &[u32]) -> Order
    ensures { result ≡ order_in words.now }
{
    if !has_order(words) {
        return Order {
            root: HashValue { words: [0; 8] },
            length: 0,
            method: format::RANGES,
        };
    }
    Order {
        root: HashValue {
            words: std::array::from_fn(|k| word(words, 1 + k)),
        },
        length: word(words, 9),
        method: word(words, METHOD_PLACE),
    }
}

// The order's length.
pub fn length_in(words: &[u32]) -> u32
    ensures { result ≡ (order_in words.now).length }
{
    order_in(words).length
}

// The order's root.
pub fn root_in(words: &[u32]) -> HashValue
    ensures { result ≡ (order_in words.now).root }
{
    order_in(words).root
}

// What the order settles of a datagram's form.
pub fn format_in(words: &[u32]) -> Format
    ensures { result ≡ format_of (order_in words.now).method }
{
    format::of_method(order_in(words).method)
}

// ---- rows are read

impl From<u32> for Phase {
    ghost from_gives = { λ x phase. phase ≡ phase_of x };

    fn from(x: u32) -> Phase {
        match x {
            1 => Phase::Calling,
            2 => Phase::Open,
            _ => Phase::Free,
        }
    }
}

// Row i.
fn row_in(words: &[u32], i: usize) -> Row
    requires { i < row_count }
    ensures { result ≡ row_in words.now (row_place i) }
{
    let at = ROWS_PLACE + ROW_WORDS * i;
    Row {
        phase: Phase::from(word(words, at)),
        id: word(words, at + 1),
        peer: word(words, at + 2),
        choked: word(words, at + 3) == 1,
    }
}

// The row at a place; a free one past the table, as its definition says.
pub fn row_at(words: &[u32], i: usize) -> Row
    ensures { result ≡ row_at (rows_in words.now) i }
{
    if i < ROWS {
        row_in(words, i)
    } else {
        Row::FREE
    }
}

// The lowest row that is free.
pub fn lowest_free(words: &[u32]) -> Option<usize>
    ensures { result ≡ in_table (lowest_free (rows_in words.now)) }
{
    (0..ROWS).find(|&i| row_at(words, i).phase.is_free())
}

// The lowest row in use under an ID.
pub fn row_of(words: &[u32], id: u32) -> Option<usize>
    ensures { result ≡ in_table (row_of (rows_in words.now) id) }
{
    (0..ROWS).find(|&i| {
        let row = row_at(words, i);
        !row.phase.is_free() && row.id == id
    })
}

// The lowest row open under an ID.
pub fn open_row_of(words: &[u32], id: u32) -> Option<usize>
    ensures { result ≡ in_table (open_row_of (rows_in words.now) id) }
{
    (0..ROWS).find(|&i| {
        let row = row_at(words, i);
        row.phase.is_open() && row.id == id
    })
}

// ---- a row is put

impl From<Phase> for u32 {
    ghost from_gives = { λ phase x. x ≡ phase_word phase };

    fn from(phase: Phase) -> u32 {
        match phase {
            Phase::Free => 0,
            Phase::Calling => 1,
            Phase::Open => 2,
        }
    }
}

// Writes the words of row i.
fn store_row(words: &mut [u32], i: usize, row: Row)
    requires { i < row_count }
    ensures { words.new ≡ sets words.old (row_place i) (row_cells row) }
{
    let at = ROWS_PLACE + ROW_WORDS * i;
    put_word(words, at, u32::from(row.phase));
    put_word(words, at + 1, row.id);
    put_word(words, at + 2, row.peer);
    put_word(words, at + 3, u32::from(row.choked));
}

// Puts a row at a place. Where it is that row already nothing is written, nor is anything past the table.
pub fn put_row(words: &mut [u32], i: usize, row: Row)
    ensures { words.new ≡ put_row words.old i row }
{
    if i < ROWS && row != row_in(words, i) {
        store_row(words, i, row);
    }
}

// ---- an order is put

// Writes the version, the root's words, the length and the method.
fn put_order(words: &mut [u32], order: Order)
    requires { rows_place ≤ length words.old }
    ensures { words.new ≡ sets words.old 0 (order_words order) }
{
    words[0] = LAYOUT_VERSION;
    words[1..9].copy_from_slice(&order.root.words);
    words[9] = order.length;
    words[METHOD_PLACE] = order.method;
}

// Puts a new order; every row is then free.
pub fn put_fresh(words: &mut [u32], order: Order)
    requires { state_words ≤ length words.old }
    ensures { words.new ≡ fresh_words words.old order }
{
    put_order(words, order);
    bits::clear_words(words, ROWS_PLACE, STATE_WORDS);
}
