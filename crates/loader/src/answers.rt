// What the result of a call is in numbers.
ghost use Rattle.std.specs.Prelude.{◌≡◌};
ghost use Rattle.base.specs.Out.{answer_of, node_of, len_of, node_number};

use base::Refusal;

// Its number: 0 where the call was done.
pub(crate) fn number<T: Copy>(given: Result<T, Refusal>) -> u32
    ensures { result ≡ answer_of given }
{
    match given {
        Ok(_) => 0,
        Err(refusal) => refusal.number(),
    }
}

// The node that it names.
pub(crate) fn node<T: Copy>(given: Result<T, Refusal>) -> u64
    ensures { result ≡ node_number (node_of given) }
{
    match given {
        Ok(_) => base::NO_NODE,
        Err(refusal) => base::node_number(refusal.node()),
    }
}

// The length of a reply.
pub(crate) fn length(given: Result<usize, Refusal>) -> usize
    ensures { result ≡ len_of given }
{
    given.unwrap_or(0)
}
