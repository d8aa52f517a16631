// Lines in the blocks that input comes in.
ghost use Rattle.std.specs.Prelude.{◌≡◌};
ghost use Rattle.script.specs.Lines.{before_feed};

use memchr::memchr;

// How many characters stand before the first line feed, all where there is none.
pub fn before_feed(block: &[u8]) -> usize
    ensures { result ≡ before_feed block.now }
{
    memchr(b'\n', block).unwrap_or(block.len())
}
