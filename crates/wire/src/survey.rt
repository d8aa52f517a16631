// What the messages of a datagram name and do, as far as they were read.
ghost use Rattle.std.specs.Prelude.{◌≡◌, ◌≤◌, length};
ghost use Rattle.wire.specs.Steps.{no_survey, naming, acting};

use crate::chunks::Chunks;
use crate::range;
use format::Format;

// The highest chunk by which one may be past the pack, 0 where none has one, and whether one of them is plain.
// 0 needs no case of its own: it is past no pack.
#[derive(Clone, Copy, Default)]
pub struct Survey {
    pub highest: u32,
    pub effective: bool,
}

impl Survey {
    // Before the first message.
    pub(crate) fn none() -> Survey
        ensures { result ≡ no_survey }
    {
        Survey::default()
    }

    // A message more that is past the pack by chunk `last`, without an effect.
    pub(crate) fn naming(self, last: u32) -> Survey
        ensures { result ≡ naming last self }
    {
        Survey {
            highest: self.highest.max(last),
            effective: self.effective,
        }
    }

    // A plain message more, of this size; `rest` begins with it.
    pub(crate) fn acting(self, format: Format, rest: &[u8], size: usize) -> Survey
        requires { size ≤ length rest.now }
        ensures { result ≡ acting format size rest.now self }
    {
        if size < range::named_size(format) {
            return Survey {
                highest: self.highest,
                effective: true,
            };
        }
        let reached = Chunks { format, rest }.reach();
        Survey {
            highest: self.highest.max(reached),
            effective: true,
        }
    }
}
