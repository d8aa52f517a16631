// A lent room of which bytes at the front are in use.
ghost use Rattle.std.specs.Prelude.{◌≡◌};
ghost use Rattle.script.specs.Lines.{front, kept};
ghost use Rattle.script.specs.Buffers.{filled_in, SameRoom};

// A room, and how many of its bytes are in use.
#[derive(Drop)]
pub struct Buffer<'a> {
    pub room: &'a mut [u8],
    pub used: usize,
}

impl<'a> Buffer<'a> {
    // The bytes in use.
    pub fn front(&self) -> &[u8]
        ensures { result.now ≡ front (filled_in self.now) }
    {
        &self.room[..self.used.min(self.room.len())]
    }

    // Adds a part of a line, as far as the room goes.
    pub fn keep(&mut self, part: &[u8])
        ensures same { SameRoom self.old self.new }
        ensures kept { filled_in self.new ≡ kept self.old.room.now self.old.used part.now }
    {
        // A call needs nothing, and a buffer may say that more is in use than its room has.
        if self.room.len() <= self.used {
            return;
        }
        let n = part.len().min(self.room.len() - self.used);
        let end = self.used + n;
        self.room[self.used..end].copy_from_slice(&part[..n]);
        self.used = end;
    }
}
