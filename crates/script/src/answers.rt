// Lines that are written: to the end of what a buffer holds, or not at all where its room is too small.
ghost use Rattle.std.specs.Prelude.{◌≡◌, ◌+◌, ◌≤◌, length};
ghost use Rattle.std.proofs.lemmas.List.Edits.{sets};
ghost use Rattle.script.specs.Buffers.{filled_in, SameRoom};
ghost use Rattle.script.specs.Answers.{line_size, fits, appended, answer_line, closing_line};

use crate::buffer::Buffer;
use crate::hex;

// Fills a line with an answer: the digits of the number and of the reply, and the line feed.
fn put_line(line: &mut [u8], number: u8, reply: &[u8])
    requires { length line.old ≡ line_size (length reply.now) }
    ensures { line.new ≡ answer_line number reply.now }
{
    let end = 2 + 2 * reply.len();
    hex::encode(&[number], &mut line[..2]);
    hex::encode(reply, &mut line[2..end]);
    line[end] = b'\n';
}

impl<'a> Buffer<'a> {
    // Whether a line of a number and n bytes fits behind the bytes in use.
    #[tactic(auto, using(std::proofs::lemmas::Bool::Decides::nat_tests), unfolding(crate::specs::Answers::fits))]
    pub fn fits(&self, n: usize) -> bool
        ensures { result ≡ fits (length self.now.room.now) self.now.used n }
    {
        let left = self.room.len().saturating_sub(self.used);
        3 <= left && n <= (left - 3) / 2
    }

    // Adds an answer's line: the number and the reply.
    pub fn answer_line(&mut self, number: u8, reply: &[u8])
        ensures same { SameRoom self.old self.new }
        ensures appended { filled_in self.new
            ≡ appended self.old.room.now self.old.used (answer_line number reply.now) }
    {
        if self.fits(reply.len()) {
            let end = self.used + 3 + 2 * reply.len();
            put_line(&mut self.room[self.used..end], number, reply);
            self.used = end;
        }
    }

    // Adds the closing line: whole or not, and the held count.
    pub fn closing_line(&mut self, whole: bool, held: u32)
        ensures same { SameRoom self.old self.new }
        ensures appended { filled_in self.new
            ≡ appended self.old.room.now self.old.used (closing_line whole held) }
    {
        let [.., high, low] = held.to_be_bytes();
        self.answer_line(if whole { 0xff } else { 0xf0 }, &[high, low]);
    }
}
