// What a reader gives, such as standard input, a line at a time. The line, and what was read of the lines behind it, stand in bytes that the caller lends.
#![tactic(auto)]

ghost use Rattle.std.specs.Prelude.{◌≡◌, ◌-◌, ◌≤◌, length, take, drop, nat_le};
ghost use Rattle.std.specs.Io.KnownBytes.{Consumes};
ghost use Rattle.std.proofs.lemmas.List.Edits.{sets};
ghost use Rattle.input.specs.Lines.{longest, fresh_input, first_line, unread, line_taken};
ghost use Rattle.input.specs.Reading.{TakesAndReads, Comes, is_cut};
ghost use Rattle.input.specs.Inner.{next_line, SameLine, answer_of};

use lines::Run;
use std::io;
use std::io::Read;

// Whether more can be read: the text goes on, it has ended, or a read failed.
// Stays: three states that a reader keeps from call to call; a Result of an Option would only nest them.
#[derive(Clone, Copy)]
pub enum Source {
    Open,
    Ended,
    Failed,
}

impl Source {
    // By what a read answered.
    fn of_read(got: &io::Result<usize>) -> Source {
        match got {
            Ok(0) => Source::Ended,
            Ok(_) => Source::Open,
            Err(_) => Source::Failed,
        }
    }
}

// A line of what a reader gives, and how far the reading has come. Where the line fits, it is the first `size` of the bytes lent for it;
// of a longer one they hold the front, and its size is one more than they are.
#[derive(Clone, Copy)]
pub struct Input {
    pub source: Source,
    // What was read last are the first `held` bytes of the lent space, and the last `left` of them are not taken yet.
    pub held: usize,
    pub left: usize,
    pub size: usize,
    // Whether the line's end has come.
    pub whole: bool,
    // The line's number, from 1 on.
    pub number: u64,
}

// The reader can't be read.
#[derive(Clone, Copy)]
pub struct ReadFailed;

impl Input {
    // The longest line that a program takes.
    pub const LONGEST: usize = 512;

    // Nothing read, and no line yet.
    pub fn fresh() -> Input
        ensures { result ≡ fresh_input }
    {
        Input {
            source: Source::Open,
            held: 0,
            left: 0,
            size: 0,
            whole: false,
            number: 0,
        }
    }

    // Reads on to the end of the next line, into the bytes lent for it; the last line may have no end. `space` holds what was read ahead, so it is
    // the same at every call. None is the end of the text. Where no line comes, nothing is read from then on.
    // A proved loop has to end, so it counts to a number that no run reaches.
    pub fn next<R: Read>(
        self,
        reader: &mut R,
        line: &mut [u8],
        space: &mut [u8],
    ) -> Result<Option<Input>, ReadFailed>
        ensures { Comes self line.old space.old result line.new space.new }
    {
        let mut s = self.next_line();
        for _ in 0..u64::MAX {
            s = s.take_and_read(reader, line, space);
            if s.whole || s.left == 0 {
                return s.answer();
            }
        }
        s.answer()
    }

    // Takes what was read, and reads once more where the line goes on.
    fn take_and_read<R: Read>(self, reader: &mut R, line: &mut [u8], space: &mut [u8]) -> Input
        ensures { TakesAndReads self line.old space.old result line.new space.new }
    {
        let s = self.take(line, space);
        if s.whole {
            return s;
        }
        s.read(reader, space)
    }

    // Whether the line is not too long.
    pub fn fits(self) -> bool
        ensures { result ≡ nat_le self.size longest }
    {
        self.size <= Input::LONGEST
    }

    // Whether a read failed inside the line: what has come of it stands for nothing.
    #[tactic(auto, unfolding(crate::specs::Reading::is_cut))]
    pub fn is_cut(self) -> bool
        ensures { result ≡ is_cut self }
    {
        !self.whole && matches!(self.source, Source::Failed)
    }

    // Takes the line's next bytes from those that were read: up to the line's end, or all of them.
    pub fn take(mut self, line: &mut [u8], space: &[u8]) -> Input
        ensures { (result ≡ line_taken (length line.old) self space.now) × (line.new ≡ sets line.old self.size (first_line (unread self space.now))) }
    {
        let size = self.size;
        let piece = back(wire::front(space, self.held), self.left);
        let n = Run::Until(b'\n').length(piece);
        wire::put_all(line, size, wire::front(piece, n));
        self.left = piece.len().saturating_sub(n + 1);
        self.size = size.saturating_add(n).min(line.len() + 1);
        self.whole = n < piece.len();
        self
    }

    // At the start of the next line.
    fn next_line(mut self) -> Input
        ensures { result ≡ next_line self }
    {
        self.size = 0;
        self.whole = false;
        self.number = std::num::wrapping_add_u64(self.number, 1);
        self
    }

    // Reads once, if there may be more. Where nothing came, nothing is left to take.
    fn read<R: Read>(self, reader: &mut R, space: &mut [u8]) -> Input
        ensures { SameLine self result }
    {
        let Source::Open = self.source else {
            return self;
        };
        let got = reader.read(space);
        let source = Source::of_read(&got);
        let n = got.unwrap_or(0);
        Input {
            source,
            held: n,
            left: n,
            ..self
        }
    }

    // A line, perhaps the last one and without an end; or why there is none.
    #[tactic(auto, unfolding(crate::specs::Inner::answer_of))]
    fn answer(self) -> Result<Option<Input>, ReadFailed>
        ensures { result ≡ answer_of self }
    {
        if self.whole || 0 < self.size {
            return Ok(Some(self));
        }
        match self.source {
            Source::Open | Source::Ended => Ok(None),
            Source::Failed => Err(ReadFailed),
        }
    }
}

// The last n bytes, or all of them where there are fewer.
fn back(s: &[u8], n: usize) -> &[u8]
    ensures { result.now ≡ drop (length s.now - n) s.now }
{
    &s[s.len().saturating_sub(n)..]
}

// Reads until the lent bytes are full, the text ends or a read fails; how many bytes were put at their start.
pub fn read_full<R: Read>(reader: &mut R, space: &mut [u8]) -> usize
    ensures within { result ≤ length space.new }
    ensures bytes { Consumes (R.remaining reader.old) (R.remaining reader.new) (take result space.new) }
{
    let mut done = 0;
    // Stays: each read gives as many bytes as it likes, so no range or iterator counts them.
    while done < space.len() {
        let n = reader.read(&mut space[done..]).unwrap_or(0);
        if n == 0 {
            break;
        }
        done += n;
    }
    done
}
