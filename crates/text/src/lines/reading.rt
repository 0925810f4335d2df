ghost use Rattle.std.specs.Prelude.{◌≡◌, length};
ghost use Rattle.std.specs.List.{position, before_first, after_first};
ghost use Rattle.text.specs.Lines.{is_newline, lines_of};
ghost use Rattle.text.specs.Reading.{left, Reads};
ghost use Rattle.std.specs.Iterator.{at_most};

use crate::lines::{Line, Lines};

// Where the first newline stands.
fn newline(bytes: &[u8]) -> Option<usize>
    ensures { result ≡ position is_newline bytes.now }
{
    bytes.iter().position(|b| *b == b'\n')
}

// The first line, and what follows its newline. (Both by the one length: from a `match` on `newline` LLVM makes a loop that
// counts twice, an instruction more for each byte.)
fn cut_line(bytes: &[u8]) -> (&[u8], &[u8])
    ensures text { result.0.now ≡ before_first is_newline bytes.now }
    ensures rest { result.1.now ≡ after_first is_newline bytes.now }
{
    let length = newline(bytes).unwrap_or(bytes.len());
    (&bytes[..length], bytes.get(length + 1..).unwrap_or(&[]))
}

impl<'a> Lines<'a> {
    // The lines of an input.
    pub fn new(input: &'a [u8]) -> Lines<'a>
        ensures lines { left result ≡ lines_of input.now }
        ensures count { result.count ≡ 0 }
    {
        Lines {
            rest: input,
            count: 0,
        }
    }
}

impl<'a> Iterator for Lines<'a> {
    type Item = Line<'a>;

    ghost next_gives = { Reads };

    ghost remaining = { λ s. at_most (length s.rest.now) };

    // The next line, if one is left. A newline at the end of the input ends the last line, and no line follows it.
    #[tactic(auto, using(crate::proofs::Cutting::first_line))]
    fn next(&mut self) -> Option<Line<'a>> {
        if self.rest.is_empty() {
            return None;
        }
        let (text, rest) = cut_line(self.rest);
        self.rest = rest;
        self.count += 1;
        Some(Line {
            text,
            number: self.count,
        })
    }
}
