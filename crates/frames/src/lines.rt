// How an input is cut into lines.
ghost use Rattle.std.specs.Prelude.{◌≡◌, ◌==◌, ◌<◌, ◌≤◌, [], ◌∷◌, length, drop, MatchOption};
ghost use Rattle.std.specs.Iterator.{YieldsFirstRef, item_count};
ghost use Rattle.std.specs.List.{position};
ghost use Rattle.std.specs.Option.{option_map};
ghost use Rattle.frames.specs.Lines.{front_line, lines};

use std::marker::Model;

pub(crate) const NEWLINE: u8 = b'\n';

// Where the first newline stands.
pub(crate) fn first_newline(input: &[u8]) -> Option<usize>
    ensures { result ≡ position (λ b. b == NEWLINE) input.now }
{
    input.iter().position(|byte| *byte == NEWLINE)
}

// The first line of an input, without its newline, and where the next begins. The place stays: its contract and the values of the test
// `cuts` hold it, and neither may go; `Lines` goes from line to line by it.
pub fn first_line(input: &[u8]) -> Option<(&[u8], usize)>
    ensures value { option_map (λ x. (x.0.now, x.1)) result ≡ front_line input.now }
    ensures steps { MatchOption result (lines input.now ≡ []) (λ x. lines input.now ≡ x.0.now ∷ lines (drop x.1 input.now)) }
    ensures forward { MatchOption result (length input.now ≡ 0) (λ x. (0 < x.1) × (x.1 ≤ length input.now)) }
{
    match first_newline(input) {
        Some(end) => Some((&input[..end], end + 1)),
        None if input.is_empty() => None,
        None => Some((input, input.len())),
    }
}

// The lines of an input that are not yet read.
#[derive(Drop)]
pub(crate) struct Lines<'a> {
    rest: &'a [u8],
}

impl<'a> Model for Lines<'a> {
    ghost use Rattle.std.specs.Prelude.{ℕ, List};
    ghost use Rattle.frames.specs.Lines.{lines};

    ghost Value = { List (List ℕ) };

    ghost view = { λ s. lines s.rest.now };
}

impl<'a> Lines<'a> {
    pub(crate) fn new(input: &'a [u8]) -> Lines<'a>
        ensures { result ≡ lines input.now }
    {
        Lines { rest: input }
    }
}

impl<'a> Iterator for Lines<'a> {
    type Item = &'a [u8];

    ghost next_gives = { YieldsFirstRef (λ rest. rest) };

    ghost remaining = { item_count (λ rest. rest) };

    fn next(&mut self) -> Option<&'a [u8]> {
        let (line, next) = first_line(self.rest)?;
        self.rest = &self.rest[next..];
        Some(line)
    }
}
