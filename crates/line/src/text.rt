// The lines of a text, one after another.
ghost use Rattle.std.specs.Prelude.{◌≡◌, ◌+◌, ◌^◌, ◌<◌, ◌==◌, [], ◌∷◌, length, MatchOption, position};
ghost use Rattle.line.specs.Line.{lines};

#[derive(Drop)]
pub struct Lines<'a> {
    rest: &'a [u8],
    // How many lines were handed out.
    number: usize,
    // Each line takes a byte at least, so that the count never overflows.
    ghost counts: { number + length rest.now < 2 ^ 64 },
}

// The index of the first line feed.
fn line_feed(text: &[u8]) -> Option<usize>
    ensures { result ≡ position (λ b. b == 10) text.now }
{
    text.iter().position(|b| *b == b'\n')
}

// The first line of a text without its line feed, and what follows that.
#[tactic(auto, using(crate::proofs::Cuts::lines_cut, crate::proofs::Cuts::lines_whole, std::proofs::lemmas::Grind::common_steps))]
fn cut_line(text: &[u8]) -> (&[u8], &[u8])
    requires { 0 < length text.now }
    ensures cut { lines text.now ≡ result.0.now ∷ lines result.1.now }
    ensures shorter { length result.1.now < length text.now }
{
    match line_feed(text) {
        Some(n) => (&text[..n], &text[n + 1..]),
        None => (text, &[]),
    }
}

impl<'a> Lines<'a> {
    pub fn new(text: &'a [u8]) -> Lines<'a>
        ensures { (result.rest.now ≡ text.now) × (result.number ≡ 0) }
    {
        Lines {
            rest: text,
            number: 0,
        }
    }

    // The next line without its line feed.
    pub fn next_line(&mut self) -> Option<&'a [u8]>
        ensures cut { MatchOption result ((lines self.old.rest.now ≡ []) × (self.new.rest.now ≡ self.old.rest.now)) (λ l. lines self.old.rest.now ≡ l.now ∷ lines self.new.rest.now) }
        ensures count { MatchOption result (self.new.number ≡ self.old.number) (λ _. self.new.number ≡ self.old.number + 1) }
        ensures shorter { MatchOption result (length self.old.rest.now ≡ 0) (λ _. length self.new.rest.now < length self.old.rest.now) }
    {
        if self.rest.is_empty() {
            return None;
        }
        let (line, rest) = cut_line(self.rest);
        self.number += 1;
        self.rest = rest;
        Some(line)
    }

    // The number of the line that was handed out last, from 1.
    pub fn number(&self) -> usize
        ensures { result ≡ self.now.number }
    {
        self.number // 0 before the first line
    }
}
