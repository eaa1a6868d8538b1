// The lines of a text: what stands in front of each LF, and what stands behind the last one if there is anything.
ghost use Rattle.std.specs.Prelude.{◌≡◌, drop};
ghost use Rattle.std.specs.Iterator.{YieldsFirstRef, item_count};
ghost use Rattle.manual.specs.Frames.{pieces};

use cut::before;

// All bytes but the first n.
fn skip<'a>(s: &'a [u8], n: usize) -> &'a [u8]
    ensures { result.now ≡ drop n s.now }
{
    s.get(n..).unwrap_or(&[])
}

#[derive(Debug, Clone, Copy)]
pub(crate) struct Pieces<'a> {
    left: &'a [u8],
}

impl<'a> Pieces<'a> {
    pub(crate) fn of(text: &'a [u8]) -> Pieces<'a>
        ensures { pieces result.left.now ≡ pieces text.now }
    {
        Pieces { left: text }
    }
}

impl<'a> Iterator for Pieces<'a> {
    type Item = &'a [u8];

    ghost next_gives = { YieldsFirstRef (λ s. pieces s.left.now) };

    ghost remaining = { item_count (λ s. pieces s.left.now) };

    #[tactic(auto, using(crate::proofs::Lines::first_lines))]
    fn next(&mut self) -> Option<&'a [u8]> {
        if self.left.is_empty() {
            return None;
        }
        let line = before(self.left, b'\n');
        if line.len() == self.left.len() {
            self.left = &[];
            return Some(line);
        }
        self.left = skip(self.left, line.len() + 1);
        Some(line)
    }
}
