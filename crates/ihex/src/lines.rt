// The lines of a text of Intel HEX.
ghost use Rattle.std.specs.Prelude.{◌≡◌, drop};
ghost use Rattle.std.specs.Iterator.{item_count};
ghost use Rattle.ihex.specs.Hex.{lines};
ghost use Rattle.ihex.specs.HexLines.{trimmed, YieldsLine};

use cut::before;

// All bytes but the first n.
fn skip<'a>(s: &'a [u8], n: usize) -> &'a [u8]
    ensures { result.now ≡ drop n s.now }
{
    s.get(n..).unwrap_or(&[])
}

// One CR in front of an LF is no part of a line.
#[tactic(auto, using(crate::proofs::Cuts::trim_cr, crate::proofs::Cuts::trim_kept))]
fn without_cr<'a>(line: &'a [u8]) -> &'a [u8]
    ensures { result.now ≡ trimmed line.now }
{
    match line {
        [front @ .., b'\r'] => front,
        _ => line,
    }
}

/// A line, and whether it is the last one of its text.
#[derive(Debug, Clone, Copy, PartialEq, Eq)]
pub(crate) struct HexLine<'a> {
    pub bytes: &'a [u8],
    pub is_last: bool,
}

/// The lines of what is left of a text: each up to an LF or CR LF, and what stands behind the last LF if there is anything.
#[derive(Debug, Clone, Copy)]
pub(crate) struct HexLines<'a> {
    left: &'a [u8],
}

impl<'a> HexLines<'a> {
    pub(crate) fn of(text: &'a [u8]) -> HexLines<'a>
        ensures { lines result.left.now ≡ lines text.now }
    {
        HexLines { left: text }
    }
}

impl<'a> Iterator for HexLines<'a> {
    type Item = HexLine<'a>;

    ghost next_gives = { YieldsLine };

    ghost remaining = { item_count (λ s. lines s.left.now) };

    #[tactic(auto, using(crate::proofs::Places::first_lines))]
    fn next(&mut self) -> Option<HexLine<'a>> {
        if self.left.is_empty() {
            return None;
        }
        let line = before(self.left, b'\n');
        if line.len() == self.left.len() {
            self.left = &[];
            return Some(HexLine {
                bytes: line,
                is_last: true,
            });
        }
        self.left = skip(self.left, line.len() + 1);
        Some(HexLine {
            bytes: without_cr(line),
            is_last: self.left.is_empty(),
        })
    }
}
