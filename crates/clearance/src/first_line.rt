//! The first line of a strip that has an obstacle of a map's bits near.

ghost use Rattle.std.specs.Prelude.{◌≡◌, ◌<◌, ◌≤◌};
ghost use Rattle.metric.specs.declared.edge.Edge.TheVariants.{Open};
ghost use Rattle.bits.specs.Edges.{IsBlocked};
ghost use Rattle.clearance.specs.LineWords.{IsRectLeft};
ghost use Rattle.clearance.specs.Lines.{IsFirstBefore, IsRectOf};
ghost use Rattle.clearance.specs.Seekers.{IsPartOf};
ghost use Rattle.clearance.specs.Strips.{IsStripIn};

use crate::around::search;
use crate::line_word::Word;
use crate::lines::Lines;
use crate::rows::Rows;
use crate::seeker::Seeker;
use metric::{Cell, Metric, Rect};

/// Keeps the first line so far that has an obstacle near, and the rectangle of those before it. The
/// limit is 0 if no line is left.
#[derive(Clone, Copy)]
struct FirstLine {
    lines: Lines,
    rect: Rect,
    end: u16,
    start: Cell,
    limit: u64,
    ghost shape: { IsRectLeft lines end rect start limit },
}

/// Leaves the lines before an earlier end.
fn leave(found: FirstLine, end: u16) -> FirstLine
    requires from { found.lines.first ≤ end }
    requires fewer { end < found.end }
    ensures lines { result.lines ≡ found.lines }
    ensures end { result.end ≡ end }
    ensures start { result.start ≡ found.start }
    ensures rect { IsPartOf found.rect result.rect }
{
    let (lines, start) = (found.lines, found.start);
    if end <= lines.first {
        let rect = found.rect;
        return FirstLine {
            lines,
            rect,
            end,
            start,
            limit: 0,
        };
    }
    FirstLine {
        lines,
        rect: lines.strip.rect(lines.first, end - 1),
        end,
        start,
        limit: found.limit,
    }
}

impl<M: Metric> Seeker<M> for FirstLine {
    ghost use Rattle.std.specs.Prelude.{IsTrue, true};
    ghost use Rattle.clearance.specs.LineWords.{AreLinesFar, IsLineKept};

    ghost aim = { record {
      from = λ s. s.rect;
      counts = λ s rect. IsTrue true;
      begins = λ s. s.start;
      settles = λ s a b. AreLinesFar M.distance s.lines s.end a b;
      keeps = λ cells first s.
          IsLineKept M.distance cells first.lines first.end s.lines s.end;
    } };

    #[inline(always)]
    fn rect(&self) -> Rect {
        self.rect
    }

    #[inline(always)]
    fn start(&self) -> Cell {
        self.start
    }

    #[inline(always)]
    fn is_far(&self, dist: u32, _x: u16, _gap: u16) -> bool {
        u64::from(dist) >= self.limit
    }

    fn meet(&mut self, word: u64, tile: u16, y: u16, _gap: u16) {
        let found = *self;
        if found.end <= found.lines.first {
            return;
        }
        let word = Word {
            bits: word,
            tile,
            y,
        };
        let end = word.first_line::<M>(found.lines, found.end);
        if found.end <= end {
            return;
        }
        *self = leave(found, end);
    }
}

/// The first of the lines before `end` that has an obstacle of the bitmap near; `end` if none has.
/// `rect` is the rectangle of the lines.
pub fn first_in_bits<M: Metric, R: Rows>(rows: &mut R, lines: Lines, rect: Rect, end: u16) -> u16
    requires strip { IsStripIn (R.cells rows.old) lines.strip }
    requires lines { IsRectOf lines end rect }
    ensures found { IsFirstBefore M.distance (IsBlocked (R.cells rows.old) Open) lines end result }
    ensures rows { rows.new ≡ rows.old }
{
    let mut found = FirstLine {
        lines,
        rect,
        end,
        start: lines.strip.cell(lines.first),
        limit: lines.limit,
    };
    search::<M, R, FirstLine>(rows, &mut found);
    found.end
}
