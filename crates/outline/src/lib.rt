// The outline of a legal folding.
#![tactic(auto)]

ghost use Rattle.std.specs.Prelude.{◌≡◌, IfSome, ℕ, ◌+◌, ◌-◌, ◌≤◌, ◌<◌, length};
ghost use Rattle.std.specs.List.{prefix_len};
ghost use Rattle.terms.specs.Pieces.{heights_in, seams_in, columns};
ghost use Rattle.terms.specs.Seams.{gap_at};
ghost use Rattle.folding.specs.Legal.{most_start};
ghost use Rattle.folding.specs.Outline.{groups_of, greatest};
ghost use Rattle.folding.specs.StartRows.{AllAtStart};
ghost use Rattle.folding.specs.Placement.{placements_in};
ghost use Rattle.folding.specs.Asks.{placed_in, start_at, end_at, outline_in, Legalised};
ghost use Rattle.outline.specs.Inner.{OneEach, share_at, sum_at_start, most_width, is_left, Lefts, GroupFlat, Chains};
ghost use Rattle.outline.specs.Inner.{NextStart, GroupWide, WidthIs, HeightIs, GroupIn, GroupOutlined};

use folding::{Outline, Placement};
use numbers::{gap, height, width};
use terms::{Piece, Rows, Slices};

// A group of a stack, with a placement for each of its components.
#[derive(Clone, Copy)]
struct Group<'a> {
    stack: &'a [Piece],
    placements: &'a [[u32; 3]],
    ghost one_each: { length placements.now ≡ length stack.now },
}

impl<'a> Group<'a> {
    ghost use Rattle.outline.specs.Columns.{with_columns, with_sizes, with_heights};

    fn start(&self, i: usize) -> Rows
        requires { i < length self.now.stack.now }
        ensures { result.0 ≡ start_at (placements_in self.now.placements.now) i }
    {
        Rows(Placement::at(self.placements, i).start)
    }

    fn end(&self, i: usize) -> Rows
        requires inside { i < length self.now.stack.now }
        requires low { start_at (placements_in self.now.placements.now) i ≤ most_start }
        ensures result_value { result.0 ≡ with_heights self.now end_at i }
        ensures result_bound { result.0 ≤ most_start + 65535 }
    {
        Rows(self.start(i).0 + height(self.stack, i))
    }

    // T: one more than the highest row of the group. On the left the first component is the highest, on the right the last.
    fn top(&self) -> Rows
        requires { with_heights self.now GroupFlat × ((k : ℕ) × with_heights self.now Chains k) }
        ensures result_value { result.0
            ≡ greatest (with_heights self.now end_at) (length (heights_in self.now.stack.now)) }
        ensures result_bound { result.0 ≤ most_start + 65535 }
    {
        let first = self.end(0);
        let last = self.end(self.stack.len() - 1);
        first.max(last)
    }

    // What component i adds to the sum of a row.
    fn share(&self, row: Rows, i: usize) -> Slices
        requires { i < length self.now.stack.now }
        ensures result_value { result.0 ≡ with_sizes self.now share_at row.0 i }
        ensures result_bound { result.0 ≤ 65535 }
    {
        let start = self.start(i).0;
        if start <= row.0 && row.0 - start < height(self.stack, i) {
            Slices(width(self.stack, i))
        } else {
            Slices(0)
        }
    }

    // How many components are on the left before the first on the right.
    fn lefts(&self) -> usize
        ensures { result ≡ prefix_len is_left self.now.placements.now }
    {
        self.placements
            .iter()
            .take_while(|p| Placement::from(**p).side == 0)
            .count()
    }

    // The sum of the row where component i starts. On its own side it is alone there. On the other side only the last that
    // started, `other`, can reach so high, if one has started there.
    fn start_sum(&self, i: usize, other: Option<usize>) -> Slices
        requires bounds { (i < length self.now.stack.now) × IfSome other (λ o. o < length self.now.stack.now) }
        ensures result_value { result.0 ≡ with_sizes self.now sum_at_start i other }
        ensures result_le_most_width { result.0 ≤ most_width }
    {
        let own = width(self.stack, i);
        let row = self.start(i);
        match other {
            Some(o) => Slices(own + self.share(row, o).0),
            None => Slices(own),
        }
    }

    // Whether the next component to start is on the left, where those from `low` up to `high` have started.
    fn left_next(&self, low: usize, high: usize) -> bool
        requires { (low ≤ high) × (high ≤ length self.now.stack.now) × (high - low < length self.now.stack.now) }
        ensures { NextStart (placements_in self.now.placements.now) (length self.now.stack.now) low high result }
    {
        low != 0 && (high == self.stack.len() || self.start(low - 1) <= self.start(high))
    }

    // The greatest row sum where k components are on the left. It occurs at a row where a component starts. One such row is
    // summed for each, lowest first: back along the left side and on along the right one, as two sorted lists are merged.
    fn width(&self, k: usize) -> Slices
        requires { with_sizes self.now GroupWide × with_heights self.now Chains k }
        ensures width_is { with_sizes self.now WidthIs result.0 }
        ensures result_le_most_width { result.0 ≤ most_width }
    {
        let mut low = k;
        let mut high = k;
        let mut widest = Slices(0);
        // The turns have a name, since the invariant speaks of them.
        for _turn in 0..self.stack.len() {
            if self.left_next(low, high) {
                let other = (k < high).then_some(high - 1);
                low -= 1;
                let left = self.start_sum(low, other);
                widest = widest.max(left);
            } else {
                let other = (low < k).then_some(low);
                let right = self.start_sum(high, other);
                widest = widest.max(right);
                high += 1;
            }
        }
        widest
    }

    // The gap at the group's end.
    fn gap_behind(&self) -> Rows
        requires { 0 < length self.now.stack.now }
        ensures value { result.0 ≡ gap_at (seams_in self.now.stack.now) (length self.now.stack.now - 1) }
        ensures upper_bound { result.0 ≤ 65535 }
    {
        Rows(gap(self.stack, self.stack.len() - 1))
    }

    // The height behind the gap `before`, where k components are on the left.
    fn height(&self, k: usize, before: Rows) -> Rows
        requires group_flat { with_heights self.now GroupFlat }
        requires lefts { Lefts (placements_in self.now.placements.now) (length (heights_in self.now.stack.now)) k }
        requires before_bound { before.0 ≤ 65535 }
        ensures { HeightIs before.0 (heights_in self.now.stack.now) (seams_in self.now.stack.now) (placements_in self.now.placements.now) result.0 }
    {
        let n = self.stack.len();
        let t = self.top().0;
        let g0 = before.0;
        let g1 = self.gap_behind().0;
        if k < n {
            Rows(t + g0.max(g1) + gap(self.stack, k - 1))
        } else {
            Rows(t + g0 + g1)
        }
    }

    // The width and the height, with the gap before the group.
    fn outline(&self, before: Rows) -> Outline
        requires { with_columns self.now GroupIn × (before.0 ≤ 65535) }
        ensures { with_columns self.now (GroupOutlined before.0) result }
    {
        let k = self.lefts();
        Outline {
            width: self.width(k),
            height: self.height(k, before),
        }
    }
}

// The outline of a legal folding, group after group.
fn of_each(stack: &[Piece], placements: &[[u32; 3]]) -> Outline
    requires { columns stack.now OneEach (placements_in placements.now) }
    ensures { result
        ≡ outline_in (columns stack.now placed_in (placements_in placements.now)) }
{
    let mut total: u32 = 0;
    let mut highest = Rows(0);
    let mut before = Rows(0);
    let mut rest = stack;
    for run in placements.chunk_by(|p, q| Placement::from(*p).group == Placement::from(*q).group) {
        let (pieces, behind) = rest.split_at(run.len());
        let group = Group {
            stack: pieces,
            placements: run,
        };
        let outline = group.outline(before);
        total += outline.width.0;
        highest = highest.max(outline.height);
        before = group.gap_behind();
        rest = behind;
    }
    Outline {
        width: Slices(total),
        height: highest,
    }
}

// The outline of a legal folding; each group is as wide as the sum of a row where a component starts. Placements behind those
// of the stack are not read.
pub fn outline_of(stack: &[Piece], placements: &[[u32; 3]]) -> Outline
    requires { columns stack.now Legalised (placements_in placements.now) }
    ensures value { result
        ≡ outline_in (columns stack.now placed_in (placements_in placements.now)) }
    ensures all_at_start { AllAtStart (groups_of
        (columns stack.now placed_in (placements_in placements.now))) }
{
    of_each(stack, &placements[..stack.len()])
}
