// The least width of one group for a height. Its least height under a cap is searched from the folds outwards, in one table
// for all folds.
#![tactic(auto)]

ghost use Rattle.std.specs.Prelude.{◌≡◌, ◌+◌, ◌≤◌, length};
ghost use Rattle.std.specs.Result.{result_ok};
ghost use Rattle.terms.specs.Pieces.{heights_in, seams_in, columns, sizes};
ghost use Rattle.group_table.specs.Inner.{Low};
ghost use Rattle.group_height.specs.Heights.{flat_rows};
ghost use Rattle.group_search.specs.Inner.{Bordered, OfferAsks, Offered};
ghost use Rattle.group_search.specs.Inner.{SettleAsks, Settled, TurnAsks, Moved, RowAsks, RowMoved, RowsAsk, RowsMoved};
ghost use Rattle.group_search.specs.Inner.{ClearRowAsks, RowCleared, ClearAsks, Cleared};
ghost use Rattle.group_search.specs.Inner.{SearchAsks, Outcome, FirstCap};
ghost use Rattle.group_search.specs.Widths.{Narrow, Over, LowAsks, bound_in};

use folding::Outline;
use group::NONE;
use group_height::{flat_rows, fold_rows};
use group_table::{Standing, Stop, walk};
use numbers::{STRIDE, cell, gap, height, width};
use terms::{Piece, Rows, Slices};

// What is asked of a group: the gap before it, whether it stands last, its height without a fold, the limit for its height, and
// its widest component.
#[derive(Clone, Copy, Debug, PartialEq, Eq)]
pub struct Sought {
    pub before: Rows,
    pub last: bool,
    pub flat: Rows,
    pub limit: Rows,
    pub widest: Slices,
}

// A height, and the caps for which it is the same: from `fit` to below `clash`.
#[derive(Clone, Copy, Debug, PartialEq, Eq)]
struct Run {
    height: Rows,
    fit: Slices,
    clash: Slices,
}

// A row for (x, y). Where a side is used up the rest stands on top of each other. The two ways there stay apart: as one they
// make the search slower.
fn offer(stack: &[Piece], e: &mut [u32], x: usize, y: usize, row: u32, end: Rows) -> Rows
    requires { OfferAsks (heights_in stack.now) e.old x y row }
    ensures { Offered (heights_in stack.now) e.old e.new x y row end.0 result.0 }
{
    if x == 0 {
        return Rows(end.0.min(row + e[y]));
    }
    let at = x * STRIDE + y;
    if y == stack.len() {
        return Rows(end.0.min(row + e[at]));
    }
    e[at] = row.min(e[at]);
    end
}

// The end of a walk: one side is used up, or of two components that clash one goes first.
fn settle(stack: &[Piece], e: &mut [u32], t: Stop, s: Run) -> Run
    requires { sizes stack.now SettleAsks e.old t }
    ensures { sizes stack.now Settled e.old e.new t s result }
{
    let Standing {
        left: x,
        right: y,
        left_row,
        right_row,
    } = t.at;
    let fit = t.fit;
    let end = s.height;
    if x == 0 {
        return Run {
            height: offer(stack, e, x, y, right_row, end),
            fit,
            ..s
        };
    }
    if y == stack.len() {
        return Run {
            height: offer(stack, e, x, y, left_row, end),
            fit,
            ..s
        };
    }
    let one = offer(stack, e, x - 1, y, left_row + height(stack, x - 1), end);
    Run {
        height: offer(stack, e, x, y + 1, right_row + height(stack, y), one),
        fit,
        clash: Slices(s.clash.0.min(width(stack, x - 1) + width(stack, y))),
    }
}

// The turn of the entry (p, q). It is left out if even the taller side alone does not get under the height found.
fn turn(stack: &[Piece], e: &mut [u32], p: usize, q: usize, cap: Slices, s: Run) -> Run
    requires { sizes stack.now TurnAsks e.old cap.0 s p q }
    ensures { sizes stack.now Moved e.old e.new cap.0 s result p q p (q + 1) }
{
    let row = cell(e, p, q);
    let rest = cell(e, p, stack.len()).max(e[q]);
    let end = row + rest;
    if s.height.0 <= end {
        return s;
    }
    let t = walk(stack, p, q, row, cap, s.fit);
    settle(stack, e, t, s)
}

// The turns of row p.
fn over_row(stack: &[Piece], e: &mut [u32], p: usize, cap: Slices, s: Run) -> Run
    requires { sizes stack.now RowAsks e.old cap.0 s p }
    ensures { sizes stack.now RowMoved e.old e.new cap.0 s result p }
{
    let mut best = s;
    for q in p..stack.len() {
        best = turn(stack, e, p, q, cap, best);
    }
    best
}

// All turns.
fn over_rows(stack: &[Piece], e: &mut [u32], cap: Slices, s: Run) -> Run
    requires { sizes stack.now RowsAsk e.old cap.0 s }
    ensures { sizes stack.now RowsMoved e.old e.new cap.0 s result }
{
    let mut best = s;
    for p in (1..stack.len()).rev() {
        best = over_row(stack, e, p, cap, best);
    }
    best
}

// Row p of the table at the start: v for the fold, and no row for the others.
fn clear_row(e: &mut [u32], p: usize, m: usize, v: u32)
    requires { ClearRowAsks m e.old p }
    ensures { RowCleared m e.old e.new p v }
{
    let at = p * STRIDE;
    e[at + p] = v;
    e[at + p + 1..at + m].fill(NONE);
}

// The table at the start; `outer` is the larger of the gaps before and behind the group. A fold that is barred starts far.
fn clear(stack: &[Piece], e: &mut [u32], outer: u32)
    requires { ClearAsks (seams_in stack.now) e.old outer }
    ensures { Cleared (seams_in stack.now) e.old e.new outer (length (seams_in stack.now)) }
{
    let m = stack.len();
    for p in 1..m {
        let v = fold_rows(stack, p, outer);
        clear_row(e, p, m, v);
    }
}

// The rows of each side alone, which are the same for every cap.
#[tactic(auto, using(crate::proofs::Searching::side_asks, terms::proofs::Pieces::heights_length))]
fn borders(stack: &[Piece], e: &mut [u32])
    requires { Low (heights_in stack.now) e.old }
    ensures { Bordered (heights_in stack.now) e.new }
{
    group_table::fill_top(stack, e);
    group_table::fill_side(stack, e);
}

// The least height at a width from `low` to the cap, if the cap leads to one within the limit; else a width below which every
// cap is too narrow.
fn search(
    sought: Sought,
    stack: &[Piece],
    e: &mut [u32],
    low: Slices,
    cap: Slices,
) -> Result<Outline, Slices>
    requires { columns stack.now (SearchAsks sought.before.0 sought.flat.0) e.old sought.limit.0 low.0 cap.0 }
    ensures outcome { columns stack.now (Outcome sought.last sought.before.0) sought.limit.0 low.0 cap.0 result }
    ensures bordered { Bordered (heights_in stack.now) e.new }
{
    let outer = sought.before.0.max(gap(stack, stack.len() - 1));
    clear(stack, e, outer);
    let start = Run {
        height: Rows(sought.limit.0 + 1).min(flat_rows(sought.last, sought.flat)),
        fit: low,
        clash: Slices(NONE),
    };
    let Run { height, fit, clash } = over_rows(stack, e, cap, start);
    if sought.limit < height {
        return Err(clash);
    }
    Ok(Outline { width: fit, height })
}

// The cap to start with: a group that keeps the limit without a fold, and may stand so, keeps it at every cap.
fn first_cap(sought: Sought, low: Slices, cap: Slices) -> Slices
    requires { low.0 ≤ cap.0 }
    ensures { FirstCap (flat_rows sought.last sought.flat.0) sought.limit.0 low.0 cap.0 result.0 }
{
    if flat_rows(sought.last, sought.flat) <= sought.limit {
        low
    } else {
        cap
    }
}

// The least width from `low` to the cap at which the group is within the limit, by halving, where it is known that no cap
// below `low` will do; or else a width below which no cap will do. Of the caps only `low` and sums of two widths can be the
// least. The content of the table's buffer is free afterwards.
pub fn narrowest(
    sought: Sought,
    stack: &[Piece],
    e: &mut [u32],
    low: Slices,
    cap: Slices,
) -> Result<Outline, Slices>
    requires { columns stack.now (LowAsks sought.last sought.before.0 sought.flat.0) e.old
        sought.limit.0 sought.widest.0 low.0 cap.0 }
    ensures narrow { columns stack.now (Narrow sought.last sought.before.0) sought.limit.0 cap.0 (result_ok result) }
    ensures over { columns stack.now (Over sought.last sought.before.0) sought.limit.0 sought.widest.0 (bound_in result) }
{
    let top = first_cap(sought, low, cap);
    borders(stack, e);
    let mut found = search(sought, stack, e, low, top)?;
    let mut lo = low;
    'halving: while lo < found.width {
        let mid = Slices(lo.0.midpoint(found.width.0));
        match search(sought, stack, e, lo, mid) {
            Ok(narrower) => found = narrower,
            Err(clash) => lo = clash.min(found.width),
        }
    }
    Ok(found)
}
