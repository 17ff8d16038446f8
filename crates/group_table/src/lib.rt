// The table of the least rows of one group's sides, for every pair of ends.
#![tactic(auto)]

ghost use Rattle.std.specs.Prelude.{◌≡◌, ◌+◌, ◌*◌, ◌≤◌, ◌<◌, length, get_or};
ghost use Rattle.terms.specs.Pieces.{heights_in, widths_in, sizes};
ghost use Rattle.group.specs.Table.{entry, Filled};
ghost use Rattle.group_table.specs.Table.{Asks};
ghost use Rattle.group_table.specs.Walks.{WalkAsks, Walked, Stopped};
ghost use Rattle.group_table.specs.Inner.{Sharing, Ready, Ending, Ended, RowAsks, RowDone, Low, TopDone, SideDone};

use numbers::{STRIDE, cell, height, width};
use terms::{Piece, Slices};

// A group's components, and the rows of each pair of sides of it, as they are where its width may be at most the cap.
#[derive(Clone, Copy, Debug)]
pub struct Table<'a> {
    pub stack: &'a [Piece],
    pub cells: &'a [u32],
    pub cap: Slices,
}

// Where the sides stand: the components before `left` and those from `right` on are still to be placed, from these rows on.
#[derive(Clone, Copy, Debug, PartialEq, Eq)]
pub struct Standing {
    pub left: usize,
    pub right: usize,
    pub left_row: u32,
    pub right_row: u32,
}

// Where the sides stand when a walk stops. Under every cap that is at least `fit` it comes there in the same way.
#[derive(Clone, Copy, Debug, PartialEq, Eq)]
pub struct Stop {
    pub at: Standing,
    pub fit: Slices,
}

// Whether two components stand beside each other at the ends of a walk.
pub fn beside(stack: &[Piece], p: usize, q: usize, cap: Slices) -> bool
    requires { (p ≤ length stack.now) × (q ≤ length stack.now) }
    ensures { Sharing (widths_in stack.now) cap.0 p q result }
{
    0 < p && q < stack.len() && width(stack, p - 1) + width(stack, q) <= cap.0
}

// Both sides are packed from `row` on until two components clash or a side is used up. The stop's `fit` is at least the one
// given, and no more than the cap where that is not. Inlined, so that nothing is kept of what a caller does not read.
#[inline(always)]
pub fn walk(stack: &[Piece], p: usize, q: usize, row: u32, cap: Slices, fit: Slices) -> Stop
    requires { sizes stack.now WalkAsks p q row }
    ensures walked { sizes stack.now Walked p q row cap.0 fit.0 result }
    ensures stopped { sizes stack.now Stopped cap.0 result.at.left result.at.right }
{
    let mut at = Standing {
        left: p,
        right: q,
        left_row: row,
        right_row: row,
    };
    let mut fit = fit.0;
    'ends: while beside(stack, at.left, at.right, cap) {
        fit = fit.max(width(stack, at.left - 1) + width(stack, at.right));
        let left = at.left_row + height(stack, at.left - 1);
        let right = at.right_row + height(stack, at.right);
        if left <= right {
            at.left -= 1;
            at.left_row = left;
        } else {
            at.right += 1;
            at.right_row = right;
        }
    }
    Stop {
        at,
        fit: Slices(fit),
    }
}

// All rows of a group whose sides stand there: those that are taken, and what the rest adds.
fn ending(table: Table, at: Standing) -> u32
    requires { Ending (heights_in table.stack.now) table.cells.now at }
    ensures { Ended (heights_in table.entry.stack.now) table.entry.cells.now at result }
{
    let x = at.left;
    let y = at.right;
    if x == 0 {
        return at.right_row + table.cells[y];
    }
    if y == table.stack.len() {
        return at.left_row + cell(table.cells, x, y);
    }
    let left = at.left_row + height(table.stack, x - 1) + cell(table.cells, x - 1, y);
    let right = at.right_row + height(table.stack, y) + cell(table.cells, x, y + 1);
    left.min(right)
}

// The entry (p, q), from entries that are there already.
fn entry(table: Table, p: usize, q: usize) -> u32
    requires { sizes table.stack.now Ready table.cells.now table.cap.0 p q }
    ensures { result ≡ sizes table.entry.stack.now entry table.entry.cap.0 p q }
{
    let stop = walk(table.stack, p, q, 0, table.cap, Slices(0));
    ending(table, stop.at)
}

// Row p of the table, from the right end down to column p.
fn fill_row(stack: &[Piece], e: &mut [u32], p: usize, cap: Slices)
    requires { sizes stack.now RowAsks e.old cap.0 p }
    ensures { sizes stack.now RowDone e.old e.new cap.0 p p }
{
    for q in (p..stack.len()).rev() {
        let table = Table {
            stack,
            cells: e,
            cap,
        };
        e[p * STRIDE + q] = entry(table, p, q);
    }
}

// Row 0: the sums of the heights from each column on.
pub fn fill_top(stack: &[Piece], e: &mut [u32])
    requires { Low (heights_in stack.now) e.old }
    ensures { TopDone (heights_in stack.now) e.new 0 }
{
    e[stack.len()] = 0;
    for q in (0..stack.len()).rev() {
        e[q] = e[q + 1] + height(stack, q);
    }
}

// The last column: the sums of the heights below each row.
pub fn fill_side(stack: &[Piece], e: &mut [u32])
    requires { Low (heights_in stack.now) e.old × (get_or e.old (length stack.now) 0 ≡ 0) }
    ensures { SideDone (heights_in stack.now) e.old e.new (length stack.now) }
{
    let m = stack.len();
    for p in 0..m {
        e[(p + 1) * STRIDE + m] = e[p * STRIDE + m] + height(stack, p);
    }
}

#[tactic(auto, using(crate::proofs::Filling::borders, crate::proofs::Filling::corner_empty, terms::proofs::Pieces::heights_length))]
pub fn fill(stack: &[Piece], e: &mut [u32], cap: Slices)
    requires { sizes stack.now Asks e.old }
    ensures { sizes stack.now Filled e.new cap.0 }
{
    fill_top(stack, e);
    fill_side(stack, e);
    for p in 1..stack.len() {
        fill_row(stack, e, p, cap);
    }
}
