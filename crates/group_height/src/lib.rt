// Whether a group stands last, and so may have no fold; and where the fold of one is that is as low as it can be under a cap.
#![tactic(auto)]

ghost use Rattle.std.specs.Prelude.{◌≡◌, ◌+◌, ◌≤◌, ◌<◌, eqb, length};
ghost use Rattle.terms.specs.Numbers.{most_size};
ghost use Rattle.terms.specs.Pieces.{seams_in, stack_in, columns, sizes};
ghost use Rattle.terms.specs.declared.Kind.TheVariants.{Nested};
ghost use Rattle.group.specs.Group.{none, may_stand, FoldPoint, SomeWay};
ghost use Rattle.group.specs.Table.{Filled};
ghost use Rattle.group_height.specs.Heights.{flat_rows, fold_rows, HeightAsks};
ghost use Rattle.group_height.specs.Inner.{PointAsks, height_by};

use group::NONE;
use group_table::Table;
use numbers::{barred, cell, gap};
use std::iter::once;
use terms::{Piece, Rows};

// Whether the group of the first k components of what is left of a stack stands last.
pub fn stands_last(stack: &[Piece], k: usize) -> bool
    ensures { result ≡ eqb k (length stack.now) }
{
    k == stack.len()
}

// The height of a nested group without a fold, where the group may stand so, which only the last one may: else NONE, which is
// over every limit.
pub fn flat_rows(last: bool, flat: Rows) -> Rows
    ensures { result.0 ≡ flat_rows last flat.0 }
{
    if last { flat } else { Rows(NONE) }
}

// What a fold behind the first p components adds to the rows of its sides, where `outer` is the larger of the gaps before and
// behind the group: NONE where it is barred, which is over every limit.
pub fn fold_rows(stack: &[Piece], p: usize, outer: u32) -> u32
    requires { (0 < p) × (p ≤ length stack.now) × (outer ≤ most_size) }
    ensures { (result ≡ fold_rows outer (seams_in stack.now) p) × (result ≤ none) }
{
    if barred(stack, p - 1) {
        return NONE;
    }
    outer + gap(stack, p - 1)
}

// The height of a group by its table, with the fold behind the first p components, or without one where they are all of them.
fn height_at(g0: Rows, last: bool, table: Table, p: usize) -> u32
    requires { PointAsks g0.0 (seams_in table.stack.now) table.cells.now × (0 < p) × (p ≤ length table.stack.now) }
    ensures { result ≡ height_by g0.0 last (seams_in table.entry.stack.now) table.entry.cells.now p }
{
    let before = g0.0;
    let m = table.stack.len();
    let behind = gap(table.stack, m - 1);
    if p == m {
        return flat_rows(last, Rows(table.cells[0] + before + behind)).0;
    }
    let outer = before.max(behind);
    cell(table.cells, p, p) + fold_rows(table.stack, p, outer)
}

// The number of components on the left of a group that is as low as it can be under the cap of its table, where it may stand
// in some way.
pub fn fold_point(g0: Rows, last: bool, table: Table) -> usize
    requires asks { columns table.stack.now (HeightAsks g0.0) table.cells.now }
    requires filled { sizes table.stack.now Filled table.cells.now table.cap.0 }
    requires way { SomeWay (may_stand Nested last) (stack_in table.stack.now) }
    ensures { FoldPoint Nested last g0.0 (stack_in table.entry.stack.now) table.entry.cap.0 result }
{
    // Of equals the first is kept, so that the last group has a fold only where it is lower with one; any other has one.
    let m = table.stack.len();
    once(m)
        .chain(1..m)
        .min_by_key(|&p| height_at(g0, last, table, p))
        .unwrap_or(m)
}
