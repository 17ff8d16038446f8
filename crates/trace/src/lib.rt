// Traces back the best layout of a stack: its first group, then that of the rest.
#![tactic(auto)]

ghost use Rattle.std.specs.Prelude.{◌≡◌, ◌-◌, ◌*◌, ◌≤◌, ◌<◌, length, get_or, take};
ghost use Rattle.terms.specs.Pieces.{heights_in, stack_in, columns, sizes};
ghost use Rattle.terms.specs.declared.Kind.TheVariants.{Nested};
ghost use Rattle.group.specs.Table.{Filled};
ghost use Rattle.layout.specs.Plan.{plan_widths, plan_ends};
ghost use Rattle.trace.specs.Trace.{GroupAsks, FoldFound, GroupPut, TraceAsks, Traced};

use group_height::{fold_point, stands_last};
use group_table::Table;
use layout::Entry;
use numbers::gap;
use terms::{Kind, Piece, Rows, Slices};

// Behind how many components the group has its fold: behind all of them where it has none.
fn fold_at(kind: Kind, g0: Rows, last: bool, table: Table) -> usize
    requires group { columns table.stack.now (GroupAsks kind last g0.0) table.cells.now }
    requires filled { kind ≡ Nested → sizes table.stack.now Filled table.cells.now table.cap.0 }
    ensures { columns table.entry.stack.now (FoldFound kind last g0.0 table.entry.cap.0) table.entry.cells.now result }
{
    match kind {
        Kind::Apart => table.stack.len(),
        Kind::Nested => fold_point(g0, last, table),
    }
}

// Places one group, the last or not.
fn put_group(
    kind: Kind,
    group: u32,
    g0: Rows,
    last: bool,
    cap: Slices,
    stack: &[Piece],
    out: &mut [u32],
    work: &mut [u32],
)
    requires { columns stack.now (GroupAsks kind last g0.0) work.old × (3 * length (heights_in stack.now) ≤ length out.old) }
    ensures { columns stack.now (GroupPut kind last group g0.0 cap.0) out.old out.new }
{
    // Apart no group has a fold, and one may have more components than a table takes.
    if kind == Kind::Nested {
        group_table::fill(stack, work, cap);
    }
    let table = Table {
        stack,
        cells: work,
        cap,
    };
    let left = fold_at(kind, g0, last, table);
    group_trace::write_group(table, out, group, left);
}

// The components of the first group.
fn first_group<'a>(stack: &'a [Piece], plan: &[Entry]) -> &'a [Piece]
    requires { (0 < length (plan_ends plan.now)) × (0 < get_or (plan_ends plan.now) 0 0) × (get_or (plan_ends plan.now) 0 0 ≤ length stack.now) }
    ensures value { result.now ≡ take (get_or (plan_ends plan.now) 0 0) stack.now }
    ensures count { (length result.now ≡ get_or (plan_ends plan.now) 0 0) × (0 < length result.now) × (length result.now ≤ length stack.now) }
{
    &stack[..plan[0].end as usize]
}

// What the first k components may take of the width.
fn cap_of(plan: &[Entry], k: usize) -> Slices
    requires { (0 < length (plan_widths plan.now)) × (k < length (plan_widths plan.now))
        × (get_or (plan_widths plan.now) k 0 ≤ get_or (plan_widths plan.now) 0 0) }
    ensures { result.0 ≡ get_or (plan_widths plan.now) 0 0 - get_or (plan_widths plan.now) k 0 }
{
    Slices(plan[0].width.0 - plan[k].width.0)
}

// The first group, and behind it the groups of the rest, in what is left of the placements. The content
// of the work buffer is free afterwards.
pub fn trace(
    kind: Kind,
    group: u32,
    g0: Rows,
    stack: &[Piece],
    plan: &[Entry],
    out: &mut [u32],
    work: &mut [u32],
)
    requires { columns stack.now (TraceAsks kind group g0.0) (plan_widths plan.now) (plan_ends plan.now) out.old work.old }
    ensures { Traced kind group g0.0 (stack_in stack.now) (plan_widths plan.now) (plan_ends plan.now) out.old out.new }
{
    if stack.is_empty() {
        return;
    }
    let first = first_group(stack, plan);
    let k = first.len();
    let last = stands_last(stack, k);
    put_group(kind, group, g0, last, cap_of(plan, k), first, out, work);
    let from = 3 * k;
    trace(
        kind,
        group + 1,
        Rows(gap(stack, k - 1)),
        &stack[k..],
        &plan[k..],
        &mut out[from..],
        work,
    );
}
