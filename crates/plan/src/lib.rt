// The best layouts of a stack for a height, from its last component to its first.
#![tactic(auto)]

ghost use Rattle.std.specs.Prelude.{true, ◌≡◌, ◌+◌, ◌-◌, ◌*◌, ◌≤◌, ◌<◌, ◌^◌, max, length, get_or, take, drop, eqb, Bool};
ghost use Rattle.std.specs.Option.{unwrap_or};
ghost use Rattle.terms.specs.Numbers.{most_apart, most_size, most_limit};
ghost use Rattle.terms.specs.declared.Kind.TheVariants.{Apart, Nested};
ghost use Rattle.terms.specs.Pieces.{heights_in, seams_in, stack_in, columns};
ghost use Rattle.terms.specs.Seams.{gap_at};
ghost use Rattle.group.specs.Group.{none, unbarred};
ghost use Rattle.layout.specs.Layout.{choice, unmet, layouts, layout_of};
ghost use Rattle.layout.specs.Plan.{layout_in, lists, extents};
ghost use Rattle.plan.specs.Asks.{in_front, GroupAsks, tried, most_rows, FirstAsks, Under, SizesAsk, SizesOf};
ghost use Rattle.plan.specs.Asks.{FromAsks, PlanAsks, PlanDone, EntryAsks, EntryDone, gap_before, plan_room};
ghost use Rattle.plan.specs.Memory.{WordAsks, WordHolds, RowAsks, RowDone, RowGiven, Readied, row_words, Known, Memory};

use folding::Outline;
use group::NONE;
use group_height::stands_last;
use group_memory::NOTHING;
use group_search::Sought;
use layout::Entry;
use numbers::{CELLS, barred, gap};
use terms::{Kind, MOST_APART, MOST_NESTED, Piece, Rows, Slices};

// The rows of some components without empty rows between them, and the greatest of their widths.
#[derive(Clone, Copy, Debug, PartialEq, Eq)]
pub struct Sizes {
    pub tall: Rows,
    pub widest: Slices,
}

// What is asked of a first group: the kind, the limit, and the gap before the group.
#[derive(Clone, Copy, Debug, PartialEq, Eq)]
struct Asked {
    kind: Kind,
    limit: Rows,
    before: Rows,
}

// What is left of a stack behind some of its components, with the best layouts behind 1, 2, 3 and so on more of them, and what
// is asked of its first group.
#[derive(Clone, Copy)]
struct Left<'a> {
    ask: Asked,
    stack: &'a [Piece],
    later: &'a [Entry],
    ghost first: { extents later.now (columns stack.now (FirstAsks ask.kind ask.limit.0 ask.before.0)) },
}

// The groups of a stack: as many as there are pairs of a first and a last component.
const GROUPS: usize = MOST_NESTED * (MOST_NESTED + 1) / 2;

// The entries of a plan: one for what is left of a stack behind each number of its components, none and all among them.
pub const LISTED: usize = MOST_APART + 1;

// The layout with a group that ends behind `end` components in front of the rest, if it is better than the best so far.
fn improved(group: Outline, end: usize, best: Entry, rest: &Entry) -> Option<Entry>
    requires wide { group.width.0 + rest.now.width.0 < 2 ^ 32 }
    requires few { end ≤ most_apart }
    ensures { layout_in (unwrap_or result best) ≡ choice (in_front group rest.now end) (layout_in best) }
{
    let layout = Entry {
        width: Slices(group.width.0 + rest.width.0),
        height: group.height.max(rest.height),
        end: end as u32,
    };
    layout.is_better(best).then_some(layout)
}

// No group with more rows than this in its components keeps the limit.
fn most_rows(kind: Kind, limit: Rows) -> Rows
    requires { limit.0 ≤ most_limit }
    ensures result_value { result.0 ≡ most_rows kind limit.0 }
    ensures result_le_none { result.0 ≤ none }
{
    match kind {
        Kind::Apart => limit,
        Kind::Nested => Rows(2 * limit.0),
    }
}

impl Sizes {
    const EMPTY: Sizes = Sizes {
        tall: Rows(0),
        widest: Slices(0),
    };

    // With one more component.
    fn plus(self, piece: &Piece) -> Sizes
        requires { self.tall.0 ≤ none }
        ensures tall { result.tall.0 ≡ self.tall.0 + piece.now.height }
        ensures widest { result.widest.0 ≡ max self.widest.0 piece.now.width }
    {
        Sizes {
            tall: Rows(self.tall.0 + u32::from(piece.height)),
            widest: self.widest.max(Slices(u32::from(piece.width))),
        }
    }

    // The height of a group of these components without a fold, behind a gap.
    pub fn flat_height(self, before: Rows, stack: &[Piece]) -> Rows
        requires some { 0 < length stack.now }
        requires low { (self.tall.0 ≤ none) × (before.0 ≤ most_size) }
        ensures { result.0 ≡ self.tall.0 + before.0 + gap_at (seams_in stack.now) (length stack.now - 1) }
    {
        Rows(self.tall.0 + before.0 + gap(stack, stack.len() - 1))
    }
}

pub fn sizes_of(stack: &[Piece]) -> Sizes
    requires { SizesAsk (heights_in stack.now) }
    ensures { SizesOf (stack_in stack.now) result }
{
    let mut sizes = Sizes::EMPTY;
    for p in stack {
        sizes = sizes.plus(p);
    }
    sizes
}

// A group without a fold in front of the rest. Whether it is wider than the best layout is asked first, as most are; in front of
// a rest of NONE every group is. One as wide is compared as a whole: to look at the rest's height for it took longer.
fn try_flat(ask: Asked, sizes: Sizes, stack: &[Piece], best: Entry, rest: &Entry) -> Option<Entry>
    requires group_asks { columns stack.now (GroupAsks Apart ask.limit.0 ask.before.0 sizes) best rest.now }
    requires free { unbarred (stack_in stack.now) ≡ true }
    ensures { (last : Bool) → layout_in (unwrap_or result best)
        ≡ columns stack.now (tried Apart last ask.limit.0 ask.before.0) best rest.now }
{
    if best.width.0 < rest.width.0 + sizes.widest.0 {
        return None;
    }
    let height = sizes.flat_height(ask.before, stack);
    if ask.limit < height {
        return None;
    }
    let group = Outline {
        width: sizes.widest,
        height,
    };
    improved(group, stack.len(), best, rest)
}

// From this width on a layout in front of the rest is no better than the best one. As wide as that it can be better only if
// the rest is lower.
fn too_wide(best: Entry, rest: &Entry) -> Slices
    requires { best.width.0 ≤ none }
    ensures width_le_result { (best.width.0 ≤ result.0) × (result.0 ≤ best.width.0 → best.height.0 ≤ rest.now.height.0) }
    ensures result_bound { result.0 ≤ best.width.0 + 1 }
{
    if rest.height < best.height {
        return Slices(best.width.0 + 1);
    }
    best.width
}

// A group with the fold that makes it narrowest in front of the rest; the last one may have none. A group that is too wide to
// improve the best layout need not be searched; in front of a rest of NONE every group is.
fn try_folds(
    ask: Asked,
    last: bool,
    sizes: Sizes,
    stack: &[Piece],
    best: Entry,
    rest: &Entry,
    table: &mut [u32],
    word: &mut u32,
) -> Option<Entry>
    requires group_asks { columns stack.now (GroupAsks Nested ask.limit.0 ask.before.0 sizes) best rest.now }
    requires word_asks { columns stack.now (WordAsks last ask.limit.0 ask.before.0) table.old word.old }
    requires free { unbarred (stack_in stack.now) ≡ true }
    ensures result_value { layout_in (unwrap_or result best) ≡ columns stack.now (tried Nested last ask.limit.0 ask.before.0) best rest.now }
    ensures word_holds { columns stack.now (WordHolds last ask.limit.0 ask.before.0) word.new }
{
    let bound = too_wide(best, rest);
    if bound.0 <= rest.width.0 + sizes.widest.0 {
        return None;
    }
    let cap = Slices((2 * sizes.widest.0).min(bound.0 - 1 - rest.width.0));
    let sought = Sought {
        before: ask.before,
        last,
        flat: sizes.flat_height(ask.before, stack),
        limit: ask.limit,
        widest: sizes.widest,
    };
    let group = group_memory::narrowest(sought, stack, table, word, cap)?;
    improved(group, stack.len(), best, rest)
}

// The group that ends with the component at i. No group ends behind a barred component.
fn try_group(
    ask: Asked,
    sizes: Sizes,
    i: usize,
    stack: &[Piece],
    best: Entry,
    rest: &Entry,
    table: &mut [u32],
    row: &mut [u32],
) -> Option<Entry>
    requires within { i < length stack.now }
    requires group_asks { columns (take (i + 1) stack.now) (GroupAsks ask.kind ask.limit.0 ask.before.0 sizes) best rest.now }
    requires row_asks { columns stack.now (RowAsks ask.kind ask.limit.0 ask.before.0) table.old row.old }
    ensures result_value { layout_in (unwrap_or result best)
        ≡ columns (take (i + 1) stack.now) (tried ask.kind (eqb (i + 1) (length stack.now)) ask.limit.0 ask.before.0) best rest.now }
    ensures row_done { columns stack.now (RowDone ask.kind ask.limit.0 ask.before.0) row.new }
{
    if barred(stack, i) {
        return None;
    }
    let group = &stack[..i + 1];
    let last = stands_last(stack, i + 1);
    match ask.kind {
        Kind::Apart => try_flat(ask, sizes, group, best, rest),
        Kind::Nested => try_folds(ask, last, sizes, group, best, rest, table, &mut row[i]),
    }
}

impl Left<'_> {
    ghost use Rattle.plan.specs.Left.{with_columns, with_components};

    // A width that the best nested layout stays under: one more than that whose first group ends with the component at `end`,
    // if there is such a layout.
    fn bound_by(&self, end: usize, table: &mut [u32], row: &mut [u32]) -> Option<Slices>
        requires nested { self.now.ask.kind ≡ Nested }
        requires row_asks { with_columns self.now RowAsks table.old row.old }
        ensures under { with_components self.now Under result }
        ensures row_done { with_columns self.now RowDone row.new }
    {
        if self.stack.len() <= end || barred(self.stack, end) {
            return None;
        }
        let group = &self.stack[..end + 1];
        let sizes = sizes_of(group);
        let b = try_folds(
            self.ask,
            stands_last(self.stack, end + 1),
            sizes,
            group,
            Entry::UNMET,
            &self.later[end],
            table,
            &mut row[end],
        )?;
        let o = b.outline()?;
        Some(Slices(o.width.0 + 1))
    }

    // Apart no group is searched, so a bound would gain nothing. The match stands apart from `bound_by`: in it, the loop over
    // apart groups was compiled together with that over nested ones, and was a seventh slower.
    fn likely_bound(&self, end: usize, table: &mut [u32], row: &mut [u32]) -> Option<Slices>
        requires row_asks { with_columns self.now RowAsks table.old row.old }
        ensures under { with_components self.now Under result }
        ensures row_done { with_columns self.now RowDone row.new }
    {
        match self.ask.kind {
            Kind::Apart => None,
            Kind::Nested => self.bound_by(end, table, row),
        }
    }

    // The best layout of what is left of a stack, from the best ones behind 1, 2, 3 and so on of its components. Groups that
    // are too tall end the search, and layouts as wide as a bound that the best one stays under are not searched for.
    fn first_group(&self, bound: Option<Slices>, table: &mut [u32], row: &mut [u32]) -> Entry
        requires row_asks { with_columns self.now RowAsks table.old row.old }
        requires under { with_components self.now Under bound }
        ensures result_value { layout_in result ≡ with_components self.now layout_of }
        ensures row_done { with_columns self.now RowDone row.new }
    {
        let most = most_rows(self.ask.kind, self.ask.limit);
        let mut best = Entry {
            width: bound.unwrap_or(Slices(NONE)),
            ..Entry::UNMET
        };
        let mut sizes = Sizes::EMPTY;
        for i in 0..self.stack.len() {
            sizes = sizes.plus(&self.stack[i]);
            if most < sizes.tall {
                return best;
            }
            best = try_group(
                self.ask,
                sizes,
                i,
                self.stack,
                best,
                &self.later[i],
                table,
                row,
            )
            .unwrap_or(best);
        }
        best
    }
}

fn gap_before(stack: &[Piece], i: usize) -> Rows
    requires { i ≤ length stack.now }
    ensures { result.0 ≡ gap_before (seams_in stack.now) i }
{
    if i == 0 {
        return Rows(0);
    }
    Rows(gap(stack, i - 1))
}

// The best layout of what is left of a stack behind its first i components, where the plan holds the later ones. Most often a
// first group ends where that of the next component ends: the one that ends there is tried first, and what is wider is left
// out.
fn best_from(
    kind: Kind,
    limit: Rows,
    i: usize,
    stack: &[Piece],
    plan: &[Entry],
    table: &mut [u32],
    row: &mut [u32],
) -> Entry
    requires from_asks { extents plan.now (columns stack.now (FromAsks kind limit.0 i)) }
    requires row_asks { columns (drop i stack.now) (RowAsks kind limit.0 (gap_before (seams_in stack.now) i))
        table.old row.old }
    ensures result_value { layout_in result ≡ get_or (layouts kind limit.0 0 (stack_in stack.now)) i unmet }
    ensures row_done { columns (drop i stack.now) (RowDone kind limit.0 (gap_before (seams_in stack.now) i)) row.new }
{
    let ask = Asked {
        kind,
        limit,
        before: gap_before(stack, i),
    };
    let next = i + 1;
    let left = Left {
        ask,
        stack: &stack[i..],
        later: &plan[next..],
    };
    let bound = left.likely_bound(plan[next].end as usize, table, row);
    left.first_group(bound, table, row)
}

// What planning takes of a work buffer.
pub fn room(kind: Kind) -> usize
    ensures { result ≡ plan_room kind }
{
    match kind {
        Kind::Apart => 0,
        Kind::Nested => CELLS + GROUPS,
    }
}

// Whether a layout of this height, the best for the limit `known`, is so for the limit: a best layout that keeps a lower
// limit stays the best.
fn stays(known: Rows, limit: Rows, height: Rows) -> bool
    ensures { result ≡ true → (limit.0 < known.0) × (height.0 ≤ limit.0) }
{
    limit < known && height <= limit
}

// What is remembered for a higher limit serves a lower one, and no other: else the words say nothing.
fn ready(known: Rows, limit: Rows, row: &mut [u32])
    ensures { Readied known.0 limit.0 row.old row.new }
{
    if known <= limit {
        row.fill(NOTHING);
    }
}

// The best layout of what is left behind i components, in the plan. The row has the words of its first groups.
fn plan_at(
    kind: Kind,
    known: Rows,
    limit: Rows,
    i: usize,
    stack: &[Piece],
    plan: &mut [Entry],
    table: &mut [u32],
    row: &mut [u32],
)
    requires entry_asks { lists plan.old (columns stack.now (EntryAsks kind known.0 limit.0 i)) }
    requires row_given { columns (drop i stack.now) (RowGiven kind known.0 limit.0 (gap_before (seams_in stack.now) i))
        table.old row.old }
    ensures entry_done { lists plan.new (columns stack.now (EntryDone kind known.0 limit.0 i)) }
    ensures row_done { columns (drop i stack.now) (RowDone kind limit.0 (gap_before (seams_in stack.now) i)) row.new }
{
    ready(known, limit, row);
    if stays(known, limit, plan[i].height) {
        return;
    }
    plan[i] = best_from(kind, limit, i, stack, plan, table, row);
}

// The words of the first groups of what is left of a stack: one for each of its components as the last of the group.
fn row_words(kind: Kind, left: usize) -> usize
    ensures { result ≡ row_words kind left }
{
    match kind {
        Kind::Apart => 0,
        Kind::Nested => left,
    }
}

// For a height: the best layouts of a stack and of what is left of it behind 1, 2, 3 and so on components, and the outline
// of the whole, if a layout keeps the height. Where the entries are a plan for the limit `known`, the work buffer holds what
// is remembered of its groups: if that limit is higher, what of it keeps the limit is not searched again.
pub fn replan(
    kind: Kind,
    known: Rows,
    limit: Rows,
    stack: &[Piece],
    plan: &mut [Entry],
    work: &mut [u32],
) -> Option<Outline>
    requires plan_asks { lists plan.old (columns stack.now (PlanAsks kind limit.0)) work.old }
    requires known { lists plan.old (columns stack.now (Known kind known.0 limit.0)) work.old }
    ensures plan_done { lists plan.new (PlanDone kind limit.0 (stack_in stack.now)) result }
    ensures memory { columns stack.now (Memory kind limit.0) work.new }
{
    let n = stack.len();
    plan[n] = Entry::EMPTY;
    let front = CELLS.min(work.len());
    let (table, words) = work.split_at_mut(front);
    let mut at = 0;
    for i in (0..n).rev() {
        let end = at + row_words(kind, n - i);
        plan_at(
            kind,
            known,
            limit,
            i,
            stack,
            plan,
            table,
            &mut words[at..end],
        );
        at = end;
    }
    plan[0].outline()
}
