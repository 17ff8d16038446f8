// The smallest area.
#![tactic(auto)]

ghost use Rattle.std.specs.Prelude.{◌≡◌, ◌*◌, ◌≤◌, ◌<◌};
ghost use Rattle.terms.specs.Numbers.{most_limit};
ghost use Rattle.terms.specs.Answer.{answer_of};
ghost use Rattle.terms.specs.Pieces.{stack_in, columns};
ghost use Rattle.folding.specs.Best.{area_of};
ghost use Rattle.model.specs.Area.{smaller_of, next_limit};
ghost use Rattle.layout.proofs.Groups.{Stacked};
ghost use Rattle.best.specs.Asks.{Foldable, Unfolded};
ghost use Rattle.fold.specs.Calls.{Searched};
ghost use Rattle.fold_area.specs.Calls.{by_area, SmallestOf};
ghost use Rattle.fold_area.specs.Inner.{Lead, SmallestFor};

use best::{Flat, Search, product};
use folding::Outline;
use layout::Entry;
use plan::LISTED;
use stack::Stack;
use terms::{Kind, Piece, Refusal, Rows, Slices};

// A stack is planned first for a part of its height, one in twice as many and lower, where that is over the tallest component.
const LOW: u32 = 8;

fn area(o: Outline) -> u64
    ensures { result ≡ area_of o }
{
    product(o.width.0, o.height.0)
}

// The one of smaller area; of equals the narrower.
fn smaller(a: Outline, b: Outline) -> Outline
    ensures { result ≡ smaller_of a b }
{
    if (area(a), a.width) <= (area(b), b.width) {
        a
    } else {
        b
    }
}

// No folding that is at least `least` slices wide and higher than this is smaller than the outline. Beside one no wider than
// that it would need a smaller area, and no area is under that of the components' cells.
fn next_limit(o: Outline, least: Slices, cells: u64) -> Rows
    requires { (0 < least.0) × (area_of o ≤ least.0 * most_limit) }
    ensures { result.0 ≡ next_limit o least.0 cells }
{
    let most = area(o);
    if least.0 < o.width.0 {
        return Rows((most / u64::from(least.0)) as u32);
    }
    if most <= cells {
        return Rows(0);
    }
    Rows(((most - 1) / u64::from(least.0)) as u32)
}

// A small area to begin with, that of the stack without a fold or of a low and wide folding. Each plan is for half the height
// of the one before, down to the tallest component or to where no folding is so low. Where the stack without a fold is all
// cells, nothing is smaller and none is made.
fn first_lead(search: &mut Search, flat: Flat) -> Outline
    requires stacked { Stacked search.old.components }
    requires unfolded { Unfolded search.old.components flat }
    ensures same { search.new ≡ search.old }
    ensures lead { Lead search.old.kind search.old.components result }
{
    let mut lead = Outline {
        width: flat.widest,
        height: flat.height,
    };
    let mut limit = Rows(next_limit(lead, lead.width, flat.cells).0 / LOW);
    while flat.tallest < limit {
        limit = flat.tallest.max(Rows(limit.0 / 2));
        let Some(o) = search.outline(limit) else {
            return lead;
        };
        lead = smaller(o, lead);
    }
    lead
}

// The height of the outline of smallest area. No folding is narrower than the widest component, and behind each outline found
// all are wider, so one smaller than the best so far is low: the limits above that are left out, and none is below the tallest
// component.
fn pass(search: &mut Search, flat: Flat, first: Outline) -> Rows
    requires stacked { Stacked search.old.components }
    requires unfolded { Unfolded search.old.components flat }
    requires lead { Lead search.old.kind search.old.components first }
    ensures same { search.new ≡ search.old }
    ensures smallest { SmallestFor search.old.kind search.old.components result.0 }
{
    let mut lead = first;
    let mut limit = next_limit(lead, flat.widest, flat.cells);
    while flat.tallest <= limit {
        let Some(o) = search.outline(limit) else {
            return lead.height;
        };
        lead = smaller(o, lead);
        limit = next_limit(lead, Slices(o.width.0 + 1), flat.cells);
    }
    lead.height
}

// The folding of smallest area is the best one within its own height.
fn write_smallest(
    kind: Kind,
    stack: &[Piece],
    out: &mut [u32],
    work: &mut [u32],
) -> Result<Outline, Refusal>
    requires { columns stack.now (Foldable kind most_limit) out.old work.old }
    ensures { Searched (by_area kind)
        (stack_in stack.now)
        out.old out.new (answer_of result) }
{
    let flat = best::flat_of(stack);
    let mut plan = [Entry::EMPTY; LISTED];
    let mut search = Search::new(kind, stack, &mut plan, work);
    let first = first_lead(&mut search, flat);
    let height = pass(&mut search, flat, first);
    search.write(height, out)
}

pub fn smallest_area(
    file: &[u8],
    kind: Kind,
    out: &mut [u32],
    work: &mut [u32],
) -> Result<Outline, Refusal>
    ensures { SmallestOf kind file.now
        out.old work.old (answer_of result) out.new work.new }
{
    let mut stack = Stack::new();
    stack.refill(file, kind)?;
    let pieces = stack.pieces();
    fold::check_room(pieces.len(), out.len(), work.len())?;
    write_smallest(kind, pieces, out, work)
}
