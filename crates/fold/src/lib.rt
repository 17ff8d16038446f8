// Fold to height and fold to width.
#![tactic(auto)]

ghost use Rattle.std.specs.Prelude.{◌≡◌, ◌*◌, ◌≤◌, ◌<◌};
ghost use Rattle.terms.specs.Numbers.{most_limit};
ghost use Rattle.terms.specs.Answer.{answer_of};
ghost use Rattle.terms.specs.Pieces.{columns, stack_in};
ghost use Rattle.best.specs.Asks.{Foldable, Written, most_cells};
ghost use Rattle.fold.specs.Calls.{work_check, room_checks, fold_checks, by_width, Searched, ToHeight, ToWidth};
ghost use Rattle.fold.specs.Inner.{LeastFor, LeastAsks};

use best::{Search, product};
use folding::Outline;
use layout::Entry;
use plan::LISTED;
use stack::Stack;
use terms::{Kind, LEAST_WORK, MOST_LIMIT, Piece, Refusal, Rows, Slices};

// The plans of a search that may all be guessed. Of the later ones every second halves.
const GUESSED: u32 = 4;

// A folding leaves some of its outline empty: about one part in so many of what its components take.
const SPARE: u64 = 8;

// A layout that leaves less of the width than one part in so many is most likely the last that keeps it.
const CLOSE: u64 = 64;

// Behind a layout that is too wide the guess goes up by one row in so many, lest the next be too wide by little; steeper
// behind the second in a row, and behind the third and later.
const RISE: u32 = 64;

const SECOND_RISE: u32 = 16;

const LATER_RISE: u32 = 4;

// A width that is asked for.
#[derive(Clone, Copy, Debug, PartialEq, Eq)]
struct Asked {
    width: Slices,
    ghost some: { 0 < width.0 },
}

// Refusal 8 of a call with a work buffer of this length lent.
pub fn check_work(work: usize) -> Result<(), Refusal>
    ensures { answer_of result ≡ work_check work tt }
{
    if work < LEAST_WORK {
        return Err(Refusal::ShortBuffer);
    }
    Ok(())
}

// Refusal 8 of a call that writes a folding, with buffers of these lengths lent.
pub fn check_room(n: usize, out: usize, work: usize) -> Result<(), Refusal>
    ensures { answer_of result ≡ room_checks out work n tt }
{
    if out / 3 < n {
        return Err(Refusal::ShortBuffer);
    }
    check_work(work)
}

// Refusals 7 and 8 of a fold call.
fn check_lent(n: usize, limit: u32, out: usize, work: usize) -> Result<(), Refusal>
    ensures { answer_of result ≡ fold_checks limit out work n tt }
{
    if !(1..=MOST_LIMIT).contains(&limit) {
        return Err(Refusal::BadLimit);
    }
    check_room(n, out, work)
}

// The narrowest folding within a height, and of those the lowest.
fn write_low(
    kind: Kind,
    limit: Rows,
    stack: &[Piece],
    out: &mut [u32],
    work: &mut [u32],
) -> Result<Outline, Refusal>
    requires { columns stack.now (Foldable kind limit.0) out.old work.old }
    ensures { Written kind (stack_in stack.now) limit.0
        out.old out.new (answer_of result) }
{
    let mut plan = [Entry::EMPTY; LISTED];
    Search::new(kind, stack, &mut plan, work).write(limit, out)
}

impl Asked {
    // The height to try first: the components' cells at the width, and what stays empty.
    fn first_guess(self, cells: u64) -> u64
        requires { cells ≤ most_cells }
    {
        let rows = cells / u64::from(self.width.0);
        rows + rows / SPARE
    }

    // The height at which an outline of the width has the same area.
    fn in_proportion(self, height: Rows, width: Slices) -> u64
        ensures { result ≤ height.0 * width.0 }
    {
        product(height.0, width.0) / u64::from(self.width.0)
    }

    // The height to try after a plan that keeps the width. Width times height changes little from outline to outline.
    fn lower_guess(self, o: Outline) -> u64
        requires { o.width.0 ≤ self.width.0 }
    {
        if CLOSE * u64::from(self.width.0 - o.width.0) < u64::from(self.width.0) {
            return u64::from(o.height.0);
        }
        self.in_proportion(o.height, o.width)
    }

    // The height to try after a plan, where `failed` in a row before it did not keep the width. No answer rests on it.
    fn next_guess(self, tried: Rows, found: Option<Outline>, failed: u32) -> u64
        requires { tried.0 ≤ most_limit }
    {
        match found {
            Some(o) if o.width <= self.width => self.lower_guess(o),
            Some(o) => self.in_proportion(tried, o.width) + u64::from(rise(tried, failed)),
            None => 2 * u64::from(tried.0),
        }
    }
}

// By how many rows the guess goes up behind a layout that is too wide, where `failed` plans in a row before it did not keep
// the width.
fn rise(tried: Rows, failed: u32) -> u32 {
    match failed {
        0 => tried.0 / RISE,
        1 => tried.0 / SECOND_RISE,
        _ => tried.0 / LATER_RISE,
    }
}

// The next height to plan, from lo to below hi: as guessed, or the nearest. Where guesses go astray halving ends the search
// in about twice as many plans as it needs by itself.
fn pick(lo: u32, hi: u32, guess: u64, plans: u32) -> u32
    requires { (lo < hi) × (hi ≤ most_limit) }
    ensures { (lo ≤ result) × (result < hi) }
{
    if GUESSED <= plans && plans % 2 == 0 {
        return lo.midpoint(hi);
    }
    guess.clamp(u64::from(lo), u64::from(hi - 1)) as u32
}

// The least height for which the best layout is at most so many slices wide, from one down for which it is. A layout that
// is narrow enough is so within its own height, and that may be far below the height it was planned for. One exactly as
// wide as asked is the last: below its height all are wider.
fn least_height(search: &mut Search, asked: Asked, top: Rows, first: u64) -> Rows
    requires { LeastAsks search.old asked.width.0 top.0 }
    ensures same { search.new ≡ search.old }
    ensures least_for { LeastFor search.old.kind search.old.components asked.width.0 result.0 }
{
    let most = asked.width;
    let mut lo = 1;
    let mut hi = top.0;
    let mut guess = first;
    let mut plans = 0;
    let mut failed = 0;
    while lo < hi {
        let mid = pick(lo, hi, guess, plans);
        let tried = Rows(mid);
        let found = search.outline(tried);
        guess = asked.next_guess(tried, found, failed);
        plans += 1;
        match found {
            Some(o) if o.width <= most => {
                hi = o.height.0;
                failed = 0;
                if o.width == most {
                    lo = hi;
                }
            }
            _ => {
                lo = mid + 1;
                failed += 1;
            }
        }
    }
    Rows(lo)
}

// The lowest folding within a width, and of those the narrowest. No folding is narrower than the widest component, and
// without a fold the stack is no wider, so it takes no plan to see that there is none.
fn write_slim(
    kind: Kind,
    most: Slices,
    stack: &[Piece],
    out: &mut [u32],
    work: &mut [u32],
) -> Result<Outline, Refusal>
    requires { columns stack.now (Foldable kind most.0) out.old work.old }
    ensures { Searched (by_width kind most.0)
        (stack_in stack.now)
        out.old out.new (answer_of result) }
{
    let flat = best::flat_of(stack);
    if most < flat.widest {
        return Err(Refusal::Unmeetable);
    }
    let asked = Asked { width: most };
    let mut plan = [Entry::EMPTY; LISTED];
    let mut search = Search::new(kind, stack, &mut plan, work);
    let least = least_height(
        &mut search,
        asked,
        flat.height,
        asked.first_guess(flat.cells),
    );
    search.write(least, out)
}

pub fn to_height(
    file: &[u8],
    kind: Kind,
    limit: Rows,
    out: &mut [u32],
    work: &mut [u32],
) -> Result<Outline, Refusal>
    ensures { ToHeight kind file.now limit.0
        out.old work.old (answer_of result) out.new work.new }
{
    let mut stack = Stack::new();
    stack.refill(file, kind)?;
    let pieces = stack.pieces();
    check_lent(pieces.len(), limit.0, out.len(), work.len())?;
    write_low(kind, limit, pieces, out, work)
}

pub fn to_width(
    file: &[u8],
    kind: Kind,
    limit: Slices,
    out: &mut [u32],
    work: &mut [u32],
) -> Result<Outline, Refusal>
    ensures { ToWidth kind file.now limit.0
        out.old work.old (answer_of result) out.new work.new }
{
    let mut stack = Stack::new();
    stack.refill(file, kind)?;
    let pieces = stack.pieces();
    check_lent(pieces.len(), limit.0, out.len(), work.len())?;
    write_slim(kind, limit, pieces, out, work)
}
