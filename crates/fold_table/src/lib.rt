// The outline table.
#![tactic(auto)]

ghost use Rattle.std.specs.Prelude.{◌≡◌, ◌*◌, ◌≤◌, ◌<◌, ◌++◌, length, take, drop};
ghost use Rattle.terms.specs.Answer.{answer_of};
ghost use Rattle.terms.specs.Pieces.{stack_in, columns};
ghost use Rattle.plan.specs.Asks.{Plannable};
ghost use Rattle.best.specs.Asks.{Room};
ghost use Rattle.fold_table.specs.Calls.{Tabled, TableOf};
ghost use Rattle.fold_table.specs.Inner.{PairKept, Gathered};

use best::Search;
use folding::Outline;
use layout::Entry;
use plan::LISTED;
use stack::Stack;
use terms::{Kind, MOST_LIMIT, Piece, Refusal, Rows};

// Pair n of a buffer is this outline, where there is room for it.
fn keep_pair(pairs: &mut [u32], n: usize, o: Outline)
    ensures { PairKept n o pairs.old pairs.new }
{
    if n < pairs.len() / 2 {
        pairs[2 * n..2 * n + 2].copy_from_slice(&[o.width.0, o.height.0]);
    }
}

// How many outlines are unbeaten: each is the best one below the height of the one before, so widths rise and heights fall.
// As many as there is room for are left in `pairs`.
fn gather(
    kind: Kind,
    stack: &[Piece],
    plan: &mut [Entry],
    work: &mut [u32],
    pairs: &mut [u32],
) -> usize
    requires room { columns stack.now (Room kind) work.old }
    requires long { length stack.now < length plan.old }
    ensures { Gathered kind (stack_in stack.now) pairs.old pairs.new result }
{
    let mut search = Search::new(kind, stack, plan, work);
    let mut limit = Rows(MOST_LIMIT);
    let mut n = 0;
    while 0 < limit.0 {
        let Some(o) = search.outline(limit) else {
            return n;
        };
        keep_pair(pairs, n, o);
        limit = Rows(o.height.0 - 1);
        n += 1;
    }
    n
}

// The first numbers of one list in front of those of another. One by one: the library's own copy calls a function that an archive
// for C would need from outside.
fn copy(numbers: &[u32], count: usize, out: &mut [u32])
    requires { (count ≤ length numbers.now) × (count ≤ length out.old) }
    ensures { out.new ≡ take count numbers.now ++ drop count out.old }
{
    for i in 0..count {
        out[i] = numbers[i];
    }
}

// Nothing is written before the count is known, so that a buffer that is too short is left as it was. The outlines wait in
// the work buffer, behind what planning takes of it. Only where they are too many to wait are they searched again.
fn list_outlines(
    kind: Kind,
    stack: &[Piece],
    out: &mut [u32],
    work: &mut [u32],
) -> Result<usize, Refusal>
    requires { columns stack.now (Plannable kind) work.old }
    ensures { Tabled kind (stack_in stack.now)
        out.old out.new (answer_of result) }
{
    let mut plan = [Entry::EMPTY; LISTED];
    let (front, waiting) = work.split_at_mut(plan::room(kind));
    let n = gather(kind, stack, &mut plan, front, waiting);
    if out.len() / 2 < n {
        return Err(Refusal::ShortBuffer);
    }
    if 2 * n <= waiting.len() {
        copy(waiting, 2 * n, out);
    } else {
        gather(kind, stack, &mut plan, front, out);
    }
    Ok(n)
}

pub fn table(file: &[u8], kind: Kind, out: &mut [u32], work: &mut [u32]) -> Result<usize, Refusal>
    ensures { TableOf kind file.now
        out.old work.old (answer_of result) out.new work.new }
{
    let mut stack = Stack::new();
    stack.refill(file, kind)?;
    fold::check_work(work.len())?;
    list_outlines(kind, stack.pieces(), out, work)
}
