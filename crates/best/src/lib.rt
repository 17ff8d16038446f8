// A stack without a fold, and a search for the best layouts of a stack: for the calls that write a folding or list outlines.
#![tactic(auto)]

ghost use Rattle.std.specs.Prelude.{◌≡◌, ◌*◌, ◌≤◌, ◌<◌, length};
ghost use Rattle.numbers.specs.Table.{cells};
ghost use Rattle.terms.specs.Numbers.{most_limit};
ghost use Rattle.terms.specs.declared.Kind.TheVariants.{Apart};
ghost use Rattle.terms.specs.Answer.{answer_of};
ghost use Rattle.terms.specs.Pieces.{columns, stack_in};
ghost use Rattle.layout.specs.Plan.{StackLists};
ghost use Rattle.plan.specs.Asks.{met_at};
ghost use Rattle.best.specs.Asks.{Written, CellsOf, Unfolded, Room};

use folding::Outline;
use layout::Entry;
use std::marker::Model;
use terms::{Kind, Piece, Refusal, Rows, Slices};

// The cells of some components, each one's width times its height, and the height of the tallest component.
#[derive(Clone, Copy, Debug, PartialEq, Eq)]
struct Cells {
    count: u64,
    tallest: Rows,
}

// A stack without a fold: its widest and its tallest component, its height, and the cells of all its components.
#[derive(Clone, Copy, Debug, PartialEq, Eq)]
pub struct Flat {
    pub widest: Slices,
    pub tallest: Rows,
    pub height: Rows,
    pub cells: u64,
}

// Two numbers of 32 bits multiplied, which may take twice as many.
pub fn product(a: u32, b: u32) -> u64
    ensures { result ≡ a * b }
{
    u64::from(a) * u64::from(b)
}

fn cells_of(stack: &[Piece]) -> Cells
    requires { columns stack.now (StackLists Apart) }
    ensures { CellsOf (stack_in stack.now) result }
{
    let mut count = 0;
    let mut tallest = 0;
    for p in stack {
        let high = u32::from(p.height);
        let wide = u32::from(p.width);
        count += product(wide, high);
        tallest = tallest.max(high);
    }
    Cells {
        count,
        tallest: Rows(tallest),
    }
}

pub fn flat_of(stack: &[Piece]) -> Flat
    requires { columns stack.now (StackLists Apart) × (0 < length stack.now) }
    ensures { Unfolded (stack_in stack.now) result }
{
    let sizes = plan::sizes_of(stack);
    let height = sizes.flat_height(Rows(0), stack);
    let cells = cells_of(stack);
    Flat {
        widest: sizes.widest,
        tallest: cells.tallest,
        height,
        cells: cells.count,
    }
}

// A search for foldings of a stack. It keeps the plan that it made last: the entries, the limit that they are for, which is 0
// before the first, and what the work buffer remembers of groups. A clause sees the kind, the components and the room. The
// entries are lent like the work buffer: a search that owned them would be copied once when it is made.
#[derive(Drop)]
pub struct Search<'a> {
    kind: Kind,
    stack: &'a [Piece],
    known: Rows,
    plan: &'a mut [Entry],
    work: &'a mut [u32],
}

impl<'a> Model for Search<'a> {
    ghost use Rattle.best.specs.Task.{Task};

    ghost Value = { Task };

    ghost use Rattle.best.specs.Search.{task_of, Planning};

    ghost view = { task_of };

    ghost invariant = { Planning };
}

impl<'a> Search<'a> {
    pub fn new(
        kind: Kind,
        stack: &'a [Piece],
        plan: &'a mut [Entry],
        work: &'a mut [u32],
    ) -> Search<'a>
        requires room { columns stack.now (Room kind) work.old }
        requires long { length stack.now < length plan.old }
        ensures { result ≡ record { kind = kind; components = stack_in stack.now; room = length work.old } }
    {
        Search {
            kind,
            stack,
            known: Rows(0),
            plan,
            work,
        }
    }

    // The outline of the best layout for a height. What the last plan holds that keeps it is not searched again.
    pub fn outline(&mut self, limit: Rows) -> Option<Outline>
        requires { limit.0 ≤ most_limit }
        ensures same { self.new ≡ self.old }
        ensures outlined { result ≡ met_at self.old.kind limit.0 self.old.components }
    {
        let found = plan::replan(
            self.kind, self.known, limit, self.stack, self.plan, self.work,
        );
        self.known = limit;
        found
    }

    // Writes a folding with the outline of the best layout for a height, if there is one. The trace writes over what the work
    // buffer remembers, so it ends the search.
    pub fn write(self, limit: Rows, out: &mut [u32]) -> Result<Outline, Refusal>
        requires limit { limit.0 ≤ most_limit }
        requires room { (cells ≤ self.room) × (3 * length self.components ≤ length out.old) }
        ensures { Written self.entry.kind self.entry.components limit.0
            out.old out.new (answer_of result) }
    {
        let Search { plan, work, .. } = self;
        let found = plan::replan(self.kind, self.known, limit, self.stack, plan, work);
        let o = found.ok_or(Refusal::Unmeetable)?;
        trace::trace(self.kind, 0, Rows(0), self.stack, plan, out, work);
        Ok(o)
    }
}
