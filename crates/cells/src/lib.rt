// Standard-cell rows: cells of equal width, without gaps, in the fewest stacks for a height, or in the lowest for a number of
// stacks, and of that height the fewest.
#![tactic(auto)]

ghost use Rattle.std.specs.Prelude.{◌≡◌, ◌&&◌, ◌+◌, ◌^◌, ◌≤◌, ◌<◌, length};
ghost use Rattle.cells.specs.Numbers.{most_in_row};
ghost use Rattle.terms.specs.Answer.{answer_of};
ghost use Rattle.terms.specs.Component.{in_size};
ghost use Rattle.cells.specs.Calls.{CellsToHeight, CellsToCount, NoneAtNine};
ghost use Rattle.cells.specs.Apart.{ToHeightAsApart, ToCountAsApart};
ghost use Rattle.cells.specs.Filling.{put, none_put, stacks_in, filled, Checked, SizesOf, RowAsks, Filled, Ended, StacksWritten, LeastAsks, Between};

use terms::{Refusal, Rows};

// The most cells of a row.
pub const MOST_CELLS: usize = 60000;

// The greatest limit: no stack of cells is higher, and no row has more cells.
pub const MOST_ROW_LIMIT: u32 = 240000000;

// How many stacks there are, and the height of the highest.
#[derive(Clone, Copy, Debug, PartialEq, Eq)]
pub struct Stacks {
    pub count: u32,
    pub height: Rows,
}

// The lowest and the tallest cell of a row, and the heights of all cells added up.
#[derive(Clone, Copy, Debug, PartialEq, Eq)]
struct Sizes {
    lowest: u32,
    tallest: u32,
    sum: u32,
}

// Stacks that are filled from the front, no higher than the limit: how many are full, the least that one of these lacks up to
// the limit, and what is left of it for the stack that grows. What is left is kept, and not the height, since that takes a step
// less for each cell.
#[derive(Clone, Copy, Debug, PartialEq, Eq)]
struct Filling {
    limit: u32,
    full: u32,
    spare: u32,
    left: u32,
}

impl Filling {
    fn new(limit: Rows) -> Filling
        ensures { result ≡ none_put limit.0 }
    {
        Filling {
            limit: limit.0,
            full: 0,
            spare: limit.0,
            left: limit.0,
        }
    }

    // One cell more: it goes onto the stack that grows, or where it is higher than what is left begins the next.
    fn put(self, height: u16) -> Filling
        requires { (height ≤ self.limit) × (self.full + 1 < 2 ^ 32) }
        ensures { result ≡ put self height }
    {
        let cell = u32::from(height);
        if cell <= self.left {
            return Filling {
                left: self.left - cell,
                ..self
            };
        }
        Filling {
            limit: self.limit,
            full: self.full + 1,
            spare: self.spare.min(self.left),
            left: self.limit - cell,
        }
    }

    // The stack that grows is the last.
    fn stacks(self) -> Stacks
        requires { (self.left ≤ self.limit) × (self.full + 1 < 2 ^ 32) }
        ensures { result ≡ stacks_in self }
    {
        Stacks {
            count: self.full + 1,
            height: Rows(self.limit - self.spare.min(self.left)),
        }
    }
}

fn sizes_of(heights: &[u16]) -> Sizes
    requires { length heights.now ≤ most_in_row }
    ensures { SizesOf heights.now result }
{
    let mut sizes = Sizes {
        lowest: u32::from(u16::MAX),
        tallest: 0,
        sum: 0,
    };
    for height in heights {
        let cell = u32::from(*height);
        sizes = Sizes {
            lowest: sizes.lowest.min(cell),
            tallest: sizes.tallest.max(cell),
            sum: sizes.sum + cell,
        };
    }
    sizes
}

// Refusals 12, 5 and 7.
fn check_row(heights: &[u16], limit: u32) -> Result<Sizes, Refusal>
    ensures { Checked heights.now limit (answer_of result) }
{
    if !(1..=MOST_CELLS).contains(&heights.len()) {
        return Err(Refusal::RowSize);
    }
    let sizes = sizes_of(heights);
    if !sizes.in_range() {
        return Err(Refusal::BadComponent);
    }
    if !(1..=MOST_ROW_LIMIT).contains(&limit) {
        return Err(Refusal::BadLimit);
    }
    Ok(sizes)
}

// The stacks that the cells fill, no higher than the limit. A copy inside a caller that only counts them would branch at each
// cell, which takes up to three times as long where stacks have few.
#[inline(never)]
fn fill(heights: &[u16], limit: Rows) -> Stacks
    requires { RowAsks heights.now limit.0 }
    ensures { Filled heights.now limit.0 result }
{
    let mut filling = Filling::new(limit);
    for height in heights {
        filling = filling.put(*height);
    }
    filling.stacks()
}

// The same, and writes where they end. Each cell is the last of the stack that grows until the next is put onto it.
fn write_ends(heights: &[u16], limit: Rows, ends: &mut [u16]) -> Stacks
    requires row { RowAsks heights.now limit.0 }
    requires room { length (filled limit.0 heights.now) ≤ length ends.old }
    ensures { Ended heights.now limit.0 ends.old ends.new result }
{
    let mut filling = Filling::new(limit);
    for (at, height) in heights.iter().enumerate() {
        filling = filling.put(*height);
        ends[filling.full as usize] = (at + 1) as u16;
    }
    filling.stacks()
}

// A list with a place for each cell has one for each stack; else the stacks are counted first.
fn write_stacks(heights: &[u16], limit: Rows, ends: &mut [u16]) -> Result<Stacks, Refusal>
    requires { RowAsks heights.now limit.0 }
    ensures { StacksWritten heights.now limit.0 ends.old ends.new (answer_of result) }
{
    if ends.len() < heights.len() && ends.len() < fill(heights, limit).count as usize {
        return Err(Refusal::ShortBuffer);
    }
    Ok(write_ends(heights, limit, ends))
}

impl Sizes {
    fn in_range(self) -> bool
        ensures { result ≡ (in_size self.lowest && in_size self.tallest) }
    {
        terms::in_size(self.lowest) && terms::in_size(self.tallest)
    }

    // The least height at which the cells fill at most so many stacks. It lies between the tallest cell, or the cells shared
    // out evenly, and the height at which each stack but the last may lack one tallest cell. Where the stacks filled at a
    // height are few enough, they are so at their own height too.
    fn least_height(self, heights: &[u16], most: u32) -> Rows
        requires { LeastAsks heights.now self most }
        ensures { Between heights.now most result.0 result.0 }
    {
        let mut lo = self.tallest.max(self.sum.div_ceil(most));
        let mut hi = (self.sum + (most - 1) * self.tallest) / most;
        while lo < hi {
            let mid = lo.midpoint(hi);
            let tried = fill(heights, Rows(mid));
            if tried.count <= most {
                hi = tried.height.0;
            } else {
                lo = mid + 1;
            }
        }
        Rows(lo)
    }
}

// The fewest stacks no higher than the limit.
pub fn cells_to_height(heights: &[u16], limit: Rows, ends: &mut [u16]) -> Result<Stacks, Refusal>
    ensures answered { CellsToHeight heights.now limit.0 ends.old (answer_of result) ends.new }
    ensures none { NoneAtNine heights.now limit.0 (answer_of result) }
    ensures as_apart { ToHeightAsApart heights.now limit.0 (answer_of result) }
{
    let sizes = check_row(heights, limit.0)?;
    if limit.0 < sizes.tallest {
        return Err(Refusal::Unmeetable);
    }
    write_stacks(heights, limit, ends)
}

// The lowest of at most so many stacks, and of that height the fewest. More than one for each cell are never of use.
pub fn cells_to_count(heights: &[u16], most: u32, ends: &mut [u16]) -> Result<Stacks, Refusal>
    ensures answered { CellsToCount heights.now most ends.old (answer_of result) ends.new }
    ensures as_apart { ToCountAsApart heights.now most (answer_of result) }
{
    let sizes = check_row(heights, most)?;
    let useful = most.min(heights.len() as u32);
    let least = sizes.least_height(heights, useful);
    write_stacks(heights, least, ends)
}
