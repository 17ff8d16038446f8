// The calls for C and Rust: numbers and slices only. The crate stack_folds_c exports them.
#![tactic(auto)]

ghost use Rattle.std.specs.Prelude.{◌≡◌, take, drop};
ghost use Rattle.terms.specs.Answer.{answer_of};
ghost use Rattle.terms.specs.Component.{count_of};
ghost use Rattle.terms.specs.declared.Kind.TheVariants.{Apart};
ghost use Rattle.stack.specs.File.{check_of};
ghost use Rattle.stack.specs.Calls.{Read, lookup_of};
ghost use Rattle.stack_write.specs.Call.{Wrote};
ghost use Rattle.folding.specs.Calls.{measure_of, winner_is, choose_of};
ghost use Rattle.fold.specs.Calls.{ToHeight, ToWidth};
ghost use Rattle.fold_area.specs.Calls.{SmallestOf};
ghost use Rattle.fold_table.specs.Calls.{TableOf};
ghost use Rattle.cells.specs.Calls.{CellsToHeight, CellsToCount, NoneAtNine};
ghost use Rattle.cells.specs.Apart.{ToHeightAsApart, ToCountAsApart};
ghost use Rattle.stack_folds.specs.Codes.{kind_of, count_code, outline_code, stacks_code, range_code, part_code, choice_code, chosen_part};
ghost use Rattle.stack_folds.specs.Codes.{count_of_code, outline_of_code, stacks_of_code, PlainCount, PlainOutline, PlainStacks};

use cells::Stacks;
use folding::{Outline, Winner};
use std::ops::Range;
use terms::{Kind, Refusal, Rows, Slices};

// A refusal and 0, or 0 and a number of components, bytes or pairs.
#[repr(C)]
#[derive(Clone, Copy, Debug, PartialEq, Eq)]
pub struct Count {
    pub refusal: u32,
    pub count: usize,
}

// A refusal with width and height 0, or 0 and an outline.
#[repr(C)]
#[derive(Clone, Copy, Debug, PartialEq, Eq)]
pub struct Extent {
    pub refusal: u32,
    pub width: u32,
    pub height: u32,
}

// A refusal with count and height 0, or 0 and how many stacks of cells there are, and the height of the highest.
#[repr(C)]
#[derive(Clone, Copy, Debug, Default, PartialEq, Eq)]
pub struct Stacking {
    pub refusal: u32,
    pub count: u32,
    pub height: u32,
}

// A part of a lent buffer; the empty part starts at 0.
#[repr(C)]
#[derive(Clone, Copy, Debug, PartialEq, Eq)]
pub struct Part {
    pub start: usize,
    pub length: usize,
}

fn kind_of(nested: bool) -> Kind
    ensures { result ≡ kind_of nested }
{
    if nested { Kind::Nested } else { Kind::Apart }
}

impl From<Result<usize, Refusal>> for Count {
    ghost from_gives = { λ r c. c ≡ count_code (answer_of r) };

    fn from(answer: Result<usize, Refusal>) -> Count {
        match answer {
            Ok(n) => Count {
                refusal: 0,
                count: n,
            },
            Err(k) => Count {
                refusal: k.number(),
                count: 0,
            },
        }
    }
}

impl From<Result<Outline, Refusal>> for Extent {
    ghost from_gives = { λ r e. e ≡ outline_code (answer_of r) };

    fn from(answer: Result<Outline, Refusal>) -> Extent {
        match answer {
            Ok(o) => Extent {
                refusal: 0,
                width: o.width.0,
                height: o.height.0,
            },
            Err(k) => Extent {
                refusal: k.number(),
                width: 0,
                height: 0,
            },
        }
    }
}

impl From<Result<Stacks, Refusal>> for Stacking {
    ghost from_gives = { λ r s. s ≡ stacks_code (answer_of r) };

    fn from(answer: Result<Stacks, Refusal>) -> Stacking {
        match answer {
            Ok(stacks) => Stacking {
                refusal: 0,
                count: stacks.count,
                height: stacks.height.0,
            },
            Err(k) => Stacking {
                refusal: k.number(),
                ..Stacking::default()
            },
        }
    }
}

impl From<Range<usize>> for Part {
    ghost from_gives = { λ at part. part ≡ range_code at };

    fn from(at: Range<usize>) -> Part {
        Part {
            start: at.start,
            length: at.len(),
        }
    }
}

pub fn folds_check(file: &[u8], nested: bool) -> Count
    ensures { result ≡ count_code (count_of (check_of (kind_of nested) file.now)) }
{
    stack::check(file, kind_of(nested)).into()
}

pub fn folds_read(
    file: &[u8],
    heights: &mut [u16],
    widths: &mut [u16],
    gaps: &mut [u16],
    marks: &mut [u16],
) -> Count
    ensures read { Read file.now
        heights.old widths.old gaps.old marks.old (count_of_code result)
        heights.new widths.new gaps.new marks.new }
    ensures plain_count { PlainCount result }
{
    stack::read(file, heights, widths, gaps, marks).into()
}

pub fn folds_lookup(file: &[u8], number: usize) -> Part
    ensures value { result ≡ part_code (check_of Apart file.now) file.now number }
    ensures file_value { take result.length (drop result.start file.now) ≡ lookup_of file.now number }
{
    stack::place(file, number).unwrap_or(0..0).into()
}

pub fn folds_write(
    heights: &[u16],
    widths: &[u16],
    gaps: &[u16],
    marks: &[u16],
    file: &mut [u8],
) -> Count
    ensures wrote { Wrote heights.now widths.now gaps.now marks.now
        file.old (count_of_code result) file.new }
    ensures plain_count { PlainCount result }
{
    stack_write::write(heights, widths, gaps, marks, file).into()
}

pub fn folds_measure(file: &[u8], nested: bool, placements: &[u32]) -> Extent
    ensures { result ≡ outline_code (measure_of (kind_of nested) file.now placements.now) }
{
    measure::measure(file, kind_of(nested), placements).into()
}

fn choice(winner: Option<Winner>) -> u32
    ensures { result ≡ choice_code winner }
{
    match winner {
        Some(Winner::First) => 1,
        Some(Winner::Second) => 2,
        None => 0,
    }
}

pub fn folds_choose(file: &[u8], nested: bool, first: &[u32], second: &[u32]) -> u32
    ensures value { result ≡ choice_code (winner_is
        (measure_of (kind_of nested) file.now first.now)
        (measure_of (kind_of nested) file.now second.now)) }
    ensures second_value { chosen_part (check_of (kind_of nested) file.now) result first.now second.now
        ≡ choose_of (kind_of nested) file.now first.now second.now }
{
    let kind = kind_of(nested);
    let a = measure::measure(file, kind, first);
    let b = measure::measure(file, kind, second);
    choice(measure::better(a, b))
}

pub fn folds_to_height(
    file: &[u8],
    nested: bool,
    limit: u32,
    placements: &mut [u32],
    work: &mut [u32],
) -> Extent
    ensures to_height { ToHeight (kind_of nested) file.now limit
        placements.old work.old (outline_of_code result) placements.new work.new }
    ensures plain_outline { PlainOutline result }
{
    let kind = kind_of(nested);
    fold::to_height(file, kind, Rows(limit), placements, work).into()
}

pub fn folds_to_width(
    file: &[u8],
    nested: bool,
    limit: u32,
    placements: &mut [u32],
    work: &mut [u32],
) -> Extent
    ensures to_width { ToWidth (kind_of nested) file.now limit
        placements.old work.old (outline_of_code result) placements.new work.new }
    ensures plain_outline { PlainOutline result }
{
    let kind = kind_of(nested);
    fold::to_width(file, kind, Slices(limit), placements, work).into()
}

pub fn folds_smallest_area(
    file: &[u8],
    nested: bool,
    placements: &mut [u32],
    work: &mut [u32],
) -> Extent
    ensures smallest_of { SmallestOf (kind_of nested) file.now
        placements.old work.old (outline_of_code result) placements.new work.new }
    ensures plain_outline { PlainOutline result }
{
    let kind = kind_of(nested);
    fold_area::smallest_area(file, kind, placements, work).into()
}

pub fn folds_table(file: &[u8], nested: bool, pairs: &mut [u32], work: &mut [u32]) -> Count
    ensures table_of { TableOf (kind_of nested) file.now
        pairs.old work.old (count_of_code result) pairs.new work.new }
    ensures plain_count { PlainCount result }
{
    let kind = kind_of(nested);
    fold_table::table(file, kind, pairs, work).into()
}

pub fn folds_cells_to_height(heights: &[u16], limit: u32, ends: &mut [u16]) -> Stacking
    ensures cells_to_height { CellsToHeight heights.now limit
        ends.old (stacks_of_code result) ends.new }
    ensures none_at_nine { NoneAtNine heights.now limit (stacks_of_code result) }
    ensures as_apart { ToHeightAsApart heights.now limit (stacks_of_code result) }
    ensures plain_stacks { PlainStacks result }
{
    cells::cells_to_height(heights, Rows(limit), ends).into()
}

pub fn folds_cells_to_count(heights: &[u16], most: u32, ends: &mut [u16]) -> Stacking
    ensures cells_to_count { CellsToCount heights.now most
        ends.old (stacks_of_code result) ends.new }
    ensures as_apart { ToCountAsApart heights.now most (stacks_of_code result) }
    ensures plain_stacks { PlainStacks result }
{
    cells::cells_to_count(heights, most, ends).into()
}
