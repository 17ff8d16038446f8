// The calls for C: each export answers as the call of stack_folds by the same name. interface/stack_folds.h declares them.
#![tactic(auto)]

ghost use Rattle.std.specs.Prelude.{◌≡◌, take, drop};
ghost use Rattle.terms.specs.Component.{count_of};
ghost use Rattle.terms.specs.declared.Kind.TheVariants.{Apart};
ghost use Rattle.stack.specs.File.{check_of};
ghost use Rattle.stack.specs.Calls.{Read, lookup_of};
ghost use Rattle.stack_write.specs.Call.{Wrote};
ghost use Rattle.folding.specs.Calls.{measure_of, winner_is, choose_of};
ghost use Rattle.fold.specs.Calls.{ToHeight, ToWidth};
ghost use Rattle.fold_area.specs.Calls.{SmallestOf};
ghost use Rattle.fold_table.specs.Calls.{TableOf};
ghost use Rattle.stack_folds.specs.Codes.{kind_of, count_code, outline_code, part_code, choice_code, chosen_part};
ghost use Rattle.cells.specs.Calls.{CellsToHeight, CellsToCount, NoneAtNine};
ghost use Rattle.cells.specs.Apart.{ToHeightAsApart, ToCountAsApart};
ghost use Rattle.stack_folds.specs.Codes.{count_of_code, outline_of_code, stacks_of_code, PlainCount, PlainOutline, PlainStacks};

use stack_folds::{Count, Extent, Part, Stacking};

#[unsafe(no_mangle)]
pub extern "C" fn folds_check(file: &[u8], nested: bool) -> Count
    ensures { result ≡ count_code (count_of (check_of (kind_of nested) file.now)) }
{
    stack_folds::folds_check(file, nested)
}

#[unsafe(no_mangle)]
pub extern "C" fn folds_read(
    file: &[u8],
    heights: &mut [u16],
    widths: &mut [u16],
    gaps: &mut [u16],
    marks: &mut [u16],
) -> Count
    ensures read { Read file.now
        heights.old widths.old gaps.old marks.old (count_of_code result)
        heights.new widths.new gaps.new marks.new }
    ensures plain_count { PlainCount result }
{
    stack_folds::folds_read(file, heights, widths, gaps, marks)
}

#[unsafe(no_mangle)]
pub extern "C" fn folds_lookup(file: &[u8], number: usize) -> Part
    ensures value { result ≡ part_code (check_of Apart file.now) file.now number }
    ensures file_value { take result.length (drop result.start file.now) ≡ lookup_of file.now number }
{
    stack_folds::folds_lookup(file, number)
}

#[unsafe(no_mangle)]
pub extern "C" fn folds_write(
    heights: &[u16],
    widths: &[u16],
    gaps: &[u16],
    marks: &[u16],
    file: &mut [u8],
) -> Count
    ensures wrote { Wrote heights.now widths.now gaps.now marks.now
        file.old (count_of_code result) file.new }
    ensures plain_count { PlainCount result }
{
    stack_folds::folds_write(heights, widths, gaps, marks, file)
}

#[unsafe(no_mangle)]
pub extern "C" fn folds_measure(file: &[u8], nested: bool, placements: &[u32]) -> Extent
    ensures { result ≡ outline_code (measure_of (kind_of nested) file.now placements.now) }
{
    stack_folds::folds_measure(file, nested, placements)
}

#[unsafe(no_mangle)]
pub extern "C" fn folds_choose(file: &[u8], nested: bool, first: &[u32], second: &[u32]) -> u32
    ensures value { result ≡ choice_code (winner_is
        (measure_of (kind_of nested) file.now first.now)
        (measure_of (kind_of nested) file.now second.now)) }
    ensures second_value { chosen_part (check_of (kind_of nested) file.now) result first.now second.now
        ≡ choose_of (kind_of nested) file.now first.now second.now }
{
    stack_folds::folds_choose(file, nested, first, second)
}

#[unsafe(no_mangle)]
pub extern "C" fn folds_to_height(
    file: &[u8],
    nested: bool,
    limit: u32,
    placements: &mut [u32],
    work: &mut [u32],
) -> Extent
    ensures to_height { ToHeight (kind_of nested) file.now limit
        placements.old work.old (outline_of_code result) placements.new work.new }
    ensures plain_outline { PlainOutline result }
{
    stack_folds::folds_to_height(file, nested, limit, placements, work)
}

#[unsafe(no_mangle)]
pub extern "C" fn folds_to_width(
    file: &[u8],
    nested: bool,
    limit: u32,
    placements: &mut [u32],
    work: &mut [u32],
) -> Extent
    ensures to_width { ToWidth (kind_of nested) file.now limit
        placements.old work.old (outline_of_code result) placements.new work.new }
    ensures plain_outline { PlainOutline result }
{
    stack_folds::folds_to_width(file, nested, limit, placements, work)
}

#[unsafe(no_mangle)]
pub extern "C" fn folds_smallest_area(
    file: &[u8],
    nested: bool,
    placements: &mut [u32],
    work: &mut [u32],
) -> Extent
    ensures smallest_of { SmallestOf (kind_of nested) file.now
        placements.old work.old (outline_of_code result) placements.new work.new }
    ensures plain_outline { PlainOutline result }
{
    stack_folds::folds_smallest_area(file, nested, placements, work)
}

#[unsafe(no_mangle)]
pub extern "C" fn folds_table(
    file: &[u8],
    nested: bool,
    pairs: &mut [u32],
    work: &mut [u32],
) -> Count
    ensures table_of { TableOf (kind_of nested) file.now
        pairs.old work.old (count_of_code result) pairs.new work.new }
    ensures plain_count { PlainCount result }
{
    stack_folds::folds_table(file, nested, pairs, work)
}

#[unsafe(no_mangle)]
pub extern "C" fn folds_cells_to_height(heights: &[u16], limit: u32, ends: &mut [u16]) -> Stacking
    ensures cells_to_height { CellsToHeight heights.now limit
        ends.old (stacks_of_code result) ends.new }
    ensures none_at_nine { NoneAtNine heights.now limit (stacks_of_code result) }
    ensures as_apart { ToHeightAsApart heights.now limit (stacks_of_code result) }
    ensures plain_stacks { PlainStacks result }
{
    stack_folds::folds_cells_to_height(heights, limit, ends)
}

#[unsafe(no_mangle)]
pub extern "C" fn folds_cells_to_count(heights: &[u16], most: u32, ends: &mut [u16]) -> Stacking
    ensures cells_to_count { CellsToCount heights.now most
        ends.old (stacks_of_code result) ends.new }
    ensures as_apart { ToCountAsApart heights.now most (stacks_of_code result) }
    ensures plain_stacks { PlainStacks result }
{
    stack_folds::folds_cells_to_count(heights, most, ends)
}
