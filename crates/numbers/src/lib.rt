// The numbers of a stack in a list of pieces, and of the table of a group.
#![tactic(auto)]

ghost use Rattle.std.specs.Prelude.{◌≡◌, ◌+◌, ◌*◌, ◌≤◌, ◌<◌, length, get_or};
ghost use Rattle.terms.specs.Numbers.{most_nested};
ghost use Rattle.terms.specs.Pieces.{heights_in, widths_in, seams_in, columns};
ghost use Rattle.terms.specs.Seams.{gap_at, barred_at, component_in};
ghost use Rattle.numbers.specs.Table.{stride, cells};

use terms::{Component, Piece};

// The entries of a row of a table: one more than a group that is folded may have components.
pub const STRIDE: usize = terms::MOST_NESTED + 1;

// And all its entries.
pub const CELLS: usize = STRIDE * STRIDE;

// The height, the width and the gap of one piece of a stack, and whether a fold behind it is barred.
pub fn height(stack: &[Piece], i: usize) -> u32
    requires { i < length stack.now }
    ensures value { result ≡ get_or (heights_in stack.now) i 0 }
    ensures upper_bound { result < 65536 }
{
    u32::from(stack[i].height)
}

pub fn width(stack: &[Piece], i: usize) -> u32
    requires { i < length stack.now }
    ensures value { result ≡ get_or (widths_in stack.now) i 0 }
    ensures upper_bound { result < 65536 }
{
    u32::from(stack[i].width)
}

pub fn gap(stack: &[Piece], i: usize) -> u32
    requires { i < length stack.now }
    ensures value { result ≡ gap_at (seams_in stack.now) i }
    ensures upper_bound { result < 65536 }
{
    u32::from(stack[i].gap)
}

pub fn barred(stack: &[Piece], i: usize) -> bool
    requires { i < length stack.now }
    ensures { result ≡ barred_at (seams_in stack.now) i }
{
    stack[i].barred
}

// The component that the piece stands for.
pub fn component(stack: &[Piece], i: usize) -> Component
    requires { i < length stack.now }
    ensures value { result ≡ columns stack.now component_in i }
    ensures upper_bounds { (result.height.0 < 65536) × (result.width.0 < 65536) × (result.gap.0 < 65536) }
{
    Component::from(stack[i])
}

pub fn cell(table: &[u32], p: usize, q: usize) -> u32
    requires { (p ≤ most_nested) × (q ≤ most_nested) × (cells ≤ length table.now) }
    ensures { result ≡ get_or table.now (p * stride + q) 0 }
{
    table[p * STRIDE + q]
}
