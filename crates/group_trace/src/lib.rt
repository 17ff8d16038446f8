// Writes the placements of one group, with its first `left` components on the left of the fold.
#![tactic(auto)]

ghost use Rattle.std.specs.Prelude.{◌≡◌, ◌∷◌, ◌++◌, ◌+◌, ◌*◌, ◌<◌, length, take, drop};
ghost use Rattle.terms.specs.Numbers.{most_apart};
ghost use Rattle.terms.specs.Pieces.{heights_in, sizes};
ghost use Rattle.group_trace.specs.Trace.{WriteAsks, TurnAsks, left_turn, right_turn, Turned, side_number, group_into};

use group_table::{Standing, Table};
use numbers::{cell, height, width};

// The side of its group's fold on which a component lies.
#[derive(Clone, Copy, Debug, PartialEq, Eq)]
enum Side {
    Left,
    Right,
}

// As a placement has it.
impl From<Side> for u32 {
    ghost from_gives = { λ side n. n ≡ side_number side };

    fn from(side: Side) -> u32 {
        match side {
            Side::Left => 0,
            Side::Right => 1,
        }
    }
}

// What a turn places: a component's index, its side and its start row; and where the sides stand then.
#[derive(Clone, Copy, Debug, PartialEq, Eq)]
struct Turn {
    index: usize,
    side: Side,
    start: u32,
    next: Standing,
}

impl Turn {
    // The last component of the left side is placed, and the sides go on from these rows.
    fn left(at: Standing, left_row: u32, right_row: u32) -> Turn
        requires { 0 < at.left }
        ensures { result ≡ left_turn at left_row right_row }
    {
        let left = at.left - 1;
        Turn {
            index: left,
            side: Side::Left,
            start: at.left_row,
            next: Standing {
                left,
                left_row,
                right_row,
                ..at
            },
        }
    }

    // The first component of the right side is placed, and the sides go on from these rows.
    fn right(at: Standing, left_row: u32, right_row: u32) -> Turn
        requires { at.right < most_apart }
        ensures { result ≡ right_turn at left_row right_row }
    {
        Turn {
            index: at.right,
            side: Side::Right,
            start: at.right_row,
            next: Standing {
                right: at.right + 1,
                left_row,
                right_row,
                ..at
            },
        }
    }

    // Both sides have components left: the lower one goes first where the two fit side by side, else the one that leaves
    // the fewer rows.
    #[tactic(auto, using(crate::proofs::Turns::beside_left, crate::proofs::Turns::beside_right, crate::proofs::Turns::left_comes_first, crate::proofs::Turns::right_first))]
    fn meet(at: Standing, table: Table) -> Turn
        requires { sizes table.stack.now TurnAsks table.cells.now at table.cap.0 × (0 < at.left)
            × (at.right < length (heights_in table.stack.now)) }
        ensures { sizes table.entry.stack.now (Turned table.entry.cap.0) at result }
    {
        let x = at.left - 1;
        let y = at.right;
        let left = at.left_row + height(table.stack, x);
        let right = at.right_row + height(table.stack, y);
        if width(table.stack, x) + width(table.stack, y) <= table.cap.0 {
            if left <= right {
                return Turn::left(at, left, at.right_row);
            }
            return Turn::right(at, at.left_row, right);
        }
        if left + cell(table.cells, x, y) <= right + cell(table.cells, at.left, y + 1) {
            return Turn::left(at, left, left);
        }
        Turn::right(at, right, right)
    }

    // The turn where the sides stand so: the only side that has components left goes on, or the two meet.
    #[tactic(auto, using(crate::proofs::Turns::only_left, terms::proofs::Pieces::heights_length))]
    fn of(at: Standing, table: Table) -> Turn
        requires { sizes table.stack.now TurnAsks table.cells.now at table.cap.0 }
        ensures { sizes table.entry.stack.now (Turned table.entry.cap.0) at result }
    {
        if at.left == 0 {
            return Turn::right(
                at,
                at.left_row,
                at.right_row + height(table.stack, at.right),
            );
        }
        if at.right == table.stack.len() {
            return Turn::left(
                at,
                at.left_row + height(table.stack, at.left - 1),
                at.right_row,
            );
        }
        Turn::meet(at, table)
    }
}

// The three numbers of the component that has i others before it.
fn put(out: &mut [u32], i: usize, group: u32, side: Side, start: u32)
    requires { (i < most_apart) × (3 * i + 2 < length out.old) }
    ensures { out.new ≡ take (3 * i) out.old ++ (group ∷ side_number side ∷ start ∷ drop (3 * i + 3) out.old) }
{
    out[3 * i..3 * i + 3].copy_from_slice(&[group, u32::from(side), start]);
}

#[tactic(auto, using(crate::proofs::Writing::start))]
pub fn write_group(table: Table, out: &mut [u32], group: u32, left: usize)
    requires { sizes table.stack.now WriteAsks table.cells.now out.old left table.cap.0 }
    ensures { out.new ≡ sizes table.entry.stack.now (group_into table.entry.cap.0 group left) out.old }
{
    let mut at = Standing {
        left,
        right: left,
        left_row: 0,
        right_row: 0,
    };
    for _turn in 0..table.stack.len() {
        let t = Turn::of(at, table);
        put(out, t.index, group, t.side, t.start);
        at = t.next;
    }
}
