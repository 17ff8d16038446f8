// Whether a folding is legal.
#![tactic(auto)]

ghost use Rattle.std.specs.Prelude.{◌≡◌, true, ◌&&◌, ◌<◌, length, eqb, leb};
ghost use Rattle.terms.specs.Pieces.{columns};
ghost use Rattle.folding.specs.Placement.{group_of, start_of, end_of, left, placements_in};
ghost use Rattle.folding.specs.Legal.{legal, same_group, unparted, turned};
ghost use Rattle.folding.specs.Asks.{placed_at, placed_in, Listed};
ghost use Rattle.legality.specs.Inner.{alone, follows};

use folding::{MOST_START, Placed, Placement};
use numbers::component;
use terms::{Kind, Piece};

fn placed_at(stack: &[Piece], placements: &[[u32; 3]], i: usize) -> Placed
    requires { columns stack.now Listed (placements_in placements.now) × (i < length stack.now) }
    ensures { result
        ≡ columns stack.now placed_at (placements_in placements.now) i }
{
    Placed {
        component: component(stack, i),
        placement: Placement::at(placements, i),
    }
}

// The ranges of a placement, and the side that the kind allows.
fn stands_alone(kind: Kind, x: Placed) -> bool
    ensures { result ≡ alone kind x }
{
    let p = x.placement;
    p.side <= 1 && p.start <= MOST_START && (kind == Kind::Nested || p.side == 0)
}

// Whether the upper one starts at or above the end of the lower one.
fn is_clear(lower: Placed, upper: Placed) -> bool
    ensures { result ≡ leb (end_of lower) (start_of upper) }
{
    let end = u64::from(lower.placement.start) + u64::from(lower.component.height.0);
    end <= u64::from(upper.placement.start)
}

// Whether y may follow x, where both are in one group.
fn stands_behind(x: Placed, y: Placed) -> bool
    requires { same_group x y ≡ true }
    ensures { result ≡ follows x y }
{
    let on_right = y.placement.side != 0;
    if x.placement.side == 0 {
        on_right || is_clear(y, x)
    } else {
        on_right && is_clear(x, y)
    }
}

fn may_follow(x: Placed, y: Placed) -> bool
    ensures { result ≡ follows x y }
{
    let p = x.placement;
    let q = y.placement;
    if q.group == p.group {
        stands_behind(x, y)
    } else {
        p.group.checked_add(1) == Some(q.group) && q.side == 0
    }
}

// Whether no fold parts y from x where one is barred between them.
fn stays_with(x: Placed, y: Placed) -> bool
    ensures { result ≡ unparted x y }
{
    let p = x.placement;
    let q = y.placement;
    x.component.mark != 1 || q.group == p.group && q.side == p.side
}

// Whether no nested group ends with x on the left, where y opens the next.
fn ends_turned(kind: Kind, x: Placed, y: Placed) -> bool
    ensures { result ≡ turned kind x y }
{
    let p = x.placement;
    kind == Kind::Apart || y.placement.group == p.group || p.side != 0
}

// Whether y may be the component behind x.
fn may_stand_next(kind: Kind, x: Placed, y: Placed) -> bool
    ensures { result
        ≡ (alone kind y && follows x y && unparted x y && turned kind x y) }
{
    stands_alone(kind, y) && may_follow(x, y) && stays_with(x, y) && ends_turned(kind, x, y)
}

// Whether the placements are legal, in one pass: `all` over pairs would read each placement twice.
pub fn is_legal(kind: Kind, stack: &[Piece], placements: &[[u32; 3]]) -> bool
    requires { columns stack.now Listed (placements_in placements.now) × (0 < length stack.now) }
    ensures { result
        ≡ legal kind (columns stack.now placed_in (placements_in placements.now)) }
{
    let mut x = placed_at(stack, placements, 0);
    if !may_open(kind, x) {
        return false;
    }
    for i in 1..stack.len() {
        let y = placed_at(stack, placements, i);
        if !may_stand_next(kind, x, y) {
            return false;
        }
        x = y;
    }
    true
}

// The first component is in group 0 and on the left.
fn may_open(kind: Kind, x: Placed) -> bool
    ensures { result ≡ (eqb (group_of x) 0 && left x && alone kind x) }
{
    let p = x.placement;
    p.group == 0 && p.side == 0 && stands_alone(kind, x)
}
