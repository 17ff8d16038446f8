// Foldings: their placements and outlines.
#![tactic(auto)]

ghost use Rattle.std.specs.Prelude.{◌≡◌, ◌<◌, length, get_or};
ghost use Rattle.folding.specs.Placement.{none, numbers_of, placement_of, placements_in};

use terms::{Component, Rows, Slices};

// The highest start row of a placement.
pub const MOST_START: u32 = 1024000;

// The side is 0 for left and 1 for right; as a caller lends it, it may be any number, which is then no legal folding.
#[derive(Clone, Copy, Debug, PartialEq, Eq)]
pub struct Placement {
    pub group: u32,
    pub side: u32,
    pub start: u32,
}

impl From<[u32; 3]> for Placement {
    ghost from_gives = { λ numbers p. p ≡ placement_of numbers };

    fn from([group, side, start]: [u32; 3]) -> Placement {
        Placement { group, side, start }
    }
}

impl From<Placement> for [u32; 3] {
    ghost from_gives = { λ p numbers. numbers ≡ numbers_of p };

    fn from(p: Placement) -> [u32; 3] {
        [p.group, p.side, p.start]
    }
}

impl Placement {
    // The one that has i others before it, where each is lent as its three numbers.
    pub fn at(placements: &[[u32; 3]], i: usize) -> Placement
        requires { i < length placements.now }
        ensures { result ≡ get_or (placements_in placements.now) i none }
    {
        Placement::from(placements[i])
    }
}

// A component of a stack with its placement.
#[derive(Clone, Copy, Debug, PartialEq, Eq)]
pub struct Placed {
    pub component: Component,
    pub placement: Placement,
}

// The narrower of two comes first, and of two as wide the lower one.
#[derive(Clone, Copy, Debug, PartialEq, Eq, PartialOrd, Ord)]
pub struct Outline {
    pub width: Slices,
    pub height: Rows,
}

// Which of two foldings wins.
#[derive(Clone, Copy, Debug, PartialEq, Eq)]
pub enum Winner {
    First,
    Second,
}
