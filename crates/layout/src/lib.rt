// The layout of a stack for a height, as a recurrence over its first group; what it comes to is shown in proofs/.
#![tactic(auto)]

ghost use Rattle.std.specs.Prelude.{◌≡◌};
ghost use Rattle.layout.specs.Layout.{better};
ghost use Rattle.layout.specs.Plan.{layout_in, outline_in};

use folding::Outline;
use group::NONE;
use terms::{Rows, Slices};

// A layout: its width, its height, and how many components its first group has. A width of NONE means that there is none.
#[derive(Clone, Copy, Debug, PartialEq, Eq)]
pub struct Entry {
    pub width: Slices,
    pub height: Rows,
    pub end: u32,
}

impl Entry {
    // The layout of no components. A list of these is cleared at once, since all their bytes are 0.
    pub const EMPTY: Entry = Entry {
        width: Slices(0),
        height: Rows(0),
        end: 0,
    };

    // No layout keeps the limit.
    pub const UNMET: Entry = Entry {
        width: Slices(NONE),
        height: Rows(NONE),
        end: 0,
    };

    // Whether a layout is narrower than another, or as wide and lower. Widths are compared first and alone: most layouts are too
    // wide, and with the order of the pair, which compares both numbers, apart folds took a fifth more instructions.
    pub fn is_better(self, other: Entry) -> bool
        ensures { result ≡ better (layout_in self) (layout_in other) }
    {
        if other.width < self.width {
            return false;
        }
        if self.width < other.width {
            return true;
        }
        self.height < other.height
    }

    // The outline of a layout, if there is one.
    pub fn outline(self) -> Option<Outline>
        ensures { result ≡ outline_in (layout_in self) }
    {
        (self.width.0 < NONE).then_some(Outline {
            width: self.width,
            height: self.height,
        })
    }
}
