// The terms that every call shares: components, rows and slices, kinds, refusals, positions, and the pieces of a stack that
// was checked.
#![tactic(auto)]

ghost use Rattle.std.specs.Prelude.{◌≡◌, ◌<◌, Bool, Some};
ghost use Rattle.std.specs.Fmt.{decimal};
ghost use Rattle.terms.specs.declared.Component.{Component};
ghost use Rattle.terms.specs.Answer.{number_of, trade_word};
ghost use Rattle.terms.specs.Component.{in_size, most_of, good_size, good_gap, good_mark};
ghost use Rattle.terms.specs.Pieces.{component_of};
ghost use Rattle.terms.specs.Position.{next_of};

use std::error::Error;
use std::fmt;

// The most that a height, a width or a gap may be.
pub const MOST_SIZE: u32 = 4000;

// The most components that a stack may have, apart and nested.
pub const MOST_APART: usize = 256;

pub const MOST_NESTED: usize = 64;

// The greatest limit: no folding is higher or wider.
pub const MOST_LIMIT: u32 = 2000000;

// The least length of a work buffer.
pub const LEAST_WORK: usize = 8192;

// Heights and gaps count rows.
#[derive(Clone, Copy, Debug, PartialEq, Eq, PartialOrd, Ord)]
pub struct Rows(pub u32);

// Widths count slices.
#[derive(Clone, Copy, Debug, PartialEq, Eq, PartialOrd, Ord)]
pub struct Slices(pub u32);

// A component with the mark as a number, as a file or a list has it, where refusal 11 still has to check it. The rules of
// foldings speak of components too: those of a stack that was checked have a mark of 0 or 1.
#[derive(Clone, Copy, Debug, PartialEq, Eq)]
pub struct Component {
    pub height: Rows,
    pub width: Slices,
    pub gap: Rows,
    // 0 for a fold allowed after the component, 1 for barred.
    pub mark: u32,
}

// A component of a stack that was checked: each number has the 16 bits of a file, and a fold behind it is barred or not.
#[derive(Clone, Copy, Debug, PartialEq, Eq)]
pub struct Piece {
    pub height: u16,
    pub width: u16,
    pub gap: u16,
    pub barred: bool,
}

// Whether a call folds nested. It takes fewer components then.
#[derive(Clone, Copy, Debug, PartialEq, Eq)]
pub enum Kind {
    Apart,
    Nested,
}

// The refusals by their trade words, each with its number.
#[derive(Clone, Copy, Debug, PartialEq, Eq)]
pub enum Refusal {
    WrongFile = 1,
    WrongVersion = 2,
    WrongLength = 3,
    StackSize = 4,
    BadComponent = 5,
    BadGap = 6,
    BadLimit = 7,
    ShortBuffer = 8,
    Unmeetable = 9,
    BrokenFolding = 10,
    BadMark = 11,
    RowSize = 12,
}

// Where reading or writing stands: how many components lie before.
#[derive(Clone, Copy, Debug, PartialEq, Eq)]
pub struct Position {
    pub before: usize,
}

impl Refusal {
    pub fn number(self) -> u32
        ensures { result ≡ number_of self }
    {
        self as u32
    }
}

// The number alone.
impl fmt::Display for Rows {
    ghost output = { λ r. Some (decimal r.0) };

    fn fmt<W: fmt::Write>(&self, f: &mut fmt::Formatter<W>) -> fmt::Result {
        let rows = self.0;
        write!(f, "{rows}")
    }
}

impl fmt::Display for Slices {
    ghost output = { λ s. Some (decimal s.0) };

    fn fmt<W: fmt::Write>(&self, f: &mut fmt::Formatter<W>) -> fmt::Result {
        let slices = self.0;
        write!(f, "{slices}")
    }
}

// Its trade word.
impl fmt::Display for Refusal {
    ghost output = { λ k. Some (trade_word k) };

    fn fmt<W: fmt::Write>(&self, f: &mut fmt::Formatter<W>) -> fmt::Result {
        match self {
            Refusal::WrongFile => f.write_str("wrong file"),
            Refusal::WrongVersion => f.write_str("wrong version"),
            Refusal::WrongLength => f.write_str("wrong length"),
            Refusal::StackSize => f.write_str("stack size"),
            Refusal::BadComponent => f.write_str("bad component"),
            Refusal::BadGap => f.write_str("bad gap"),
            Refusal::BadLimit => f.write_str("bad limit"),
            Refusal::ShortBuffer => f.write_str("short buffer"),
            Refusal::Unmeetable => f.write_str("unmeetable"),
            Refusal::BrokenFolding => f.write_str("broken folding"),
            Refusal::BadMark => f.write_str("bad fold mark"),
            Refusal::RowSize => f.write_str("row size"),
        }
    }
}

impl Error for Refusal {}

impl Position {
    pub fn first() -> Position
        ensures { result.before ≡ 0 }
    {
        Position { before: 0 }
    }

    pub fn next(self) -> Position
        ensures { result.before ≡ next_of self.before }
    {
        if self.before < MOST_APART {
            return Position {
                before: self.before + 1,
            };
        }
        self
    }
}

// The most components that a call of the kind takes.
pub fn most(kind: Kind) -> usize
    ensures { result ≡ most_of kind }
{
    match kind {
        Kind::Apart => MOST_APART,
        Kind::Nested => MOST_NESTED,
    }
}

// Whether a height or a width is in its range.
pub fn in_size(x: u32) -> bool
    ensures { result ≡ in_size x }
{
    (1..=MOST_SIZE).contains(&x)
}

// What refusals 5, 6 and 11 ask of each component, which is told whether it is the last.
pub trait Rule {
    ghost rule: { Component → Bool → Bool };

    fn stands(c: Component, last: bool) -> bool
        ensures { result ≡ rule c last };
}

pub struct SizeRule;

pub struct GapRule;

pub struct MarkRule;

impl Rule for SizeRule {
    ghost rule = { good_size };

    fn stands(c: Component, _last: bool) -> bool {
        in_size(c.height.0) && in_size(c.width.0)
    }
}

impl Rule for GapRule {
    ghost rule = { good_gap };

    fn stands(c: Component, last: bool) -> bool {
        let most = if last { 0 } else { MOST_SIZE };
        c.gap.0 <= most
    }
}

impl Rule for MarkRule {
    ghost rule = { good_mark };

    fn stands(c: Component, last: bool) -> bool {
        let most = if last { 0 } else { 1 };
        c.mark <= most
    }
}

impl Piece {
    // What a place in a list holds that no component was read into.
    pub const EMPTY: Piece = Piece {
        height: 0,
        width: 0,
        gap: 0,
        barred: false,
    };
}

impl From<Piece> for Component {
    ghost from_gives = { λ p c. (c ≡ component_of p) × (c.height.0 < 65536) × (c.width.0 < 65536) × (c.gap.0 < 65536) };

    fn from(p: Piece) -> Component {
        Component {
            height: Rows(u32::from(p.height)),
            width: Slices(u32::from(p.width)),
            gap: Rows(u32::from(p.gap)),
            mark: u32::from(p.barred),
        }
    }
}
