// Stack files: the check, the reading and the lookup by component number.
#![tactic(auto)]

ghost use Rattle.std.specs.Prelude.{◌≡◌, ◌+◌, ◌*◌, ◌≤◌, ◌<◌, ℕ, List, [], length, take, IfOk, IfSome};
ghost use Rattle.terms.specs.Numbers.{most_apart};
ghost use Rattle.terms.specs.Answer.{answer_of};
ghost use Rattle.terms.specs.declared.Component.{Component};
ghost use Rattle.terms.specs.Component.{most_of, every, stack_of, count_of, tabulate};
ghost use Rattle.terms.specs.declared.Piece.{Piece};
ghost use Rattle.terms.specs.Pieces.{piece_of};
ghost use Rattle.stack.specs.File.{word_at, version_of, bytes_each, component_from, component_at, header_of, check_of};
ghost use Rattle.stack.specs.Versions.{number_in, version_from};
ghost use Rattle.stack.specs.Calls.{Read, place_at, place_of, lookup_of, pieces_of, refilled, least_length};
ghost use Rattle.stack.specs.Inner.{mapped, words_of, Pieced, Fillable, Filled, column_into};

use std::marker::Model;
use std::ops::Range;
use terms::{
    Component, GapRule, Kind, MOST_APART, MarkRule, Piece, Position, Refusal, Rows, Rule, SizeRule,
    Slices,
};

// The pieces of a stack: none, or those of a file that the check accepts.
#[derive(Drop)]
pub struct Stack {
    room: [Piece; MOST_APART],
    n: usize,
}

impl Model for Stack {
    ghost Value = { List Piece };

    ghost view = { λ s. take s.n s.room };

    ghost invariant = { λ s. s.n ≤ most_apart };
}

// The versions of a stack file, by the numbers that stand in it.
#[derive(Clone, Copy, Debug, PartialEq, Eq)]
pub enum Version {
    First = 1,
    Second = 2,
}

// The version that a number stands for.
impl TryFrom<u16> for Version {
    type Error = Refusal;

    ghost try_from_gives = { λ number r. answer_of r ≡ version_from number };

    fn try_from(number: u16) -> Result<Version, Refusal> {
        match number {
            1 => Ok(Version::First),
            2 => Ok(Version::Second),
            _ => Err(Refusal::WrongVersion),
        }
    }
}

impl From<Version> for u16 {
    ghost from_gives = { λ version number. number ≡ number_in version };

    fn from(version: Version) -> u16 {
        version as u16
    }
}

impl Version {
    // The bytes of a component.
    pub fn bytes_each(self) -> usize
        ensures value { result ≡ bytes_each (number_in self) }
        ensures upper_bound { result ≤ 8 }
    {
        match self {
            Version::First => 6,
            Version::Second => 8,
        }
    }
}

// A file whose header stands, with its version and the number of its components.
#[derive(Clone, Copy)]
struct StackFile<'a> {
    file: &'a [u8],
    version: Version,
    n: usize,
    ghost version_is: { version_of file.now ≡ number_in version },
    ghost size: { length file.now ≡ 7 + bytes_each (version_of file.now) * n },
}

// Components in order, as a file has them or four lists.
pub trait Components {
    ghost count: { Self → ℕ };

    ghost at: { Self → ℕ → Component };

    fn len(&self) -> usize
        ensures { result ≡ count self.now };

    fn component(&self, p: Position) -> Component
        requires { p.before < count self.now }
        ensures { result ≡ at self.now p.before };
}

fn word_at(file: &[u8], i: usize) -> u16
    requires { i + 1 < length file.now }
    ensures { result ≡ word_at file.now i }
{
    u16::from_le_bytes([file[i], file[i + 1]])
}

// Refusals 1 to 3, or the file with its count.
#[tactic(auto, unfolding(crate::specs::File::header_of))]
fn header(file: &[u8]) -> Result<StackFile<'_>, Refusal>
    ensures count { mapped (λ f. f.n) (answer_of result) ≡ header_of file.now }
    ensures same_file { IfOk result (λ f. f.file.now ≡ file.now) }
{
    if file.len() < 7 || !file.starts_with(b"STK") {
        return Err(Refusal::WrongFile);
    }
    let version = Version::try_from(word_at(file, 3))?;
    let n = usize::from(word_at(file, 5));
    if file.len() != 7 + version.bytes_each() * n {
        return Err(Refusal::WrongLength);
    }
    Ok(StackFile { file, version, n })
}

// Height, width, gap and mark of the component whose bytes start at byte `at`. Version 1 has no mark.
fn words_from(file: &[u8], version: Version, at: usize) -> [u16; 4]
    requires { (7 ≤ at) × (at + bytes_each (number_in version) ≤ length file.now) }
    ensures { result ≡ words_of (component_from (number_in version) file.now at) }
{
    let mark = match version {
        Version::First => 0,
        Version::Second => word_at(file, at + 6),
    };
    [
        word_at(file, at),
        word_at(file, at + 2),
        word_at(file, at + 4),
        mark,
    ]
}

impl StackFile<'_> {
    // The byte at which the component's bytes start that has i others before it.
    #[tactic(auto, using(crate::proofs::Valid::within))]
    fn start(&self, i: usize) -> usize
        requires { i < self.now.n }
        ensures value { result ≡ 7 + bytes_each (number_in self.now.version) * i }
        ensures upper_bound { result + bytes_each (number_in self.now.version) ≤ length self.now.file.now }
    {
        7 + self.version.bytes_each() * i
    }

    fn piece(&self, p: Position) -> Piece
        requires { p.before < self.now.n }
        ensures { result ≡ piece_of (component_at self.now.file.now p.before) }
    {
        let [height, width, gap, mark] = words_from(self.file, self.version, self.start(p.before));
        Piece {
            height,
            width,
            gap,
            barred: mark == 1,
        }
    }

    // Where the component's bytes stand that has i others before it.
    fn bytes(&self, i: usize) -> Range<usize>
        requires { i < self.now.n }
        ensures value { result ≡ place_at self.now.file.now i }
        ensures upper_bound { result.end ≤ length self.now.file.now }
    {
        let start = self.start(i);
        start..start + self.version.bytes_each()
    }
}

impl Components for StackFile<'_> {
    ghost count = { λ f. f.n };

    ghost at = { λ f. component_at f.file.now };

    fn len(&self) -> usize {
        self.n
    }

    fn component(&self, p: Position) -> Component {
        let [height, width, gap, mark] = words_from(self.file, self.version, self.start(p.before));
        Component {
            height: Rows(u32::from(height)),
            width: Slices(u32::from(width)),
            gap: Rows(u32::from(gap)),
            mark: u32::from(mark),
        }
    }
}

// Whether each component keeps the rule.
fn all_stand<R: Rule, L: Components>(list: &L) -> bool
    requires { L.count list.now ≤ most_apart }
    ensures { result ≡ every R.rule (tabulate (L.at list.now) (L.count list.now)) }
{
    // No list is longer. A position that has reached as many stays where it is: where the compiler sees that none does so before
    // the end, it need not ask at each step.
    let n = list.len().min(MOST_APART);
    let mut p = Position::first();
    // By positions, as document 01 asks: one moves on by a component and becomes the next.
    while p.before < n {
        let c = list.component(p);
        let last = p.before + 1 == n;
        if !R::stands(c, last) {
            return false;
        }
        p = p.next();
    }
    true
}

// Refusals 4 to 6 and 11 of components.
#[tactic(auto, using(crate::proofs::Columns::tabulated), unfolding(terms::specs::Component::stack_of))]
pub fn check_stack<L: Components>(list: &L, kind: Kind) -> Result<usize, Refusal>
    ensures value { answer_of result ≡ count_of (stack_of (most_of kind) (tabulate (L.at list.now) (L.count list.now))) }
    ensures count { IfOk result (λ n. (n ≡ L.count list.now) × (n ≤ most_apart)) }
{
    let n = list.len();
    if n == 0 || terms::most(kind) < n {
        return Err(Refusal::StackSize);
    }
    if !all_stand::<SizeRule, L>(list) {
        return Err(Refusal::BadComponent);
    }
    if !all_stand::<GapRule, L>(list) {
        return Err(Refusal::BadGap);
    }
    if !all_stand::<MarkRule, L>(list) {
        return Err(Refusal::BadMark);
    }
    Ok(n)
}

// The file with its count, where the check accepts it.
fn checked(file: &[u8], kind: Kind) -> Result<StackFile<'_>, Refusal>
    ensures count { mapped (λ f. f.n) (answer_of result) ≡ count_of (check_of kind file.now) }
    ensures same_file { IfOk result (λ f. f.file.now ≡ file.now) }
{
    let file = header(file)?;
    check_stack(&file, kind)?;
    Ok(file)
}

pub fn check(file: &[u8], kind: Kind) -> Result<usize, Refusal>
    ensures { answer_of result ≡ count_of (check_of kind file.now) }
{
    Ok(checked(file, kind)?.n)
}

// The file's n components as pieces, in front of what the list held.
fn fill_pieces(file: &StackFile<'_>, room: &mut [Piece])
    requires { Fillable file.now.file.now file.now.n (length room.old) }
    ensures { room.new ≡ column_into piece_of file.now.file.now file.now.n room.old }
{
    let mut p = Position::first();
    // By positions, as document 01 asks: one moves on by a component and becomes the next.
    while p.before < file.n {
        room[p.before] = file.piece(p);
        p = p.next();
    }
}

// The pieces into a list that is lent, in a call of the kind. `Stack::refill` is this with a list that is long enough: here alone
// the list may be too short.
pub fn read_pieces(file: &[u8], kind: Kind, room: &mut [Piece]) -> Result<usize, Refusal>
    ensures { Pieced kind file.now room.old (answer_of result) room.new }
{
    let checked = checked(file, kind)?;
    let n = checked.n;
    if room.len() < n {
        return Err(Refusal::ShortBuffer);
    }
    fill_pieces(&checked, room);
    Ok(n)
}

impl Stack {
    // No pieces.
    pub fn new() -> Stack
        ensures { result ≡ [] }
    {
        Stack {
            room: [Piece::EMPTY; MOST_APART],
            n: 0,
        }
    }

    // Reads in a call of the kind, in place of what was held; a refusal leaves that. The room stays where it is: a stack that is
    // handed out is copied.
    pub fn refill(&mut self, file: &[u8], kind: Kind) -> Result<(), Refusal>
        ensures answers { answer_of result ≡ mapped (λ pieces. tt) (pieces_of kind file.now) }
        ensures held { self.new ≡ refilled (pieces_of kind file.now) self.old }
    {
        let n = read_pieces(file, kind, &mut self.room)?;
        self.n = n;
        Ok(())
    }

    // Reads in a call of the kind.
    pub fn read(file: &[u8], kind: Kind) -> Result<Stack, Refusal>
        ensures { answer_of result ≡ pieces_of kind file.now }
    {
        let mut stack = Stack::new();
        stack.refill(file, kind)?;
        Ok(stack)
    }

    pub fn pieces(&self) -> &[Piece]
        ensures { result.now ≡ self.now }
    {
        &self.room[..self.n]
    }
}

// The file's n components into the four lists.
fn fill(
    file: &StackFile<'_>,
    heights: &mut [u16],
    widths: &mut [u16],
    gaps: &mut [u16],
    marks: &mut [u16],
)
    requires { Fillable file.now.file.now file.now.n
        (least_length heights.old widths.old gaps.old marks.old) }
    ensures { Filled file.now.file.now file.now.n
        heights.old widths.old gaps.old marks.old
        heights.new widths.new gaps.new marks.new }
{
    let mut p = Position::first();
    // By positions, as document 01 asks: one moves on by a component and becomes the next.
    while p.before < file.n {
        let i = p.before;
        let c = file.piece(p);
        heights[i] = c.height;
        widths[i] = c.width;
        gaps[i] = c.gap;
        marks[i] = u16::from(c.barred);
        p = p.next();
    }
}

pub fn read(
    file: &[u8],
    heights: &mut [u16],
    widths: &mut [u16],
    gaps: &mut [u16],
    marks: &mut [u16],
) -> Result<usize, Refusal>
    ensures { Read file.now
        heights.old widths.old gaps.old marks.old (answer_of result)
        heights.new widths.new gaps.new marks.new }
{
    let checked = checked(file, Kind::Apart)?;
    let n = checked.n;
    let sizes = heights.len().min(widths.len());
    let room = sizes.min(gaps.len()).min(marks.len());
    if room < n {
        return Err(Refusal::ShortBuffer);
    }
    fill(&checked, heights, widths, gaps, marks);
    Ok(n)
}

// Where the bytes of the component with that number stand in the file.
pub fn place(file: &[u8], number: usize) -> Option<Range<usize>>
    ensures value { result ≡ place_of file.now number }
    ensures in_file { IfSome result (λ at. at.end ≤ length file.now) }
{
    match checked(file, Kind::Apart) {
        Ok(f) if (1..=f.n).contains(&number) => Some(f.bytes(number - 1)),
        _ => None,
    }
}

pub fn lookup(file: &[u8], number: usize) -> &[u8]
    ensures { result.now ≡ lookup_of file.now number }
{
    match place(file, number) {
        Some(at) => &file[at],
        None => &file[..0],
    }
}
