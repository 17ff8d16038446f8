// Runs every line of a file of small stacks and their outline tables through the table, the smallest area and both folds, at
// each outline and between outlines, and counts: as the file that the line lists, and as the file that the writer makes of it.
// A line: components as height/width/gap, the apart table, the nested table, parted by bars. Where components are
// height/width/gap/mark, the smallest area apart, nested and the sum of the components' cells follow; the sum is not asked for.
#![tactic(auto)]

use folding::Outline;
use stack::Version;
use std::io::{self, BufWriter, Read, Write};
use terms::{Kind, LEAST_WORK, MOST_LIMIT, Refusal, Rows, Slices};

// As many bytes of standard input as are read.
const MOST_READ: u64 = 65536;

// No line lists a stack of more components, or a table of more outlines.
const MOST: usize = 12;

const OUTLINES: usize = 32;

// The bytes of a stack file of so many components.
const MOST_BYTES: usize = 7 + 8 * MOST;

// A number that has reached this takes no more digits.
const MOST_READ_ON: u32 = 100000000;

// What was compared, and what was not as listed.
#[derive(Clone, Copy, Debug, Default, PartialEq, Eq)]
struct Tally {
    compared: u32,
    wrong: u32,
}

impl Tally {
    fn count(&mut self, right: bool) {
        self.compared = self.compared.saturating_add(1);
        if !right {
            self.wrong = self.wrong.saturating_add(1);
        }
    }
}

// What a folding is asked for.
#[derive(Clone, Copy, Debug, PartialEq, Eq)]
enum Goal {
    ToHeight(Rows),
    ToWidth(Slices),
    SmallestArea,
}

// A file of at most MOST components, how it is folded, and the numbers of the table that is listed for that.
#[derive(Clone, Copy, Debug, PartialEq, Eq)]
struct Stack<'a> {
    file: &'a [u8],
    kind: Kind,
    table: &'a [u32],
}

fn outline(pair: &[u32; 2]) -> Outline {
    let [width, height] = *pair;
    Outline {
        width: Slices(width),
        height: Rows(height),
    }
}

impl Stack<'_> {
    // With every number of the work buffer alike before.
    fn fold(self, goal: Goal, placements: &mut [u32], before: u32) -> Result<Outline, Refusal> {
        let mut work = [before; LEAST_WORK];
        match goal {
            Goal::ToHeight(limit) => {
                fold::to_height(self.file, self.kind, limit, placements, &mut work)
            }
            Goal::ToWidth(limit) => {
                fold::to_width(self.file, self.kind, limit, placements, &mut work)
            }
            Goal::SmallestArea => {
                fold_area::smallest_area(self.file, self.kind, placements, &mut work)
            }
        }
    }

    // Whether the folding has the outline, and measuring it gives the same.
    fn folds(self, goal: Goal, outline: Outline) -> bool {
        let mut placements = [4000000000u32; 3 * MOST];
        let answer = self.fold(goal, &mut placements, 7);
        answer == Ok(outline) && measure::measure(self.file, self.kind, &placements) == Ok(outline)
    }

    fn has_no_folding(self, goal: Goal) -> bool {
        self.fold(goal, &mut [0; 3 * MOST], 0) == Err(Refusal::Unmeetable)
    }

    fn has_table(self) -> bool {
        let mut pairs = [0u32; 2 * OUTLINES];
        let mut work = [9u32; LEAST_WORK];
        let answer = fold_table::table(self.file, self.kind, &mut pairs, &mut work);
        answer == Ok(self.table.len() / 2) && pairs.starts_with(self.table)
    }

    // The line of smallest area; of equals the first, which is the narrowest.
    fn has_smallest_of_table(self) -> bool {
        let (pairs, _) = self.table.as_chunks::<2>();
        let smallest = pairs
            .iter()
            .min_by_key(|[width, height]| best::product(*width, *height));
        smallest.is_some_and(|pair| self.folds(Goal::SmallestArea, outline(pair)))
    }

    // An outline of the table, at its own sizes and at the greatest limits that it is still the best for.
    fn outline_case(self, pair: &[u32; 2], height: u32, width: u32, tally: &mut Tally) {
        let o = outline(pair);
        tally.count(self.folds(Goal::ToHeight(o.height), o));
        tally.count(self.folds(Goal::ToHeight(Rows(height)), o));
        tally.count(self.folds(Goal::ToWidth(o.width), o));
        tally.count(self.folds(Goal::ToWidth(Slices(width)), o));
    }

    // Up to below the height of the outline before, and below the width of the next one.
    fn outline_cases(self, tally: &mut Tally) {
        let (pairs, _) = self.table.as_chunks::<2>();
        let mut next_widths = self.table.iter().skip(2).step_by(2);
        let mut height = MOST_LIMIT;
        for pair in pairs {
            let width = match next_widths.next() {
                Some(next) => next.saturating_sub(1),
                None => MOST_LIMIT,
            };
            self.outline_case(pair, height, width, tally);
            height = pair[1].saturating_sub(1);
        }
    }

    // Below the narrowest and below the lowest there is none.
    fn below_cases(self, tally: &mut Tally) {
        if let (Some(narrowest), Some(lowest)) = (self.table.first(), self.table.last()) {
            let width = narrowest.saturating_sub(1);
            let height = lowest.saturating_sub(1);
            if 0 < width {
                tally.count(self.has_no_folding(Goal::ToWidth(Slices(width))));
            }
            if 0 < height {
                tally.count(self.has_no_folding(Goal::ToHeight(Rows(height))));
            }
        }
    }
}

// A field of a line, from 0 on. One that is not there is empty.
fn field(line: &[u8], k: usize) -> &[u8] {
    line.split(|b| *b == b'|').nth(k).unwrap_or_default()
}

// The number that some digits say.
fn number(digits: &[u8]) -> u32 {
    let mut n = 0;
    for digit in digits {
        if n < MOST_READ_ON {
            n = 10 * n + u32::from(digit.saturating_sub(b'0'));
        }
    }
    n
}

// All numbers of a text, whatever stands between them, as far as there is room.
fn numbers<'a>(text: &[u8], room: &'a mut [u32]) -> &'a [u32] {
    let runs = text.split(|b| !b.is_ascii_digit());
    let mut n: usize = 0;
    for (place, run) in room.iter_mut().zip(runs.filter(|run| !run.is_empty())) {
        *place = number(run);
        n = n.saturating_add(1);
    }
    room.get(..n).unwrap_or_default()
}

// Lines with marks have a field for the smallest area.
fn version(line: &[u8]) -> Version {
    if field(line, 3).is_empty() {
        Version::First
    } else {
        Version::Second
    }
}

// The stack file of a line, its numbers in the order in which they stand: the writer makes no version 1.
fn listed_file<'a>(line: &[u8], file: &'a mut [u8; MOST_BYTES]) -> &'a [u8] {
    let mut room = [0u32; 4 * MOST];
    let sizes = numbers(field(line, 0), &mut room);
    let version = version(line);
    let count = sizes.len() / (version.bytes_each() / 2);
    let header = [u16::from(version), u16::try_from(count).unwrap_or(0)];
    file[..3].copy_from_slice(b"STK");
    let (words, _) = file[3..].as_chunks_mut::<2>();
    let listed = sizes.iter().map(|size| (size % 65536) as u16);
    for (place, word) in words.iter_mut().zip(header.into_iter().chain(listed)) {
        *place = word.to_le_bytes();
    }
    file.get(..7 + 2 * sizes.len()).unwrap_or_default()
}

// The smallest area, where the line lists it.
fn area_case(stack: Stack, area: &[u8], tally: &mut Tally) {
    let mut room = [0u32; 2];
    let (pairs, _) = numbers(area, &mut room).as_chunks::<2>();
    for pair in pairs {
        tally.count(stack.folds(Goal::SmallestArea, outline(pair)));
    }
}

fn kind_cases(file: &[u8], kind: Kind, pairs: &[u8], area: &[u8], tally: &mut Tally) {
    let mut room = [0u32; 2 * OUTLINES];
    let table = numbers(pairs, &mut room);
    let stack = Stack { file, kind, table };
    tally.count(stack.has_table());
    tally.count(stack.has_smallest_of_table());
    stack.outline_cases(tally);
    stack.below_cases(tally);
    area_case(stack, area, tally);
}

fn file_cases(file: &[u8], line: &[u8], tally: &mut Tally) {
    kind_cases(file, Kind::Apart, field(line, 1), field(line, 3), tally);
    kind_cases(file, Kind::Nested, field(line, 2), field(line, 4), tally);
}

// The file that the writer makes of what reading gives.
fn written<'a>(file: &[u8], out: &'a mut [u8]) -> Option<&'a [u8]> {
    let mut heights = [0u16; MOST];
    let mut widths = [0u16; MOST];
    let mut gaps = [0u16; MOST];
    let mut marks = [0u16; MOST];
    let n = stack::read(file, &mut heights, &mut widths, &mut gaps, &mut marks).ok()?;
    let end = stack_write::write(&heights[..n], &widths[..n], &gaps[..n], &marks[..n], out).ok()?;
    out.get(..end)
}

// Where there is no such file, its cases are those of an empty one.
fn line_cases(line: &[u8], tally: &mut Tally) {
    let mut room = [0; MOST_BYTES];
    let file = listed_file(line, &mut room);
    file_cases(file, line, tally);
    let mut again = [0; MOST_BYTES];
    file_cases(written(file, &mut again).unwrap_or_default(), line, tally);
}

fn main(rt: HostRuntime) -> io::Result<()> {
    let mut out = BufWriter::new(rt.alloc(), io::writer(&rt))?;
    let mut text = Vec::new(rt.alloc());
    rt.reader().take(MOST_READ).read_to_end(&mut text)?;
    let mut tally = Tally::default();
    let mut stacks: u32 = 0;
    for line in text.split_inclusive(|b| *b == b'\n') {
        line_cases(line.strip_suffix(b"\n").unwrap_or(line), &mut tally);
        stacks = stacks.saturating_add(1);
    }
    writeln!(out, "stacks {stacks}")?;
    writeln!(out, "compared {}", tally.compared)?;
    writeln!(out, "not as listed {}", tally.wrong)?;
    out.flush()
}
