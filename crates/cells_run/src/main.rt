// Runs both calls over rows of standard cells: over every line of a file of small rows, at each height and number of stacks that
// it lists, which is counted; then over rows at the edges, a line a case. Which cells end the stacks is free, so the list of ends
// is held against the row and the answer.
// A line: the cells' heights; heights, each with the least number of stacks, or `-` where there is none; numbers of stacks, each
// with the least height and the fewest stacks of that height. Bars part the three.
#![tactic(auto)]

use Goal::{ToCount, ToHeight};
use cells::{MOST_CELLS, MOST_ROW_LIMIT, Stacks};
use std::alloc::{AllocError, Global};
use std::fmt;
use std::io::{self, BufWriter, Read, Write};
use terms::{Refusal, Rows};

// As many bytes of standard input as are read.
const MOST_READ: u64 = 65536;

// What a list of ends holds before a call. No cell has this number.
const UNWRITTEN: u16 = u16::MAX;

// What a row is asked for.
#[derive(Clone, Copy, Debug, PartialEq, Eq)]
enum Goal {
    ToHeight(Rows),
    ToCount(u32),
}

// What a call answers, and whether the list of ends is as it should be then.
#[derive(Clone, Copy, Debug, PartialEq, Eq)]
struct Answer {
    stacks: Result<Stacks, Refusal>,
    holds: bool,
}

#[derive(Clone, Copy, Debug, PartialEq, Eq)]
struct Row<'a> {
    label: &'a str,
    heights: &'a [u16],
}

// What a line lists for one height or number of stacks: no stacks at all, or how many. Their height stands only behind a number
// of stacks.
#[derive(Clone, Copy, Debug, PartialEq, Eq)]
struct Wanted {
    goal: Goal,
    count: Option<u32>,
    height: Option<Rows>,
}

#[derive(Drop)]
struct Line {
    heights: Vec<u16>,
    wanted: Vec<Wanted>,
}

// What was compared, and what was not as listed.
#[derive(Clone, Copy, Debug, Default, PartialEq, Eq)]
struct Tally {
    compared: u32,
    wrong: u32,
}

impl fmt::Display for Goal {
    fn fmt<W: fmt::Write>(&self, f: &mut fmt::Formatter<W>) -> fmt::Result {
        match self {
            Goal::ToHeight(limit) => write!(f, "height at most {limit}"),
            Goal::ToCount(most) => write!(f, "stacks at most {most}"),
        }
    }
}

impl fmt::Display for Answer {
    fn fmt<W: fmt::Write>(&self, f: &mut fmt::Formatter<W>) -> fmt::Result {
        match self.stacks {
            Ok(Stacks { count, height }) => write!(f, "stacks {count}, height {height}")?,
            Err(k) => write!(f, "refused {}", k.number())?,
        }
        if self.holds {
            return Ok(());
        }
        f.write_str(", but the ends are wrong")
    }
}

impl Tally {
    fn count(&mut self, right: bool) {
        self.compared = self.compared.saturating_add(1);
        if !right {
            self.wrong = self.wrong.saturating_add(1);
        }
    }
}

fn untouched(ends: &[u16]) -> bool {
    ends.iter().all(|end| *end == UNWRITTEN)
}

fn height_of(stack: &[u16]) -> u32 {
    stack.iter().fold(
        0,
        |height: u32, cell| height.saturating_add(u32::from(*cell)),
    )
}

// The height of the highest stack, where the ends rise to the last cell.
fn greatest_height(heights: &[u16], ends: &[u16]) -> Option<Rows> {
    let mut before = 0;
    let mut greatest: u32 = 0;
    for end in ends {
        let stack = heights.get(before..usize::from(*end))?;
        if stack.is_empty() {
            return None;
        }
        greatest = greatest.max(height_of(stack));
        before = usize::from(*end);
    }
    (before == heights.len()).then_some(Rows(greatest))
}

impl Goal {
    fn allows(self, stacks: Stacks) -> bool {
        match self {
            Goal::ToHeight(limit) => stacks.height.0 <= limit.0,
            Goal::ToCount(most) => stacks.count <= most,
        }
    }
}

impl Row<'_> {
    fn call(self, goal: Goal, ends: &mut [u16]) -> Result<Stacks, Refusal> {
        match goal {
            Goal::ToHeight(limit) => cells::cells_to_height(self.heights, limit, ends),
            Goal::ToCount(most) => cells::cells_to_count(self.heights, most, ends),
        }
    }

    fn ends_with(self, stacks: Stacks, ends: &[u16]) -> bool {
        let Some((written, beyond)) = ends.split_at_checked(stacks.count as usize) else {
            return false;
        };
        greatest_height(self.heights, written) == Some(stacks.height) && untouched(beyond)
    }

    // The answer with a list of so many places.
    fn ask(self, alloc: Global, goal: Goal, places: usize) -> Result<Answer, AllocError> {
        let mut ends = vec![in alloc; UNWRITTEN; places]?;
        let stacks = self.call(goal, &mut ends);
        let holds = match stacks {
            Ok(stacks) => goal.allows(stacks) && self.ends_with(stacks, &ends),
            Err(_) => untouched(&ends),
        };
        Ok(Answer { stacks, holds })
    }
}

impl Wanted {
    fn has(self, answer: Answer) -> bool {
        let right = match answer.stacks {
            Ok(stacks) => {
                self.count == Some(stacks.count)
                    && self.height.is_none_or(|height| height == stacks.height)
            }
            Err(k) => self.count.is_none() && k == Refusal::Unmeetable,
        };
        right && answer.holds
    }

    // A height with its number of stacks, or `-`.
    fn to_height(text: &str) -> Option<Wanted> {
        let (limit, count) = text.trim().split_once(' ')?;
        Some(Wanted {
            goal: Goal::ToHeight(Rows(limit.parse().ok()?)),
            count: count.parse().ok(),
            height: None,
        })
    }

    // A number of stacks with the least height and its number of stacks.
    fn to_count(text: &str) -> Option<Wanted> {
        let (most, stacks) = text.trim().split_once(' ')?;
        let (height, count) = stacks.split_once(' ')?;
        Some(Wanted {
            goal: Goal::ToCount(most.parse().ok()?),
            count: Some(count.parse().ok()?),
            height: Some(Rows(height.parse().ok()?)),
        })
    }
}

// A field of a line, from 0 on.
fn field(text: &str, k: usize) -> &str {
    text.split('|').nth(k).unwrap_or_default()
}

impl Line {
    fn read(alloc: Global, text: &str) -> Result<Line, AllocError> {
        let heights = field(text, 0).split_whitespace();
        let to_heights = field(text, 1).split(',').filter_map(Wanted::to_height);
        let to_counts = field(text, 2).split(',').filter_map(Wanted::to_count);
        Ok(Line {
            heights: heights
                .filter_map(|height| height.parse().ok())
                .collect(alloc)?,
            wanted: to_heights.chain(to_counts).collect(alloc)?,
        })
    }
}

// With a place more than there are cells; with a place for each stack; and with one place less. Where there are no stacks, with
// no place too.
fn wanted_cases(
    alloc: Global,
    row: Row,
    wanted: Wanted,
    tally: &mut Tally,
) -> Result<(), AllocError> {
    let goal = wanted.goal;
    let room = row.heights.len().saturating_add(1);
    tally.count(wanted.has(row.ask(alloc, goal, room)?));
    let enough = wanted.count.map_or(0, |count| count as usize);
    tally.count(wanted.has(row.ask(alloc, goal, enough)?));
    if 0 < enough {
        let short = Answer {
            stacks: Err(Refusal::ShortBuffer),
            holds: true,
        };
        tally.count(row.ask(alloc, goal, enough - 1)? == short);
    }
    Ok(())
}

fn line_cases(alloc: Global, line: &Line, tally: &mut Tally) -> Result<(), AllocError> {
    let row = Row {
        label: "",
        heights: &line.heights,
    };
    for wanted in &line.wanted {
        wanted_cases(alloc, row, *wanted, tally)?;
    }
    Ok(())
}

fn file_cases(out: &mut impl Write, alloc: Global, text: &str) -> io::Result<()> {
    let mut tally = Tally::default();
    for line in text.lines() {
        line_cases(alloc, &Line::read(alloc, line)?, &mut tally)?;
    }
    writeln!(out, "rows {}", text.lines().count())?;
    writeln!(out, "compared {}", tally.compared)?;
    writeln!(out, "not as listed {}", tally.wrong)
}

// A goal with a list of so many places.
fn row_cases(
    out: &mut impl Write,
    alloc: Global,
    row: Row,
    asked: &[(Goal, usize)],
) -> io::Result<()> {
    let label = row.label;
    for (goal, places) in asked {
        let answer = row.ask(alloc, *goal, *places)?;
        writeln!(out, "{label}, {goal}, places {places}: {answer}")?;
    }
    Ok(())
}

fn low_cases(out: &mut impl Write, alloc: Global) -> io::Result<()> {
    let heights: Vec<u16> = vec![in alloc; 1; MOST_CELLS]?;
    let row = Row {
        label: "60000 of height 1",
        heights: &heights,
    };
    let asked = [
        (ToHeight(Rows(1)), 60001),
        (ToHeight(Rows(1)), 60000),
        (ToHeight(Rows(1)), 59999),
        (ToHeight(Rows(7)), 8572),
        (ToHeight(Rows(7)), 8571),
        (ToHeight(Rows(60000)), 60000),
        (ToHeight(Rows(MOST_ROW_LIMIT)), 1),
        (ToCount(1), 1),
        (ToCount(7), 60000),
        (ToCount(59999), 30000),
        (ToCount(60000), 60000),
        (ToCount(60000), 59999),
        (ToCount(MOST_ROW_LIMIT), 60001),
    ];
    row_cases(out, alloc, row, &asked)
}

fn tall_cases(out: &mut impl Write, alloc: Global) -> io::Result<()> {
    let heights: Vec<u16> = vec![in alloc; 4000; MOST_CELLS]?;
    let row = Row {
        label: "60000 of height 4000",
        heights: &heights,
    };
    let asked = [
        (ToHeight(Rows(3999)), 60000),
        (ToHeight(Rows(4000)), 60000),
        (ToHeight(Rows(7999)), 60000),
        (ToHeight(Rows(8000)), 30000),
        (ToHeight(Rows(8000)), 29999),
        (ToHeight(Rows(120000000)), 60000),
        (ToHeight(Rows(MOST_ROW_LIMIT)), 60000),
        (ToCount(1), 60000),
        (ToCount(2), 60000),
        (ToCount(59999), 60000),
        (ToCount(60000), 60000),
        (ToCount(MOST_ROW_LIMIT), 60000),
        (ToCount(MOST_ROW_LIMIT), 59999),
    ];
    row_cases(out, alloc, row, &asked)
}

// The heights 1 to 4,000, fifteen times.
fn rising_cases(out: &mut impl Write, alloc: Global) -> io::Result<()> {
    let heights: Vec<u16> = (0..15).flat_map(|_| 1..=4000).collect(alloc)?;
    let row = Row {
        label: "15 times 1 to 4000",
        heights: &heights,
    };
    let asked = [
        (ToHeight(Rows(3999)), 60000),
        (ToHeight(Rows(4000)), 60000),
        (ToHeight(Rows(8002000)), 15),
        (ToHeight(Rows(MOST_ROW_LIMIT)), 60000),
        (ToCount(1), 60000),
        (ToCount(10), 60000),
        (ToCount(15), 60000),
        (ToCount(1000), 60000),
        (ToCount(60000), 60000),
        (ToCount(MOST_ROW_LIMIT), 60000),
    ];
    row_cases(out, alloc, row, &asked)
}

// The refusal 12, first of all.
fn size_cases(out: &mut impl Write, alloc: Global) -> io::Result<()> {
    let zeros: Vec<u16> = vec![in alloc; 0; MOST_CELLS + 1]?;
    let ones: Vec<u16> = vec![in alloc; 1; MOST_CELLS + 1]?;
    let asked = [
        (ToHeight(Rows(1)), 60001),
        (ToCount(1), 60001),
        (ToHeight(Rows(0)), 0),
        (ToCount(MOST_ROW_LIMIT + 1), 0),
    ];
    row_cases(
        out,
        alloc,
        Row {
            label: "none",
            heights: &[],
        },
        &asked,
    )?;
    row_cases(
        out,
        alloc,
        Row {
            label: "60001 of height 1",
            heights: &ones,
        },
        &asked,
    )?;
    row_cases(
        out,
        alloc,
        Row {
            label: "60001 of height 0",
            heights: &zeros,
        },
        &asked,
    )
}

// Then 5, before 7.
fn bad_height_cases(out: &mut impl Write, alloc: Global) -> io::Result<()> {
    let asked = [
        (ToHeight(Rows(4000)), 2),
        (ToCount(1), 2),
        (ToHeight(Rows(0)), 0),
        (ToHeight(Rows(MOST_ROW_LIMIT + 1)), 2),
        (ToCount(0), 2),
        (ToCount(MOST_ROW_LIMIT + 1), 0),
    ];
    row_cases(
        out,
        alloc,
        Row {
            label: "heights 1 0",
            heights: &[1, 0],
        },
        &asked,
    )?;
    row_cases(
        out,
        alloc,
        Row {
            label: "heights 4001 1",
            heights: &[4001, 1],
        },
        &asked,
    )
}

// Then 7, before 9 and 8; then 9, before 8.
fn limit_cases(out: &mut impl Write, alloc: Global) -> io::Result<()> {
    let row = Row {
        label: "heights 3 5 3",
        heights: &[3, 5, 3],
    };
    let asked = [
        (ToHeight(Rows(0)), 3),
        (ToHeight(Rows(0)), 0),
        (ToHeight(Rows(MOST_ROW_LIMIT + 1)), 0),
        (ToCount(0), 0),
        (ToCount(MOST_ROW_LIMIT + 1), 0),
        (ToHeight(Rows(4)), 0),
        (ToHeight(Rows(4)), 1),
        (ToHeight(Rows(4)), 3),
        (ToHeight(Rows(4)), 9),
    ];
    row_cases(out, alloc, row, &asked)
}

// Then 8, where a list has a place too few. More stacks may be given than there are cells, or than the least height has.
fn room_cases(out: &mut impl Write, alloc: Global) -> io::Result<()> {
    let row = Row {
        label: "heights 3 5 3",
        heights: &[3, 5, 3],
    };
    let asked = [
        (ToHeight(Rows(5)), 3),
        (ToHeight(Rows(5)), 2),
        (ToHeight(Rows(8)), 2),
        (ToHeight(Rows(8)), 1),
        (ToHeight(Rows(11)), 1),
        (ToHeight(Rows(11)), 0),
        (ToCount(1), 1),
        (ToCount(1), 0),
        (ToCount(2), 2),
        (ToCount(2), 1),
        (ToCount(4), 3),
        (ToCount(4), 2),
        (ToCount(MOST_ROW_LIMIT), 9),
    ];
    row_cases(out, alloc, row, &asked)?;
    let row = Row {
        label: "heights 9 1 1 9",
        heights: &[9, 1, 1, 9],
    };
    let asked = [(ToCount(3), 3), (ToCount(4), 3), (ToCount(5), 2)];
    row_cases(out, alloc, row, &asked)?;
    let row = Row {
        label: "height 4000",
        heights: &[4000],
    };
    let asked = [
        (ToHeight(Rows(4000)), 1),
        (ToCount(1), 1),
        (ToCount(60000), 2),
    ];
    row_cases(out, alloc, row, &asked)
}

fn main(rt: HostRuntime) -> io::Result<()> {
    let alloc = rt.alloc();
    let text = io::read_to_string(alloc, rt.reader().take(MOST_READ))?;
    let mut out = BufWriter::new(alloc, io::writer(&rt))?;
    file_cases(&mut out, alloc, &text)?;
    low_cases(&mut out, alloc)?;
    tall_cases(&mut out, alloc)?;
    rising_cases(&mut out, alloc)?;
    size_cases(&mut out, alloc)?;
    bad_height_cases(&mut out, alloc)?;
    limit_cases(&mut out, alloc)?;
    room_cases(&mut out, alloc)?;
    out.flush()
}
