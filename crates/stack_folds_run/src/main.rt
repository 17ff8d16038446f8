// Runs the twelve calls on stack E, on E with a fold barred, on refused files and on a row of cells, and writes their numbers,
// a line a case.
#![tactic(auto)]

use stack_folds::{
    Count, Extent, Part, Stacking, folds_cells_to_count, folds_cells_to_height, folds_check,
    folds_choose, folds_lookup, folds_measure, folds_read, folds_smallest_area, folds_table,
    folds_to_height, folds_to_width, folds_write,
};
use std::fmt;
use std::io::{self, BufWriter, Write};
use terms::LEAST_WORK;

// Stack E: heights 1, widths 3, 1, 1, 3, gaps 0.
const E: [u8; 31] =
    *b"STK\x01\0\x04\0\x01\0\x03\0\0\0\x01\0\x01\0\0\0\x01\0\x01\0\0\0\x01\0\x03\0\0\0";

// E in version 2, barred after its second component, whose gap of 5 then never counts.
const BARRED: [u8; 39] =
    *b"STK\x02\0\x04\0\x01\0\x03\0\0\0\0\0\x01\0\x01\0\x05\0\x01\0\x01\0\x01\0\0\0\0\0\x01\0\x03\0\0\0\0\0";

// Version 3.
const OTHER: [u8; 7] = *b"STK\x03\0\0\0";

// One component, whose mark is 1.
const LAST: [u8; 15] = *b"STK\x02\0\x01\0\x01\0\x01\0\0\0\x01\0";

// The four components one above the other, with a fold after the second, and as two groups there without a right side.
const FLAT: [u32; 12] = [0, 0, 3, 0, 0, 2, 0, 0, 1, 0, 0, 0];

const FOLDED: [u32; 12] = [0, 0, 1, 0, 0, 0, 0, 1, 0, 0, 1, 2];

const PARTED: [u32; 12] = [0, 0, 1, 0, 0, 0, 1, 0, 1, 1, 0, 0];

// A row of cells. At most 7 high they stand in two stacks in one way only, and in four at most 4 high.
const CELLS: [u16; 6] = [3, 1, 2, 2, 4, 1];

// A file, whether it is folded nested, and what its lines begin with.
#[derive(Clone, Copy, Debug, PartialEq, Eq)]
struct Stack<'a> {
    label: &'a str,
    file: &'a [u8],
    nested: bool,
}

// Two stacks in both kinds.
const STACKS: [Stack; 4] = [
    Stack {
        label: "apart",
        file: &E,
        nested: false,
    },
    Stack {
        label: "nested",
        file: &E,
        nested: true,
    },
    Stack {
        label: "barred apart",
        file: &BARRED,
        nested: false,
    },
    Stack {
        label: "barred nested",
        file: &BARRED,
        nested: true,
    },
];

// Numbers as they are printed, each behind a blank.
#[derive(Clone, Copy, Debug, PartialEq, Eq)]
struct Spaced<'a, T>(&'a [T]);

impl<T: fmt::Display> fmt::Display for Spaced<'_, T> {
    fn fmt<W: fmt::Write>(&self, f: &mut fmt::Formatter<W>) -> fmt::Result {
        for x in self.0 {
            write!(f, " {x}")?;
        }
        Ok(())
    }
}

fn say_count(out: &mut impl Write, label: &str, c: Count) -> io::Result<()> {
    writeln!(out, "{label} {} {}", c.refusal, c.count)
}

fn say_extent(out: &mut impl Write, label: &str, call: &str, e: Extent) -> io::Result<()> {
    writeln!(out, "{label} {call} {} {} {}", e.refusal, e.width, e.height)
}

fn lookup_case(out: &mut impl Write, label: &str, file: &[u8], number: usize) -> io::Result<()> {
    let Part { start, length } = folds_lookup(file, number);
    writeln!(out, "{label} {number} {start} {length}")
}

// The first component, the last, and one that is not there.
fn lookup_cases(out: &mut impl Write, label: &str, file: &[u8]) -> io::Result<()> {
    for number in [1, 4, 5] {
        lookup_case(out, label, file, number)?;
    }
    Ok(())
}

fn file_cases(out: &mut impl Write) -> io::Result<()> {
    say_count(out, "check", folds_check(&E, true))?;
    say_count(out, "check barred", folds_check(&BARRED, true))?;
    say_count(out, "check other", folds_check(&OTHER, true))?;
    say_count(out, "check last", folds_check(&LAST, false))?;
    lookup_cases(out, "lookup", &E)?;
    lookup_cases(out, "barred lookup", &BARRED)?;
    lookup_case(out, "last lookup", &LAST, 1)
}

// What reading gives, and the file that the writer makes of it.
fn list_cases(out: &mut impl Write, file: &[u8], written: &mut [u8]) -> io::Result<()> {
    let mut h = [9u16; 4];
    let mut w = [9u16; 4];
    let mut g = [9u16; 4];
    let mut m = [9u16; 4];
    say_count(
        out,
        "read",
        folds_read(file, &mut h, &mut w, &mut g, &mut m),
    )?;
    writeln!(out, "heights{}", Spaced(&h))?;
    writeln!(out, "widths{}", Spaced(&w))?;
    writeln!(out, "gaps{}", Spaced(&g))?;
    writeln!(out, "marks{}", Spaced(&m))?;
    say_count(out, "write", folds_write(&h, &w, &g, &m, written))
}

// Read, written, and read again.
fn file_twice(out: &mut impl Write, file: &[u8]) -> io::Result<()> {
    let mut written = [0u8; 39];
    let mut again = [0u8; 38];
    list_cases(out, file, &mut written)?;
    list_cases(out, &written, &mut again)
}

// Foldings of a file's four components, each with its name and whether it is nested.
fn measure_cases(
    out: &mut impl Write,
    label: &str,
    file: &[u8],
    foldings: &[(&str, bool, [u32; 12])],
) -> io::Result<()> {
    for (name, nested, flat) in foldings {
        say_extent(out, label, name, folds_measure(file, *nested, flat))?;
    }
    Ok(())
}

// Nested and apart, the nested folding beside the apart one, and two groups without a right side, which stand apart only.
fn placement_cases(out: &mut impl Write) -> io::Result<()> {
    let foldings = [
        ("apart", false, FLAT),
        ("nested", true, FOLDED),
        ("folded apart", false, FOLDED),
        ("parted apart", false, PARTED),
        ("parted nested", true, PARTED),
    ];
    measure_cases(out, "measure", &E, &foldings)?;
    let second = folds_choose(&E, true, &FLAT, &FOLDED);
    let first = folds_choose(&E, true, &FOLDED, &FLAT);
    let neither = folds_choose(&E, false, &FLAT, &FOLDED);
    writeln!(out, "choose second {second}")?;
    writeln!(out, "choose first {first}")?;
    writeln!(out, "choose neither {neither}")?;
    let parted = folds_choose(&E, true, &PARTED, &FOLDED);
    writeln!(out, "choose parted {parted}")
}

// A fold, or a next group, behind the second component is barred; one behind the third is not.
fn barred_cases(out: &mut impl Write) -> io::Result<()> {
    let later = [0, 0, 2, 0, 0, 1, 0, 0, 0, 0, 1, 0];
    let foldings = [
        ("flat", false, FLAT),
        ("folded", true, FOLDED),
        ("parted", false, PARTED),
        ("later", true, later),
    ];
    measure_cases(out, "barred measure", &BARRED, &foldings)?;
    let neither = folds_choose(&BARRED, true, &later, &FOLDED);
    writeln!(out, "barred choose neither {neither}")
}

impl Stack<'_> {
    fn fold_cases(self, out: &mut impl Write) -> io::Result<()> {
        let Stack {
            label,
            file,
            nested,
        } = self;
        let mut placements = [0u32; 12];
        let mut work = [0u32; LEAST_WORK];
        let low = folds_to_height(file, nested, 2, &mut placements, &mut work);
        say_extent(out, label, "to height 2", low)?;
        let three = folds_to_width(file, nested, 3, &mut placements, &mut work);
        say_extent(out, label, "to width 3", three)?;
        let two = folds_to_width(file, nested, 2, &mut placements, &mut work);
        say_extent(out, label, "to width 2", two)?;
        let smallest = folds_smallest_area(file, nested, &mut placements, &mut work);
        say_extent(out, label, "smallest area", smallest)
    }

    // Three pairs, and what the fourth place held before.
    fn table_case(self, out: &mut impl Write) -> io::Result<()> {
        let mut pairs = [9u32; 8];
        let mut work = [0u32; LEAST_WORK];
        let Count { refusal, count } = folds_table(self.file, self.nested, &mut pairs, &mut work);
        writeln!(out, "{} table {refusal} {count}", self.label)?;
        writeln!(out, "{}", Spaced(&pairs))
    }
}

fn say_stacks(out: &mut impl Write, call: &str, stacks: Stacking, ends: &[u16]) -> io::Result<()> {
    let Stacking {
        refusal,
        count,
        height,
    } = stacks;
    writeln!(
        out,
        "cells {call} {refusal} {count} {height}, ends{}",
        Spaced(ends)
    )
}

// A place more than there are cells, one, or none.
fn cell_cases(out: &mut impl Write) -> io::Result<()> {
    let mut ends = [9u16; 7];
    let low = folds_cells_to_height(&CELLS, 3, &mut ends);
    say_stacks(out, "to height 3", low, &ends)?;
    let two = folds_cells_to_height(&CELLS, 7, &mut ends);
    say_stacks(out, "to height 7", two, &ends)?;
    let four = folds_cells_to_count(&CELLS, 6, &mut ends);
    say_stacks(out, "to count 6", four, &ends)?;
    let mut place = [9u16; 1];
    let short = folds_cells_to_count(&CELLS, 2, &mut place);
    say_stacks(out, "to count 2", short, &place)?;
    let none = folds_cells_to_height(&[], 0, &mut place);
    say_stacks(out, "none", none, &place)
}

fn main(rt: HostRuntime) -> io::Result<()> {
    let mut out = BufWriter::new(rt.alloc(), io::writer(&rt))?;
    file_cases(&mut out)?;
    file_twice(&mut out, &E)?;
    file_twice(&mut out, &BARRED)?;
    placement_cases(&mut out)?;
    barred_cases(&mut out)?;
    for stack in STACKS {
        stack.fold_cases(&mut out)?;
    }
    for stack in STACKS {
        stack.table_case(&mut out)?;
    }
    cell_cases(&mut out)?;
    out.flush()
}
