// Measures foldings, flat and as structs, and chooses between them at the rules' edges, and writes what each call answers,
// a line a case.
#![tactic(auto)]

ghost use Rattle.std.specs.Prelude.{◌≡◌, ◌≤◌};
ghost use Rattle.terms.specs.Answer.{answer_of};
ghost use Rattle.folding.specs.Calls.{measure_of};
ghost use Rattle.folding.specs.Placement.{flat_of};

use folding::{Outline, Placement};
use measure::{choose, measure};
use std::fmt;
use std::io::{self, BufWriter, Write};
use terms::Kind::{Apart, Nested};
use terms::{Kind, Refusal};

// Heights 3, 1, 2, 4, widths 1, gaps 0.
const PLAIN: [u8; 31] =
    *b"STK\x01\0\x04\0\x03\0\x01\0\0\0\x01\0\x01\0\0\0\x02\0\x01\0\0\0\x04\0\x01\0\0\0";

// Heights 2, 3, 1, widths 4, 5, 6, gaps 7, 8, 0.
const GAPPED: [u8; 25] = *b"STK\x01\0\x03\0\x02\0\x04\0\x07\0\x03\0\x05\0\x08\0\x01\0\x06\0\0\0";

// As GAPPED, behind a component of height 1 and width 1.
const LATER_GAPPED: [u8; 31] =
    *b"STK\x01\0\x04\0\x01\0\x01\0\0\0\x02\0\x04\0\x07\0\x03\0\x05\0\x08\0\x01\0\x06\0\0\0";

// Heights 2, 3, widths 4, 5, gaps 7, 0.
const SHORT: [u8; 19] = *b"STK\x01\0\x02\0\x02\0\x04\0\x07\0\x03\0\x05\0\0\0";

// As PLAIN, with a fold barred after the second component and a gap of 9 there.
const BARRED: [u8; 39] =
    *b"STK\x02\0\x04\0\x03\0\x01\0\0\0\0\0\x01\0\x01\0\x09\0\x01\0\x02\0\x01\0\0\0\0\0\x04\0\x01\0\0\0\0\0";

// As BARRED, behind a component of height 1: the fold is barred after the third.
const LATER_BARRED: [u8; 47] =
    *b"STK\x02\0\x05\0\x01\0\x01\0\0\0\0\0\x03\0\x01\0\0\0\0\0\x01\0\x01\0\x09\0\x01\0\x02\0\x01\0\0\0\0\0\x04\0\x01\0\0\0\0\0";

// As GAPPED, with a fold barred after the first component.
const BARRED_GAPPED: [u8; 31] =
    *b"STK\x02\0\x03\0\x02\0\x04\0\x07\0\x01\0\x03\0\x05\0\x08\0\0\0\x01\0\x06\0\0\0\0\0";

// What measuring answers, as it is printed: an outline's width and height, or a refusal's number.
#[derive(Clone, Copy, Debug, PartialEq, Eq)]
struct Measured(Result<Outline, Refusal>);

impl fmt::Display for Measured {
    fn fmt<W: fmt::Write>(&self, f: &mut fmt::Formatter<W>) -> fmt::Result {
        match self.0 {
            Ok(o) => write!(f, "{} {}", o.width, o.height),
            Err(k) => write!(f, "refused {}", k.number()),
        }
    }
}

fn case(
    out: &mut impl Write,
    label: &str,
    file: &[u8],
    kind: Kind,
    flat: &[u32],
) -> io::Result<()> {
    writeln!(out, "{label} {}", Measured(measure(file, kind, flat)))
}

// Foldings of one stack, each with its name and with a group, a side and a start row for each component. What all of them are
// stands before each name.
fn cases<const N: usize>(
    out: &mut impl Write,
    all: &str,
    file: &[u8],
    foldings: &[(&str, Kind, [[u32; 3]; N])],
) -> io::Result<()> {
    for (label, kind, flat) in foldings {
        write!(out, "{all}")?;
        case(out, label, file, *kind, flat.as_flattened())?;
    }
    Ok(())
}

fn range_cases(out: &mut impl Write) -> io::Result<()> {
    let foldings = [
        (
            "one group",
            Apart,
            [[0, 0, 7], [0, 0, 6], [0, 0, 4], [0, 0, 0]],
        ),
        (
            "side 2",
            Nested,
            [[0, 0, 7], [0, 0, 6], [0, 0, 4], [0, 2, 0]],
        ),
        (
            "start 1024000",
            Apart,
            [[0, 0, 1024000], [0, 0, 6], [0, 0, 4], [0, 0, 0]],
        ),
        (
            "start 1024001",
            Apart,
            [[0, 0, 1024001], [0, 0, 6], [0, 0, 4], [0, 0, 0]],
        ),
        (
            "start 4294967295",
            Apart,
            [[0, 0, 4294967295], [0, 0, 6], [0, 0, 4], [0, 0, 0]],
        ),
    ];
    cases(out, "", &PLAIN, &foldings)
}

fn order_cases(out: &mut impl Write) -> io::Result<()> {
    let foldings = [
        (
            "first group 1",
            Apart,
            [[1, 0, 7], [1, 0, 6], [1, 0, 4], [1, 0, 0]],
        ),
        (
            "group skipped",
            Apart,
            [[0, 0, 1], [0, 0, 0], [2, 0, 4], [2, 0, 0]],
        ),
        (
            "group again",
            Apart,
            [[0, 0, 0], [1, 0, 0], [0, 0, 0], [1, 0, 0]],
        ),
        (
            "group 4294967295",
            Apart,
            [[0, 0, 0], [4294967295, 0, 0], [0, 0, 0], [1, 0, 0]],
        ),
        (
            "each its own group",
            Apart,
            [[0, 0, 0], [1, 0, 0], [2, 0, 0], [3, 0, 0]],
        ),
    ];
    cases(out, "", &PLAIN, &foldings)
}

fn side_cases(out: &mut impl Write) -> io::Result<()> {
    let foldings = [
        (
            "first on the right",
            Nested,
            [[0, 1, 0], [0, 1, 3], [0, 1, 4], [0, 1, 6]],
        ),
        (
            "second group on the right",
            Nested,
            [[0, 0, 0], [0, 1, 0], [1, 1, 0], [1, 1, 2]],
        ),
        (
            "left after right",
            Nested,
            [[0, 0, 0], [0, 1, 0], [0, 0, 0], [0, 1, 1]],
        ),
        (
            "right in nested",
            Nested,
            [[0, 0, 1], [0, 0, 0], [0, 1, 0], [0, 1, 2]],
        ),
        (
            "right in apart",
            Apart,
            [[0, 0, 1], [0, 0, 0], [0, 1, 0], [0, 1, 2]],
        ),
    ];
    cases(out, "", &PLAIN, &foldings)
}

fn start_cases(out: &mut impl Write) -> io::Result<()> {
    let foldings = [
        (
            "left touching",
            Apart,
            [[0, 0, 1], [0, 0, 0], [1, 0, 4], [1, 0, 0]],
        ),
        (
            "left overlapping",
            Apart,
            [[0, 0, 0], [0, 0, 0], [1, 0, 4], [1, 0, 0]],
        ),
        (
            "left with empty rows",
            Apart,
            [[0, 0, 9], [0, 0, 2], [1, 0, 20], [1, 0, 3]],
        ),
        (
            "right overlapping",
            Nested,
            [[0, 0, 1], [0, 0, 0], [0, 1, 0], [0, 1, 1]],
        ),
        (
            "right with empty rows",
            Nested,
            [[0, 0, 1], [0, 0, 0], [0, 1, 5], [0, 1, 9]],
        ),
    ];
    cases(out, "", &PLAIN, &foldings)
}

// What gaps add to a group's height: without a fold the gap before it and the one after it, with a fold the larger of the two
// and the gap at the fold.
fn gap_cases(out: &mut impl Write) -> io::Result<()> {
    let foldings = [
        ("no fold", Apart, [[0, 0, 4], [0, 0, 1], [0, 0, 0]]),
        ("three groups", Apart, [[0, 0, 0], [1, 0, 0], [2, 0, 0]]),
        (
            "fold after the first",
            Nested,
            [[0, 0, 0], [0, 1, 0], [0, 1, 3]],
        ),
        (
            "fold after the second",
            Nested,
            [[0, 0, 3], [0, 0, 0], [0, 1, 0]],
        ),
        (
            "fold in the first group",
            Nested,
            [[0, 0, 0], [0, 1, 0], [1, 0, 0]],
        ),
        (
            "sides above each other",
            Nested,
            [[0, 0, 0], [0, 1, 2], [0, 1, 5]],
        ),
    ];
    cases(out, "", &GAPPED, &foldings)
}

// The gaps before a group with a fold and at its fold.
fn later_gap_cases(out: &mut impl Write) -> io::Result<()> {
    let foldings = [(
        "fold in the second group",
        Nested,
        [[0, 0, 0], [0, 1, 0], [1, 0, 0], [1, 1, 0]],
    )];
    cases(out, "", &LATER_GAPPED, &foldings)
}

// Nested, a group without a right side may stand only last: not the same groups that stand apart.
fn flat_cases(out: &mut impl Write) -> io::Result<()> {
    let two = [[0, 0, 1], [0, 0, 0], [1, 0, 4], [1, 0, 0]];
    let each = [[0, 0, 0], [1, 0, 0], [2, 0, 0], [3, 0, 0]];
    let first = [[0, 0, 0], [1, 0, 0], [1, 1, 0], [1, 1, 2]];
    let between = [[0, 0, 0], [0, 1, 0], [1, 0, 0], [2, 0, 0]];
    let last = [[0, 0, 0], [0, 1, 0], [1, 0, 4], [1, 0, 0]];
    let only = [[0, 0, 7], [0, 0, 6], [0, 0, 4], [0, 0, 0]];
    let turned = [[0, 0, 0], [0, 1, 0], [1, 0, 0], [1, 1, 0]];
    let foldings = [
        ("two groups apart", Apart, two),
        ("two groups apart as nested", Nested, two),
        ("each its own group as nested", Nested, each),
        ("no right side in the first group", Nested, first),
        ("no right side in a group between", Nested, between),
        ("no right side in the last group", Nested, last),
        ("no right side in the only group", Nested, only),
        ("a right side in each group", Nested, turned),
    ];
    cases(out, "", &PLAIN, &foldings)
}

// Each way to part a barred component from its successor.
fn parted_cases(out: &mut impl Write) -> io::Result<()> {
    let foldings = [
        (
            "two groups",
            Apart,
            [[0, 0, 1], [0, 0, 0], [1, 0, 4], [1, 0, 0]],
        ),
        (
            "two groups in nested",
            Nested,
            [[0, 0, 0], [0, 1, 0], [1, 0, 4], [1, 0, 0]],
        ),
        (
            "two sides",
            Nested,
            [[0, 0, 1], [0, 0, 0], [0, 1, 0], [0, 1, 2]],
        ),
    ];
    cases(out, "barred, ", &BARRED, &foldings)
}

// Where the two open a group behind one with a fold. Alone in it they have no right side, so that it may stand only last.
fn later_barred_cases(out: &mut impl Write) -> io::Result<()> {
    let foldings = [
        (
            "two sides of the second group",
            Nested,
            [[0, 0, 0], [0, 1, 0], [1, 0, 0], [1, 1, 0], [1, 1, 2]],
        ),
        (
            "no right side in the group between",
            Nested,
            [[0, 0, 0], [0, 1, 0], [1, 0, 2], [1, 0, 0], [2, 0, 0]],
        ),
        (
            "a fold behind, in the second group",
            Nested,
            [[0, 0, 0], [0, 1, 0], [1, 0, 2], [1, 0, 0], [1, 1, 0]],
        ),
        (
            "no right side in the last group",
            Nested,
            [[0, 0, 0], [0, 1, 0], [1, 0, 6], [1, 0, 4], [1, 0, 0]],
        ),
    ];
    cases(out, "barred, ", &LATER_BARRED, &foldings)
}

// The two together, with empty rows between them, and with groups and folds around them. Their gap counts for nothing.
fn unparted_cases(out: &mut impl Write) -> io::Result<()> {
    let foldings = [
        (
            "empty rows on the left",
            Apart,
            [[0, 0, 9], [0, 0, 8], [0, 0, 4], [1, 0, 0]],
        ),
        (
            "empty rows on the right",
            Nested,
            [[0, 0, 0], [0, 1, 0], [0, 1, 4], [0, 1, 6]],
        ),
        (
            "a group of their own",
            Apart,
            [[0, 0, 0], [1, 0, 2], [1, 0, 0], [2, 0, 0]],
        ),
        (
            "a fold before",
            Nested,
            [[0, 0, 0], [0, 1, 0], [0, 1, 1], [1, 0, 0]],
        ),
        (
            "a fold behind",
            Nested,
            [[0, 0, 3], [0, 0, 2], [0, 0, 0], [0, 1, 0]],
        ),
    ];
    cases(out, "barred, ", &BARRED, &foldings)
}

// The writer's own answer is another program's case.
fn written_case(out: &mut impl Write) -> io::Result<()> {
    let mut file = [0u8; 39];
    let (heights, widths) = (&[3, 1, 2, 4], &[1; 4]);
    let _ = stack_write::write(heights, widths, &[0, 9, 0, 0], &[0, 1, 0, 0], &mut file);
    let flat = [0, 0, 1, 0, 0, 0, 1, 0, 4, 1, 0, 0];
    case(out, "barred, as written", &file, Apart, &flat)
}

fn length_cases(out: &mut impl Write) -> io::Result<()> {
    let flat = [0, 0, 4, 0, 0, 1, 0, 0, 0, 9, 9, 9, 9];
    case(out, "an incomplete placement", &GAPPED, Apart, &flat[..8])?;
    case(out, "more numbers", &GAPPED, Apart, &flat)?;
    case(out, "no numbers", &GAPPED, Apart, &[])
}

// A stack of n components, all numbers of which are 1 but the gaps, apart each in a group of its own, nested two in a group.
fn ones_case(out: &mut impl Write, label: &str, n: usize, kind: Kind) -> io::Result<()>
    requires { n ≤ 256 }
{
    let ones = [1u16; 256];
    let zeros = [0u16; 256];
    let mut file = [0u8; 2055];
    let _ = stack_write::write(&ones[..n], &ones[..n], &zeros[..n], &zeros[..n], &mut file);
    let mut flat = [[0u32; 3]; 256];
    for (at, placement) in (0..256).zip(&mut flat) {
        *placement = match kind {
            Apart => [at, 0, 0],
            Nested => [at / 2, at % 2, 0],
        };
    }
    case(
        out,
        label,
        &file[..7 + 8 * n],
        kind,
        flat[..n].as_flattened(),
    )
}

// The most components that a kind takes, and one more.
fn size_cases(out: &mut impl Write) -> io::Result<()> {
    ones_case(out, "64 nested", 64, Nested)?;
    ones_case(out, "65 nested", 65, Nested)?;
    ones_case(out, "65 apart", 65, Apart)?;
    ones_case(out, "256 apart", 256, Apart)?;
    ones_case(out, "256 nested", 256, Nested)
}

// The size is refused before a component is looked at.
fn too_many(out: &mut impl Write) -> io::Result<()> {
    let mut file = [0u8; 1549];
    file[..7].copy_from_slice(b"STK\x01\0\x01\x01");
    case(out, "257 apart", &file, Apart, &[])
}

fn choose_case(
    out: &mut impl Write,
    label: &str,
    file: &[u8],
    kind: Kind,
    first: &[u32],
    second: &[u32],
) -> io::Result<()> {
    write!(out, "{label}")?;
    for x in choose(file, kind, first, second) {
        write!(out, " {x}")?;
    }
    writeln!(out)
}

// Of one group, `high` with an empty row that `low` lacks, and of three groups.
fn choose_cases(out: &mut impl Write) -> io::Result<()> {
    let low = [0, 0, 4, 0, 0, 1, 0, 0, 0];
    let high = [0, 0, 5, 0, 0, 1, 0, 0, 0];
    let as_high = [0, 0, 5, 0, 0, 2, 0, 0, 1];
    let highest = [0, 0, 29, 0, 0, 1, 0, 0, 0];
    let groups = [0, 0, 0, 1, 0, 0, 2, 0, 0];
    choose_case(out, "narrower first", &GAPPED, Apart, &low, &groups)?;
    choose_case(out, "narrower second", &GAPPED, Apart, &groups, &low)?;
    choose_case(out, "lower first", &GAPPED, Apart, &low, &high)?;
    choose_case(out, "lower second", &GAPPED, Apart, &high, &low)?;
    choose_case(out, "equal", &GAPPED, Apart, &high, &as_high)?;
    choose_case(
        out,
        "wider and lower second",
        &GAPPED,
        Apart,
        &highest,
        &groups,
    )
}

fn refused_choose_cases(out: &mut impl Write) -> io::Result<()> {
    let legal = [0, 0, 4, 0, 0, 1, 0, 0, 0, 9, 9];
    let broken = [0, 0, 0, 0, 0, 1, 0, 0, 0];
    let groups = [0, 0, 0, 1, 0, 0, 2, 0, 0, 8];
    choose_case(out, "broken first", &GAPPED, Apart, &broken, &legal[..9])?;
    choose_case(out, "broken second", &GAPPED, Apart, &legal[..9], &broken)?;
    choose_case(
        out,
        "short second",
        &GAPPED,
        Apart,
        &legal[..9],
        &legal[..3],
    )?;
    choose_case(out, "longer buffers", &GAPPED, Apart, &groups, &legal)
}

fn barred_choices(out: &mut impl Write) -> io::Result<()> {
    let together = [0, 0, 9, 0, 0, 8, 0, 0, 4, 0, 0, 0];
    let together_in_two = [0, 0, 9, 0, 0, 8, 0, 0, 4, 1, 0, 0];
    let in_three = [0, 0, 0, 1, 0, 2, 1, 0, 0, 2, 0, 0];
    let parted = [0, 0, 1, 0, 0, 0, 1, 0, 4, 1, 0, 0];
    let low = [0, 0, 3, 0, 0, 2, 0, 0, 0, 1, 0, 0];
    choose_case(
        out,
        "barred, empty rows first",
        &BARRED,
        Apart,
        &together,
        &low,
    )?;
    choose_case(
        out,
        "barred, empty rows second",
        &BARRED,
        Apart,
        &in_three,
        &together_in_two,
    )?;
    choose_case(out, "barred, parted first", &BARRED, Apart, &parted, &low)?;
    choose_case(out, "barred, parted second", &BARRED, Apart, &low, &parted)
}

// Nested, of outlines 4 4, 3 6 and 3 4, and one with a first group that has no right side. Apart foldings of two groups, the
// second with empty rows, are no nested ones.
fn nested_choices(out: &mut impl Write) -> io::Result<()> {
    let wide = [0, 0, 0, 0, 1, 0, 1, 0, 0, 1, 1, 0];
    let high = [0, 0, 0, 0, 1, 0, 1, 0, 4, 1, 0, 0];
    let low = [0, 0, 0, 0, 1, 0, 0, 1, 1, 1, 0, 0];
    let broken = [0, 0, 0, 1, 0, 0, 1, 1, 0, 1, 1, 2];
    let flat = [0, 0, 1, 0, 0, 0, 1, 0, 4, 1, 0, 0];
    let higher = [0, 0, 9, 0, 0, 2, 1, 0, 20, 1, 0, 3];
    let file = &PLAIN;
    choose_case(out, "nested, narrower second", file, Nested, &wide, &high)?;
    choose_case(out, "nested, lower second", file, Nested, &high, &low)?;
    choose_case(out, "nested, broken first", file, Nested, &broken, &high)?;
    choose_case(out, "nested, broken second", file, Nested, &high, &broken)?;
    choose_case(out, "two groups apart", file, Apart, &flat, &higher)?;
    let label = "two groups apart as nested";
    choose_case(out, label, file, Nested, &flat, &higher)
}

// Placements of a caller of the library, which takes them behind a reference.
fn lend(file: &[u8], kind: Kind, run: [Placement; 3]) -> Result<Outline, Refusal>
    ensures { answer_of result ≡ measure_of kind file.now (flat_of run) }
{
    folding_structs::measure_placements(file, kind, &run)
}

// The same folding through the entry that takes placements and through the flat one.
fn structs_case(
    out: &mut impl Write,
    label: &str,
    file: &[u8],
    kind: Kind,
    flat: [[u32; 3]; 3],
) -> io::Result<()> {
    let run = flat.map(Placement::from);
    write!(out, "structs, {label} {}", Measured(lend(file, kind, run)))?;
    case(out, ",", file, kind, flat.as_flattened())
}

fn structs_cases(
    out: &mut impl Write,
    file: &[u8],
    foldings: &[(&str, Kind, [[u32; 3]; 3])],
) -> io::Result<()> {
    for (label, kind, flat) in foldings {
        structs_case(out, label, file, *kind, *flat)?;
    }
    Ok(())
}

fn legal_structs(out: &mut impl Write) -> io::Result<()> {
    let foldings = [
        ("one group", Apart, [[0, 0, 4], [0, 0, 1], [0, 0, 0]]),
        ("three groups", Apart, [[0, 0, 0], [1, 0, 0], [2, 0, 0]]),
        ("fold after 1", Nested, [[0, 0, 0], [0, 1, 0], [0, 1, 3]]),
        ("fold in group 0", Nested, [[0, 0, 0], [0, 1, 0], [1, 0, 0]]),
    ];
    structs_cases(out, &GAPPED, &foldings)
}

fn refused_structs(out: &mut impl Write) -> io::Result<()> {
    let foldings = [
        ("right side", Apart, [[0, 0, 0], [0, 1, 0], [0, 1, 3]]),
        ("overlap", Apart, [[0, 0, 3], [0, 0, 1], [0, 0, 0]]),
        ("fold in group 1", Nested, [[0, 0, 0], [1, 0, 0], [1, 1, 0]]),
        ("three groups", Nested, [[0, 0, 0], [1, 0, 0], [2, 0, 0]]),
        (
            "side 4294967295",
            Nested,
            [[0, 0, 4], [0, 0, 1], [0, 4294967295, 0]],
        ),
    ];
    structs_cases(out, &GAPPED, &foldings)?;
    let flat = [[0, 0, 4], [0, 0, 1], [0, 0, 0]];
    structs_case(out, "letters", b"STAK123", Apart, flat)
}

fn barred_structs(out: &mut impl Write) -> io::Result<()> {
    let foldings = [
        (
            "barred, two groups",
            Apart,
            [[0, 0, 0], [1, 0, 1], [1, 0, 0]],
        ),
        (
            "barred, two sides",
            Nested,
            [[0, 0, 0], [0, 1, 0], [0, 1, 3]],
        ),
        (
            "barred, empty rows",
            Apart,
            [[0, 0, 9], [0, 0, 1], [0, 0, 0]],
        ),
        (
            "barred, a fold behind",
            Nested,
            [[0, 0, 3], [0, 0, 0], [0, 1, 0]],
        ),
    ];
    structs_cases(out, &BARRED_GAPPED, &foldings)
}

// As many placements as components are asked for, and no more are read.
fn count_structs(out: &mut impl Write) -> io::Result<()> {
    let groups = [[0, 0, 0], [1, 0, 0], [2, 0, 0]];
    let spare = [[0, 0, 3], [0, 0, 0], [7, 7, 7]];
    structs_case(out, "four components", &PLAIN, Apart, groups)?;
    structs_case(out, "two components", &SHORT, Apart, spare)
}

fn main(rt: HostRuntime) -> io::Result<()> {
    let mut out = BufWriter::new(rt.alloc(), io::writer(&rt))?;
    range_cases(&mut out)?;
    order_cases(&mut out)?;
    side_cases(&mut out)?;
    start_cases(&mut out)?;
    gap_cases(&mut out)?;
    later_gap_cases(&mut out)?;
    flat_cases(&mut out)?;
    parted_cases(&mut out)?;
    unparted_cases(&mut out)?;
    later_barred_cases(&mut out)?;
    written_case(&mut out)?;
    length_cases(&mut out)?;
    size_cases(&mut out)?;
    too_many(&mut out)?;
    choose_cases(&mut out)?;
    refused_choose_cases(&mut out)?;
    barred_choices(&mut out)?;
    nested_choices(&mut out)?;
    legal_structs(&mut out)?;
    refused_structs(&mut out)?;
    barred_structs(&mut out)?;
    count_structs(&mut out)?;
    out.flush()
}
