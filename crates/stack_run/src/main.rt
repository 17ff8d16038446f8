// Runs the calls on stack files at their edges and writes what each answers, a line a case.
#![tactic(auto)]

ghost use Rattle.std.specs.Prelude.{◌≤◌};

use stack::Version;
use std::alloc::{AllocError, Global};
use std::fmt;
use std::io::{self, BufWriter, Write};
use terms::Kind::{Apart, Nested};
use terms::{Kind, Refusal};

// Two components of height and width 1, in version 1 and in version 2.
const TWO: [u8; 19] = *b"STK\x01\0\x02\0\x01\0\x01\0\0\0\x01\0\x01\0\0\0";

const TWO_MARKED: [u8; 23] = *b"STK\x02\0\x02\0\x01\0\x01\0\0\0\0\0\x01\0\x01\0\0\0\0\0";

// What a call answers, as it is printed: a count, or a refusal's number.
#[derive(Clone, Copy, Debug, PartialEq, Eq)]
struct Answer(Result<usize, Refusal>);

impl fmt::Display for Answer {
    fn fmt<W: fmt::Write>(&self, f: &mut fmt::Formatter<W>) -> fmt::Result {
        match self.0 {
            Ok(n) => write!(f, "{n}"),
            Err(k) => write!(f, "refused {}", k.number()),
        }
    }
}

// Numbers as they are printed, each behind a blank.
#[derive(Clone, Copy, Debug, PartialEq, Eq)]
struct Spaced<'a, T>(&'a [T]);

impl<T: fmt::Display> fmt::Display for Spaced<'_, T> {
    fn fmt<W: fmt::Write>(&self, f: &mut fmt::Formatter<W>) -> fmt::Result {
        for x in self.0 {
            write!(f, " {x}")?;
        }
        Ok(())
    }
}

// The four lists of a stack.
#[derive(Clone, Copy, Debug, PartialEq, Eq)]
struct Lists<'a> {
    heights: &'a [u16],
    widths: &'a [u16],
    gaps: &'a [u16],
    marks: &'a [u16],
}

impl Lists<'_> {
    fn write(self, file: &mut [u8]) -> Result<usize, Refusal> {
        stack_write::write(self.heights, self.widths, self.gaps, self.marks, file)
    }
}

// The numbers of one list behind those of another.
impl fmt::Display for Lists<'_> {
    fn fmt<W: fmt::Write>(&self, f: &mut fmt::Formatter<W>) -> fmt::Result {
        let (heights, widths) = (Spaced(self.heights), Spaced(self.widths));
        let (gaps, marks) = (Spaced(self.gaps), Spaced(self.marks));
        write!(f, "{heights}{widths}{gaps}{marks}")
    }
}

// Four lists to read a stack into.
#[derive(Drop)]
struct Room {
    heights: Vec<u16>,
    widths: Vec<u16>,
    gaps: Vec<u16>,
    marks: Vec<u16>,
}

impl Room {
    // Nines, as many in each list.
    fn new(alloc: Global, lengths: [usize; 4]) -> Result<Room, AllocError> {
        let [heights, widths, gaps, marks] = lengths;
        Ok(Room {
            heights: vec![in alloc; 9; heights]?,
            widths: vec![in alloc; 9; widths]?,
            gaps: vec![in alloc; 9; gaps]?,
            marks: vec![in alloc; 9; marks]?,
        })
    }

    fn read(&mut self, file: &[u8]) -> Result<usize, Refusal> {
        stack::read(
            file,
            &mut self.heights,
            &mut self.widths,
            &mut self.gaps,
            &mut self.marks,
        )
    }

    fn lists(&self) -> Lists<'_> {
        Lists {
            heights: &self.heights,
            widths: &self.widths,
            gaps: &self.gaps,
            marks: &self.marks,
        }
    }
}

// The version that a made file says, and the bytes of each of its components.
#[derive(Clone, Copy, Debug, PartialEq, Eq)]
struct Form<'a> {
    label: &'a str,
    version: Version,
    component: &'a [u8],
}

impl Form<'_> {
    // A file of n components.
    fn file(self, alloc: Global, n: u16) -> Result<Vec<u8>, AllocError> {
        let mut file = vec![in alloc; b'S', b'T', b'K']?;
        file.extend_from_slice(&u16::from(self.version).to_le_bytes())?;
        file.extend_from_slice(&n.to_le_bytes())?;
        for _ in 0..n {
            file.extend_from_slice(self.component)?;
        }
        Ok(file)
    }
}

// A 16-bit number at byte i, as far as there is room.
fn put(file: &mut [u8], i: usize, x: u16) {
    for (place, byte) in file.iter_mut().skip(i).zip(x.to_le_bytes()) {
        *place = byte;
    }
}

// The file with other numbers, each at its byte.
fn changed<const N: usize>(mut file: [u8; N], changes: &[(usize, u16)]) -> [u8; N] {
    for (i, x) in changes {
        put(&mut file, *i, *x);
    }
    file
}

// Components of sizes 4,000 by 1 and 1 by 77, with a gap of 600 between them; in version 2 a fold is barred there.
fn sample() -> [u8; 19] {
    changed(TWO, &[(7, 4000), (11, 600), (15, 77)])
}

fn marked_sample() -> [u8; 23] {
    changed(TWO_MARKED, &[(7, 4000), (11, 600), (13, 1), (17, 77)])
}

// The check of a made file of n components, in both kinds.
fn count_case(out: &mut impl Write, alloc: Global, form: Form, n: u16) -> io::Result<()> {
    let label = form.label;
    let file = form.file(alloc, n)?;
    writeln!(
        out,
        "{label}n {n} apart {}",
        Answer(stack::check(&file, Apart))
    )?;
    writeln!(
        out,
        "{label}n {n} nested {}",
        Answer(stack::check(&file, Nested))
    )
}

fn form_cases(out: &mut impl Write, alloc: Global, form: Form) -> io::Result<()> {
    for n in [0, 1, 64, 65, 256, 257] {
        count_case(out, alloc, form, n)?;
    }
    Ok(())
}

// In each version, and where the components have the bytes of the other.
fn count_cases(out: &mut impl Write, alloc: Global) -> io::Result<()> {
    let plain = Form {
        label: "",
        version: Version::First,
        component: &[1, 0, 1, 0, 0, 0],
    };
    let marked = Form {
        label: "version 2, ",
        version: Version::Second,
        component: &[1, 0, 1, 0, 0, 0, 0, 0],
    };
    let short = Form {
        label: "version 2, six bytes each, ",
        component: plain.component,
        ..marked
    };
    let long = Form {
        label: "version 1, eight bytes each, ",
        component: marked.component,
        ..plain
    };
    form_cases(out, alloc, plain)?;
    form_cases(out, alloc, marked)?;
    count_case(out, alloc, short, 3)?;
    count_case(out, alloc, long, 3)
}

// The check of a file.
fn check_case(out: &mut impl Write, label: &str, file: &[u8], kind: Kind) -> io::Result<()> {
    writeln!(out, "{label} {}", Answer(stack::check(file, kind)))
}

// The check of a file with one number changed: what it is then, the number's byte, and the number.
fn word_cases<const N: usize>(
    out: &mut impl Write,
    file: [u8; N],
    kind: Kind,
    words: &[(&str, usize, u16)],
) -> io::Result<()> {
    for (label, i, x) in words {
        check_case(out, label, &changed(file, &[(*i, *x)]), kind)?;
    }
    Ok(())
}

fn plain_cases(out: &mut impl Write) -> io::Result<()> {
    let words = [
        ("height 0", 7, 0),
        ("height 1", 7, 1),
        ("height 4000", 7, 4000),
        ("height 4001", 7, 4001),
        ("width 0", 15, 0),
        ("width 1", 15, 1),
        ("width 4000", 15, 4000),
        ("width 4001", 15, 4001),
        ("gap 4000", 11, 4000),
        ("gap 4001", 11, 4001),
        ("last gap 1", 17, 1),
        ("version 0", 3, 0),
        ("version 3", 3, 3),
        ("version 256", 3, 256),
        ("version 257", 3, 257),
        ("version 258", 3, 258),
    ];
    word_cases(out, TWO, Nested, &words)
}

// A bad gap stands before a bad height.
fn order_case(out: &mut impl Write) -> io::Result<()> {
    let file = changed(TWO, &[(11, 4001), (13, 0)]);
    check_case(out, "gap 4001 before height 0:", &file, Apart)
}

fn marked_cases(out: &mut impl Write) -> io::Result<()> {
    writeln!(out, "version 2")?;
    let words = [
        ("height 0", 15, 0),
        ("width 4001", 17, 4001),
        ("gap 4000", 11, 4000),
        ("gap 4001", 11, 4001),
        ("last gap 1", 19, 1),
        ("mark 0", 13, 0),
        ("mark 1", 13, 1),
        ("mark 2", 13, 2),
        ("mark 256", 13, 256),
        ("mark 257", 13, 257),
        ("last mark 1", 21, 1),
        ("last mark 256", 21, 256),
    ];
    word_cases(out, TWO_MARKED, Nested, &words)
}

// A bad mark stands before another bad number.
fn mark_order_cases(out: &mut impl Write) -> io::Result<()> {
    let words = [
        ("mark 2 before height 0", 15, 0),
        ("mark 2 before last gap 1", 19, 1),
        ("mark 2 before last mark 1", 21, 1),
    ];
    word_cases(out, changed(TWO_MARKED, &[(13, 2)]), Apart, &words)
}

// Two bytes, the first a letter's, changed.
fn letter_cases(out: &mut impl Write) -> io::Result<()> {
    let words = [
        ("letters sT", 0, 21619),
        ("letters SU", 0, 21843),
        ("letter L", 2, 332),
    ];
    word_cases(out, TWO, Apart, &words)
}

// The first bytes of a file, or all and one byte more.
fn prefix_case(out: &mut impl Write, alloc: Global, file: &[u8], end: usize) -> io::Result<()> {
    let prefix: Vec<u8> = file.iter().chain(&[0]).take(end).copied().collect(alloc)?;
    writeln!(out, "prefix {end} {}", Answer(stack::check(&prefix, Apart)))
}

fn prefix_cases(out: &mut impl Write, alloc: Global) -> io::Result<()> {
    for end in 0..=20 {
        prefix_case(out, alloc, &TWO, end)?;
    }
    Ok(())
}

// In version 2 the length of version 1 is wrong, as is one byte less or more.
fn marked_prefix_cases(out: &mut impl Write, alloc: Global) -> io::Result<()> {
    writeln!(out, "version 2")?;
    for end in [6, 7, 19, 22, 23, 24] {
        prefix_case(out, alloc, &TWO_MARKED, end)?;
    }
    Ok(())
}

// The file read into lists of these lengths.
fn read_case(
    out: &mut impl Write,
    alloc: Global,
    label: &str,
    file: &[u8],
    lengths: [usize; 4],
) -> io::Result<()> {
    let mut room = Room::new(alloc, lengths)?;
    let answer = Answer(room.read(file));
    writeln!(out, "{label}{} {answer}", room.lists())
}

// A list that is one entry short.
fn short_cases(out: &mut impl Write, alloc: Global, file: &[u8]) -> io::Result<()> {
    for (label, lengths) in [
        ("read, short heights", [1, 2, 2, 2]),
        ("read, short widths", [2, 1, 2, 2]),
        ("read, short gaps", [2, 2, 1, 2]),
        ("read, short marks", [2, 2, 2, 1]),
    ] {
        read_case(out, alloc, label, file, lengths)?;
    }
    Ok(())
}

// The bytes of a component by its number.
fn lookup_cases(out: &mut impl Write, file: &[u8]) -> io::Result<()> {
    for number in 0..4 {
        let bytes = Spaced(stack::lookup(file, number));
        writeln!(out, "lookup {number}:{bytes}")?;
    }
    Ok(())
}

fn file_cases(out: &mut impl Write, alloc: Global, file: &[u8]) -> io::Result<()> {
    read_case(out, alloc, "read", file, [3, 2, 4, 3])?;
    short_cases(out, alloc, file)?;
    lookup_cases(out, file)
}

// A bad mark is refused before a short list.
fn bad_mark_cases(out: &mut impl Write, alloc: Global) -> io::Result<()> {
    let file = changed(marked_sample(), &[(21, 1)]);
    read_case(out, alloc, "read, last mark 1", &file, [3, 2, 4, 3])?;
    let label = "read, last mark 1 and short lists";
    read_case(out, alloc, label, &file, [2, 2, 1, 0])?;
    let bytes = Spaced(stack::lookup(&file, 1));
    writeln!(out, "lookup 1, last mark 1:{bytes}")
}

// The lists written to the first bytes of a buffer of nines: how many bytes are other than 9 then, and the answer.
fn write_case(out: &mut impl Write, label: &str, lists: Lists, room: usize) -> io::Result<()>
    requires { room ≤ 2100 }
{
    let mut space = [9u8; 2100];
    let answer = Answer(lists.write(&mut space[..room]));
    let touched = space.iter().filter(|x| **x != 9).count();
    writeln!(out, "{label} touched {touched} {answer}")
}

fn write_cases(out: &mut impl Write) -> io::Result<()> {
    let lists = Lists {
        heights: &[5, 6],
        widths: &[5, 6],
        gaps: &[4000, 0],
        marks: &[1, 0],
    };
    let widths: &[u16] = &[0];
    let gaps: &[u16] = &[0];
    let marks: &[u16] = &[0];
    write_case(out, "written", lists, 2100)?;
    write_case(out, "written, exact room", lists, 23)?;
    write_case(out, "written, short room", lists, 22)?;
    write_case(out, "unequal widths", Lists { widths, ..lists }, 2100)?;
    write_case(out, "unequal gaps", Lists { gaps, ..lists }, 2100)?;
    write_case(out, "unequal marks", Lists { marks, ..lists }, 2100)
}

// A bad number is refused before a short buffer, and of several the one whose check comes first.
fn bad_write_cases(out: &mut impl Write) -> io::Result<()> {
    let lists = Lists {
        heights: &[5, 6],
        widths: &[5, 6],
        gaps: &[4000, 0],
        marks: &[2, 0],
    };
    let zero_first: &[u16] = &[0, 1];
    let widths: &[u16] = &[1, 4001];
    let gaps: &[u16] = &[4001, 0];
    let low = Lists {
        heights: zero_first,
        gaps,
        ..lists
    };
    let end_gap = Lists {
        gaps: zero_first,
        ..lists
    };
    let end_mark = Lists {
        marks: zero_first,
        ..lists
    };
    write_case(out, "height 0 written", low, 3)?;
    write_case(out, "width 4001 written", Lists { widths, ..lists }, 3)?;
    write_case(out, "gap 4001 written", Lists { gaps, ..lists }, 3)?;
    write_case(out, "last gap 1 written", end_gap, 3)?;
    write_case(out, "mark 2 written", lists, 3)?;
    write_case(out, "last mark 1 written", end_mark, 3)
}

// As many components as there are ones; gaps and marks are as in the other list.
fn size_case(out: &mut impl Write, label: &str, ones: &[u16], behind: &[u16]) -> io::Result<()> {
    let lists = Lists {
        heights: ones,
        widths: ones,
        gaps: behind,
        marks: behind,
    };
    write_case(out, label, lists, 2100)
}

fn write_size_cases(out: &mut impl Write) -> io::Result<()> {
    let more = [1u16; 257];
    size_case(out, "none written", &[], &[])?;
    size_case(out, "256 written", &more[..256], &[0; 256])?;
    // The stack's size comes before its last gap and mark.
    size_case(out, "257 written", &more, &more)
}

// A file read and written again: of either version a file of version 2.
fn rewritten(out: &mut impl Write, alloc: Global, label: &str, file: &[u8]) -> io::Result<()> {
    let mut room = Room::new(alloc, [2; 4])?;
    writeln!(out, "{label} read {}", Answer(room.read(file)))?;
    let mut again = [0u8; 23];
    let answer = Answer(room.lists().write(&mut again));
    writeln!(out, "{label} rewritten{}", Spaced(&again))?;
    writeln!(out, "{answer}")
}

// 1, 1 + step, 1 + 2 step, .., up to 4,000 and round again.
fn rise(list: &mut [u16], step: u16)
    requires { step ≤ 4000 }
{
    let mut x = 0;
    for item in list.iter_mut() {
        *item = 1 + x;
        x = (x + step) % 4000;
    }
}

// 0, 1, 0, 1, ..
fn alternate(list: &mut [u16]) {
    for pair in list.chunks_exact_mut(2) {
        pair.copy_from_slice(&[0, 1]);
    }
}

fn end_with_zero(list: &mut [u16]) {
    if let Some(last) = list.last_mut() {
        *last = 0;
    }
}

fn differences<T: PartialEq>(a: &[T], b: &[T]) -> usize {
    a.iter().zip(b).filter(|(x, y)| x != y).count()
}

// 256 components written, read back and written again.
fn round_trip(out: &mut impl Write, alloc: Global, lists: Lists) -> io::Result<()> {
    let mut file = [0u8; 2055];
    writeln!(out, "256 written {}", Answer(lists.write(&mut file)))?;
    let mut room = Room::new(alloc, [256; 4])?;
    writeln!(out, "256 read {}", Answer(room.read(&file)))?;
    let read = room.lists();
    write!(
        out,
        "differ: heights {} ",
        differences(lists.heights, read.heights)
    )?;
    write!(out, "widths {} ", differences(lists.widths, read.widths))?;
    write!(out, "gaps {} ", differences(lists.gaps, read.gaps))?;
    write!(out, "marks {} ", differences(lists.marks, read.marks))?;
    let mut again = [0u8; 2055];
    writeln!(out, "written again {}", Answer(read.write(&mut again)))?;
    writeln!(out, "differ: bytes {} ", differences(&file, &again))
}

fn many(out: &mut impl Write, alloc: Global) -> io::Result<()> {
    let mut room = Room::new(alloc, [256; 4])?;
    rise(&mut room.heights, 15);
    rise(&mut room.widths, 1013);
    rise(&mut room.gaps, 3999);
    alternate(&mut room.marks);
    end_with_zero(&mut room.gaps);
    end_with_zero(&mut room.marks);
    round_trip(out, alloc, room.lists())
}

fn main(rt: HostRuntime) -> io::Result<()> {
    let alloc = rt.alloc();
    let mut out = BufWriter::new(alloc, io::writer(&rt))?;
    count_cases(&mut out, alloc)?;
    plain_cases(&mut out)?;
    order_case(&mut out)?;
    marked_cases(&mut out)?;
    mark_order_cases(&mut out)?;
    prefix_cases(&mut out, alloc)?;
    marked_prefix_cases(&mut out, alloc)?;
    letter_cases(&mut out)?;
    file_cases(&mut out, alloc, &sample())?;
    file_cases(&mut out, alloc, &marked_sample())?;
    bad_mark_cases(&mut out, alloc)?;
    write_cases(&mut out)?;
    bad_write_cases(&mut out)?;
    write_size_cases(&mut out)?;
    rewritten(&mut out, alloc, "version 1", &sample())?;
    rewritten(&mut out, alloc, "version 2", &marked_sample())?;
    many(&mut out, alloc)?;
    out.flush()
}
