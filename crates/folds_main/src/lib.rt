// The program `folds`, as a function, so that the gate can run it on several inputs. What it reads and prints no
// contract can say; the programs' stored output does.
#![tactic(auto)]

use std::io::{self, BufWriter, Read, Write};
use terms::{Kind, LEAST_WORK};

// As many pairs as a table may have here.
const PAIRS: usize = 2048;

// As many bytes of standard input as are read.
const MOST_READ: u64 = 4096;

// The letter that a kind's lines begin with.
fn letter(kind: Kind) -> char {
    match kind {
        Kind::Apart => 'A',
        Kind::Nested => 'N',
    }
}

fn say_pairs(out: &mut impl Write, kind: Kind, pairs: &[[u32; 2]]) -> io::Result<()> {
    for [width, height] in pairs {
        writeln!(out, "{} {width} {height}", letter(kind))?;
    }
    Ok(())
}

fn say_table(out: &mut impl Write, file: &[u8], kind: Kind) -> io::Result<()> {
    let mut pairs = [[0u32; 2]; PAIRS];
    let mut work = [0u32; LEAST_WORK];
    match fold_table::table(file, kind, pairs.as_flattened_mut(), &mut work) {
        Ok(n) => say_pairs(out, kind, &pairs[..n]),
        Err(k) => writeln!(out, "{} R {}", letter(kind), k.number()),
    }
}

// Prints the outline tables of the stack file on standard input, apart and then nested: a line for each outline, or one
// for a refusal. The file is the first 4,096 bytes, or all where there are fewer. A read or a write that fails ends it.
pub fn run(rt: &(impl Input + Print + Alloc)) -> io::Result<()> {
    let mut file = Vec::new(rt.alloc());
    rt.reader().take(MOST_READ).read_to_end(&mut file)?;
    let mut out = BufWriter::new(rt.alloc(), io::writer(rt))?;
    say_table(&mut out, &file, Kind::Apart)?;
    say_table(&mut out, &file, Kind::Nested)?;
    out.flush()
}
