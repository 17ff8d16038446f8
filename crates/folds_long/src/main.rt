// The program `folds` on 6,007 bytes, of which it takes the first 4,096: they are no whole file. As one file they would
// be a stack of 1,000 components, and refused with 4.
#![tactic(auto)]

use std::io;

fn main(rt: HostRuntime) -> io::Result<()> {
    folds_main::run(&rt)
}
