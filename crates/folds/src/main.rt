// The program `folds`, on stack E.
#![tactic(auto)]

use std::io;

fn main(rt: HostRuntime) -> io::Result<()> {
    folds_main::run(&rt)
}
