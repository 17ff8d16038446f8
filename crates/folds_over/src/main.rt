// The program `folds` on 242 components whose apart table has 2,049 outlines, one more than there is room for.
#![tactic(auto)]

use std::io;

fn main(rt: HostRuntime) -> io::Result<()> {
    folds_main::run(&rt)
}
