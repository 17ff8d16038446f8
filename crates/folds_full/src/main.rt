// The program `folds` on 241 components whose apart table has 2,048 outlines, as many as there is room for.
#![tactic(auto)]

use std::io;

fn main(rt: HostRuntime) -> io::Result<()> {
    folds_main::run(&rt)
}
