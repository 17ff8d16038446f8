// The program `folds` on 65 components 1/1: a table apart, and a refusal nested.
#![tactic(auto)]

use std::io;

fn main(rt: HostRuntime) -> io::Result<()> {
    folds_main::run(&rt)
}
