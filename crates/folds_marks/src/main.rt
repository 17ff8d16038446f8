// The program `folds` on stack E in version 2, a fold barred after its second component.
#![tactic(auto)]

use std::io;

fn main(rt: HostRuntime) -> io::Result<()> {
    folds_main::run(&rt)
}
