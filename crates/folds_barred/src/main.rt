// The program `folds` on 2/3, 1/4, 3/1, 1/2 with gaps 5, 0, 7, every fold barred: each kind has one outline, and no gap
// counts.
#![tactic(auto)]

use std::io;

fn main(rt: HostRuntime) -> io::Result<()> {
    folds_main::run(&rt)
}
