// Trials of the plot index: the desk checks that are not proved, random sets against a plain sorted list, orders of entry,
// refusals, stores broken in one rule (group 5, crate faults), and stores damaged at random. A line for each group; a further one for each trial that fails.

#![tactic(auto)]

mod damage; // group 6
mod desk; // group 1
mod refusals; // group 4

use groups::orders; // group 3
use groups::sets; // group 2

fn main(rt: HostRuntime) {
    let mut store = [0u32; 16384];
    let mut other = [0u32; 16384];
    let mut list = [0u32; 2048];
    let mut drawn = [0u32; 2048];
    let mut tally = [0u64; 16];
    desk::run(&rt, &mut store, &mut tally);
    sets::run(&rt, &mut store, &mut list, &mut tally);
    orders::run(
        &rt, &mut other, &mut store, &mut list, &mut drawn, &mut tally,
    );
    refusals::run(&rt, &mut store, &mut tally);
    faults::run(&rt, &mut other, &mut store, &mut tally);
    damage::run(
        &rt, &mut other, &mut store, &mut list, &mut drawn, &mut tally,
    );
}
