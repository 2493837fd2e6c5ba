// Answers the bench's lists: standard input to standard output.
#![tactic(auto)]

mod page;

use list::Desk;

fn main(rt: HostRuntime) {
    turns::run(&rt, Desk::Bench, &page::PARTS);
}
