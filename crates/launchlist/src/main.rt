// Answers a list of readings: standard input to standard output.
#![tactic(auto)]

mod page;

use list::Desk;

fn main(rt: HostRuntime) {
    turns::run(&rt, Desk::Launch, &page::PARTS);
}
