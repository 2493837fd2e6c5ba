// A run of a program: it does what its arguments ask for.
use crate::asked::{Asked, what_is_asked};
use crate::turns::answer;
use crate::voice::Voice;
use list::Desk;

// The status of a run, with which the programs do not end, is written to a descriptor of its own, where there is one.
const STATUS: i32 = 3;

// Writes a page part by part, and goes on where one fails. The last failure, if there was one.
fn print_page(to: &impl Print, page: &[&[u8]]) -> std::io::Result<()> {
    let mut written = Ok(());
    for part in page {
        if let Err(why) = to.write_all(part) {
            written = Err(why);
        }
    }
    written
}

// Runs the program that has a desk and this page. The runtime is named, as no bound gives its three streams.
pub fn run(rt: &HostRuntime, desk: Desk, page: &[&[u8]]) {
    let output = rt.stdout();
    let people = rt.stderr();
    let voice = Voice {
        people: &people,
        desk,
    };
    match what_is_asked(rt) {
        Asked::List => {
            answer(&mut rt.stdin(), &output, &voice);
        }
        // 0 where the header was right and all was read and written, else 1.
        Asked::ListAndStatus => {
            let well = answer(&mut rt.stdin(), &output, &voice);
            io::write_all(STATUS, if well { b"0" } else { b"1" });
        }
        Asked::Page => {
            if let Err(why) = print_page(&output, page) {
                voice.say_failed("standard output", &why);
            }
        }
        Asked::Other => {
            voice.say("it takes no argument but --help or --status\n");
            let _ = print_page(&people, page);
        }
    }
}
