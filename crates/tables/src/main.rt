// Published tables beside what the library's calls answer. The second program makes what is expected (second/tables.py).
#![tactic(auto)]

mod figure;
mod iec;
mod its90;
mod tally;

use tally::Tally;

fn heading(out: &impl Print, text: &str) {
    let _ = println!(out; "# {text}");
}

fn main(rt: HostRuntime) {
    let mut tally = Tally {
        agree: 0,
        differ: 0,
    };
    heading(
        &rt,
        "resistances of IEC 60751 at R0 = 100 ohm: degrees, printed ohms, the curve's ratio, its ohms, what the printed ohms read",
    );
    iec::resistances(&rt, &mut tally);
    heading(
        &rt,
        "tolerances of IEC 60751: class, degrees, printed limit, the largest error that passes",
    );
    iec::tolerances(&rt, &mut tally);
    heading(
        &rt,
        "Wr of ITS-90, table 1, at the fixed points: degrees, printed Wr, the working value, the difference in 10^-11, the printed value's inverse",
    );
    its90::points(&rt);
    heading(
        &rt,
        "slips of the sources: kelvin as printed there, kelvin by the table, the difference",
    );
    its90::slips(&rt);
    heading(
        &rt,
        "slips of the sources: class, degrees, tolerance as printed there, the largest error that passes, the difference",
    );
    iec::slips(&rt);
    let _ = println!(rt; "tables: {tally}");
}
