// The register's story: a certificate that was withdrawn stays withdrawn when an import brings it back, and a newer one takes its place. The second
// program makes what is expected (second/register_story.py).
#![tactic(auto)]

use certificate::Given;
use entry::{Entry, Serial, Thermometer};
use evidence::{Said, given_by, law_name};
use law::{Law, Subrange};
use quantity::Nanoohm;

// ---- acts on a table

// The story's two certificates.
fn certificate_by(subrange: Subrange) -> Given {
    match subrange {
        Subrange::Al => given_by(Subrange::Al.name(), 100_000, -200_000, 300_000, 0, 0),
        _ => given_by(Subrange::Zn.name(), 100, -200, 0, 0, 0),
    }
}

fn imports(out: &impl Print, table: &mut [Entry; 4], number: u64, serial: u64, subrange: Subrange) {
    let law = law_name(Law::Scale(subrange));
    let entry = Entry {
        number: Thermometer(number),
        serial: Serial(serial),
        mark: Serial(0),
        certificate: certificate_by(subrange),
    };
    let change = register::import(table, &[entry]);
    let _ = println!(out;
        "import {number} serial {serial} mark 0 {law}: {}",
        Said(change)
    );
}

fn withdraws(out: &impl Print, table: &mut [Entry; 4], number: u64, serial: u64) {
    let change = register::withdraw(table, Thermometer(number), Serial(serial));
    let _ = println!(out; "withdraw {number} up to {serial}: {}", Said(change));
}

fn reads(out: &impl Print, table: &[Entry; 4], number: u64) {
    let r = Nanoohm(40_000_000_000);
    let r0 = Nanoohm(25_000_000_000);
    let answer = register::read(table, Thermometer(number), r, r0);
    let _ = println!(out; "read {number}: {}", Said(answer));
}

// ---- the story

// The highest serial that there is.
const HIGHEST: u64 = u64::MAX;

fn main(rt: HostRuntime) {
    let mut table = [Entry::free(); 4];
    let _ = println!(rt; "A certificate comes in.");
    imports(&rt, &mut table, 7, 1, Subrange::Zn);
    reads(&rt, &table, 7);
    let _ = println!(rt; "In March it is withdrawn.");
    withdraws(&rt, &mut table, 7, 1);
    reads(&rt, &table, 7);
    let _ = println!(rt; "The other laboratory's import brings it back.");
    imports(&rt, &mut table, 7, 1, Subrange::Zn);
    reads(&rt, &table, 7);
    let _ = println!(rt; "A lower serial is withdrawn, and the mark does not fall.");
    withdraws(&rt, &mut table, 7, 0);
    reads(&rt, &table, 7);
    let _ = println!(rt; "A newer certificate takes its place.");
    imports(&rt, &mut table, 7, 2, Subrange::Al);
    reads(&rt, &table, 7);
    let _ = println!(rt; "The old one comes once more, and the newer one stays.");
    imports(&rt, &mut table, 7, 1, Subrange::Zn);
    reads(&rt, &table, 7);
    let _ = println!(rt; "One serial with two certificates changes nothing.");
    imports(&rt, &mut table, 7, 2, Subrange::Zn);
    reads(&rt, &table, 7);
    let _ = println!(rt; "The highest serial is above every mark so far.");
    imports(&rt, &mut table, 7, HIGHEST, Subrange::Zn);
    reads(&rt, &table, 7);
    let _ = println!(rt; "The thermometer is retired, and no certificate revives it.");
    withdraws(&rt, &mut table, 7, HIGHEST);
    reads(&rt, &table, 7);
    imports(&rt, &mut table, 7, HIGHEST, Subrange::Zn);
    reads(&rt, &table, 7);
    let _ = println!(rt; "A thermometer that is not in the register.");
    withdraws(&rt, &mut table, 8, 1);
    reads(&rt, &table, 8);
}
