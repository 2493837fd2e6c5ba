// Cases of the register: sequences of imports, withdrawals and readings over a table of four places, each with the table after it. The second program
// makes what is expected (second/register_cases.py, where the family of cases is described).
#![tactic(auto)]

ghost use Rattle.std.specs.Prelude.{◌≤◌};

use certificate::Given;
use entry::{Entry, Serial, Thermometer};
use evidence::{Generator, Line, Report, Said, given_by, law_name};
use law::{CURVE, Law, Name, Subrange};
use quantity::Nanoohm;
use std::fmt::Write;

// ---- entries

// Six good certificates. Which of them is meant is a drawn number, here and below: an enum would be made of it only to be matched.
fn good(which: u64) -> Given {
    match which {
        0 => given_by(CURVE, 0, 0, 0, 0, 0),
        1 => given_by(Subrange::Ga.name(), 0, 0, 0, 0, 0),
        2 => given_by(Subrange::Ga.name(), -58_346_744, 0, 0, 0, 0),
        3 => given_by(Subrange::Zn.name(), 100, -200, 0, 0, 0),
        4 => given_by(Subrange::Ag.name(), 0, 0, 0, 0, 3_376_008_600),
        _ => given_by(Subrange::Ag.name(), 1, 2, 3, 4, 3_376_008_600),
    }
}

// Seldom a bad certificate, one by no law and two that are not sound, at times any good one, mostly that of the thermometer and the serial.
fn certificate(kind: u64, own: u64) -> Given {
    match kind {
        0 => given_by(Name(0), 0, 0, 0, 0, 0),
        1 => given_by(Subrange::Ga.name(), 100_000_001, 0, 0, 0, 0),
        2 => given_by(CURVE, 0, 0, 0, 0, 1),
        3..=9 => good(kind % 6),
        _ => good(own % 6),
    }
}

// An entry of a number: its serial, its mark and its certificate are drawn.
fn drawn_rest(g: &mut Generator, number: u64) -> Entry {
    let serial = g.under(7);
    let mark = g.under(8);
    let kind = g.under(40);
    Entry {
        number: Thermometer(number),
        serial: Serial(serial),
        mark: Serial(if mark < 4 { mark } else { 0 }),
        certificate: certificate(kind, number % 6 + serial),
    }
}

// A place of a table. Most are free.
fn drawn_place(g: &mut Generator) -> Entry {
    let number = g.under(7);
    let mut place = drawn_rest(g, number);
    if g.under(6) < 4 {
        place.number = Thermometer(0);
    }
    place
}

// An entry of a list, the numbers 1 to 6 going round, seldom 0.
fn drawn_entry(g: &mut Generator, place: u64) -> Entry {
    let is_zero = g.under(24) == 0;
    let mut entry = drawn_rest(g, 1 + place % 6);
    if is_zero {
        entry.number = Thermometer(0);
    }
    entry
}

// By how much each number of a list is above the one before: by 0 they are all one number.
fn stride(way: u64) -> u64
    ensures { result ≤ 5 }
{
    match way {
        0 => 0,
        1..=4 => 1,
        _ => 5,
    }
}

fn drawn_list(g: &mut Generator) -> [Entry; 4] {
    let n = g.under(6);
    let by = stride(g.under(8));
    [
        drawn_entry(g, n),
        drawn_entry(g, n + by),
        drawn_entry(g, n + 2 * by),
        drawn_entry(g, n + 3 * by),
    ]
}

// ---- acts, each on a table and with its line

fn imports(g: &mut Generator, table: &mut [Entry; 4], line: &mut Line) {
    let count = 1 + g.under(4);
    let list = drawn_list(g);
    let change = register::import(table, &list[..count as usize]);
    let _ = write!(line, "acts import {count} {}", Said(change));
}

// The number at a place of the table, 0, or one that no table has.
fn picked(table: &[Entry; 4], pick: u64) -> u64 {
    match pick {
        8 => 0,
        9 => 7,
        _ => table[(pick % 4) as usize].number.0,
    }
}

fn withdraws(g: &mut Generator, table: &mut [Entry; 4], line: &mut Line) {
    let number = picked(table, g.under(10));
    let serial = g.under(5);
    let change = register::withdraw(table, Thermometer(number), Serial(serial));
    let _ = write!(line, "acts withdraw {number} {serial} {}", Said(change));
}

const R0: u64 = 25_000_000_000;

const RESISTANCES: [u64; 6] = [
    0,
    27_500_000_000,
    69_539_313_500,
    112_500_000_000,
    24_000_000_000,
    100_000_000_000,
];

fn reads(g: &mut Generator, table: &[Entry; 4], line: &mut Line) {
    let number = picked(table, g.under(10));
    let r = RESISTANCES[g.under(6) as usize];
    let answer = register::read(table, Thermometer(number), Nanoohm(r), Nanoohm(R0));
    let _ = write!(line, "acts read {number} {r} {R0} {}", Said(answer));
}

// ---- cases

fn entry_said(line: &mut Line, e: Entry) {
    let law = Law::named(e.certificate.law).map_or("?", law_name);
    let places = Said(e.certificate.places);
    let _ = write!(
        line,
        " {} {} {} {law} {places}",
        e.number.0, e.serial.0, e.mark.0
    );
}

// Case i: an act, and the table after it. A sequence of twenty begins with a table that is drawn.
fn case(i: u64, g: &mut Generator, table: &mut [Entry; 4]) -> Line {
    if i % 20 == 0 {
        for place in table.iter_mut() {
            *place = drawn_place(g);
        }
    }
    let mut line = Line::new();
    match g.under(8) {
        0..=3 => imports(g, table, &mut line),
        4 | 5 => withdraws(g, table, &mut line),
        _ => reads(g, table, &mut line),
    }
    for e in table.iter() {
        entry_said(&mut line, *e);
    }
    let _ = writeln!(line);
    line
}

fn main(rt: HostRuntime) {
    let mut g = Generator::new(601);
    let mut report = Report::new("acts");
    let mut table = [Entry::free(); 4];
    for i in 0..40_000 {
        let line = case(i, &mut g, &mut table);
        report.case(&rt, &line);
    }
}
