// Figures of ITS-90: Wr at the fixed points, from table 1 of its text (Metrologia 27, 3-10 (1990)), and slips of two sources.
ghost use Rattle.std.specs.Prelude.{pos, ◌^◌, ◌<◌, ◌≤ℤ◌};

use crate::figure::{Figure, degrees};
use law::Cell;
use quantity::Celsius;
use reference::Outside;

// Wr of the points that a slip is held to as well.
const WR_ZN: u64 = 2_568_917_30_000;

const WR_AL: u64 = 3_376_008_60_000;

const WR_AG: u64 = 4_286_420_53_000;

// ---- table 1

fn working_value(step: i64) -> i64
    requires { (pos 0 ≤ℤ step) × (step ≤ℤ pos 9_617_801) }
    ensures { pos 0 ≤ℤ result }
{
    reference::working_at(Celsius(step))
}

// A row of table 1: steps, and Wr in units of 10^-11, the eight published decimals and three zeros.
fn row(out: &impl Print, label: &str, step: i64, wr: u64)
    requires { (pos 0 ≤ℤ step) × (step ≤ℤ pos 9_617_801) × (wr < 2 ^ 63) }
{
    let worked = working_value(step);
    let printed = Figure {
        count: wr / 1000,
        unit: 100_000_000,
    };
    let ours = Figure {
        count: worked,
        unit: 100_000_000_000,
    };
    let difference = worked - wr as i64;
    let _ = print!(out;
        "wr {label} {} {printed} {ours} {difference} inverse ",
        degrees(step)
    );
    let _ = match reference::invert(wr as i64) {
        Ok(step) => print!(out; "{}", degrees(step.0)),
        Err(Outside::Below) => print!(out; "below"),
        Err(Outside::Past) => print!(out; "past"),
    };
}

// A row of a cell, and whether the library's has the published figures.
fn point(out: &impl Print, label: &str, cell: Cell, step: i64, wr: u64)
    requires { (pos 0 ≤ℤ step) × (step ≤ℤ pos 9_617_801) × (wr < 2 ^ 63) }
{
    row(out, label, step, wr);
    let is_cell = cell.step().0 == step && cell.reference() == wr;
    let word = if is_cell { "cell" } else { "not-the-cell" };
    let _ = println!(out; " {word}");
}

// The triple point of water is no cell.
pub fn points(out: &impl Print) {
    row(out, "H2O", 0_0100, 1_000_000_00_000);
    let _ = println!(out);
    point(out, "Ga", Cell::Ga, 29_7646, 1_118_138_89_000);
    point(out, "In", Cell::In, 156_5985, 1_609_801_85_000);
    point(out, "Sn", Cell::Sn, 231_9280, 1_892_797_68_000);
    point(out, "Zn", Cell::Zn, 419_5270, WR_ZN);
    point(out, "Al", Cell::Al, 660_3230, WR_AL);
    point(out, "Ag", Cell::Ag, 961_7800, WR_AG);
}

// ---- slips

// Kelvin by table 1: the inverse of its Wr, or 0 where that has none.
fn kelvin_of(wr: u64) -> u64
    requires { wr < 2 ^ 63 }
    ensures { result < 2 ^ 63 }
{
    match reference::invert(wr as i64) {
        Ok(step) => step.to_kelvin().0,
        Err(_) => 0,
    }
}

// A slip, the right figure and the difference, in kelvin steps.
fn slip(out: &impl Print, label: &str, printed: u64, right: u64)
    requires { (printed < 2 ^ 63) × (right < 2 ^ 63) }
{
    let difference = degrees(printed as i64 - right as i64);
    let _ = println!(out;
        "slip {label} {} {} {difference}",
        degrees(printed),
        degrees(right)
    );
}

// Mercury's stands in one line of the translation of the text, the others in a paper on a radiation thermometer.
pub fn slips(out: &impl Print) {
    slip(out, "Hg", 234_3136, Cell::Hg.step().to_kelvin().0);
    slip(out, "Zn", 690_4620, kelvin_of(WR_ZN));
    slip(out, "Al", 932_5400, kelvin_of(WR_AL));
    slip(out, "Ag", 1234_9400, kelvin_of(WR_AG));
}
