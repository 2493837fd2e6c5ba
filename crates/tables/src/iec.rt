// Figures of IEC 60751 (IEC 751 with Amendment 2 of 1995): its table of resistances for R0 = 100 ohm and its table of tolerances.
ghost use Rattle.std.specs.Prelude.{◌^◌, ◌<◌, unsigned_abs};

use crate::figure::{DEGREE, Figure, degrees, hundredths};
use crate::tally::Tally;
use quantity::{Celsius, LARGEST_RATIO, Nanoohm};

// R0 = 100 ohm, in nanoohms.
const R0: u64 = 100_000_000_000;

// ---- resistances

// Each 10 °C from -200 °C to 850 °C, in hundredths of an ohm.
const OHMS: [u16; 106] = [
    // -200 °C
    18_52, 22_83, 27_10, 31_34, 35_54, 39_72, 43_88, 48_00, 52_11, 56_19,
    // -100 °C
    60_26, 64_30, 68_33, 72_33, 76_33, 80_31, 84_27, 88_22, 92_16, 96_09,
    // 0 °C
    100_00, 103_90, 107_79, 111_67, 115_54, 119_40, 123_24, 127_08, 130_90, 134_71,
    // 100 °C
    138_51, 142_29, 146_07, 149_83, 153_58, 157_33, 161_05, 164_77, 168_48, 172_17,
    // 200 °C
    175_86, 179_53, 183_19, 186_84, 190_47, 194_10, 197_71, 201_31, 204_90, 208_48,
    // 300 °C
    212_05, 215_61, 219_15, 222_68, 226_21, 229_72, 233_21, 236_70, 240_18, 243_64,
    // 400 °C
    247_09, 250_53, 253_96, 257_38, 260_78, 264_18, 267_56, 270_93, 274_29, 277_64,
    // 500 °C
    280_98, 284_30, 287_62, 290_92, 294_21, 297_49, 300_75, 304_01, 307_25, 310_49,
    // 600 °C
    313_71, 316_92, 320_12, 323_30, 326_48, 329_64, 332_79, 335_93, 339_06, 342_18,
    // 700 °C
    345_28, 348_38, 351_46, 354_53, 357_59, 360_64, 363_67, 366_70, 369_71, 372_71,
    // 800 °C
    375_70, 378_68, 381_65, 384_60, 387_55, 390_48,
];

// The step of so many degrees.
fn at(degrees: i16) -> Celsius
    ensures { unsigned_abs result.0 < 2 ^ 30 }
{
    Celsius(i64::from(degrees) * DEGREE as i64)
}

// What the published resistance reads, the last of a row.
fn reading(out: &impl Print, r: Nanoohm) {
    let _ = match curve::read_by(r, Nanoohm(R0)) {
        Ok(reading) => println!(out; "reads {}", degrees(reading.step.0)),
        Err(why) => println!(out; "reads refused {}", why.number()),
    };
}

// The curve's ratio and its ohms beside the published ones, and what those read.
fn resistance(out: &impl Print, row: i16, ohms: u16, tally: &mut Tally) {
    let ohms = u64::from(ohms);
    let _ = print!(out; "iec {row} {} ", hundredths(ohms));
    match curve::forward(at(row)) {
        Ok(forward) => {
            let w = forward.ratio.0;
            // To the nearest hundredth and half up: in half hundredths first, so that no ratio is too large to add to.
            let worked = (w / 50_000 + 1) / 2;
            let ratio = Figure {
                count: w,
                unit: 1_000_000_000,
            };
            let verdict = tally.verdict(worked == ohms);
            let _ = print!(out; "{ratio} {} {verdict} ", hundredths(worked));
            reading(out, Nanoohm(ohms * 10_000_000));
        }
        Err(why) => {
            let _ = println!(out; "refused {}", why.number());
        }
    }
}

pub fn resistances(out: &impl Print, tally: &mut Tally) {
    for (i, ohms) in OHMS.iter().enumerate() {
        resistance(out, 10 * i as i16 - 200, *ohms, tally);
    }
}

// ---- tolerances

// The class by its letter, as `tolerance_test` takes it, the bath in degrees, and the printed limit in hundredths of a degree.
const LIMITS: [(u8, i16, u16); 23] = [
    (b'A', -200, 0_55),
    (b'A', -100, 0_35),
    (b'A', 0, 0_15),
    (b'A', 100, 0_35),
    (b'A', 200, 0_55),
    (b'A', 300, 0_75),
    (b'A', 400, 0_95),
    (b'A', 500, 1_15),
    (b'A', 600, 1_35),
    (b'A', 650, 1_45),
    (b'B', -200, 1_30),
    (b'B', -100, 0_80),
    (b'B', 0, 0_30),
    (b'B', 100, 0_80),
    (b'B', 200, 1_30),
    (b'B', 300, 1_80),
    (b'B', 400, 2_30),
    (b'B', 500, 2_80),
    (b'B', 600, 3_30),
    (b'B', 650, 3_60),
    (b'B', 700, 3_80),
    (b'B', 800, 4_30),
    (b'B', 850, 4_60),
];

// The step that is so far from the bath: above it, or below it where the curve ends.
fn step_off(bath: i16, error: u16) -> Celsius {
    let step = at(bath).0;
    let error = i64::from(error);
    if 850 <= bath {
        return Celsius(step - error);
    }
    Celsius(step + error)
}

// Whether a thermometer passes that reads the step of a ratio: one unit more than the step's ratio reads the step itself. Past 4.4 nothing is read.
fn ratio_passes(class: u8, bath: i16, w: u64) -> bool {
    if LARGEST_RATIO < w {
        return false;
    }
    match curve::tolerance_test(class, at(bath), Nanoohm((w + 1) * 100), Nanoohm(R0)) {
        Ok(result) => result.passes,
        Err(_) => false,
    }
}

fn passes(class: u8, bath: i16, error: u16) -> bool {
    match curve::forward(step_off(bath, error)) {
        Ok(forward) => ratio_passes(class, bath, forward.ratio.0),
        Err(_) => false,
    }
}

// The largest error in steps that passes, bit by bit.
fn largest_error(class: u8, bath: i16) -> u16 {
    let mut error = 0;
    for i in 0..16u32 {
        let larger = error | 0x8000 >> i;
        if passes(class, bath, larger) {
            error = larger;
        }
    }
    error
}

// The class, the bath, the printed limit and the largest error that passes.
fn limits(out: &impl Print, label: &str, class: u8, bath: i16, limit: u16, error: u16) {
    let class = char::from(class);
    let limit = hundredths(u64::from(limit));
    let error = degrees(u64::from(error));
    let _ = print!(out; "{label} {class} {bath} {limit} {error} ");
}

// An error to the printed decimals, half up, in hundredths of a degree: class A has hundredths and class B tenths.
fn as_printed(class: u8, error: u16) -> u64 {
    let error = u64::from(error);
    if class == b'A' {
        return (error + 50) / 100;
    }
    (error + 500) / 1000 * 10
}

pub fn tolerances(out: &impl Print, tally: &mut Tally) {
    for (class, bath, limit) in LIMITS {
        let error = largest_error(class, bath);
        limits(out, "tolerance", class, bath, limit, error);
        let verdict = tally.verdict(as_printed(class, error) == u64::from(limit));
        let _ = println!(out; "{verdict}");
    }
}

// ---- slips

fn slip(out: &impl Print, class: u8, bath: i16, limit: u16) {
    let error = largest_error(class, bath);
    limits(out, "slip", class, bath, limit, error);
    let _ = println!(out; "{}", degrees(i64::from(limit) * 100 - i64::from(error)));
}

// Tolerances that the paper which names the edition prints otherwise.
pub fn slips(out: &impl Print) {
    slip(out, b'A', -200, 0_50);
    slip(out, b'A', 650, 1_50);
    slip(out, b'B', 850, 4_75);
}
