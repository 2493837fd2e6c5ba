// The bench cards, each run by the calls and printed with its numbers. The second program makes what is expected and holds it to what the cards state
// (second/cards.py). Those with a star are also proved, as one table (specs/Cards.antt).
#![tactic(auto)]

ghost use Rattle.std.specs.Prelude.{pos, ◌≤ℤ◌};

use certificate::Record;
use evidence::{Said, given_by, law_name};
use law::{CURVE, Name, Subrange};
use quantity::{Celsius, Nanoohm, Ratio};

// R0 is one ohm, so that R in nanoohms is the ratio in its units.
const OHM: u64 = 1_000_000_000;

// ---- the working value of the reference function

fn works(out: &impl Print, card: &str, step: i64)
    requires { (pos 0 ≤ℤ step) × (step ≤ℤ pos 9_617_801) }
{
    let value = reference::working_at(Celsius(step));
    let _ = println!(out; "{card} {step} {value}");
}

// ---- readings

// By the certificate of zeros with its W(Al), which only ag has.
fn reads(out: &impl Print, card: &str, law: Name, wal: u64, w: u64) {
    let k = given_by(law, 0, 0, 0, 0, wal);
    let answer = reading::read(k, Nanoohm(w), Nanoohm(OHM));
    let _ = println!(out; "{card} {} ratio {w} {}", Said(k.places), Said(answer));
}

// Aluminium's own Wr.
fn by_ag(out: &impl Print, card: &str, w: u64) {
    reads(out, card, Subrange::Ag.name(), 3_376_008_600, w);
}

fn by_curve(out: &impl Print, card: &str, w: u64) {
    reads(out, card, CURVE, 0, w);
}

// ---- records

// A record with gallium and indium alone.
fn gives(out: &impl Print, card: &str, subrange: Name, gallium: u64, indium: u64) {
    let ratios = Record {
        subrange,
        mercury: Ratio(0),
        gallium: Ratio(gallium),
        indium: Ratio(indium),
        tin: Ratio(0),
        zinc: Ratio(0),
        aluminium: Ratio(0),
        silver: Ratio(0),
    };
    let _ = print!(out; "{card} gallium {gallium} indium {indium} ");
    let _ = match ratios.certify() {
        Ok(k) => { println!(out; "certificate {} {}", law_name(k.law), Said(k.places)) }
        Err(why) => println!(out; "refused {}", why.number()),
    };
}

// ---- the ratio of two resistances

fn divides(out: &impl Print, card: &str, r: u64, r0: u64) {
    let _ = print!(out; "{card} {r} {r0} ");
    let _ = match quantity::ratio_of(Nanoohm(r), Nanoohm(r0)) {
        Ok(w) => println!(out; "{}", w.0),
        Err(why) => println!(out; "refused {}", why.number()),
    };
}

// ---- tolerance tests

// A resistance over one ohm that reads the step: the ratio one unit above that of the step, which is rounded down.
fn resistance_at(step: i64) -> u64 {
    match curve::forward(Celsius(step)) {
        Ok(forward) => forward.ratio.0.wrapping_add(1),
        Err(_) => 0,
    }
}

// Class A, at a bath, with a resistance that reads the step.
fn judges(out: &impl Print, bath: i64, step: i64) {
    let r = resistance_at(step);
    let _ = print!(out; "card 10 tolerance A bath {bath} ratio {r} ");
    let _ = match reading::tolerance_test(b'A', Celsius(bath), Nanoohm(r), Nanoohm(OHM)) {
        Ok(result) => {
            let verdict = if result.passes { "pass" } else { "fail" };
            println!(out; "{verdict} {}", result.error)
        }
        Err(why) => println!(out; "refused {}", why.number()),
    };
}

// ---- the cards

// Those with a star, and the last line of card 7.
fn starred(out: &impl Print) {
    works(out, "card 1 working", 0);
    works(out, "card 2 working", 4_810_000);
    by_ag(out, "card 3 read ag", 2_781_572_540);
    by_ag(out, "card 3 read ag", 2_781_572_539);
    by_ag(out, "card 4 read ag", 999_960_110);
    by_ag(out, "card 4 read ag", 999_960_109);
    gives(
        out,
        "card 5 record ga",
        Subrange::Ga.name(),
        1_118_070_000,
        0,
    );
    gives(
        out,
        "card 5 record ga",
        Subrange::Ga.name(),
        1_118_069_999,
        0,
    );
    gives(
        out,
        "card 6 record in",
        Subrange::In.name(),
        1_118_138_890,
        1_609_701_850,
    );
    by_curve(out, "card 7 read curve", 1_385_055_000);
    by_curve(out, "card 7 read curve", 185_200_800);
    by_curve(out, "card 7 read curve", 185_200_799);
    by_curve(out, "card 8 read curve", 3_904_811_542);
    by_curve(out, "card 8 read curve", 3_904_811_543);
}

fn others(out: &impl Print) {
    by_curve(out, "card 9 read curve", 4_400_000_000);
    by_curve(out, "card 9 read curve", 4_400_000_001);
    by_ag(out, "card 9 read ag", 4_400_000_000);
    by_ag(out, "card 9 read ag", 4_400_000_001);
    divides(out, "card 9 ratio", 2, 300_000_000);
    judges(out, 0, 1_500);
    judges(out, 0, 1_501);
    judges(out, 0, -1_500);
    judges(out, 0, -1_501);
    judges(out, -2_000_000, -1_994_500);
    judges(out, -2_000_000, -1_994_499);
}

fn main(rt: HostRuntime) {
    starred(&rt);
    others(&rt);
}
