// A withdrawal: the certificates of a thermometer are withdrawn up to a serial, for good.
ghost use Rattle.register.specs.Withdrawal.{WithdrawnAs};

use crate::table::{examine, lookup, put};
use entry::{Entry, Serial, Thermometer};
use examination::withdrawal_answer;
use quantity::Refusal;

// The thermometer's mark rises to the serial and never falls. A refused withdrawal changes nothing.
pub fn withdraw(table: &mut [Entry], number: Thermometer, serial: Serial) -> Result<(), Refusal>
    ensures { WithdrawnAs table.old number.0 serial result table.new }
{
    let s = examine(table);
    let held = lookup(table, number.0);
    withdrawal_answer(s, held)?;
    put(table, number.0, held.raised(serial));
    Ok(())
}
