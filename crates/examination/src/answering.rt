// What an import and a withdrawal answer.
ghost use Rattle.std.specs.Prelude.{◌≡◌};
ghost use Rattle.quantity.specs.Outcomes.{number_given};
ghost use Rattle.examination.specs.Answering.{stated as number_in, import_tests, withdrawal_tests};

use crate::testing::{Noted, Seen};
use entry::Entry;
use quantity::Refusal;

// The tests of an import in their order.
pub fn import_answer(table: Seen, list: Noted) -> Result<(), Refusal>
    ensures { number_in result ≡ number_given (import_tests table.bad list.unknown list.unsound list.unfit list.clashing list.short) }
{
    if table.bad {
        return Err(Refusal::TableBad);
    }
    if list.unknown {
        return Err(Refusal::NameUnknown);
    }
    if list.unsound {
        return Err(Refusal::BeyondLimit);
    }
    if list.unfit {
        return Err(Refusal::NumberUnfit);
    }
    if list.clashing {
        return Err(Refusal::SerialClash);
    }
    if list.short {
        return Err(Refusal::TooFewPlaces);
    }
    Ok(())
}

// `held` is what the table has of the thermometer.
pub fn withdrawal_answer(table: Seen, held: Entry) -> Result<(), Refusal>
    ensures { number_in result ≡ number_given (withdrawal_tests table.bad held) }
{
    if table.bad {
        return Err(Refusal::TableBad);
    }
    if held.is_free() {
        return Err(Refusal::NotLive);
    }
    Ok(())
}
