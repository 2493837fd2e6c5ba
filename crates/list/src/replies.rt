// The reply to a line: as the header of a list, as a row of it, or after a wrong header.
ghost use Rattle.std.specs.Prelude.{◌≡◌};
ghost use Rattle.quantity.specs.Refusals.{number_of};
ghost use Rattle.quantity.specs.declared.refusal.Refusal.TheVariants.{WrongHeader};
ghost use Rattle.line.specs.Lent.{PlacedAs, AnsweredAs};
ghost use Rattle.list.specs.Kinds.{kind_of, wrong_header};
ghost use Rattle.list.specs.Replies.{RepliedAs};

use crate::kinds::{Desk, Kind};
use crate::state::Stage;
use bench::{Records, RecordsByResistances, Steps, Tolerances};
use line::{LineAnswer, Readings};
use quantity::Refusal;

// What was answered to a line, if there was room for it, and what comes after it.
#[derive(Clone, Copy)]
pub struct Reply {
    pub answer: Option<LineAnswer>,
    pub stage: Stage,
}

// To a wrong header.
pub fn wrong_header(desk: Desk, out: &mut [u8]) -> Option<LineAnswer>
    ensures { PlacedAs (number_of WrongHeader) (wrong_header desk) out.old out.new result }
{
    let number = Refusal::WrongHeader.number();
    match desk {
        Desk::Launch => line::place_text(number, b"id,law,t,code\r\n?,?,,10\r\n", out),
        Desk::Bench => line::place_text(number, b"id,law,a,b,c,d,wal,code\r\n?,?,,,,,,10\r\n", out),
    }
}

fn header_reply(desk: Desk, line: &[u8], out: &mut [u8]) -> Reply
    ensures { RepliedAs (Stage.Header desk) line.now out.old out.new result }
{
    match desk.headed(line) {
        Some(kind) => Reply {
            answer: line::place_text(0, kind.answer_header(), out),
            stage: Stage::Rows(kind),
        },
        None => Reply {
            answer: wrong_header(desk, out),
            stage: Stage::Stopped,
        },
    }
}

fn place_row(kind: Kind, line: &[u8], out: &mut [u8]) -> Option<LineAnswer>
    ensures { AnsweredAs (kind_of kind) line.now out.old out.new result }
{
    match kind {
        Kind::Readings => line::place::<Readings>(line, out),
        Kind::Records => line::place::<Records>(line, out),
        Kind::Resistances => line::place::<RecordsByResistances>(line, out),
        Kind::Steps => line::place::<Steps>(line, out),
        Kind::Tolerances => line::place::<Tolerances>(line, out),
    }
}

pub fn reply_to(stage: Stage, line: &[u8], out: &mut [u8]) -> Reply
    ensures { RepliedAs stage line.now out.old out.new result }
{
    match stage {
        Stage::Header(desk) => header_reply(desk, line, out),
        Stage::Rows(kind) => Reply {
            answer: place_row(kind, line, out),
            stage: Stage::Rows(kind),
        },
        Stage::Stopped => Reply {
            answer: Some(LineAnswer { code: 0, wrote: 0 }),
            stage: Stage::Stopped,
        },
    }
}
