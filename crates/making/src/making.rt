// Making the calls of a script.
use beginning::beginning::{begin, void};
use closing::closing::close;
use codec::value::Value;
use dealing::dealing::deal;
use deciding::deciding::decide;
use flight::lent::close_own;
use plan::plan::Plan;
use protocol::answers::Closed;
use protocol::records::Record;
use receiving::receiving::receive;
use refusals::refusal::Refusal;
use saying::said::Answer;
use script::steps::Call;
use sending::sending::send;
use settings::settings::Settings;

// Planning, for a record: a refusal leaves it the void plan.
fn make_plan(n: u8, settings: Settings, r: &mut Record, sets: &[u8]) -> Result<Answer, Refusal> {
    let planned = Plan::new(n, sets, settings);
    r.plan = planned.unwrap_or(Plan::void());
    planned.map(|_| Answer::Nothing)
}

// Beginning a board, on the plan of a record: a refusal leaves the void record.
fn make_begin(board: u8, r: &mut Record, cells: &mut [Value]) -> Result<Answer, Refusal> {
    let begun = begin(r.plan, board, cells);
    *r = begun.unwrap_or(void());
    begun.map(|_| Answer::Nothing)
}

// Closing by value: a refusal leaves the record.
fn make_close(closed: Result<Closed, Refusal>, r: &mut Record) -> Result<Answer, Refusal> {
    let Closed { closing, rec } = closed?;
    *r = rec;
    Ok(closing.into())
}

// A call.
pub fn call(
    call: Call,
    r: &mut Record,
    bytes: &[u8],
    cells: &mut [Value],
    out: &mut [u8],
) -> Result<Answer, Refusal> {
    match call {
        Call::Plan(n, settings) => make_plan(n, settings, r, bytes),
        Call::Begin(board) => make_begin(board, r, cells),
        Call::Receive(sender) => receive(r, cells, sender, bytes).map(|()| Answer::Nothing),
        Call::Send => Ok(Answer::Byte((send(*r, cells, out)? % 256) as u8)),
        Call::Close => make_close(close(*r, cells), r),
        Call::CloseLent => make_close(close_own(*r, cells), r),
        Call::Decide => Ok(decide(*r)?.to_be_bytes().into()),
        Call::Deal(value) => Ok(deal(r.plan, value)?.into()),
    }
}
