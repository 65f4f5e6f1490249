// One board's session in flight: board 1 of four, whose dealer, board 0, tells board 3 another value.
#![tactic(auto)]

use beginning::beginning::begin;
use codec::value::BLANK;
use deciding::deciding::decide;
use flight::lent::close_lent;
use listing::listing::as_set;
use plan::plan::Plan;
use receiving::receiving::receive;
use refusals::refusal::Refusal;
use sending::sending::send;
use settings::settings::Settings;
use std::io;
use std::io::Write;

// Its frame, the decision, and the list as a set.
fn session() -> Result<[u8; 5], Refusal> {
    let settings = Settings {
        dealer: 0,
        span: 16,
        // What counts where a board is silent or listed: 15, which is no reading.
        default: 15,
        depth: 0,
    };
    let plan = Plan::new(4, &[1, 2, 4, 8], settings)?;
    let mut cells = [BLANK; 16];
    let mut r = begin(plan, 1, &mut cells)?;
    // Round 1: the dealer's frame.
    receive(&mut r, &mut cells, 0, &[0, 5])?;
    close_lent(&mut r, &mut cells)?;
    // Round 2: the board's own frame, then those of boards 2 and 3.
    let mut frame = [0u8; 2];
    send(r, &cells, &mut frame)?;
    receive(&mut r, &mut cells, 2, &[0, 5])?;
    receive(&mut r, &mut cells, 3, &[0, 7])?;
    close_lent(&mut r, &mut cells)?;
    let [high, low] = decide(r)?.to_be_bytes();
    Ok([frame[0], frame[1], high, low, as_set(r.list)])
}

fn main(rt: HostRuntime) -> io::Result<()> {
    match session() {
        Ok(out) => rt.stdout().write_all(&out),
        // Of this session no call is turned down; of another the number would be written.
        Err(why) => rt.stdout().write_all(&[why.number()]),
    }
}
