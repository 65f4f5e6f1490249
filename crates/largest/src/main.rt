// Closes the largest round, round 7 of seven boards with 1,957 cells, a hundred times; writes the decision and the list.
#![tactic(auto)]

use beginning::beginning::begin;
use closing::closing::close;
use codec::value::{BLANK, Value};
use listing::listing::as_set;
use plan::plan::Plan;
use protocol::limits::PART;
use refusals::refusal::Refusal;
use schedule::rounds::Round;
use settings::settings::Settings;
use std::io;
use std::io::Write;

// Cells of many values, from the largest down.
fn scatter(cells: &mut [Value]) {
    for (i, cell) in cells.iter_mut().enumerate() {
        *cell = (65534 - i % 65535) as Value;
    }
}

// The decision and the list of the last closing.
fn close_largest() -> Result<[u8; 3], Refusal> {
    // The one set that makes seven levels stands last of 32.
    let mut sets = [1u8; 32];
    sets[31] = 63;
    let settings = Settings {
        dealer: 0,
        span: 65535,
        default: 0,
        depth: 0,
    };
    let plan = Plan::new(7, &sets, settings)?;
    let mut cells = [BLANK; PART];
    let mut r = begin(plan, 6, &mut cells)?;
    r.round = Round(7);
    let mut out = [0u8; 3];
    for _ in 0..100 {
        scatter(&mut cells);
        let rec = close(r, &mut cells)?.rec;
        let [high, low] = rec.decision.to_be_bytes();
        out = [high, low, as_set(rec.list)];
    }
    Ok(out)
}

fn main(rt: HostRuntime) -> io::Result<()> {
    match close_largest() {
        Ok(out) => rt.stdout().write_all(&out),
        // Here no call is turned down; elsewhere its number would be written.
        Err(why) => rt.stdout().write_all(&[why.number()]),
    }
}
