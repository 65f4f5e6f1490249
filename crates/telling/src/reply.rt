// What is told after each step.
ghost use Rattle.std.specs.Prelude.{◌≡◌, ◌≤◌, ◌-◌, ◌++◌, take};

use codec::value::Value;
use listing::listing::as_set;
use plan::plan::Plan;
use protocol::records::{Entry, Record, Rule};
use refusals::refusal::Refusal;
use saying::said::{Answer, told_bytes};

// Bytes in a room of N. What does not fit is dropped.
#[derive(Clone, Copy)]
pub struct Reply<const N: usize> {
    bytes: [u8; N],
    end: usize,
    ghost fits: { end ≤ N },
}

impl<const N: usize> Reply<N> {
    pub fn new() -> Reply<N>
        ensures { result.end ≡ 0 }
    {
        Reply {
            bytes: [0; N],
            end: 0,
        }
    }

    pub fn as_slice(&self) -> &[u8]
        ensures { result.now ≡ take self.now.end self.now.bytes }
    {
        let bytes = &self.bytes[..];
        &bytes[..self.end]
    }

    fn append(&mut self, bytes: &[u8])
        ensures { take self.new.end self.new.bytes ≡ take self.old.end self.old.bytes ++ take (N - self.old.end) bytes.now }
    {
        let count = bytes.len().min(N - self.end);
        let room = &mut self.bytes[..];
        room[self.end..self.end + count].copy_from_slice(&bytes[..count]);
        self.end += count;
    }

    // Two bytes, as `append` puts them. Where both fit the length of the copy is known, so that it costs no call.
    fn append_pair(&mut self, pair: [u8; 2])
        ensures { take self.new.end self.new.bytes ≡ take self.old.end self.old.bytes ++ take (N - self.old.end) pair }
    {
        if N - self.end < 2 {
            self.append(&pair);
            return;
        }
        let room = &mut self.bytes[..];
        room[self.end..self.end + 2].copy_from_slice(&pair);
        self.end += 2;
    }

    fn append_plan(&mut self, plan: &Plan) {
        self.append(&[plan.n, plan.dealer]);
        self.append(&plan.span.to_be_bytes());
        self.append(&plan.default.to_be_bytes());
        self.append(&[plan.depth, plan.count]);
        self.append(&plan.sets);
    }

    fn append_record(&mut self, r: &Record) {
        self.append_plan(&r.plan);
        for slot in &r.list {
            self.append(&entry_bytes(slot.entry));
        }
        self.append(&[r.board, r.run.0, r.round.0]);
        self.append(&[as_set(r.list), r.marks, u8::from(r.decided)]);
        self.append(&r.decision.to_be_bytes());
    }

    // The answer, the record, the output and the cells.
    pub fn append_told(
        &mut self,
        answer: Result<Answer, Refusal>,
        r: &Record,
        out: &[u8],
        cells: &[Value],
    )
        ensures { self.new.end ≤ N }
    {
        self.append(&told_bytes(answer));
        self.append_record(r);
        self.append(out);
        for cell in cells {
            self.append_pair(cell.to_be_bytes());
        }
    }
}

// Kind, run, round, level: kind 1 is rule G, kind 2 rule C, numbers that tests/second reads.
// A function and no `From`: neither an entry nor an array is of this crate.
fn entry_bytes(entry: Entry) -> [u8; 4] {
    match entry {
        Entry::Nothing => [0; 4],
        Entry::Listed(run, round, Rule::G(level)) => [1, run.0, round.0, level],
        Entry::Listed(run, round, Rule::C(level)) => [2, run.0, round.0, level],
    }
}
