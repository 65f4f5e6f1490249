// What all boards of a session do in turn, each on its record and its part of the cells.
ghost use Rattle.std.specs.Prelude.{◌≡◌, ℕ, ◌<◌};
ghost use Rattle.protocol.specs.Rounds.{board_with, Board};
ghost use Rattle.stage.specs.Stage.{Roomy, keeps, on_stage};

use codec::value::Value;
use levels::levels::cell_count;
use protocol::records::Record;
use sets::boards::member;
use sheet::head::Head;

// Does board i keep cells, and is it outside F?
#[tactic(auto, unfolding(crate::specs::Stage::keeps))]
pub fn is_keeper(head: Head, i: u8) -> bool
    ensures { result ≡ keeps head i }
{
    !member(head.faulty, i) && i != head.plan.dealer
}

// Every board outside F that keeps cells acts, rising, each on its number, its record and its part of the cells.
pub fn on_stage<F: Fn(u8, Record, &mut [Value]) -> Record>(
    head: Head,
    act: F,
    records: [Record; 7],
    cells: &mut [Value],
) -> [Record; 7]
    requires roomy { Roomy head cells.old }
    requires callable { F.IsAlwaysCallable act }
    ensures { (g : ℕ → Board → Board) → ((i : ℕ) (r : Record) (c : _) (r' : Record) (c' : _) → i < 8 → F.post act i r c r' c' → board_with r' c'.now ≡ g i (board_with r c.now)) → record { recs = result; cells = cells.new } ≡ on_stage head g head.plan.n (record { recs = records; cells = cells.old }) }
{
    let size = cell_count(head.plan.n);
    let mut all = records;
    for i in 0..head.plan.n {
        if is_keeper(head, i) {
            let place = usize::from(i);
            let at = place * size;
            all[place] = act(i, all[place], &mut cells[at..at + size]);
        }
    }
    all
}
