// The fields of a head: its sets and settings, the dealer's value and the faulty boards judged.
ghost use Rattle.std.specs.Prelude.{◌≡◌, ◌&&◌, cond, [], ◌++◌, ◌-◌, min, replicate};
ghost use Rattle.codec.specs.Codec.{current};
ghost use Rattle.sets.specs.Sets.{within, boards};
ghost use Rattle.sets.specs.Structure.{tolerated};
ghost use Rattle.refusals.specs.Outcome.{taken, refused, verdict};
ghost use Rattle.sheet.specs.Sheet.{sets_place};
ghost use Rattle.hexadecimal.specs.Bytes.{bytes_from};
ghost use Rattle.fields.specs.Settings.{line_settings};

use hexadecimal::reading::byte_at;
use refusals::refusal::Refusal;
use sets::boards::{all_boards, within};
use settings::settings::Settings;
use sheet::head::{DEALER, DEFAULT, DEPTH, SETS, SPAN};
use text::lines::number_at;
use tolerance::structure::holder;

// The sets of a head, in 255 slots.
pub fn sets_of(line: &[u8], count: u8) -> [u8; 255]
    ensures { result ≡ bytes_from line.now (sets_place current) count ++ replicate (255 - count) 0 }
{
    let mut sets = [0u8; 255];
    for k in 0..usize::from(count) {
        sets[k] = byte_at(line, k + SETS);
    }
    sets
}

// The settings that a head's line names.
pub fn settings_of(line: &[u8]) -> Settings
    ensures { result ≡ line_settings line.now }
{
    Settings {
        dealer: byte_at(line, DEALER),
        span: number_at(line, SPAN),
        default: number_at(line, DEFAULT),
        depth: byte_at(line, DEPTH),
    }
}

// The faulty boards: 23. A plan of more than seven boards is refused for that.
pub fn judge_faulty(n: u8, sets: &[u8], faulty: u8) -> Result<(), Refusal>
    ensures { verdict result ≡ cond (within faulty (boards (min n 7)) && tolerated sets.now faulty) (taken []) (refused 23) }
{
    let all = all_boards(n.min(7));
    if within(faulty, all) && holder(sets, faulty).is_some() {
        Ok(())
    } else {
        Err(Refusal::BadFaulty)
    }
}
