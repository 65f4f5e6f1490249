// The head of a sheet: n, m, the default, d, b, the dealer's value, s, then s sets, then the faulty boards.
ghost use Rattle.heads.specs.Heads.{HeadRead};

use fields::fields::{judge_faulty, sets_of, settings_of};
use hexadecimal::reading::byte_at;
use plan::plan::Plan;
use refusals::refusal::Refusal;
use settings::settings::judge_value;
use sheet::head::{COUNT, Head, SETS, WORD};
use text::lines::number_at;

// The head, whose line is digits: 22, then 1 to 7, 26, 8, 18, 23.
pub fn read_head(line: &[u8]) -> Result<Head, Refusal>
    ensures { HeadRead line.now result }
{
    let count = byte_at(line, COUNT);
    let last = usize::from(count) + SETS;
    if line.len() / 2 != last + 1 {
        return Err(Refusal::BadHead);
    }
    let slots = sets_of(line, count);
    let sets = &slots[..usize::from(count)];
    let n = byte_at(line, 0);
    let settings = settings_of(line);
    let word = number_at(line, WORD);
    let faulty = byte_at(line, last);
    let plan = Plan::new(n, sets, settings)?;
    judge_value(settings.span, word)?;
    judge_faulty(n, sets, faulty)?;
    Ok(Head { plan, faulty, word })
}
