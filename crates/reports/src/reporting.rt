// What is printed for an answer.
ghost use Rattle.std.specs.Prelude.{◌≡◌, ◌≤◌, length};
ghost use Rattle.std.proofs.lemmas.List.Edits.{sets};
ghost use Rattle.refusals.specs.Outcome.{refusal};
ghost use Rattle.sheet.specs.Playing.{refusal_text};
ghost use Rattle.reports.specs.Reported.{reported};

use digits::writing::print_byte;
use protocol::answers::Refused;

// A sheet that is turned down: FF, the number, the line in two bytes.
fn print_refusal(refused: Refused, out: &mut [u8])
    requires { 9 ≤ length out.old }
    ensures { out.new ≡ sets out.old 0 (refusal_text (refusal refused.why).number refused.line) }
{
    let [high, low] = refused.line.to_be_bytes();
    print_byte(out, 0, 255);
    print_byte(out, 2, refused.why.number());
    print_byte(out, 4, high);
    print_byte(out, 6, low);
    out[8] = 10;
}

// What is to be printed for an answer: how many bytes of the output.
pub fn report(answer: Result<usize, Refused>, out: &mut [u8]) -> usize
    ensures { record { count = result; out = out.new } ≡ reported answer out.old }
{
    match answer {
        Ok(k) => {
            if out.len() < k {
                return 0;
            }
            k
        }
        Err(refused) => {
            if out.len() < 9 {
                return 0;
            }
            print_refusal(refused, out);
            9
        }
    }
}
