// Shared holds are retired: plans and texts of edition 1 made edition 2.
#![tactic(auto)]

ghost use Rattle.std.specs.Prelude.{◌≡◌, ◌≤◌, length};
ghost use Rattle.std.proofs.lemmas.List.Edits.{sets};
ghost use Rattle.plan.specs.Convert.{converted_of, renewed_of};
ghost use Rattle.plan_convert.specs.Renewed.{text_most, renewed_in};

use log_write::put_refused;
use plan::{Plan, Reading, Refusal};
use plan_judge::value::{is_accepted, judge_plan};
use plan_read::lines::refused;
use plan_read::{read_exclusive, read_plan};
use plan_write::write::write_plan;
use text::TEXT_MOST;
use text::part::{LF, field, part_before, same};
use text_fields::list::make_exclusive;

// The converter: edition 1 in, edition 2 out, judged anew. It works on the plan handed in, so that the stack holds no other copy.
pub fn convert(mut plan: Plan) -> Reading
    ensures { result ≡ converted_of plan }
{
    let accepted = is_accepted(&plan.view());
    if !(accepted & (plan.edition == 1)) {
        return refused(Refusal::Unsound.answer(0, 0));
    }
    plan.edition = 2;
    make_exclusive(&mut plan.holds);
    let answer = judge_plan(&plan.view());
    if answer.code != 0 {
        return refused(answer);
    }
    Reading { answer, plan }
}

// The first line says which of the two calls is the text's.
fn renew(text: &[u8]) -> Reading
    ensures { result ≡ renewed_of text.now }
{
    if !same(field(part_before(text, LF), 1), b"1") {
        return read_exclusive(text);
    }
    let read = read_plan(text);
    if read.answer.code != 0 {
        return read;
    }
    convert(read.plan)
}

// The text in edition 2, or one `refused` line. Nothing is written where the buffer is shorter than TEXT_MOST.
pub fn convert_text(text: &[u8], out: &mut [u8]) -> usize
    ensures { (result ≡ length (renewed_in (length out.old) text.now)) × (out.new ≡ sets out.old 0 (renewed_in (length out.old) text.now)) × (result ≤ text_most) }
{
    if out.len() < TEXT_MOST {
        return 0;
    }
    let renewed = renew(text);
    if renewed.answer.code != 0 {
        return put_refused(out, 0, renewed.answer);
    }
    write_plan(renewed.plan, out).length as usize
}
