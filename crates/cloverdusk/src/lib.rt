// The static library: what C and the tests in Rust call, and nothing else.
#![tactic(auto)]

ghost use Rattle.std.specs.Prelude.{◌≡◌, cond, ◌≤◌, length};
ghost use Rattle.std.proofs.lemmas.List.Edits.{sets};
ghost use Rattle.plan.specs.Read.{reading_of, mended_of};
ghost use Rattle.plan.specs.Convert.{converted_of};
ghost use Rattle.plan.specs.Write.{written_of, buffer_after};
ghost use Rattle.plan.specs.Value.{judged_answer, is_accepted};
ghost use Rattle.book.specs.Sound.{is_sound};
ghost use Rattle.book.specs.Open.{rule_number, opening_of};
ghost use Rattle.book.specs.declared.Rule.TheVariants.{EarlyStart, Clash};
ghost use Rattle.book.specs.Report.{reported_of};
ghost use Rattle.book.specs.Drop.{dropped_of};
ghost use Rattle.book.specs.Early.{figure_of};
ghost use Rattle.ask_exact.specs.Figure.{exact_of};
ghost use Rattle.ask_why.specs.Why.{why_of};
ghost use Rattle.ask_drives.specs.Sheets.{made_of, reported_with, dropped_with, on_drive_of};
ghost use Rattle.plan_convert.specs.Renewed.{text_most, renewed_in};
ghost use Rattle.log_run.specs.Log.{log_most, log_in};
ghost use Rattle.engine.specs.Timetable.{timetable_of};
ghost use Rattle.engine_read.specs.Whole.{asked_of};
ghost use Rattle.engine_write.specs.Rows.{table_most};
ghost use Rattle.engine_write.specs.Table.{table_in};
ghost use Rattle.school.specs.Tests.{judged_of};
ghost use Rattle.school.specs.Text.{judged_most, judged_in};
ghost use Rattle.year_rules.specs.Totals.{added_of};
ghost use Rattle.year_write.specs.Report.{report_most, report_in};

use ask_drives::{BookAndSheet, OnDrive, SheetResult};
use ask_exact::Exact;
use ask_sheet::Sheet;
use ask_why::Chain;
use book::{Book, BookResult, Figure, Rule, number_of};
use engine::{Lengths, Timetable};
use engine_read::EngineInput;
use plan::{Answer, Plan, Reading, WriteResult};
use school::JudgedLog;
use year_rules::{AddResult, Totals};

#[unsafe(no_mangle)]
pub extern "C" fn clover_read_plan(text: &[u8]) -> Reading
    ensures { result ≡ reading_of text.now }
{
    plan_read::read_plan(text)
}

#[unsafe(no_mangle)]
pub extern "C" fn clover_read_exclusive(text: &[u8]) -> Reading
    ensures { result ≡ mended_of text.now }
{
    plan_read::read_exclusive(text)
}

#[unsafe(no_mangle)]
pub extern "C" fn clover_convert(plan: Plan) -> Reading
    ensures { result ≡ converted_of plan }
{
    plan_convert::convert(plan)
}

#[unsafe(no_mangle)]
pub extern "C" fn clover_convert_text(text: &[u8], out: &mut [u8]) -> usize
    ensures { (result ≡ length (renewed_in (length out.old) text.now)) × (out.new ≡ sets out.old 0 (renewed_in (length out.old) text.now)) × (result ≤ text_most) }
{
    plan_convert::convert_text(text, out)
}

#[unsafe(no_mangle)]
pub extern "C" fn clover_judge_plan(plan: Plan) -> Answer
    ensures { result ≡ judged_answer plan }
{
    plan_judge::value::judge_plan(&plan.view())
}

#[unsafe(no_mangle)]
pub extern "C" fn clover_is_accepted(plan: Plan) -> bool
    ensures { result ≡ is_accepted plan }
{
    plan_judge::value::is_accepted(&plan.view())
}

#[unsafe(no_mangle)]
pub extern "C" fn clover_is_sound(book: Book) -> bool
    ensures { result ≡ is_sound book }
{
    book::is_sound(&book)
}

fn rule_for(clash: bool) -> Rule
    ensures { result ≡ cond clash Clash EarlyStart }
{
    if clash {
        return Rule::Clash;
    }
    Rule::EarlyStart
}

#[unsafe(no_mangle)]
pub extern "C" fn clover_open_book(plan: Plan, clash: bool) -> BookResult
    ensures { result ≡ opening_of plan (cond clash Clash EarlyStart) }
{
    book::open_book(plan, rule_for(clash))
}

#[unsafe(no_mangle)]
pub extern "C" fn clover_report(book: Book, task: u32, tick: u32) -> BookResult
    ensures { result ≡ reported_of book task tick }
{
    book.report(task, tick)
}

#[unsafe(no_mangle)]
pub extern "C" fn clover_drop(book: Book, task: u32) -> BookResult
    ensures { result ≡ dropped_of book task }
{
    book.drop(task)
}

#[unsafe(no_mangle)]
pub extern "C" fn clover_minimum_early(book: Book) -> Figure
    ensures { result ≡ figure_of book }
{
    book.minimum_early()
}

#[unsafe(no_mangle)]
pub extern "C" fn clover_timetable(plan: Plan, clash: bool, given: Lengths) -> Timetable
    ensures { result ≡ timetable_of plan (cond clash Clash EarlyStart) given }
{
    engine::work_out(plan, rule_for(clash), given)
}

// What a text of lengths asks of the engine; the rule is the byte that a book by that rule has.
#[repr(C)]
#[derive(Drop)]
pub struct LengthsResult {
    pub answer: Answer,
    pub rule: u8,
    pub given: Lengths,
}

fn handed_over(asked: EngineInput) -> LengthsResult
    ensures { result ≡ record { answer = asked.answer; rule = rule_number asked.rule; given = asked.given } }
{
    let EngineInput {
        answer,
        rule,
        given,
    } = asked;
    LengthsResult {
        answer,
        rule: number_of(rule),
        given,
    }
}

#[unsafe(no_mangle)]
pub extern "C" fn clover_read_lengths(plan: Plan, text: &[u8]) -> LengthsResult
    ensures { result ≡ record { answer = (asked_of plan.tasks plan.begin plan.finish text.now).answer; rule = rule_number (asked_of plan.tasks plan.begin plan.finish text.now).rule; given = (asked_of plan.tasks plan.begin plan.finish text.now).given } }
{
    handed_over(engine_read::read_lengths(plan.tasks, &plan.begin, &plan.finish, text))
}

#[unsafe(no_mangle)]
pub extern "C" fn clover_exact_early(book: Book) -> Exact
    ensures { result ≡ exact_of book }
{
    ask_exact::exact_early(book)
}

#[unsafe(no_mangle)]
pub extern "C" fn clover_why(book: Book, task: u32) -> Chain
    ensures { result ≡ why_of book task }
{
    ask_why::why(book, task)
}

#[unsafe(no_mangle)]
pub extern "C" fn clover_make_sheet(book: Book) -> SheetResult
    ensures { result ≡ made_of book }
{
    ask_drives::make_sheet(book)
}

#[unsafe(no_mangle)]
pub extern "C" fn clover_report_sheet(
    book: Book,
    sheet: Sheet,
    task: u32,
    tick: u32,
) -> BookAndSheet
    ensures { result ≡ reported_with book sheet task tick }
{
    ask_drives::report_sheet(book, sheet, task, tick)
}

#[unsafe(no_mangle)]
pub extern "C" fn clover_drop_sheet(book: Book, sheet: Sheet, task: u32) -> BookAndSheet
    ensures { result ≡ dropped_with book sheet task }
{
    ask_drives::drop::drop_sheet(book, sheet, task)
}

#[unsafe(no_mangle)]
pub extern "C" fn clover_on_drive(book: Book, sheet: Sheet, drive: u32) -> OnDrive
    ensures { result ≡ on_drive_of book sheet drive }
{
    ask_drives::on_drive(book, sheet, drive)
}

#[unsafe(no_mangle)]
pub extern "C" fn clover_write_plan(plan: Plan, out: &mut [u8]) -> WriteResult
    ensures { (result ≡ written_of plan (length out.old)) × (out.new ≡ buffer_after plan out.old) }
{
    plan_write::write::write_plan(plan, out)
}

#[unsafe(no_mangle)]
pub extern "C" fn clover_run_log(plan: &[u8], ends: &[u8], out: &mut [u8]) -> usize
    ensures { (result ≡ length (log_in (length out.old) plan.now ends.now)) × (out.new ≡ sets out.old 0 (log_in (length out.old) plan.now ends.now)) × (result ≤ log_most) }
{
    log_run::run_log(plan, ends, out)
}

#[unsafe(no_mangle)]
pub extern "C" fn clover_write_timetable(plan: &[u8], lengths: &[u8], out: &mut [u8]) -> usize
    ensures { (result ≡ length (table_in (length out.old) plan.now lengths.now)) × (out.new ≡ sets out.old 0 (table_in (length out.old) plan.now lengths.now)) × (result ≤ table_most) }
{
    engine_write::write_timetable(plan, lengths, out)
}

#[unsafe(no_mangle)]
pub extern "C" fn clover_judge_log(plan: Plan, log: &[u8]) -> JudgedLog
    ensures { result ≡ judged_of plan log.now }
{
    school_judge::judge_log(plan, log)
}

#[unsafe(no_mangle)]
pub extern "C" fn clover_write_judged(plan: &[u8], log: &[u8], out: &mut [u8]) -> usize
    ensures { (result ≡ length (judged_in (length out.old) plan.now log.now)) × (out.new ≡ sets out.old 0 (judged_in (length out.old) plan.now log.now)) × (result ≤ judged_most) }
{
    school_write::write_judged(plan, log, out)
}

#[unsafe(no_mangle)]
pub extern "C" fn clover_add_log(totals: Totals, plan: Plan, log: &[u8]) -> AddResult
    ensures { result ≡ added_of totals plan log.now }
{
    year_totals::add_log(totals, plan, log)
}

#[unsafe(no_mangle)]
pub extern "C" fn clover_write_report(totals: Totals, past: bool, out: &mut [u8]) -> usize
    ensures { (result ≡ length (report_in (length out.old) past totals)) × (out.new ≡ sets out.old 0 (report_in (length out.old) past totals)) × (result ≤ report_most) }
{
    year_write::write_report(totals, past, out)
}
