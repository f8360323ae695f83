// A book on a plan: planned times, starts, ends and marks beside the clock, and the rest of its plan.
#![tactic(auto)]

mod judge;
mod open;
mod settle;
mod skip;
mod start;
mod table;

ghost use Rattle.std.specs.Prelude.{◌≡◌, cond, ◌||◌, eqb};
ghost use Rattle.plan.specs.Answer.{refuse};
ghost use Rattle.book.specs.Sound.{is_sound, judged_in};
ghost use Rattle.book.specs.Open.{rule_number, opening_of};
ghost use Rattle.book.specs.Report.{reported_of};
ghost use Rattle.book.specs.Drop.{dropped_of};
ghost use Rattle.book.specs.Early.{figure_of};
ghost use Rattle.book.specs.View.{shown};

use book_codes::least_early;
use book_sound::sound_waits;
use book_view::BookView;
use book_waits::wait_sets;
use judge::{judge_drop, judge_report};
use open::{blank_book, zero_book};
use plan::{Answer, Plan, PlanView, Refusal, granted, refuse};
use settle::{ended_at, settle, unmoved};

// Whom a task waits for: all that are planned to finish by its planned start, or those of them that clash with it.
#[derive(Drop)]
pub enum Rule {
    EarlyStart,
    Clash,
}

// The number of a rule, which a book keeps.
pub fn number_of(rule: Rule) -> u8
    ensures { result ≡ rule_number rule }
{
    match rule {
        Rule::EarlyStart => 0,
        Rule::Clash => 1,
    }
}

// rule: 0 Early Start, 1 clash; mark: 0 waiting, 1 running, 2 ended; dropped: 1 for a dropped task, 0 for any other.
// These are bytes of the C interface, which may be any, so no enum is made of them.
#[repr(C)]
#[derive(Clone, Copy)]
pub struct Book {
    pub edition: u8,
    pub boards: u8,
    pub tasks: u8,
    pub rule: u8,
    pub clock: u32,
    pub board: [u8; 64],
    pub ready: [u32; 64],
    pub begin: [u32; 64],
    pub finish: [u32; 64],
    pub start: [u32; 64],
    pub end: [u32; 64],
    pub mark: [u8; 64],
    pub dropped: [u8; 64],
    pub holds: [u8; 2048],
    pub after: [u8; 4096],
}

// An answer, and the book after it.
#[repr(C)]
#[derive(Drop)]
pub struct BookResult {
    pub answer: Answer,
    pub book: Book,
}

#[repr(C)]
#[derive(Drop)]
pub struct Figure {
    pub answer: Answer,
    pub early: u32,
}

// The arrays that a step changes, as the C struct `Book` has them.
#[derive(Clone, Copy)]
pub(crate) struct StepArrays {
    pub mark: [u8; 64],
    pub start: [u32; 64],
    pub end: [u32; 64],
}

// 0 and 9 say 0 and 0 besides. The code is a number: a narrower type would ask more of callers.
pub fn answer_of(code: u32, first: u32, second: u32) -> Answer
    ensures { result ≡ cond (eqb code 0 || eqb code 9) (refuse code 0 0) (refuse code first second) }
{
    if (code == 0) | (code == 9) {
        return refuse(code, 0, 0);
    }
    refuse(code, first, second)
}

// The wait sets of a book's tasks, as a refusal where it is not sound: the test of code 9.
pub fn judged(book: &Book) -> Result<[u64; 64], Option<[u64; 64]>>
    ensures { result ≡ judged_in book.now }
{
    sound_waits(&book.view())
}

pub fn is_sound(book: &Book) -> bool
    ensures { result ≡ is_sound book.now }
{
    judged(book).is_ok()
}

// The book's own arrays are lent, and there is one way out, so that the stack holds one copy of it.
pub fn open_book(plan: Plan, rule: Rule) -> BookResult
    ensures { result ≡ opening_of plan rule }
{
    let mut book = blank_book(number_of(rule), plan);
    let planned = book.view().plan;
    let answer = match wait_sets(book.rule, &planned) {
        Some(sets) => {
            let moved = settle(&book, &sets, unmoved(), 0);
            let StepArrays { mark, start, end } = moved;
            book.mark = mark;
            book.start = start;
            book.end = end;
            granted()
        }
        None => {
            book = zero_book();
            Refusal::Unsound.answer(0, 0)
        }
    };
    BookResult { answer, book }
}

// A report where the book stands, so that no second copy of it is on the stack: its answer, and the book after it in place of the one before.
pub fn report_in_place(book: &mut Book, task: u32, tick: u32) -> Answer
    ensures { reported_of book.old task tick ≡ record { answer = result; book = book.new } }
{
    match judge_report(&book.view(), task, tick) {
        Err(refusal) => answer_of(refusal.number(), task, tick),
        Ok(sets) => {
            let k = (task - 1) as usize;
            let ended = ended_at(book, k, tick);
            let next = settle(book, &sets, ended, tick);
            let StepArrays { mark, start, end } = next;
            book.clock = tick;
            book.mark = mark;
            book.start = start;
            book.end = end;
            granted()
        }
    }
}

// A drop where the book stands. A dropped task takes no time, but only once all it waits for have ended.
pub fn drop_in_place(book: &mut Book, task: u32) -> Answer
    ensures { dropped_of book.old task ≡ record { answer = result; book = book.new } }
{
    match judge_drop(&book.view(), task) {
        Err(refusal) => answer_of(refusal.number(), task, 0),
        Ok(()) => {
            let k = (task - 1) as usize;
            book.dropped[k] = 1;
            granted()
        }
    }
}

impl Book {
    pub fn view(&self) -> BookView<'_>
        ensures { shown result ≡ self.now }
    {
        let plan = PlanView {
            edition: self.edition,
            boards: self.boards,
            tasks: self.tasks,
            board: &self.board,
            ready: &self.ready,
            begin: &self.begin,
            finish: &self.finish,
            holds: &self.holds,
            after: &self.after,
        };
        BookView {
            plan,
            rule: self.rule,
            clock: self.clock,
            start: &self.start,
            end: &self.end,
            mark: &self.mark,
            dropped: &self.dropped,
        }
    }

    pub fn report(mut self, task: u32, tick: u32) -> BookResult
        ensures { result ≡ reported_of self task tick }
    {
        let answer = report_in_place(&mut self, task, tick);
        BookResult { answer, book: self }
    }

    pub fn drop(mut self, task: u32) -> BookResult
        ensures { result ≡ dropped_of self task }
    {
        let answer = drop_in_place(&mut self, task);
        BookResult { answer, book: self }
    }

    pub fn minimum_early(self) -> Figure
        ensures { result ≡ figure_of self }
    {
        let view = self.view();
        if sound_waits(&view).is_err() {
            return Figure {
                answer: Refusal::Unsound.answer(0, 0),
                early: 0,
            };
        }
        Figure {
            answer: granted(),
            early: least_early(&view),
        }
    }
}
