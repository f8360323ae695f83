// Why a task started when it did: the chain of its causes, by wait sets, whatever they and the book hold.
// Why did mine start then? The chain of a task of a book that is judged first.
#![tactic(auto)]

mod walk;

ghost use Rattle.std.specs.Prelude.{◌≡◌, ◌≤◌, [], min};
ghost use Rattle.plan.specs.Answer.{refuse};
ghost use Rattle.ask_why.specs.Chained.{chained, chain_for};
ghost use Rattle.ask_why.specs.Asked.{plan_by, seen_in};
ghost use Rattle.ask_why.specs.Private.Asked.{asked_of};
ghost use Rattle.ask_why.specs.Why.{why_of};

use book::{Book, judged};
use book_view::places;
use plan::{Answer, Refusal, granted, refuse};
use walk::follow;

// links: task numbers, first the asked one; places past the last hold nothing.
#[repr(C)]
#[derive(Drop)]
pub struct Chain {
    pub answer: Answer,
    pub count: u32,
    pub links: [u8; 64],
}

// A refusal gives an empty chain, and says a task or 0. The code is a number: a narrower type would ask more of callers.
pub fn no_chain(code: u32, task: u32) -> Chain
    ensures { result ≡ chained (refuse code task 0) [] }
{
    Chain {
        answer: refuse(code, task, 0),
        count: 0,
        links: [0; 64],
    }
}

// The place of a started task.
fn started(mark: &[u8; 64], tasks: usize, task: u32) -> Result<usize, Refusal>
    requires { tasks ≤ 64 }
    ensures { result ≡ asked_of tasks mark.now task }
{
    if (task == 0) | (tasks < task as usize) {
        return Err(Refusal::NoTask);
    }
    let i = (task - 1) as usize;
    if mark[i] == 0 {
        return Err(Refusal::NotRunning);
    }
    Ok(i)
}

// The chain of a task of a book that was judged before, with the wait sets that judging handed back.
pub fn chain_by(book: &Book, waits: &[u64; 64], task: u32) -> Chain
    ensures { result ≡ chain_for (plan_by (min book.now.tasks 64) book.now waits.now) (seen_in book.now) task }
{
    let n = places(book.tasks, &book.mark);
    let i = match started(&book.mark, n, task) {
        Ok(i) => i,
        Err(refusal) => return no_chain(refusal.number(), task),
    };
    let mut links = [0u8; 64];
    let count = follow(&mut links, book, waits, n, i, 0);
    Chain {
        answer: granted(),
        count: count as u32,
        links,
    }
}

pub fn why(book: Book, task: u32) -> Chain
    ensures { result ≡ why_of book task }
{
    let Ok(waits) = judged(&book) else {
        return no_chain(Refusal::Unsound.number(), 0);
    };
    chain_by(&book, &waits, task)
}
