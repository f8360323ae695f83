// What a book is opened from: a book on which nothing is known yet, a book of zeros.
ghost use Rattle.std.specs.Prelude.{◌≡◌};
ghost use Rattle.plan.specs.Value.{zero_plan};
ghost use Rattle.book.specs.Open.{blank_book};

use crate::Book;
use plan::Plan;

// Nothing is known yet of any task of the plan.
pub(crate) fn blank_book(rule: u8, plan: Plan) -> Book
    ensures { result ≡ blank_book rule plan }
{
    let Plan {
        edition,
        boards,
        tasks,
        board,
        ready,
        begin,
        finish,
        holds,
        after,
    } = plan;
    Book {
        edition,
        boards,
        tasks,
        rule,
        clock: 0,
        board,
        ready,
        begin,
        finish,
        start: [0; 64],
        end: [0; 64],
        mark: [0; 64],
        dropped: [0; 64],
        holds,
        after,
    }
}

// What a refused opening gives. Its fields stand here one by one: of an array a derived `Default` says only that each place holds 0.
pub(crate) fn zero_book() -> Book
    ensures { result ≡ blank_book 0 zero_plan }
{
    Book {
        edition: 0,
        boards: 0,
        tasks: 0,
        rule: 0,
        clock: 0,
        board: [0; 64],
        ready: [0; 64],
        begin: [0; 64],
        finish: [0; 64],
        start: [0; 64],
        end: [0; 64],
        mark: [0; 64],
        dropped: [0; 64],
        holds: [0; 2048],
        after: [0; 4096],
    }
}
