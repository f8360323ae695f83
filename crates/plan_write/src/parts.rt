// The parts of a plan text written, where the caller has seen that there is room. Each answers the place after its text.
ghost use Rattle.std.specs.Prelude.{◌≡◌, cond, ◌∷◌, ◌+◌, ◌<◌, ◌≤◌};
ghost use Rattle.text_fields.specs.Items.{COMMA, is_shared, list_text};
ghost use Rattle.plan.specs.Value.{task_at};
ghost use Rattle.plan.specs.View.{viewed};
ghost use Rattle.plan.specs.Write.{sizes_text, task_text, task_texts};
ghost use Rattle.plan_write.specs.Private.WriteParts.{item_text, number_field, list_field, ready_field, numbers_text, Room, Wrote};

use plan::PlanView;
use text::part::{LF, TAB, part_before};
use text::put::{put_byte, put_number, put_text};
use text_fields::Listed;

const COMMA: u8 = b',';

fn put_number_field(out: &mut [u8], at: usize, n: u32, end: u8) -> usize
    requires { Room out.old at (number_field n end) }
    ensures { Wrote out.old at (number_field n end) out.new result }
{
    let next = put_number(out, at, n);
    put_byte(out, next, end)
}

fn letter(hold: u8) -> u8
    ensures { result ≡ cond (is_shared hold) 115 101 }
{
    if hold % 2 == 1 {
        return b's';
    }
    b'e'
}

fn put_item(out: &mut [u8], at: usize, listed: Listed, x: u8) -> usize
    requires { Room out.old at (item_text listed x) }
    ensures { Wrote out.old at (item_text listed x) out.new result }
{
    match listed {
        Listed::Holds => {
            let next = put_byte(out, at, letter(x));
            put_number(out, next, u32::from(x / 2))
        }
        Listed::Tasks => put_number(out, at, u32::from(x)),
    }
}

// An item that is not the first stands after a comma.
fn put_next_item(out: &mut [u8], at: usize, listed: Listed, x: u8) -> usize
    requires { Room out.old at (COMMA ∷ item_text listed x) }
    ensures { Wrote out.old at (COMMA ∷ item_text listed x) out.new result }
{
    let next = put_byte(out, at, COMMA);
    put_item(out, next, listed, x)
}

fn put_items(out: &mut [u8], at: usize, items: &[u8], listed: Listed) -> usize
    requires { Room out.old at (list_text (item_text listed) items.now) }
    ensures { Wrote out.old at (list_text (item_text listed) items.now) out.new result }
{
    let Some((first, others)) = items.split_first() else {
        return put_byte(out, at, b'-');
    };
    let mut place = put_item(out, at, listed, *first);
    for x in others {
        place = put_next_item(out, place, listed, *x);
    }
    place
}

fn put_list_field(out: &mut [u8], at: usize, items: &[u8], listed: Listed, end: u8) -> usize
    requires { Room out.old at (list_field listed items.now end) }
    ensures { Wrote out.old at (list_field listed items.now end) out.new result }
{
    let next = put_items(out, at, items, listed);
    put_byte(out, next, end)
}

// `edition` is a plan's byte, which may be any (C interface).
fn put_ready(out: &mut [u8], at: usize, edition: u8, ready: u32) -> usize
    requires { Room out.old at (ready_field edition ready) }
    ensures { Wrote out.old at (ready_field edition ready) out.new result }
{
    if edition == 2 {
        return put_number_field(out, at, ready, TAB);
    }
    at
}

fn put_numbers(out: &mut [u8], at: usize, plan: &PlanView<'_>, k: usize) -> usize
    requires { (k < 64) × Room out.old at (numbers_text plan.now.edition (k + 1) (task_at (viewed plan.now) k)) }
    ensures { Wrote out.old at (numbers_text plan.now.edition (k + 1) (task_at (viewed plan.now) k)) out.new result }
{
    let first = put_number_field(out, at, (k + 1) as u32, TAB);
    let second = put_number_field(out, first, u32::from(plan.board[k]), TAB);
    let third = put_ready(out, second, plan.edition, plan.ready[k]);
    let fourth = put_number_field(out, third, plan.begin[k], TAB);
    put_number_field(out, fourth, plan.finish[k], TAB)
}

fn put_task(out: &mut [u8], at: usize, plan: &PlanView<'_>, k: usize) -> usize
    requires { (k < 64) × Room out.old at (task_text plan.now.edition (k + 1) (task_at (viewed plan.now) k)) }
    ensures { Wrote out.old at (task_text plan.now.edition (k + 1) (task_at (viewed plan.now) k)) out.new result }
{
    let word = put_text(out, at, b"task\t");
    let numbers = put_numbers(out, word, plan, k);
    let held = part_before(plan.holds_of(k), 0);
    let next = put_list_field(out, numbers, held, Listed::Holds, TAB);
    let after = part_before(plan.after_of(k), 0);
    put_list_field(out, next, after, Listed::Tasks, LF)
}

pub(crate) fn put_tasks(out: &mut [u8], at: usize, plan: &PlanView<'_>) -> usize
    requires { (plan.now.tasks ≤ 64) × Room out.old at (task_texts plan.now.edition (task_at (viewed plan.now)) plan.now.tasks) }
    ensures { Wrote out.old at (task_texts plan.now.edition (task_at (viewed plan.now)) plan.now.tasks) out.new result }
{
    let mut place = at;
    for k in 0..plan.tasks as usize {
        place = put_task(out, place, plan, k);
    }
    place
}

pub(crate) fn put_sizes(out: &mut [u8], at: usize, plan: &PlanView<'_>) -> usize
    requires { Room out.old at (sizes_text plan.now.edition plan.now.boards plan.now.tasks) }
    ensures { Wrote out.old at (sizes_text plan.now.edition plan.now.boards plan.now.tasks) out.new result }
{
    let word = put_text(out, at, b"plan\t");
    let first = put_number_field(out, word, u32::from(plan.edition), TAB);
    let second = put_number_field(out, first, u32::from(plan.boards), TAB);
    put_number_field(out, second, u32::from(plan.tasks), LF)
}
