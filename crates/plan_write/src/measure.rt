// The lengths of a plan text's parts. Each is bounded, so that no sum of them wraps.
ghost use Rattle.std.specs.Prelude.{◌≡◌, ◌+◌, ◌*◌, ◌<◌, ◌≤◌, length};
ghost use Rattle.laws.specs.Digits.{digits_of};
ghost use Rattle.text_fields.specs.Items.{list_text};
ghost use Rattle.plan.specs.Value.{task_at};
ghost use Rattle.plan.specs.View.{viewed};
ghost use Rattle.plan.specs.Write.{sizes_text, task_text, task_texts};
ghost use Rattle.plan_write.specs.Private.WriteParts.{item_text, ready_field, numbers_text, Measured};

use plan::PlanView;
use text::decimal::width;
use text::part::part_before;
use text_fields::Listed;

fn number_len(n: u32) -> usize
    ensures { Measured (digits_of n) 10 result }
{
    width(n)
}

fn item_len(listed: Listed, x: u8) -> usize
    ensures { Measured (item_text listed x) 11 result }
{
    match listed {
        Listed::Holds => 1 + number_len(u32::from(x / 2)),
        Listed::Tasks => number_len(u32::from(x)),
    }
}

fn list_len(items: &[u8], listed: Listed) -> usize
    requires { length items.now ≤ 64 }
    ensures { Measured (list_text (item_text listed) items.now) 800 result }
{
    let Some((first, others)) = items.split_first() else {
        return 1;
    };
    let mut n = item_len(listed, *first);
    for x in others {
        n += 1 + item_len(listed, *x);
    }
    n
}

// The ready tick is written in edition 2 alone. `edition` is a plan's byte, which may be any (C interface).
fn ready_len(edition: u8, ready: u32) -> usize
    ensures { Measured (ready_field edition ready) 11 result }
{
    if edition == 2 {
        return number_len(ready) + 1;
    }
    0
}

fn numbers_len(plan: &PlanView<'_>, k: usize) -> usize
    requires { k < 64 }
    ensures { Measured (numbers_text plan.now.edition (k + 1) (task_at (viewed plan.now) k)) 55 result }
{
    let places = number_len((k + 1) as u32) + number_len(u32::from(plan.board[k]));
    let ready = ready_len(plan.edition, plan.ready[k]);
    let ticks = ready + number_len(plan.begin[k]) + number_len(plan.finish[k]);
    // a tab after each but the ready tick, whose length has it
    places + ticks + 4
}

// The line of task k, from 0.
fn task_len(plan: &PlanView<'_>, k: usize) -> usize
    requires { k < 64 }
    ensures { Measured (task_text plan.now.edition (k + 1) (task_at (viewed plan.now) k)) 2000 result }
{
    let numbers = numbers_len(plan, k);
    let held = list_len(part_before(plan.holds_of(k), 0), Listed::Holds);
    let after = list_len(part_before(plan.after_of(k), 0), Listed::Tasks);
    // `task` and a tab before the numbers, a tab or an LF after each list
    5 + numbers + held + after + 2
}

pub(crate) fn tasks_len(plan: &PlanView<'_>) -> usize
    requires { plan.now.tasks ≤ 64 }
    ensures { Measured (task_texts plan.now.edition (task_at (viewed plan.now)) plan.now.tasks) 128000 result }
{
    let mut n: usize = 0;
    for k in 0..plan.tasks as usize {
        n += task_len(plan, k);
    }
    n
}

pub(crate) fn sizes_len(plan: &PlanView<'_>) -> usize
    ensures { Measured (sizes_text plan.now.edition plan.now.boards plan.now.tasks) 40 result }
{
    let boards = number_len(u32::from(plan.boards));
    let tasks = number_len(u32::from(plan.tasks));
    // `plan` and a tab before the numbers, a tab or an LF after each
    5 + number_len(u32::from(plan.edition)) + boards + tasks + 3
}
