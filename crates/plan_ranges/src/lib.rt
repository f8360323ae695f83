// The ranges and rules that the numbers and lists of a plan keep that is handed in as a value, whatever its arrays hold.
#![tactic(auto)]

ghost use Rattle.std.specs.Prelude.{◌≡◌, true, false, ◌&&◌, ◌<◌, ◌≤◌, drop};
ghost use Rattle.laws.specs.Every.{every};
ghost use Rattle.laws.specs.Lists.{all_of};
ghost use Rattle.laws.specs.Private.Rise.{rises_from};
ghost use Rattle.plan.specs.Value.{row, items, blank_from, is_trimmed, kept_ok, past_blank, ranges_ok};
ghost use Rattle.plan.specs.View.{viewed};
ghost use Rattle.text_fields.specs.declared.Listed.TheVariants.{Tasks};
ghost use Rattle.plan_ranges.specs.Private.Kept.{key_of, numbers_in, list_in, shared_in, holds_in};

use plan::PlanView;
use text::decimal::NUMBER_MOST;
use text::part::find;
use text_fields::Listed;
use text_fields::list::has_shared;

// From place n on a list keeps nothing else. A walk that gathers to its end can use wide instructions.
pub fn is_blank<T: Copy + PartialEq>(nothing: T, list: &[T], n: usize) -> bool
    ensures { result ≡ all_of (T.eq nothing) (drop n list.now) }
{
    let mut all = true;
    for i in n..list.len() {
        all = (nothing == list[i]) & all;
    }
    all
}

// The number by which an item has its place: its drive, or the task's.
fn key(listed: Listed, x: u8) -> u8
    ensures { result ≡ key_of listed x }
{
    match listed {
        Listed::Holds => x / 2,
        Listed::Tasks => x,
    }
}

// The keys of the items lie in 1 to high and rise strictly.
fn rises(list: &[u8], listed: Listed, high: u8) -> bool
    ensures { result ≡ rises_from (key_of listed) high 0 (items list.now) }
{
    let mut last: u8 = 0;
    for &x in list {
        if x == 0 {
            return true;
        }
        let k = key(listed, x);
        if !((last < k) & (k <= high)) {
            return false;
        }
        last = k;
    }
    true
}

// The list keeps its range, rises, and has nothing past its last item.
fn list_ok(list: &[u8], listed: Listed, high: u8) -> bool
    ensures { result ≡ (rises_from (key_of listed) high 0 (items list.now) && is_trimmed list.now) }
{
    rises(list, listed, high) & is_blank(0, list, find(list, 0))
}

fn numbers_ok(plan: &PlanView<'_>, k: usize) -> bool
    requires { k < 64 }
    ensures { result ≡ numbers_in (viewed plan.now) k }
{
    let times = (plan.begin[k] < plan.finish[k]) & (plan.finish[k] <= NUMBER_MOST);
    let board_ok = (1 <= plan.board[k]) & (plan.board[k] <= plan.boards);
    let ready_ok = (plan.edition == 2) | (plan.ready[k] == 0);
    (board_ok & ((plan.ready[k] <= plan.begin[k]) & times)) & ready_ok
}

// Edition 2 no longer takes a shared hold.
fn shared_ok(plan: &PlanView<'_>, list: &[u8]) -> bool
    ensures { result ≡ shared_in plan.now.edition list.now }
{
    (plan.edition != 2) | !has_shared(list)
}

fn holds_ok(plan: &PlanView<'_>, k: usize) -> bool
    requires { k < 64 }
    ensures { result ≡ holds_in plan.now.edition (row 32 plan.now.holds.now k) }
{
    let list = plan.holds_of(k);
    list_ok(list, Listed::Holds, 32) & shared_ok(plan, list)
}

fn after_ok(plan: &PlanView<'_>, k: usize) -> bool
    requires { k < 64 }
    ensures { result ≡ list_in Tasks plan.now.tasks (row 64 plan.now.after.now k) }
{
    list_ok(plan.after_of(k), Listed::Tasks, plan.tasks)
}

fn task_ok(plan: &PlanView<'_>, k: usize) -> bool
    requires { k < 64 }
    ensures { result ≡ kept_ok (viewed plan.now) k }
{
    numbers_ok(plan, k) & (holds_ok(plan, k) & after_ok(plan, k))
}

fn all_kept(plan: &PlanView<'_>) -> bool
    requires { plan.now.tasks ≤ 64 }
    ensures { result ≡ every plan.now.tasks (kept_ok (viewed plan.now)) }
{
    for k in 0..plan.tasks as usize {
        if !task_ok(plan, k) {
            return false;
        }
    }
    true
}

fn past_blank(plan: &PlanView<'_>) -> bool
    requires { plan.now.tasks ≤ 64 }
    ensures { result ≡ past_blank (viewed plan.now) }
{
    let n = plan.tasks as usize;
    // an array that a field shows is lent as a slice by a variable: the checker asks for the copies of the references
    let (board, ready, begin) = (plan.board, plan.ready, plan.begin);
    let (finish, holds, after) = (plan.finish, plan.holds, plan.after);
    let lists = is_blank(0, holds, 32 * n) & is_blank(0, after, 64 * n);
    let planned = is_blank(0, begin, n) & (is_blank(0, finish, n) & lists);
    is_blank(0, board, n) & (is_blank(0, ready, n) & planned)
}

// The test of ranges of a plan, where it stands.
pub fn keeps_ranges(plan: &PlanView<'_>) -> bool
    ensures { result ≡ ranges_ok (viewed plan.now) }
{
    let sizes = ((1 <= plan.boards) & (plan.boards <= 8))
        & ((1 <= plan.tasks) & (plan.tasks <= 64));
    if !(((1 <= plan.edition) & (plan.edition <= 2)) & sizes) {
        return false;
    }
    all_kept(plan) & past_blank(plan)
}
