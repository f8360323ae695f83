// The two list fields of a line: `-`, or items joined by commas.
ghost use Rattle.std.specs.Prelude.{◌≡◌, true, cond, map, ◌≤◌, Err};
ghost use Rattle.laws.specs.Lists.{all_of};
ghost use Rattle.laws.specs.Split.{split_on};
ghost use Rattle.text.specs.Number.{value_of};
ghost use Rattle.text_fields.specs.Items.{COMMA, has_shared, exclusive, no_items, holds_read, after_read};
ghost use Rattle.text_fields.specs.Said.{items_in};
ghost use Rattle.text_fields.specs.Private.Lettered.{lettered, starts_item, is_item, item_of, digits_in, item_number, item_stop, parts_stop, items_read, list_read};

use crate::{Items, Listed};
use text::NumberFault;
use text::decimal::{is_number, number_stop, read_number};
use text::part::{part_before, past, same};

const COMMA: u8 = 44;

const DRIVES: u32 = 32;

const TASKS: u32 = 64;

fn starts_hold(part: &[u8]) -> bool
    ensures { result ≡ starts_item true part.now }
{
    if part.is_empty() {
        return false;
    }
    (part[0] == b'e') | (part[0] == b's')
}

// Does a part begin as an item does?
fn starts_item(part: &[u8], listed: Listed) -> bool
    ensures { result ≡ starts_item (lettered listed) part.now }
{
    match listed {
        Listed::Holds => starts_hold(part),
        Listed::Tasks => true,
    }
}

// The part of an item that spells its number.
fn digits_in(part: &[u8], listed: Listed) -> &[u8]
    ensures { result.now ≡ digits_in (lettered listed) part.now }
{
    match listed {
        Listed::Holds => past(part, 0),
        Listed::Tasks => part,
    }
}

fn is_item(part: &[u8], listed: Listed) -> bool
    ensures { result ≡ is_item (lettered listed) part.now }
{
    starts_item(part, listed) && is_number(digits_in(part, listed))
}

fn item_number(part: &[u8], listed: Listed) -> Result<(u32, usize), NumberFault>
    ensures { result ≡ item_number (lettered listed) part.now }
{
    if !starts_item(part, listed) {
        return Err(NumberFault::Misspelt(0));
    }
    read_number(digits_in(part, listed))
}

// Where an item's reader stops.
fn item_stop(part: &[u8], listed: Listed) -> usize
    ensures { result ≡ item_stop (lettered listed) part.now }
{
    if !starts_item(part, listed) {
        return 0;
    }
    let stop = number_stop(digits_in(part, listed));
    match listed {
        Listed::Holds => stop + 1,
        Listed::Tasks => stop,
    }
}

// A refused list is walked once more: misspelt at its first misspelt item, or out of range at its end.
// What is left of the text tells where a part begins; an iterator over the parts would not.
fn list_fault(s: &[u8], listed: Listed) -> NumberFault
    ensures { items_in (Err result) ≡ no_items (cond (all_of (is_item (lettered listed)) (split_on COMMA s.now)) 4 3) (parts_stop (lettered listed) s.now) }
{
    let mut rest = s;
    loop {
        let part = part_before(rest, COMMA);
        if !is_item(part, listed) {
            let begin = s.len() - rest.len();
            return NumberFault::Misspelt(begin + item_stop(part, listed));
        }
        if part.len() == rest.len() {
            return NumberFault::Over(s.len());
        }
        rest = past(rest, part.len());
    }
}

// The item whose number is n.
fn item_of(part: &[u8], listed: Listed, n: u32) -> u8
    requires { (n ≤ 64) × (n ≡ value_of (digits_in (lettered listed) part.now)) × (is_item (lettered listed) part.now ≡ true) }
    ensures { result ≡ item_of (lettered listed) part.now }
{
    match listed {
        Listed::Holds if part[0] == b's' => (n * 2 + 1) as u8,
        Listed::Holds => (n * 2) as u8,
        Listed::Tasks => n as u8,
    }
}

// The items of a list: a part that is no item, a number out of range, or one not above the last refuses it.
fn read_items(s: &[u8], listed: Listed, high: u32) -> Result<Items, NumberFault>
    requires { high ≤ 64 }
    ensures { items_in result ≡ items_read (lettered listed) high s.now }
{
    let mut items = [0u8; 64];
    let mut count = 0;
    let mut last = 0;
    let mut rest = s;
    loop {
        let part = part_before(rest, COMMA);
        let Ok((n, _)) = item_number(part, listed) else {
            return Err(list_fault(s, listed));
        };
        if (n <= last) | (high < n) {
            return Err(list_fault(s, listed));
        }
        items[count] = item_of(part, listed, n);
        count += 1;
        last = n;
        if part.len() == rest.len() {
            let stop = s.len();
            return Ok(Items { stop, count, items });
        }
        rest = past(rest, part.len());
    }
}

// Both lists: the highest number that an item may have is the caller's.
fn read_list(s: &[u8], listed: Listed, high: u32) -> Result<Items, NumberFault>
    requires { high ≤ 64 }
    ensures { items_in result ≡ list_read (lettered listed) high s.now }
{
    if same(s, b"-") {
        return Ok(Items {
            stop: 1,
            count: 0,
            items: [0; 64],
        });
    }
    read_items(s, listed, high)
}

// Is one of the holds shared? A walk that gathers to its end can use wide instructions.
pub fn has_shared(holds: &[u8]) -> bool
    ensures { result ≡ has_shared holds.now }
{
    let mut seen = false;
    for hold in holds {
        seen |= *hold % 2 == 1;
    }
    seen
}

fn exclusive(hold: u8) -> u8
    ensures { result ≡ exclusive hold }
{
    hold / 2 * 2
}

// Each hold exclusive; a place that keeps nothing keeps nothing.
pub fn make_exclusive(holds: &mut [u8])
    ensures { holds.new ≡ map exclusive holds.old }
{
    for hold in holds.iter_mut() {
        *hold = exclusive(*hold);
    }
}

// A list's fault is told as a number's: `Over` for an item out of its range or not above the last.
pub fn read_holds(field: &[u8]) -> Result<Items, NumberFault>
    ensures { items_in result ≡ holds_read field.now }
{
    read_list(field, Listed::Holds, DRIVES)
}

// There are never more than 64 tasks to come after.
pub fn read_after(field: &[u8], tasks: u32) -> Result<Items, NumberFault>
    ensures { items_in result ≡ after_read field.now tasks }
{
    read_list(field, Listed::Tasks, tasks.min(TASKS))
}
