// For each drive the tasks that hold it, whatever their lists hold. Task k is bit k of a set, drive d is place d - 1; a drive that is not of the 32 has no place.
#![tactic(auto)]

ghost use Rattle.std.specs.Prelude.{◌≡◌, not, ◌&&◌, ◌+◌, ◌<◌, eqb, length};
ghost use Rattle.laws.specs.Bits.{has, set_of};
ghost use Rattle.laws.specs.Lists.{any_of};
ghost use Rattle.laws.specs.Private.Noted.{noted};
ghost use Rattle.text_fields.specs.Items.{drive_of, is_shared};
ghost use Rattle.plan.specs.Value.{items};
ghost use Rattle.book_holders.specs.Holders.{holders_of, rivals_on};

use book_view::bit_of;

// For each drive all that hold it, and those that hold it exclusively: flat arrays of numbers can be lent, an array of structs cannot.
#[derive(Drop)]
pub struct Holders {
    pub held: [u64; 32],
    pub exclusive: [u64; 32],
}

// One hold of a task.
fn note_hold(held: &mut [u64; 32], exclusive: &mut [u64; 32], hold: u8, task: usize)
    requires { (task < 64) × (length held.old ≡ 32) × (length exclusive.old ≡ 32) }
    ensures { (held.new ≡ noted 32 (λ d. eqb (d + 1) (drive_of hold)) task held.old) × (exclusive.new ≡ noted 32 (λ d. eqb (d + 1) (drive_of hold) && not (is_shared hold)) task exclusive.old) }
{
    let drive = hold / 2;
    if !((1 <= drive) & (drive <= 32)) {
        return;
    }
    let p = (drive - 1) as usize;
    held[p] |= bit_of(true, task);
    exclusive[p] |= bit_of(!(hold % 2 == 1), task);
}

// All holds of a task, up to the first 0.
fn note_list(held: &mut [u64; 32], exclusive: &mut [u64; 32], list: &[u8], task: usize)
    requires { (task < 64) × (length held.old ≡ 32) × (length exclusive.old ≡ 32) }
    ensures { (held.new ≡ noted 32 (λ d. any_of (λ h. eqb (d + 1) (drive_of h)) (items list.now)) task held.old) × (exclusive.new ≡ noted 32 (λ d. any_of (λ h. eqb (d + 1) (drive_of h) && not (is_shared h)) (items list.now)) task exclusive.old) }
{
    for &h in list {
        if h == 0 {
            return;
        }
        note_hold(held, exclusive, h, task);
    }
}

// One pass over the holds of all tasks. Places past the last task hold nothing.
pub fn holders_of(holds: &[u8; 2048]) -> Holders
    ensures { result ≡ holders_of holds.now }
{
    let all = &holds[..];
    let mut held = [0u64; 32];
    let mut exclusive = [0u64; 32];
    for k in 0..64 {
        let s = 32 * k;
        note_list(&mut held, &mut exclusive, &all[s..s + 32], k);
    }
    Holders { held, exclusive }
}

// Whom a hold clashes with: all holders of its drive, or where it is shared those that hold it exclusively.
fn rivals_on(held: &[u64; 32], exclusive: &[u64; 32], hold: u8) -> u64
    ensures { result ≡ rivals_on held.now exclusive.now hold }
{
    let drive = hold / 2;
    if !((1 <= drive) & (drive <= 32)) {
        return 0;
    }
    let p = (drive - 1) as usize;
    if hold % 2 == 1 {
        return exclusive[p];
    }
    held[p]
}

impl Holders {
    // Whom a list of holds clashes with, each hold by itself.
    pub fn rivals(&self, list: &[u8]) -> u64
        ensures { result ≡ set_of 64 (λ j. any_of (λ h. has (rivals_on self.now.held self.now.exclusive h) j) (items list.now)) }
    {
        let mut set: u64 = 0;
        for &h in list {
            if h == 0 {
                return set;
            }
            set |= rivals_on(&self.held, &self.exclusive, h);
        }
        set
    }
}
