// Whether an AS number is on the list of the muted.
#![tactic(auto)]

ghost use Rattle.std.specs.Prelude.{◌≡◌, ◌+◌, min, ◌<◌, length};
ghost use Rattle.cut_spec.specs.Cut.{mem};
ghost use Rattle.mutes_spec.specs.Slots.{SlotsHold, Filled, empty_slots};
ghost use Rattle.mutes.specs.LookEnds.{SlotsHoldSome, LookEnds};

use mutes_spec::Slots;
use std::marker::Model;

// The list of the muted, with the slots that were filled from it. Clauses see the list.
#[derive(Drop)]
pub struct Mutes<'a> {
    list: &'a [u32],
    slots: &'a Slots,
}

impl<'a> Model for Mutes<'a> {
    ghost use Rattle.std.specs.Prelude.{List, ℕ};
    ghost use Rattle.mutes_spec.specs.Slots.{Filled};

    ghost Value = { List ℕ };

    ghost view = { λ m. m.list.now };

    ghost invariant = { λ m. Filled m.list.now m.slots.now };
}

impl<'a> Mutes<'a> {
    // A list with slots that are filled from it.
    pub fn filled(list: &'a [u32], slots: &'a Slots) -> Mutes<'a>
        requires { Filled list.now slots.now }
        ensures { result ≡ list.now }
    {
        Mutes { list, slots }
    }

    // Fills empty slots from a list.
    pub fn of(list: &'a [u32], slots: &'a mut Slots) -> Mutes<'a>
        requires { slots.old ≡ empty_slots }
        ensures { result ≡ list.now }
    {
        fill(list, slots);
        Mutes::filled(list, slots)
    }

    // Whether an AS number is on the list. The one routine that is asked.
    pub fn listed(&self, number: u64) -> bool
        ensures { result ≡ mem number self.now }
    {
        let end = look_for(number, self.list, self.slots);
        if self.slots[end] == 0 {
            let held = held_of(self.list.len());
            return among(number, &self.list[held..]);
        }
        true
    }
}

// How many numbers the slots take of a list of so many.
fn held_of(count: usize) -> usize
    ensures { result ≡ min count 65535 }
{
    count.min(65535)
}

// Fills empty slots from a list.
pub fn fill(list: &[u32], slots: &mut Slots)
    requires { slots.old ≡ empty_slots }
    ensures { Filled list.now slots.new }
{
    let held = held_of(list.len());
    for i in 0..held {
        hold(i, list, slots);
    }
}

// Puts the number behind the first i of the list where a look for it ends. A repeat is there already.
fn hold(i: usize, list: &[u32], slots: &mut Slots)
    requires slots_hold { SlotsHold list.now slots.old i }
    requires i_in_bounds { (i < length list.now) × (i < 65535) }
    ensures { SlotsHold list.now slots.new (i + 1) }
{
    let end = look_for(u64::from(list[i]), list, slots);
    if 0 < slots[end] {
        return;
    }
    slots[end] = (i + 1) as u16;
}

// The slot where a look for a number ends, after 17 turns at most: an empty one, or the one that has it.
fn look_for(number: u64, list: &[u32], slots: &Slots) -> usize
    requires { SlotsHoldSome list.now slots.now }
    ensures { LookEnds list.now slots.now number result }
{
    let mut slot = (number % 65536) as usize;
    let mut bits = number / 65536;
    while 0 < slots[slot] {
        let place = usize::from(slots[slot]);
        if number == u64::from(list[place - 1]) {
            return slot;
        }
        slot = 65536 + 2 * place + (bits % 2) as usize;
        bits /= 2;
    }
    slot
}

// Whether a number is among others. Without a way out, as `any` has one, the compiler compares many numbers at once.
fn among(number: u64, others: &[u32]) -> bool
    ensures { result ≡ mem number others.now }
{
    let mut hit = false;
    for other in others {
        hit |= number == u64::from(*other);
    }
    hit
}
