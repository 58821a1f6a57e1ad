// The ids that a survey keeps: ascending, each once.
ghost use Rattle.std.specs.Prelude.{ℕ, ◌≤◌, List, ◌≡◌, length, take};
ghost use Rattle.sink.specs.Sinks.{mark, mark_all};
ghost use Rattle.sink.specs.Kept.{Marks, Ranks};
ghost use Rattle.sink.specs.Uses.{used_ids};

use crate::state::Kept;
use crate::uses::Used;

// The lent places that hold an id.
pub(crate) fn taken<'s>(kept: &'s Kept) -> &'s [usize]
    requires { kept.now.count ≤ length kept.now.ids.now }
    ensures { result.now ≡ take kept.now.count kept.now.ids.now }
{
    let count = kept.count;
    let ids = &*kept.ids;
    &ids[..count]
}

// Where an id goes that is none of these: behind those that are less.
fn seek(u: usize, ids: &[usize]) -> Option<usize>
    ensures { Ranks u ids.now result }
{
    for (i, v) in ids.iter().enumerate() {
        if *v == u {
            return None;
        }
        if *v > u {
            return Some(i);
        }
    }
    Some(ids.len())
}

// An id that is used: kept where it stands before the body's own and there is room.
fn mark_one(u: usize, own: usize, kept: &mut Kept)
    requires { (taken : List ℕ) × (most : ℕ) × Marks taken most kept.old }
    ensures { (taken : List ℕ) (most : ℕ) → Marks taken most kept.old → Marks (mark own most u taken) most kept.new }
{
    let count = kept.count;
    if u >= own {
        return;
    }
    if count >= kept.ids.len() {
        return;
    }
    if let Some(r) = seek(u, taken(kept)) {
        kept.ids.copy_within(r..count, r + 1);
        kept.ids[r] = u;
        kept.count = count + 1;
    }
}

// Those of one instruction.
pub fn take_in(used: Used, own: usize, kept: &mut Kept)
    requires { (taken : List ℕ) × (most : ℕ) × Marks taken most kept.old }
    ensures { (taken : List ℕ) (most : ℕ) → Marks taken most kept.old → Marks (mark_all own most (used_ids used) taken) most kept.new }
{
    match used {
        Used::Nothing => {}
        Used::One(a) => mark_one(a.0, own, kept),
        Used::Two(a, b) => {
            mark_one(a.0, own, kept);
            mark_one(b.0, own, kept);
        }
    }
}
