// Which of the numbers of a place's moves the one who chooses there would have.
ghost use Rattle.std.specs.Prelude.{◌≡◌, ℕ, ◌<◌, ◌≤◌, ◌⊎◌};
ghost use Rattle.solver.specs.Entries.{never};
ghost use Rattle.solver.specs.Inner.Rows.{Prefers};

use game::Owner;

// The lower of two numbers where we choose, the higher where the other side does.
#[inline(always)]
fn better(owner: Owner, a: u32, b: u32) -> u32
    ensures one { (result ≡ a) ⊎ (result ≡ b) }
    ensures first { Prefers owner result a }
    ensures second { Prefers owner result b }
{
    match owner {
        Owner::Ours => a.min(b),
        Owner::Theirs => a.max(b),
    }
}

// The lowest of the numbers of so many moves where we choose, the highest where the other side does. The loop has the first one too, since a loop over all
// moves is faster than one that begins behind the first: the compiler takes several moves at a time.
#[inline(always)]
fn preferred_by<F: Fn(u32) -> u32>(owner: Owner, count: u32, number: F) -> u32
    requires some { 1 ≤ count }
    requires callable { (m : ℕ) → m < count → F.pre number m }
    ensures all { (m : ℕ) → m < count → (n : ℕ) × (n ≤ never) × F.post number m n × Prefers owner result n }
    ensures one { (m : ℕ) × (m < count) × F.post number m result }
{
    let mut best = number(0);
    for m in 0..count {
        best = better(owner, best, number(m));
    }
    best
}

// The same, with a loop for each chooser, so that none has to ask at each move who chooses.
#[inline(always)]
pub(crate) fn preferred<F: Fn(u32) -> u32>(owner: Owner, count: u32, number: F) -> u32
    requires some { 1 ≤ count }
    requires callable { (m : ℕ) → m < count → F.pre number m }
    ensures all { (m : ℕ) → m < count → (n : ℕ) × (n ≤ never) × F.post number m n × Prefers owner result n }
    ensures one { (m : ℕ) × (m < count) × F.post number m result }
{
    match owner {
        Owner::Ours => preferred_by(Owner::Ours, count, number),
        Owner::Theirs => preferred_by(Owner::Theirs, count, number),
    }
}
