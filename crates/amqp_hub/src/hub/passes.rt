//! The passes of a hub, by its counts.

ghost use Rattle.std.specs.Prelude.{◌≡◌, ◌<◌, ◌+◌, ◌^◌, ◌++◌, IfOk, IfErr, OnOk, OnErr, All, Some, None, length, map, replicate};
ghost use Rattle.amqp_hub.specs.Passes.{count_of, new_passes, AreNew, foreign, first_foreign};

use super::Pass;
use amqp_session::ErrorKind;
use amqp_types::NoMemory;
use std::alloc::Global;

/// Whether a pass is of the hub of these counts, or why it is not.
pub fn admits(counts: &[u64], pass: &Pass) -> Result<(), ErrorKind>
    ensures home { OnOk result (count_of pass.now.number counts.now ≡ Some pass.now.made) }
    ensures ok { OnOk result (foreign pass.now counts.now ≡ None) }
    ensures err { IfErr result (λ e. (foreign pass.now counts.now ≡ Some e)
        × (e ≡ ErrorKind.ForeignPass pass.now.number pass.now.made (count_of pass.now.number counts.now))) }
{
    match count_in(counts, pass.number) {
        Some(count) if count == pass.made => Ok(()),
        count => Err(ErrorKind::ForeignPass(pass.number, pass.made, count)),
    }
}

/// Whether each of these passes is, or why the first is not that is not.
pub fn admits_all(counts: &[u64], passes: &[Pass]) -> Result<(), ErrorKind>
    ensures home { OnOk result (All (λ p. count_of p.number counts.now ≡ Some p.made) passes.now) }
    ensures ok { OnOk result (first_foreign passes.now counts.now ≡ None) }
    ensures err { IfErr result (λ e. first_foreign passes.now counts.now ≡ Some e) }
{
    'passes: for pass in passes {
        admits(counts, pass)?;
    }
    Ok(())
}

// The count of a pass, where there is one.
fn count_in(counts: &[u64], number: u32) -> Option<u64>
    ensures { result ≡ count_of number counts.now }
{
    if number == 0 {
        return None;
    }
    counts.get(number as usize - 1).copied()
}

/// How many commands were made with each of these passes.
pub fn all_made(alloc: Global, passes: &[Pass]) -> Result<Vec<u64>, NoMemory>
    ensures { IfOk result (λ counts. counts.items ≡ map (λ p. p.made) passes.now) }
{
    let mut counts = Vec::with_capacity(alloc, passes.len())?;
    'passes: for pass in passes {
        counts.push(pass.made)?;
    }
    Ok(counts)
}

/// New passes with their counts. It takes all its memory first.
pub fn numbered(alloc: Global, counts: &mut Vec<u64>, count: u32) -> Result<Vec<Pass>, NoMemory>
    ensures passes { IfOk result (λ passes. AreNew (length counts.old.items) passes.items) }
    ensures many { IfOk result (λ passes. length passes.items ≡ new_passes count (length counts.old.items)) }
    ensures counts { OnOk result (counts.new.items
        ≡ counts.old.items ++ replicate (new_passes count (length counts.old.items)) 0) }
    ensures err { OnErr result (counts.new.items ≡ counts.old.items) }
{
    let before = counts.len();
    let left = (u32::MAX as usize).saturating_sub(before);
    let count = left.min(count as usize);
    let passes = fresh(alloc, before, count)?;
    counts.resize(before + count, 0)?;
    Ok(passes)
}

// So many passes, numbered on after so many.
fn fresh(alloc: Global, before: usize, count: usize) -> Result<Vec<Pass>, NoMemory>
    requires few { 0 < count → before + count < 2 ^ 32 }
    ensures passes { IfOk result (λ passes. AreNew before passes.items) }
    ensures many { IfOk result (λ passes. length passes.items ≡ count) }
{
    let mut passes = Vec::with_capacity(alloc, count)?;
    'passes: for place in 0..count {
        passes.push(Pass {
            number: (before + place + 1) as u32,
            made: 0,
        })?;
    }
    Ok(passes)
}
