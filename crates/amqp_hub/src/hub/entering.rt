//! What goes into a journal.

ghost use Rattle.std.specs.Prelude.{◌≡◌, ◌≤◌, ◌<◌, ◌+◌, ◌^◌, ◌⊎◌, ◌++◌, ◌∷◌, [], false, true, IfOk, IfErr, OnOk, OnErr, is_err, Some, Err, length, vec_len, vec_capacity};
ghost use Rattle.amqp_types.specs.declared.text.Text.{Text};
ghost use Rattle.amqp_types.specs.Counts.{Rose};
ghost use Rattle.amqp_promise.specs.declared.io_fault.IoFault.{IoFault};
ghost use Rattle.amqp_rules.specs.Talk.{has_ended, end_of};
ghost use Rattle.amqp_engine.specs.Turn.{no_notes};
ghost use Rattle.amqp_engine.specs.Causes.{brought, fault_of};
ghost use Rattle.amqp_journal.specs.declared.entry.Entry.TheVariants.{Called};
ghost use Rattle.amqp_journal.specs.Journal.{turned, cut_before};
ghost use Rattle.amqp_hub.specs.Passes.{count_of, made_of, set_made, places, gapless};
ghost use Rattle.amqp_hub.specs.Entering.{TakesStep};

use super::{Pass, Receipt};
use crate::base::Base;
use amqp_engine::{IoLoop, Port, Record, Told};
use amqp_journal::{Entry, Turn};
use amqp_session::{AuthProvider, Cmd, ErrorKind, IoFault, Result};
use amqp_types::{NoMemory, Payload, Payload64};
use std::alloc::Global;
use std::snapshot::Snapshot;

/// The base of an engine, and a journal with the spare place.
pub fn begun(alloc: Global, engine: &IoLoop) -> std::result::Result<(Base, Vec<Entry>), NoMemory>
    ensures base { IfOk result (λ r. r.0 ≡ record { engine = engine.now; entries = 0; made = [] }) }
    ensures empty { IfOk result (λ r. r.1.items ≡ []) }
    ensures spare { IfOk result (λ r. 1 ≤ vec_capacity r.1) }
{
    let journal = Vec::with_capacity(alloc, 1)?;
    let state = engine.snapshot()?;
    Ok((
        Base {
            state,
            entries: 0,
            made: Payload64::empty(alloc),
        },
        journal,
    ))
}

/// The base where an engine stands, before which so many entries came, and so many commands of each pass.
pub fn base_of(
    alloc: Global,
    engine: &IoLoop,
    entries: u64,
    counts: &[u64],
) -> std::result::Result<Base, NoMemory>
    ensures { IfOk result (λ base. base ≡ record { engine = engine.now; entries = entries; made = counts.now }) }
{
    let made = Payload64::new(alloc, counts)?;
    let state = engine.snapshot()?;
    Ok(Base {
        state,
        entries,
        made,
    })
}

/// The copy of a command for its entry, with a place for the entry and the spare one, where one more can be
/// counted for its pass.
pub fn kept_copy(
    alloc: Global,
    journal: &mut Vec<Entry>,
    cmd: &Cmd,
    made: u64,
) -> std::result::Result<Cmd, NoMemory>
    ensures items { journal.new.items ≡ journal.old.items }
    ensures capacity { vec_capacity journal.old ≤ vec_capacity journal.new }
    ensures len { vec_len journal.new ≡ vec_len journal.old }
    ensures room { OnOk result (vec_len journal.new + 2 ≤ vec_capacity journal.new) }
    ensures few { OnOk result (made + 1 < 2 ^ 64) }
    ensures kept { IfOk result (λ kept. kept ≡ cmd.now) }
{
    if made == u64::MAX {
        return Err(NoMemory);
    }
    journal.reserve(2)?;
    cmd.try_clone(alloc)
}

/// The entry of a turn that is to be taken, of which nothing is noted yet, with a place for it and the spare
/// one.
pub fn turn_copy(
    alloc: Global,
    journal: &mut Vec<Entry>,
    told: &Told,
    bytes: &[u8],
) -> std::result::Result<Turn, NoMemory>
    ensures items { journal.new.items ≡ journal.old.items }
    ensures capacity { vec_capacity journal.old ≤ vec_capacity journal.new }
    ensures len { vec_len journal.new ≡ vec_len journal.old }
    ensures room { OnOk result (vec_len journal.new + 2 ≤ vec_capacity journal.new) }
    ensures kept { IfOk result (λ turn. turn ≡ turned told.now.at told.now.step bytes.now no_notes) }
{
    journal.reserve(2)?;
    let bytes = Payload::new(alloc, bytes)?;
    let step = told.step.try_clone(alloc)?;
    Ok(Turn {
        at: told.at,
        step,
        bytes,
        notes: Record::new(alloc),
    })
}

/// The entry of a turn that was cut before its first part. It takes no memory.
pub fn cut_turn(alloc: Global, told: Told) -> Turn
    ensures { result ≡ cut_before told.at told.step }
{
    let Told { at, step } = told;
    Turn {
        at,
        step,
        bytes: Payload::empty(alloc),
        notes: Record::cut(alloc),
    }
}

/// The entry of a command, which takes no memory, and where it stands.
pub fn enter(
    base: &Base,
    journal: &mut Vec<Entry>,
    counts: &mut Vec<u64>,
    pass: &mut Pass,
    cmd: Cmd,
    promise: Option<u64>,
) -> Receipt
    requires room { vec_len journal.old + 2 ≤ vec_capacity journal.old }
    requires home { count_of pass.old.number counts.old.items ≡ Some pass.old.made }
    requires more { pass.old.made + 1 < 2 ^ 64 }
    requires few { base.now.entries ≤ 2 ^ 63 }
    requires placed { places pass.old.number journal.old.items
        ≡ gapless (made_of pass.old.number base.now.made) pass.old.made }
    requires counted { made_of pass.old.number base.now.made ≤ pass.old.made }
    ensures journal { journal.new.items
        ≡ journal.old.items ++ Called pass.old.number (pass.old.made + 1) cmd promise ∷ [] }
    ensures counts { counts.new.items ≡ set_made pass.old.number (pass.old.made + 1) counts.old.items }
    ensures made { pass.new.made ≡ pass.old.made + 1 }
    ensures number { pass.new.number ≡ pass.old.number }
    ensures numbers { (result.pass ≡ pass.old.number) × (result.nth ≡ pass.old.made + 1)
        × (result.entry ≡ base.now.entries + length journal.old.items) }
    ensures shown { (result.cmd.value ≡ cmd) × (result.promise.value ≡ promise) }
    ensures hold { (result.base.value ≡ base.now) × (result.journal.value.items ≡ journal.new.items) }
    ensures len { vec_len journal.new ≡ vec_len journal.old + 1 }
    ensures capacity { vec_capacity journal.new ≡ vec_capacity journal.old }
{
    let nth = pass.made + 1;
    let entry = base.entries + journal.len() as u64;
    let said = Snapshot::of(&cmd);
    journal.push_reserved(Entry::Called(pass.number, nth, cmd, promise));
    counts[pass.number as usize - 1] = nth;
    pass.made = nth;
    Receipt {
        pass: pass.number,
        nth,
        entry,
        cmd: said,
        promise: Snapshot::of(&promise),
        base: Snapshot::of(base),
        journal: Snapshot::of(journal),
    }
}

/// A journal begins anew. It takes no memory, and keeps the places.
pub fn begin_anew(at: &mut Base, journal: &mut Vec<Entry>, base: Base)
    ensures base { at.new ≡ base }
    ensures empty { journal.new.items ≡ [] }
    ensures len { vec_len journal.new ≡ 0 }
    ensures capacity { vec_capacity journal.new ≡ vec_capacity journal.old }
{
    journal.clear();
    *at = base;
}

/// A copy of a journal.
pub fn copied(alloc: Global, journal: &[Entry]) -> std::result::Result<Vec<Entry>, NoMemory>
    ensures { IfOk result (λ entries. entries.items ≡ journal.now) }
{
    let mut entries = Vec::with_capacity(alloc, journal.len())?;
    'entries: for entry in journal {
        let copy = entry.try_clone(alloc)?;
        entries.push(copy)?;
    }
    Ok(entries)
}

/// One turn, whose entry is made, with a place for it.
pub fn take_turn<P: Port, A: AuthProvider>(
    engine: &mut IoLoop,
    journal: &mut Vec<Entry>,
    mut turn: Turn,
    told: Told,
    bytes: &[u8],
    port: &mut P,
    provider: &mut A,
) -> Result<()>
    requires can { A.can provider.old }
    requires copy { turn ≡ turned told.at told.step bytes.now no_notes }
    requires room { vec_len journal.old + 2 ≤ vec_capacity journal.old }
    ensures can { A.can provider.new }
    ensures turn { TakesStep (is_err result) told.at told.step bytes.now engine.old engine.new journal.old.items
        journal.new.items (P.log port.old) (P.log port.new) (A.allows provider.old) (A.allows provider.new) }
    ensures ended { OnErr result (has_ended engine.new.talk ≡ true) }
    ensures only { IfErr result (λ e. e ≡ ErrorKind.NoMemory) }
    ensures faults { P.faults port.old ≤ P.faults port.new }
    ensures kept { P.kept port.new ≡ P.kept port.old }
    ensures never_falls { A.refusals provider.old ≤ A.refusals provider.new }
    ensures io_error_counted { (fault : IoFault) → has_ended engine.old.talk ≡ false
        → fault_of engine.new.talk ≡ Some fault
        → (brought told.step engine.old.talk ≡ Some fault)
        ⊎ ((fault ≡ IoFault.BrokenPipe) × Rose (P.faults port.old) (P.faults port.new)) }
    ensures refusal_counted { (text : Text) → has_ended engine.old.talk ≡ false
        → end_of engine.new.talk ≡ Some (Err (ErrorKind.AuthProviderError text))
        → Rose (A.refusals provider.old) (A.refusals provider.new) }
    ensures len { vec_len journal.new ≡ vec_len journal.old + 1 }
    ensures capacity { vec_capacity journal.new ≡ vec_capacity journal.old }
{
    let applied = engine.apply(told, bytes, port, provider, &mut turn.notes);
    engine.ask(port);
    journal.push_reserved(Entry::Turn(turn));
    applied
}
