ghost use Rattle.std.specs.Prelude.{◌≡◌, ◌++◌, ◌∷◌, [], not, length, filter, map, flat_map, IsTrue, MatchOption, IfOk, OnOk, None};
ghost use Rattle.raid_base.specs.Names.{is_txn};
ghost use Rattle.raid_message.specs.declared.letter.Message.TheVariants.{Begin};
ghost use Rattle.raid_driver.specs.Drive.{task_of, put_task, txns_of, done_of, IsPlace, Ascends, may_ask, fresh, gone, gone_outs, after_value, after_value_outs, after_note, lost, lost_outs};

use crate::task::{Task, tell};
use raid_base::{NoMemory, Site, Txn, TxnList};
use raid_message::{Message, Outs};
use raid_program::Program;
use std::alloc::Global;

/// The place of the transaction's program, if it runs.
pub fn place_of(tasks: &[Task], txn: Txn) -> Option<usize>
    ensures { MatchOption result (task_of tasks.now txn ≡ None) (λ k. IsPlace tasks.now txn k) }
{
    for k in 0..tasks.len() {
        if tasks[k].txn == txn {
            return Some(k);
        }
    }
    None
}

/// Puts a program in its place, by its number, or in place of what it was.
fn put(tasks: &mut Vec<Task>, task: Task) -> Result<(), NoMemory>
    ensures { OnOk result (tasks.new.items ≡ put_task task tasks.old.items) }
{
    for k in 0..tasks.len() {
        if tasks[k].txn == task.txn {
            tasks[k] = task;
            return Ok(());
        }
        if task.txn.0 < tasks[k].txn.0 {
            tasks.insert(k, task)?;
            return Ok(());
        }
    }
    tasks.push(task)?;
    Ok(())
}

/// Begins a transaction, which is put in its place.
pub fn begin(
    tasks: &mut Vec<Task>,
    alloc: Global,
    program: &Program,
    txn: Txn,
    outs: &mut Outs,
) -> Result<(), NoMemory>
    ensures tasks { OnOk result (tasks.new.items ≡ put_task (gone program.now (fresh txn)) tasks.old.items) }
    ensures outs { OnOk result (outs.new ≡ (outs.old ++ (1, 0, Begin txn) ∷ []) ++ gone_outs program.now (fresh txn)) }
{
    let mut task = Task::new(alloc, txn);
    tell(outs, Message::Begin { txn })?;
    task.go_on(alloc, program, outs)?;
    put(tasks, task)
}

/// Gives the transaction's program, if it runs, a value for an ask.
pub fn give(
    tasks: &mut [Task],
    alloc: Global,
    program: &Program,
    txn: Txn,
    ask: u32,
    value: i64,
    outs: &mut Outs,
) -> Result<(), NoMemory>
    requires ascends { Ascends (txns_of tasks.old) }
    requires asks { IsTrue (may_ask tasks.old) }
    ensures tasks { OnOk result (tasks.new ≡ after_value program.now txn ask value tasks.old) }
    ensures outs { OnOk result (outs.new ≡ outs.old ++ after_value_outs program.now txn ask value tasks.old) }
    ensures txns { OnOk result (txns_of tasks.new ≡ txns_of tasks.old) }
    ensures length { length tasks.new ≡ length tasks.old }
{
    match place_of(tasks, txn) {
        Some(k) => tasks[k].give(alloc, program, ask, value, outs),
        None => Ok(()),
    }
}

/// Notes for the transaction's program, if it runs, the site that serves an ask.
pub fn note(tasks: &mut [Task], txn: Txn, ask: u32, site: Site)
    requires { Ascends (txns_of tasks.old) }
    ensures tasks { tasks.new ≡ after_note txn ask site tasks.old }
    ensures txns { txns_of tasks.new ≡ txns_of tasks.old }
    ensures length { length tasks.new ≡ length tasks.old }
    ensures done { done_of tasks.new ≡ done_of tasks.old }
{
    if let Some(k) = place_of(tasks, txn) {
        tasks[k].note(ask, site);
    }
}

/// Lets each program ask again for what the site was to serve.
pub fn lose(tasks: &mut [Task], site: Site, outs: &mut Outs) -> Result<(), NoMemory>
    requires { IsTrue (may_ask tasks.old) }
    ensures tasks { OnOk result (tasks.new ≡ map (lost site) tasks.old) }
    ensures outs { OnOk result (outs.new ≡ outs.old ++ flat_map (lost_outs site) tasks.old) }
    ensures length { length tasks.new ≡ length tasks.old }
{
    for k in 0..tasks.len() {
        tasks[k].lose(site, outs)?;
    }
    Ok(())
}

/// Whether no program has asked as often as can be counted.
pub fn may_ask(tasks: &[Task]) -> bool
    ensures { result ≡ may_ask tasks.now }
{
    for task in tasks {
        if task.asks == 4294967295 {
            return false;
        }
    }
    true
}

/// Takes the transaction's program out.
pub fn remove(tasks: &mut Vec<Task>, txn: Txn)
    ensures { tasks.new.items ≡ filter (λ r. not (is_txn txn r.txn)) tasks.old.items }
{
    tasks.retain(|task| task.txn != txn);
}

/// The transactions of the programs.
pub fn txns(alloc: Global, tasks: &[Task]) -> Result<TxnList, NoMemory>
    ensures { IfOk result (λ list. list ≡ txns_of tasks.now) }
{
    let mut list = TxnList::new(alloc);
    for task in tasks {
        list.push(task.txn)?;
    }
    Ok(list)
}

/// The transactions of the programs that are done.
pub fn done_txns(alloc: Global, tasks: &[Task]) -> Result<TxnList, NoMemory>
    ensures { IfOk result (λ list. list ≡ done_of tasks.now) }
{
    let mut list = TxnList::new(alloc);
    for task in tasks {
        if task.is_done() {
            list.push(task.txn)?;
        }
    }
    Ok(list)
}
