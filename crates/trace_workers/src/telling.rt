// What is told of the arenas of a trace once their workers have ended, and their devices.
ghost use Rattle.std.specs.Prelude.{◌≡◌, ◌<◌, ℕ, List, ◌∷◌, ◌^◌, ◌++◌, length, remove, IfOk, OnOk};
ghost use Rattle.shared_pool.specs.Rows.{each_of};
ghost use Rattle.trace_runs.specs.Told.{closed_text, closed_texts, closed_devices};
ghost use Rattle.trace_workers.specs.Summaries.{telling_of, lengths_of};
ghost use Rattle.trace_workers.specs.declared.telling.Account.TheVariants as accounts;

use heap_model::Entry;
use pmem_lines::{OutOfMemory, Pmem};
use shared_pool::ClosedArena;
use std::alloc::Global;
use trace_gen::put_summary;
use trace_runs::{Told, blocks_of, put_report};

/// What is told of each arena.
#[derive(Clone, Copy)]
pub enum Account {
    /// Its report: the journal and the heap.
    Report,
    /// What its calls came to, where each arena has one thread.
    Summary,
}

/// What is told of closed arenas, and their devices. For a summary the lengths are those of their journals.
pub(crate) fn tell_all<P: Pmem + Drop>(
    alloc: Global,
    account: Account,
    mut lengths: Vec<u64>,
    mut closed: Vec<ClosedArena<P>>,
) -> Result<Told<P>, OutOfMemory>
    requires few { length closed.items < 2 ^ 32 }
    requires lengths { account ≡ accounts.Summary → lengths.items ≡ lengths_of (each_of closed.items (λ c. (c.journal.items, c.arena))) }
    ensures text { IfOk result (λ done. done.text.items ≡ closed_texts (telling_of account) 0 (each_of closed.items (λ c. (c.journal.items, c.arena)))) }
    ensures devices { IfOk result (λ done. each_of done.devices.items (λ d. P.state d) ≡ closed_devices (each_of closed.items (λ c. (c.journal.items, c.arena)))) }
{
    let mut text = Vec::new(alloc);
    let mut devices = Vec::new(alloc);
    let mut number: u32 = 0;
    while !closed.is_empty() {
        let one = closed.remove(0);
        let count = take_length(account, &mut lengths, &one.journal);
        let device = tell_one(alloc, account, &mut text, number, count, one)?;
        devices.push(device)?;
        number += 1;
    }
    Ok(Told { text, devices })
}

// How long a journal is: for a summary the first of these lengths, which is taken.
fn take_length(account: Account, lengths: &mut Vec<u64>, journal: &[Entry]) -> u64
    requires { account ≡ accounts.Summary → (rest : List ℕ) × (lengths.old.items ≡ length journal.now ∷ rest) }
    ensures count { result ≡ length journal.now }
    ensures taken { account ≡ accounts.Summary → lengths.new.items ≡ remove lengths.old.items 0 }
{
    match account {
        Account::Report => journal.len() as u64,
        Account::Summary => lengths.remove(0),
    }
}

// Writes what is told of one arena behind what stands in a text, by the length of its journal, and gives the arena's device.
fn tell_one<P: Pmem + Drop>(
    alloc: Global,
    account: Account,
    text: &mut Vec<u8>,
    number: u32,
    count: u64,
    closed: ClosedArena<P>,
) -> Result<P, OutOfMemory>
    requires { count ≡ length closed.journal.items }
    ensures text { OnOk result (text.new.items ≡ text.old.items ++ closed_text (telling_of account) number (closed.journal.items, closed.arena)) }
    ensures device { IfOk result (λ d. P.state d ≡ closed.arena.device) }
{
    let told = tell(alloc, account, text, number, count, &closed);
    let device = closed.arena.into_pmem();
    match told {
        Ok(()) => Ok(device),
        Err(fault) => Err(fault),
    }
}

// Writes what is told of one arena behind what stands in a text, by the length of its journal.
fn tell<P: Pmem>(
    alloc: Global,
    account: Account,
    text: &mut Vec<u8>,
    number: u32,
    count: u64,
    closed: &ClosedArena<P>,
) -> Result<(), OutOfMemory>
    requires { count ≡ length closed.now.journal.items }
    ensures { OnOk result (text.new.items ≡ text.old.items ++ closed_text (telling_of account) number (closed.now.journal.items, closed.now.arena)) }
{
    let blocks = blocks_of(alloc, &closed.arena)?;
    match account {
        Account::Report => put_report(text, number, &closed.journal, &blocks),
        Account::Summary => put_summary(text, number, count, &closed.journal, &blocks),
    }
}
