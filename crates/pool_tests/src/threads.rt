// Two threads at one pool.
ghost use Rattle.std.specs.Prelude.{◌<◌, length};
ghost use Rattle.pool_tests.specs.CallsLeft.{CanCall};

use crate::callers::{Caller, TriedCall};
use crate::watched::Flags;
use heap_model::Call;
use pmem_lines::{OutOfMemory, Pmem};
use shared_pool::{Receipt, SharedPool, TryRefusal};
use std::alloc::Global;
use std::sync::Wait;
use std::thread::{Threads, join_mut};

/// The first pass asks for a block of arena 0 on a thread of its own, and the second tries one of arena 1 on another, from
/// where the first one's store has stopped until it lets it go on.
pub(crate) fn try_beside_a_store<R: Threads + Wait + Sync, P: Pmem + Drop + Send>(
    rt: &R,
    alloc: Global,
    pool: &SharedPool<P>,
    zero: &mut Caller,
    one: &mut Caller,
    flags: &Flags,
) -> (Result<Receipt, OutOfMemory>, Result<Receipt, TryRefusal>)
    requires arenas { 1 < length pool.now.locks }
    requires zero { CanCall pool.now zero.old }
    requires one { CanCall pool.now one.old }
{
    join_mut(
        rt,
        &mut || -> Result<Receipt, OutOfMemory>
            requires { CanCall pool.now zero.now × (1 < length pool.now.locks) }
        { zero.call(rt, alloc, pool, 0, Call::Malloc { root: 5, size: 100 }) },
        &mut || -> Result<Receipt, TryRefusal>
            requires { CanCall pool.now one.now × (1 < length pool.now.locks) }
        {
            flags.await_stop();
            let answer = one.try_call(alloc, pool, 1, TriedCall::Malloc { root: 5, size: 100 });
            flags.let_go();
            answer
        },
    )
}
