// What looks at the device of a dictionary behind each call of its arena.
ghost use Rattle.std.specs.Prelude.{OnOk, ⊤};
ghost use Rattle.trace_crashes.specs.Seek.{last_stage};

use pmem_lines::{OutOfMemory, Pmem};

/// Looks at a device that went through a call of an arena.
pub(crate) trait Look<P: Pmem> {
    ghost use Rattle.trace_runs.specs.Runs.{Stage};

    /// What it becomes, where the device went through this call last.
    ghost sees: { Self → Stage → Self → Type 0 };

    /// Looks at the device.
    fn look(&mut self, device: &P) -> Result<(), OutOfMemory>
        ensures { OnOk result (sees self.old (last_stage (P.state device.now)) self.new) };
}

/// Looks at nothing.
#[derive(Drop)]
pub(crate) struct Unseen;

impl<P: Pmem> Look<P> for Unseen {
    ghost sees = { λ _ _ _. ⊤ };

    fn look(&mut self, _device: &P) -> Result<(), OutOfMemory> {
        Ok(())
    }
}
