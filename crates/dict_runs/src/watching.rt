// What watches the calls of an arena for the one under way at an event, and takes the image that a crash leaves there.
ghost use Rattle.std.specs.Prelude.{◌≡◌, None};
ghost use Rattle.dict_runs.specs.Watching.{IsWatched};

use crate::looking::Look;
use pmem_lines::{OutOfMemory, SimPmem};
use std::alloc::Global;
use trace_crashes::image_of;

/// Counts the events of an arena's calls up to one, and keeps the image that a seed picks there.
#[derive(Drop)]
pub(crate) struct Watch {
    alloc: Global,
    seed: u64,
    /// How many events there are to come until then.
    pub left: u64,
    /// What a crash leaves, once the event has come.
    pub image: Option<Vec<u64>>,
}

impl Watch {
    /// No call was seen yet.
    pub(crate) fn new(alloc: Global, event: u64, seed: u64) -> Watch
        ensures seed { result.seed ≡ seed }
        ensures left { result.left ≡ event }
        ensures image { result.image ≡ None }
    {
        Watch {
            alloc,
            seed,
            left: event,
            image: None,
        }
    }
}

impl Look<SimPmem> for Watch {
    ghost sees = { IsWatched };

    fn look(&mut self, device: &SimPmem) -> Result<(), OutOfMemory> {
        if self.image.is_some() {
            return Ok(());
        }
        let count = u64::from(device.event_count());
        if count > 0 && self.left <= count {
            let image = image_of(self.alloc, device, self.left as u32, self.seed)?;
            self.image = Some(image);
            return Ok(());
        }
        self.left -= count;
        Ok(())
    }
}
