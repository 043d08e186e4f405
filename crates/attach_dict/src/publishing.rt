// The pair at the stage comes to the map.
ghost use Rattle.std.specs.Prelude.{◌≡◌, ℕ, List};
ghost use Rattle.attach_dict.specs.Calls.{HasPublished};
ghost use Rattle.attach_dict.specs.Stages.{Filled, IsKept, HasFilledPhase};

use crate::dict::Dict;
use crate::progress::Progress;
use crate::steps::show_block;
use dict_index::Keyed;
use pmem_lines::Pmem;

impl<P: Pmem> Dict<P> {
    /// Moves the block at the stage to the lowest root from 1 on that has none: the map has its key with its value from then
    /// on. The pair that the key had is stale then, and no root else: one `tidy` leaves none. After a crash within it the map is
    /// the one from before the call or the one from behind it. It makes one call of the arena, and takes no memory. The pair was
    /// filled.
    pub fn publish(&mut self)
        requires { HasFilledPhase self.old.phase }
        ensures published { (key : ℕ) (value : List ℕ) → self.old.phase ≡ Filled key value → HasPublished self.old self.new key value }
        ensures kept { IsKept self.new }
    {
        let root = self.index.free.lowest().unwrap();
        let number = self.index.numbers.greatest() + 1;
        show_block(&mut self.arena, root);
        let key = self.key;
        self.index.put_pair(Keyed { key, root }, number);
        self.progress = Progress::Idle;
    }
}
