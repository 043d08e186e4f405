// A block that moves from a root to another.
ghost use Rattle.std.specs.Prelude.{◌≡◌, []};
ghost use Rattle.pmem_lines.specs.Pmem.{words_of};
ghost use Rattle.arena_core.specs.Answer.{move_reply};
ghost use Rattle.arena_core.specs.Arena.{IsArena};
ghost use Rattle.arena_core.specs.Moving.{IsMovePlan, IsMoveCarried};

use crate::plan::{freed_of, layout_in, root_word};
use crate::volatile::Volatile;
use crate::{MoveRefusal, Moved};
use move_steps::move_root;
use pmem_lines::Pmem;

impl Volatile {
    /// The block that moves, or why none does.
    #[tactic(auto, using(crate::proofs::PayloadCalls::held_block_at))]
    pub(crate) fn plan_move<P: Pmem>(
        &self,
        device: &P,
        from: u32,
        to: u32,
    ) -> Result<Moved, MoveRefusal>
        requires arena { IsArena (P.state device.now) self.now }
        ensures { IsMovePlan (words_of (P.state device.now)) from to result }
    {
        let roots = layout_in(device).roots;
        if from >= roots || to >= roots {
            return Err(MoveRefusal::NoRoot);
        }
        match self.held_by(device, from) {
            Some(held) => {
                let at = root_word(device, to);
                if at != 0 {
                    return Err(MoveRefusal::Occupied { at });
                }
                let block = freed_of(held);
                Ok(Moved {
                    at: block.at,
                    size: block.size,
                })
            }
            None => Err(MoveRefusal::Empty),
        }
    }

    /// Does what the plan of a move says, and answers the call. What stands beside the words stays, but for the line.
    #[tactic(auto, using(crate::proofs::MovesCalls::movable, crate::proofs::Readiness::room_rules))]
    pub(crate) fn carry_out_move<P: Pmem>(
        &mut self,
        device: &mut P,
        from: u32,
        to: u32,
        plan: Result<Moved, MoveRefusal>,
    ) -> Result<Moved, MoveRefusal>
        requires arena { IsArena (P.state device.old) self.old }
        requires fresh { (P.state device.old).events ≡ [] }
        requires plan { IsMovePlan (words_of (P.state device.old)) from to plan }
        ensures { IsMoveCarried (P.state device.old) (P.state device.new) self.old self.new from to (move_reply result) }
    {
        match plan {
            Ok(block) => {
                move_root(device, self.line, from, to, block.at);
                self.line = (self.line + 1) % 8;
                Ok(block)
            }
            Err(refusal) => Err(refusal),
        }
    }
}
