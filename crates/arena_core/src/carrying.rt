// What a call does, once it has begun: it changes the words and what stands beside them together.
ghost use Rattle.std.specs.Prelude.{◌≡◌, ◌<◌, ◌≤◌, ◌*◌, ◌+◌, ◌%◌, ℕ, List, true, [], length, Some, None, Ok};
ghost use Rattle.pmem_lines.specs.Events.{reading, IsQuiet};
ghost use Rattle.pmem_lines.specs.Steps.{IsQuietStep};
ghost use Rattle.pmem_lines.specs.Pmem.{words_of, HasRoom};
ghost use Rattle.image_tables.specs.Tables.{tables_of};
ghost use Rattle.heap_model.specs.declared.call.Call.TheVariants as calls;
ghost use Rattle.heap_model.specs.declared.call.Reply.TheVariants as replies;
ghost use Rattle.heap_model.specs.Machine.{with_key, slab_block};
ghost use Rattle.slab_header.specs.Morph.{morph_events};
ghost use Rattle.heap_check.specs.Heap.{slabs as classes_of, IsUnusedIn};
ghost use Rattle.heap_check.specs.Image.{bounds_of, IsExactButImage};
ghost use Rattle.heap_check.specs.State.{IsEitherHeap};
ghost use Rattle.size_classes.specs.Classes.{class_capacity};
ghost use Rattle.thread_cache.specs.Stacks.{stacks_of};
ghost use Rattle.block_supply.specs.Supply.{Supply, HasSlabMore, HasSlabLess, TookBlock, IsPutOn};
ghost use Rattle.transition_steps.specs.Classes.{LeavesClosed, IsOfClass};
ghost use Rattle.log_steps.specs.Log.{IsBookOf};
ghost use Rattle.extent_steps.specs.Slabs.{open_events, IsSlabCreated};
ghost use Rattle.attach_steps.specs.Steps.{attach_events, detach_events, detach_old_events, IsAttachable, IsDetachable, IsOldDetachable, IsAttached};
ghost use Rattle.arena_core.specs.Answer.{malloc_reply, free_reply};
ghost use Rattle.arena_core.specs.Arena.{IsIndexOf, IsSlabsOf, AreSlabsLess, AreSlabsBut, AreLivesOf, IsCurrent, IsArena};
ghost use Rattle.arena_core.specs.Carried.{MayOpen, MayTakeClass, IsHeldFor, IsSlabFor, HasClassNow, HaveOneMore, IsDone, IsUntidy, IsTaken, IsTidied, IsCalled};
ghost use Rattle.arena_core.specs.Effect.{IsLastOf, slabs_but, stacks_but};
ghost use Rattle.arena_core.specs.Events.{place_events, take_events, fresh_events, morphed_events, unsmall_events, tidy_events, holds_none};
ghost use Rattle.arena_core.specs.Plan.{IsBlockAs, number_of, IsGivable, IsTakable, IsNamedSmall, IsNamedOld, IsHeldBy, IsPlanned, IsFreePlan, range_held};

use crate::Placed;
use crate::plan::{Held, Place, placed_large, placed_small};
use crate::volatile::Volatile;
use attach_steps::{OldBlock, SmallBlock, attach, detach, detach_old, put_root};
use block_supply::{BlockSupply, SlabAt, SlabBlock};
use book_log::LogEntry;
use extent_steps::{create_slab, drop_extent, drop_slab};
use log_steps::log_entry;
use pmem_lines::Pmem;
use pool_layout::{SLAB_GRANULES, blocks_at, granule_at};
use size_classes::size_of_class;
use slab_header::class_at;
use slab_index::SlabLives;
use slab_morph::{covered_by, is_done, is_unused, used_blocks};
use transition_steps::{end_transition, take_class};

impl Volatile {
    /// Gives a root of a seat the block at the place that was planned for it.
    #[tactic(auto, using(crate::proofs::PlannedCalls::arena_same, crate::proofs::PlannedCalls::may_open, crate::proofs::PlannedCalls::may_take_class, crate::proofs::Readiness::room_rules))]
    pub(crate) fn carry_out_place<P: Pmem>(
        &mut self,
        device: &mut P,
        seat: u32,
        root: u32,
        place: Place,
    ) -> Placed
        requires fresh { (P.state device.old).events ≡ [] }
        requires seat { seat < 64 }
        requires planned { (was : Volatile) × (size : ℕ) × IsPlanned (P.state device.old) was self.old seat root size (Ok place) }
        ensures { (was : Volatile) (size : ℕ) → IsPlanned (P.state device.old) was self.old seat root size (Ok place) → IsCalled (P.state device.old) (P.state device.new) was self.new seat (calls.Malloc root size) (replies.Placed result.at result.size) }
    {
        match place {
            Place::Large { start, granules } => {
                self.give_large(device, root, start, granules);
                placed_large(start, granules)
            }
            Place::Small { block, class } => {
                self.give_small(device, root, block);
                placed_small(block, class)
            }
            Place::Morph { start, class } => {
                self.change_class(device, start, class);
                let block = self.give_of(device, seat, root, SlabAt { start, class });
                placed_small(block, class)
            }
            Place::Fresh { start, class } => {
                self.add_slab(device, start, class);
                let block = self.give_of(device, seat, root, SlabAt { start, class });
                placed_small(block, class)
            }
        }
    }

    /// Takes what it holds from a root of a seat.
    #[tactic(auto, using(crate::proofs::HeldBlocks::class_detachable, crate::proofs::HeldBlocks::old_detachable))]
    pub(crate) fn carry_out_held<P: Pmem>(
        &mut self,
        device: &mut P,
        seat: u32,
        root: u32,
        held: Held,
    )
        requires arena { IsArena (P.state device.old) self.old }
        requires fresh { (P.state device.old).events ≡ [] }
        requires seat { seat < 64 }
        requires plan { IsHeldBy (bounds_of (words_of (P.state device.old))) (tables_of (words_of (P.state device.old))) root held }
        ensures { IsCalled (P.state device.old) (P.state device.new) self.old self.new seat (calls.Free root) (replies.Freed (range_held held).at (range_held held).size) }
    {
        match held {
            Held::Large { start, granules } => self.take_large(device, root, start, granules),
            Held::Small { block, class: _ } => {
                self.take_block(device, seat, root, block);
                self.tidy(device, block.start);
            }
            Held::Old { block, class: _ } => {
                self.take_old_block(device, root, block);
                self.tidy(device, block.start);
            }
        }
    }

    // Gives granules to a root: their extent goes into the log, and then the root gets its address.
    #[tactic(auto, using(crate::proofs::Readiness::room_rules, crate::proofs::SlabChanges::free_row, log_steps::proofs::Disjoint::disjoint_of))]
    fn give_large<P: Pmem>(&mut self, device: &mut P, root: u32, start: u32, granules: u32)
        requires arena { IsArena (P.state device.old) self.old }
        requires fresh { (P.state device.old).events ≡ [] }
        requires givable { IsGivable (bounds_of (words_of (P.state device.old))) (tables_of (words_of (P.state device.old))) root start granules }
        ensures done { IsDone (P.state device.old) (P.state device.new) self.new root (Some (record { at = 16384 * start; size = 16384 * granules })) (classes_of (tables_of (words_of (P.state device.old)))) (place_events (words_of (P.state device.old)) root start granules) }
        ensures line { self.new.line ≡ self.old.line }
        ensures supply { self.new.supply ≡ self.old.supply }
    {
        log_entry(&mut self.log, device, LogEntry::Large { start, granules });
        put_root(device, root, granule_at(start));
        self.free.take(start, granules);
    }

    // Takes granules from a root: the root's word becomes 0, and then a Tomb for their extent goes into the log.
    #[tactic(auto, using(crate::proofs::Readiness::room_rules, crate::proofs::LargeCalls::taken_root, crate::proofs::LargeCalls::taken_covers, crate::proofs::Readiness::root_rules))]
    fn take_large<P: Pmem>(&mut self, device: &mut P, root: u32, start: u32, granules: u32)
        requires arena { IsArena (P.state device.old) self.old }
        requires fresh { (P.state device.old).events ≡ [] }
        requires takable { IsTakable (bounds_of (words_of (P.state device.old))) (tables_of (words_of (P.state device.old))) root start granules }
        ensures done { IsDone (P.state device.old) (P.state device.new) self.new root None (classes_of (tables_of (words_of (P.state device.old)))) (take_events (words_of (P.state device.old)) root start) }
        ensures line { self.new.line ≡ self.old.line }
        ensures supply { self.new.supply ≡ self.old.supply }
    {
        put_root(device, root, 0);
        drop_extent(device, &mut self.log, start);
        self.free.give(start, granules);
    }

    // Gives a block of a slab to a root, which was taken out of the supply.
    #[tactic(auto, using(crate::proofs::RootBlocks::counted))]
    fn give_small<P: Pmem>(&mut self, device: &mut P, root: u32, block: SmallBlock)
        requires held { IsHeldFor (P.state device.old) self.old root block }
        requires room { HasRoom (P.state device.old) 11 }
        ensures done { (class : ℕ) → ((tables_of (words_of (P.state device.old))).header block.start).class ≡ class → IsDone (P.state device.old) (P.state device.new) self.new root (Some (slab_block block.start class block.number)) (classes_of (tables_of (words_of (P.state device.old)))) (attach_events (words_of (P.state device.old)) self.old.line root block) }
        ensures rest { self.new ≡ record self.old { lives = self.new.lives; line = (self.old.line + 1) % 8 } }
    {
        attach(device, self.line, root, block);
        self.lives.raise(block.start);
        self.line = (self.line + 1) % 8;
    }

    // Opens a slab on vacant granules.
    #[tactic(auto, using(crate::proofs::Readiness::room_rules, crate::proofs::SlabChanges::free_row))]
    fn add_slab<P: Pmem>(&mut self, device: &mut P, start: u32, class: u8)
        requires fresh { (P.state device.old).events ≡ [] }
        requires may { MayOpen (P.state device.old) self.old start class }
        ensures came { HasClassNow (P.state device.old) (P.state device.new) self.old self.new start class (open_events (words_of (P.state device.old)) start class) }
        ensures supplied { HasSlabMore self.old.supply self.new.supply start class (λ i. i < class_capacity class) }
    {
        create_slab(device, &mut self.log, start, class);
        self.free.take(start, SLAB_GRANULES);
        self.supply.add(start, class);
        self.lives.put_normal(start, class);
    }

    // Gives a slab another class, for which it is fit: the blocks that it held live on in it as old ones.
    #[tactic(auto, using(crate::proofs::Readiness::room_rules, crate::proofs::ChangedHeaders::few_changes))]
    fn change_class<P: Pmem>(&mut self, device: &mut P, start: u32, class: u8)
        requires fresh { (P.state device.old).events ≡ [] }
        requires may { MayTakeClass (P.state device.old) self.old start class }
        ensures came { HasClassNow (P.state device.old) (P.state device.new) self.old self.new start class (morph_events (tables_of (words_of (P.state device.old))) start class) }
        ensures supplied { (less : Supply) × HasSlabLess self.old.supply less start × HasSlabMore less self.new.supply start class (λ i. (i < class_capacity class) × IsUnusedIn (tables_of (words_of (P.state device.old))) start class i) }
    {
        take_class(device, start, class);
        self.lives.drop_normal(start);
        self.supply.remove(start);
        let used = used_blocks(device, granule_at(start));
        self.supply.add_used(start, class, &used);
    }

    // Gives a block of a slab to a root of a seat: of the slab's class only blocks of this slab are open, and the seat is
    // given one of them.
    #[tactic(auto, using(crate::proofs::RootBlocks::given_some, crate::proofs::RootBlocks::given_here, crate::proofs::RootBlocks::given_low))]
    fn give_of<P: Pmem>(&mut self, device: &mut P, seat: u32, root: u32, slab: SlabAt) -> SmallBlock
        requires ready { IsSlabFor (P.state device.old) self.old root slab.start slab.class }
        requires room { HasRoom (P.state device.old) 11 }
        requires seat { seat < 64 }
        ensures block { IsBlockAs result slab.start slab.class result.number }
        ensures took { TookBlock self.old.supply seat slab.class (number_of result) self.new.supply }
        ensures done { IsDone (P.state device.old) (P.state device.new) self.new root (Some (slab_block slab.start slab.class result.number)) (classes_of (tables_of (words_of (P.state device.old)))) (attach_events (words_of (P.state device.old)) self.old.line root result) }
        ensures line { self.new.line ≡ (self.old.line + 1) % 8 }
    {
        let taken = self.supply.take(seat, slab.class).unwrap();
        let at = blocks_at(granule_at(slab.start)) + taken.number * size_of_class(slab.class);
        let block = SmallBlock {
            start: slab.start,
            number: taken.number,
            at,
        };
        self.give_small(device, root, block);
        block
    }

    // Takes a block of its slab's class from a root of a seat: it may be given out again.
    #[tactic(auto, using(crate::proofs::Readiness::room_rules, crate::proofs::RootBlocks::class_one_more))]
    fn take_block<P: Pmem>(&mut self, device: &mut P, seat: u32, root: u32, block: SmallBlock)
        requires arena { IsArena (P.state device.old) self.old }
        requires fresh { (P.state device.old).events ≡ [] }
        requires seat { seat < 64 }
        requires detachable { IsDetachable (words_of (P.state device.old)) root block }
        ensures taken { IsTaken (P.state device.old) (P.state device.new) self.old self.new root block.start (detach_events (words_of (P.state device.old)) self.old.line root block) }
        ensures stacks { IsPutOn (stacks_of self.old.supply.stacks) seat (((tables_of (words_of (P.state device.old))).header block.start).class) block.at (stacks_of self.new.supply.stacks) }
    {
        detach(device, self.line, root, block);
        self.line = (self.line + 1) % 8;
        let number = block.number;
        self.supply.put_back(
            seat,
            SlabBlock {
                start: block.start,
                number,
            },
        );
        lower(&mut self.lives, block.start);
    }

    // Takes an old block from a root: the blocks of the slab's class that it covered alone may be given out.
    #[tactic(auto, using(crate::proofs::Readiness::room_rules, crate::proofs::RootBlocks::old_one_more))]
    fn take_old_block<P: Pmem>(&mut self, device: &mut P, root: u32, block: OldBlock)
        requires arena { IsArena (P.state device.old) self.old }
        requires fresh { (P.state device.old).events ≡ [] }
        requires detachable { IsOldDetachable (words_of (P.state device.old)) root block }
        ensures taken { IsTaken (P.state device.old) (P.state device.new) self.old self.new root block.start (detach_old_events (tables_of (words_of (P.state device.old))) self.old.line root block.at block.start block.place) }
        ensures stacks { self.new.supply.stacks ≡ self.old.supply.stacks }
    {
        detach_old(device, self.line, root, block);
        self.line = (self.line + 1) % 8;
        free_covered(device, &mut self.supply, block);
        lower(&mut self.lives, block.start);
    }

    // Behind a block that went: drops its slab where it holds no other, and ends the slab's transition where that was the
    // last old one.
    #[tactic(auto, using(crate::proofs::Readiness::room_rules, crate::proofs::SlabChanges::held_row, crate::proofs::HeldBlocks::slab_here, crate::proofs::RootBlocks::counted, crate::proofs::Tidying::none_by_count, crate::proofs::Tidying::some_by_count, crate::proofs::Tidying::droppable))]
    fn tidy<P: Pmem>(&mut self, device: &mut P, start: u32)
        requires untidy { IsUntidy (P.state device.old) self.old start }
        requires few { length (P.state device.old).events ≤ 11 }
        ensures tidied { IsTidied (P.state device.old) (P.state device.new) self.new start }
        ensures line { self.new.line ≡ self.old.line }
        ensures stacks { stacks_of self.new.supply.stacks ≡ stacks_but (stacks_of self.old.supply.stacks) start (holds_none (tables_of (words_of (P.state device.old))) start) }
    {
        if self.lives.at(start) == 0 {
            drop_slab(device, &mut self.log, start);
            self.free.give(start, SLAB_GRANULES);
            self.supply.remove(start);
            self.lives.drop_normal(start);
        } else if is_done(device, granule_at(start)) {
            end_transition(device, start);
            self.lives
                .put_normal(start, class_at(device, granule_at(start)));
        }
    }
}

// One block less lives in a slab.
#[tactic(auto, using(crate::proofs::LiveSlabs::one_less))]
fn lower(lives: &mut SlabLives, start: u32)
    requires { (words : List ℕ) × HaveOneMore lives.old words start }
    ensures { (words : List ℕ) → HaveOneMore lives.old words start → AreLivesOf lives.new words }
{
    lives.lower(start);
}

// An old block went: the blocks of its slab's class that overlap it and no other block that the slab holds are open again.
#[tactic(auto, using(crate::proofs::HeldBlocks::slab_here))]
fn free_covered<P: Pmem>(device: &P, supply: &mut BlockSupply, block: OldBlock)
    requires image { IsExactButImage (words_of (P.state device.now)) block.start }
    requires slab { (tables_of (words_of (P.state device.now))).slab block.start ≡ true }
    requires place { block.place < ((tables_of (words_of (P.state device.now))).header block.start).index_count }
    requires slabs { AreSlabsBut supply.old (words_of (P.state device.now)) block }
    ensures slabs { IsSlabsOf supply.new (words_of (P.state device.now)) }
    ensures stacks { supply.new.stacks ≡ supply.old.stacks }
{
    let slab = granule_at(block.start);
    let (from, end) = covered_by(device, slab, block.place);
    for number in from..end {
        if is_unused(device, slab, number) {
            supply.make_available(block.start, number);
        }
    }
}
