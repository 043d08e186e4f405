// An arena.
ghost use Rattle.std.specs.Prelude.{◌≡◌, ◌*◌, ◌<◌, ◌≤◌, length};
ghost use Rattle.pmem_lines.specs.Words.{AreZeros};
ghost use Rattle.pmem_lines.specs.Events.{CrashOnly, IsQuiet};
ghost use Rattle.pmem_lines.specs.Pmem.{words_of, began, appended};
ghost use Rattle.pool_layout.specs.Layout.{layout_of, all_granules, pool_granules};
ghost use Rattle.pool_layout.specs.Header.{version_in, granules_in, IsPoolHeader};
ghost use Rattle.heap_model.specs.declared.call.Call.TheVariants as calls;
ghost use Rattle.heap_model.specs.Machine.{no_heap};
ghost use Rattle.heap_model.specs.Placement.{no_stacks};
ghost use Rattle.thread_cache.specs.Stacks.{stacks_of};
ghost use Rattle.heap_check.specs.Image.{IsExactImage};
ghost use Rattle.heap_check.specs.State.{HasState};
ghost use Rattle.arena_core.specs.Answer.{malloc_reply, free_reply, move_reply};
ghost use Rattle.arena_core.specs.Answered.{IsAnswered, IsMoveAnswered, IsWriteAnswered};
ghost use Rattle.arena_core.specs.Arena.{IsBlockOfRoot};
ghost use Rattle.arena_core.specs.Call.{IsReady, IsFormattedOrNot};
ghost use Rattle.arena_core.specs.Events.{format_events};
ghost use Rattle.arena_core.specs.Payload.{IsViewOf};

use crate::adopting::{read_image, read_lives, take_front};
use crate::formatting::write_header;
use crate::payload::{carry_out_write, plan_write};
use crate::plan::{freed_of, granules_in};
use crate::volatile::Volatile;
use crate::{
    ArenaRoom, BlockRefusal, FreeRefusal, Freed, MallocRefusal, MoveRefusal, Moved, Placed,
};
use heap_model::Block;
use pmem_lines::Pmem;
use pool_layout::{PoolHeader, PoolVariant, layout_of};
use std::marker::Model;

/// The version of the layout in which `format` makes an arena.
const FIRST_VERSION: u32 = 1;

/// The version in which `format_v2` makes one.
const SECOND_VERSION: u32 = 2;

/// An arena over a memory of granules of 16384 bytes, with roots of which each names a block or none; how many it may have
/// of both, its version says. A small block, of at most 16384 bytes, is one of a slab of its size class; a large one is
/// whole granules. In contracts it is what its memory means, the write-ahead line that the next entry goes to, and the
/// stacks of reserved blocks.
#[derive(Drop)]
pub struct Arena<P: Pmem> {
    device: P,
    volatile: Volatile,
}

impl<P: Pmem> Model for Arena<P> {
    ghost use Rattle.arena_core.specs.Arena.{ArenaState, IsArena};

    ghost Value = { ArenaState };

    ghost view = { λ a. record { device = P.state a.device; line = a.volatile.line; stacks = a.volatile.supply.stacks } };

    ghost invariant = { λ a. IsArena (P.state a.device) a.volatile };
}

impl<P: Pmem> Arena<P> {
    /// Makes an arena of version 1 anew over a memory of zeros, as number `number` of a pool of `arenas`: at most 16. It
    /// has at most the granules of that version, and the memory has its room. It begins one call, and has five events.
    /// Afterwards no root names a block. After a crash within it the image is refused for its first word, or it is exact
    /// and has no block. It takes no memory.
    pub fn format(room: ArenaRoom, device: P, number: u32, arenas: u32) -> Arena<P>
        requires quiet { IsQuiet (P.state device).events }
        requires room { (layout_of 1).room ≤ (P.state device).room }
        requires most { room ≤ (layout_of 1).most_granules }
        requires size { length (words_of (P.state device)) ≡ 2048 * room }
        requires zero { AreZeros (words_of (P.state device)) }
        requires number { number < arenas }
        requires few { arenas ≤ 16 }
        ensures device { result.device ≡ appended (began (P.state device)) (format_events (record { version = 1; number = number; arenas = arenas; granules = room })) }
        ensures line { result.line ≡ 0 }
        ensures stacks { stacks_of result.stacks ≡ no_stacks }
        ensures ready { IsReady result.device }
        ensures exact { IsExactImage (words_of result.device) }
        ensures empty { HasState (words_of result.device) no_heap }
        ensures crash { CrashOnly result.device.base result.device.events IsFormattedOrNot }
    {
        let _ = room.granules();
        Arena::format_as(FIRST_VERSION, room, device, number, arenas)
    }

    /// Makes an arena of version 2 anew, as `format` makes one of version 1. It has the granules of that version, and the
    /// arenas of the pool have no more together than a pool may have.
    pub fn format_v2(room: ArenaRoom, device: P, number: u32, arenas: u32) -> Arena<P>
        requires quiet { IsQuiet (P.state device).events }
        requires room { (layout_of 2).room ≤ (P.state device).room }
        requires least { (layout_of 2).least_granules ≤ room }
        requires most { room ≤ (layout_of 2).most_granules }
        requires together { all_granules arenas room ≤ pool_granules }
        requires size { length (words_of (P.state device)) ≡ 2048 * room }
        requires zero { AreZeros (words_of (P.state device)) }
        requires number { number < arenas }
        requires few { arenas ≤ 16 }
        ensures device { result.device ≡ appended (began (P.state device)) (format_events (record { version = 2; number = number; arenas = arenas; granules = room })) }
        ensures line { result.line ≡ 0 }
        ensures stacks { stacks_of result.stacks ≡ no_stacks }
        ensures ready { IsReady result.device }
        ensures exact { IsExactImage (words_of result.device) }
        ensures empty { HasState (words_of result.device) no_heap }
        ensures crash { CrashOnly result.device.base result.device.events IsFormattedOrNot }
    {
        Arena::format_as(SECOND_VERSION, room, device, number, arenas)
    }

    // Makes an arena of a version anew.
    #[tactic(auto, using(pool_layout::proofs::Layouts::layout_rules, crate::proofs::Formats::formatted_inside, crate::proofs::HeaderLines::formatted_ready))]
    fn format_as(version: u32, room: ArenaRoom, mut device: P, number: u32, arenas: u32) -> Arena<P>
        requires quiet { IsQuiet (P.state device).events }
        requires room { (layout_of version).room ≤ (P.state device).room }
        requires header { IsPoolHeader (record { version = version; number = number; arenas = arenas; granules = room }) }
        requires size { length (words_of (P.state device)) ≡ 2048 * room }
        requires zero { AreZeros (words_of (P.state device)) }
        ensures device { result.device ≡ appended (began (P.state device)) (format_events (record { version = version; number = number; arenas = arenas; granules = room })) }
        ensures line { result.line ≡ 0 }
        ensures stacks { stacks_of result.stacks ≡ no_stacks }
        ensures ready { IsReady result.device }
        ensures exact { IsExactImage (words_of result.device) }
        ensures empty { HasState (words_of result.device) no_heap }
        ensures crash { CrashOnly result.device.base result.device.events IsFormattedOrNot }
    {
        let ArenaRoom { mut volatile } = room;
        let header = PoolHeader {
            version,
            number,
            arenas,
            granules: volatile.log.granules(),
        };
        take_front(&mut volatile.free, layout_of(version).first_granule);
        device.begin();
        write_header(&mut device, PoolVariant::Log, &header);
        volatile.log.load(&device);
        Arena { device, volatile }
    }

    /// Makes an arena over a memory whose image is exact; `room` is for as many granules as the image has, and the memory has
    /// the room of its version. It begins no call and has no event, and the heap is that of the image. It takes no memory.
    #[tactic(auto, using(heap_check::proofs::Sizes::heap_inside, book_log::proofs::Places::within_heap))]
    pub fn adopt(room: ArenaRoom, device: P) -> Arena<P>
        requires quiet { IsQuiet (P.state device).events }
        requires room { (layout_of (version_in (words_of (P.state device)))).room ≤ (P.state device).room }
        requires exact { IsExactImage (words_of (P.state device)) }
        requires size { granules_in (words_of (P.state device)) ≡ room }
        ensures device { result.device ≡ P.state device }
        ensures line { result.line ≡ 0 }
        ensures stacks { stacks_of result.stacks ≡ no_stacks }
        ensures ready { IsReady result.device }
    {
        let ArenaRoom { mut volatile } = room;
        volatile.log.load(&device);
        read_image(
            &device,
            &volatile.log,
            &mut volatile.free,
            &mut volatile.supply,
        );
        read_lives(&device, &volatile.supply, &mut volatile.lives);
        Arena { device, volatile }
    }

    /// Gives a root a block of at least `size` bytes. A size of at most 16384 takes a block of its class: the top of the
    /// seat's own stack; where that is empty, the lowest available block of the lowest slab of the class that has one, and
    /// the next ones of that slab, up to seven, go on the seat's stack; where there is none, the top of the stack of the
    /// lowest-numbered seat that has one; where there is none either, the lowest unused block of the slab that takes the
    /// class, while its live blocks live on: the one with the fewest of those that are fit, which leaves all stacks; and else
    /// the first of a slab that is opened at the best fit of four granules. Behind the last two the next blocks go on the
    /// seat's stack. Any other size takes whole granules at their best fit. The answer is the machine's: `NoRoot` where there
    /// is no such root word, `Occupied` where the root names a block, `ZeroSize`, `TooLarge` above the bytes of the whole
    /// heap, `NoSpace`.
    /// It begins one call, ahead of its events, also where it refuses; a refusal has no event and changes no word
    /// and no stack. Every other block keeps its words. After a crash within it the heap is the one before the call or the
    /// one after it. It takes no memory. `seat` is the caller's, below 64.
    #[tactic(auto, using(crate::proofs::PlannedCalls::planned_begun))]
    pub fn malloc_to(&mut self, seat: u32, root: u32, size: u64) -> Result<Placed, MallocRefusal>
        requires { seat < 64 }
        ensures { IsAnswered seat self.old self.new (calls.Malloc root size) (malloc_reply result) }
    {
        let plan = self.volatile.plan_malloc(&self.device, seat, root, size);
        self.device.begin();
        match plan {
            Ok(place) => Ok(
                self.volatile
                    .carry_out_place(&mut self.device, seat, root, place),
            ),
            Err(refusal) => Err(refusal),
        }
    }

    /// Takes a root its block, and the block's slab out of the heap, and its blocks out of all stacks, where no other block
    /// is left in it; where it was the last old block of a slab that took another class, the slab is normal again. A block
    /// of its slab's class goes on the seat's stack where that has less than eight. The answer is the
    /// machine's: `NoRoot` where there is no such root word, then `Empty` where the root names no block. It begins one call,
    /// ahead of its events, also where it refuses; a refusal has no event and changes no word. Every other block keeps its
    /// words. After a crash within it the heap is the one before the call or the one after it. It takes no memory. `seat`
    /// is the caller's, below 64.
    pub fn free_from(&mut self, seat: u32, root: u32) -> Result<Freed, FreeRefusal>
        requires { seat < 64 }
        ensures { IsAnswered seat self.old self.new (calls.Free root) (free_reply result) }
    {
        let plan = self.volatile.plan_free(&self.device, root);
        self.device.begin();
        match plan {
            Ok(held) => {
                self.volatile
                    .carry_out_held(&mut self.device, seat, root, held);
                Ok(freed_of(held))
            }
            Err(refusal) => Err(refusal),
        }
    }

    /// Moves the block of root `from` to root `to`. The answer is the machine's: `NoRoot` where one of the two is no such
    /// root word, then `Empty` where `from` names no block, then `Occupied` where `to` names one; so a move to the same root
    /// is refused. It begins one call, ahead of its events, also where it refuses; a refusal has no event and changes no
    /// word. The block and every other one keep their words, and the block its place; a view of it is taken by `to` from
    /// then on. After a crash within it the heap is the one before the call or the one after it: one of the two roots has
    /// the block. It takes no memory.
    pub fn move_to(&mut self, from: u32, to: u32) -> Result<Moved, MoveRefusal>
        ensures { IsMoveAnswered self.old self.new from to (move_reply result) }
    {
        let plan = self.volatile.plan_move(&self.device, from, to);
        self.device.begin();
        self.volatile
            .carry_out_move(&mut self.device, from, to, plan)
    }

    /// Makes the words of a root's block from word `from` on those that are given, durably. The answer is the machine's:
    /// `NoRoot` where there is no such root word, then `Empty` where the root names no block, then `OutOfRange` where `from`
    /// plus the number of words is above the block's size divided by 8. It begins one call, ahead of its events, also where
    /// it refuses; a refusal has no event and changes no word, and no words make no event. Every other word of the arena is
    /// as before. After a crash within it each word of the range is old or new, and all else is as before. It takes no
    /// memory. `words` has at most 512 words.
    pub fn write(&mut self, root: u32, from: u32, words: &[u64]) -> Result<(), BlockRefusal>
        requires { length words.now ≤ 512 }
        ensures { IsWriteAnswered self.old self.new root from words.now result }
    {
        let block = self.volatile.block_of(&self.device, root);
        let plan = plan_write(block, from, words.len() as u64);
        self.device.begin();
        carry_out_write(&mut self.device, plan, words)
    }

    /// Lends all words of a root's block, in place: as many as its size in bytes divided by 8. `NoRoot` exactly where there
    /// is no such root word, then `Empty` exactly where the root names no block.
    pub fn view(&self, root: u32) -> Result<&[u64], BlockRefusal>
        ensures view { IsViewOf (words_of self.now.device) root result }
        ensures exact { IsExactImage (words_of self.now.device) }
        ensures ready { IsReady self.now.device }
    {
        match self.volatile.block_of(&self.device, root) {
            Ok(block) => Ok(self.device.words(block.at, block.size / 8)),
            Err(refusal) => Err(refusal),
        }
    }

    /// The block that a root names. `None` exactly where there is no such root word, or it names no block.
    #[tactic(auto, using(crate::proofs::PayloadCalls::block_refused))]
    pub fn block(&self, root: u32) -> Option<Block>
        ensures { IsBlockOfRoot (words_of self.now.device) root result }
    {
        match self.volatile.block_of(&self.device, root) {
            Ok(block) => Some(Block {
                root,
                at: block.at,
                size: block.size,
            }),
            Err(_) => None,
        }
    }

    /// Lends the memory.
    pub fn pmem(&self) -> &P
        ensures device { P.state result.now ≡ self.now.device }
        ensures ready { IsReady self.now.device }
        ensures exact { IsExactImage (words_of self.now.device) }
    {
        &self.device
    }

    /// Gives the memory back.
    pub fn into_pmem(self) -> P
        ensures device { P.state result ≡ self.device }
        ensures ready { IsReady self.device }
        ensures exact { IsExactImage (words_of self.device) }
    {
        let Arena { device, volatile } = self;
        drop(volatile);
        device
    }

    /// How many granules the arena has.
    pub fn granules(&self) -> u32
        ensures { result ≡ granules_in (words_of self.now.device) }
    {
        granules_in(&self.device)
    }
}
