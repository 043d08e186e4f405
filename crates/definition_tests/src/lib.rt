// What the definitions of `heap_model`, `heap_check` and `gc_check` say of worked states and images: each file of `proofs/`
// computes them on rows whose numbers were found by hand, so that a definition that says something else refuses the crate.
//
// The machine: `MorphRows` has the bounds at which a slab may take another class, `BestSlabRows` the best of two slabs,
// `TransitionRows` a morph and its end, `StackRows` and `FreeRows` the stacks, `MoveRows` a move. Images: `HandMade` has an
// exact one, `HandMadeMorphing` and `HandMadeMorphed` have slabs in transition, `HandMadeMove` a move that a cut left,
// and `HandMadeGc` one of the GC variant, with blocks of two classes in a slab that has a third.
// `Morphs`, `WorkedHeaps` and the other files have what the rows share. There is no code.
#![tactic(auto)]
