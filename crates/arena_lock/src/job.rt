// Values that keep a journal, and what may be done to them in one turn.
ghost use Rattle.std.specs.Prelude.{◌≡◌, ℕ, List, length};
ghost use Rattle.heap_model.specs.declared.call.Entry.{Entry};
ghost use Rattle.arena_lock.specs.declared.opening.Opening.{Opening};
ghost use Rattle.arena_lock.specs.Journal.{Grows};
ghost use Rattle.arena_lock.specs.Legality.{IsLegal};

/// A value that may stand behind a lock: it has a journal, and the state that this began at.
pub trait Logged {
    /// The state that the journal began at.
    ghost opening: { Self → Opening };

    /// The journal, first entry first.
    ghost journal: { Self → List Entry };

    /// How many entries the journal has. It waits for nobody.
    fn count(&self) -> u64
        ensures { result ≡ length (journal self.now) };
}

/// What is done to the value in one turn.
pub trait Job<T: Logged> {
    /// What the job answers.
    type Out;

    /// The number that its entry bears, where it makes one.
    ghost number: { Self → ℕ };

    /// The job's own condition.
    ghost allowed: { Self → Type 0 };

    /// How the journal before, the journal after and the answer go together.
    ghost relation: { Self → List Entry → List Entry → Self.Out → Type 0 };

    /// Runs the job on the value. The opening stays, and the journal stays or grows by one entry, which bears the job's
    /// number; a journal that was legal is legal afterwards.
    fn run(self, value: &mut T) -> Self::Out
        requires allowed { allowed self }
        requires legal { IsLegal (T.opening value.old) (T.journal value.old) }
        ensures opening { T.opening value.new ≡ T.opening value.old }
        ensures journal { Grows (number self) (T.journal value.old) (T.journal value.new) }
        ensures legal { IsLegal (T.opening value.new) (T.journal value.new) }
        ensures relation { relation self (T.journal value.old) (T.journal value.new) result };
}
