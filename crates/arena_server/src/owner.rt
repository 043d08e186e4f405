// Those who serve.
ghost use Rattle.std.specs.Prelude.{◌≡◌};

use crate::queue::Token;
use crate::request::Request;
use shared_pool::Pass;
use std::marker::Model;

/// Who serves one arena, that of its pass's number. In contracts it has its pass, the list of the requests that it served or
/// skipped, a request that it holds and has not served yet, where there is one, and whether it has skipped.
#[derive(Drop)]
pub struct Owner {
    pub(crate) pass: Pass,
    pub(crate) till: Till,
}

/// An owner without its pass: the arena that it serves, its pass of the arena's queue, the request that it holds, and
/// whether it has skipped.
#[derive(Drop)]
pub struct Till {
    pub arena: u32,
    pub token: Token,
    pub held: Option<Request>,
    pub skipped: bool,
}

impl Model for Owner {
    ghost use Rattle.arena_server.specs.Owners.{OwnerState, owner_of, IsOwner};

    ghost Value = { OwnerState };

    ghost view = { λ o. owner_of o.pass o.till };

    ghost invariant = { λ o. IsOwner o.pass o.till };
}

impl Owner {
    /// The number of the arena that the owner serves.
    pub fn number(&self) -> u32
        ensures { result ≡ self.now.pass.number }
    {
        self.pass.number()
    }

    /// Whether the owner has skipped a request. One that has serves no more.
    pub fn has_skipped(&self) -> bool
        ensures { result ≡ self.now.skipped }
    {
        self.till.skipped
    }
}
