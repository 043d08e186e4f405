// What is called around the calls of a thread.
ghost use Rattle.std.specs.Prelude.{◌<◌, length, IfSome};

use crate::pass::Pass;
use std::sync::Wait;

/// Called around each call of a thread, which are counted from 1 for each thread. It may wait.
pub trait Gate {
    /// Ahead of a call of the thread.
    fn before<R: Wait>(&self, rt: &R, thread: u32, call: u32);

    /// Behind a call that was answered, with the pass by which the thread made it, or behind one that was sent to a server, with
    /// none. The pass is of a pool with an arena.
    fn after<R: Wait>(&self, rt: &R, thread: u32, call: u32, pass: Option<&Pass>)
        requires { IfSome pass (λ p. 0 < length p.now.parts) };
}

/// Holds nobody.
#[derive(Clone, Copy, Debug, Drop)]
pub struct OpenGate;

impl Gate for OpenGate {
    fn before<R: Wait>(&self, _rt: &R, _thread: u32, _call: u32) {}

    fn after<R: Wait>(&self, _rt: &R, _thread: u32, _call: u32, _pass: Option<&Pass>) {}
}
