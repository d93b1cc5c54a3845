// One side of a call.
ghost use Rattle.pool.specs.Sound.{Formed};

use defs::Prefix;

// The words of a pool without faults, and a root: the view that a call sees. What has no fault at width 32 has none at 64. That a root has 64 bits at most
// stays with the functions that need it: some need no such root, and a type must not ask more than they did.
#[derive(Clone, Copy)]
pub struct Side<'a> {
    pub words: &'a [u32],
    pub root: Prefix,
    pub ghost formed: { Formed 64 words.now },
}
