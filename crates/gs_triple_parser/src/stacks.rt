//! The stack of frames.
ghost use Rattle.std.specs.Prelude.{◌≡◌, ◌∷◌, [], OnOk, IfSome, IfNone};

use crate::frames::Frame;
use gs_triple_values::Language;
use std::alloc::{AllocError, Global};

/// Frames, of which the last one that was pushed is on top.
#[derive(Drop)]
pub struct Stack<L: Language> {
    frames: Vec<Frame<L>>,
}

impl<L: Language> Stack<L> {
    ghost use Rattle.gs_triple_parser.specs.Frames.{frame_of, stack_of};

    /// No frame. Takes no memory.
    #[tactic(auto, unfolding(crate::specs::Frames::stack_of))]
    pub fn new(alloc: Global) -> Stack<L>
        ensures { stack_of L.language result ≡ [] }
    {
        Stack {
            frames: Vec::new(alloc),
        }
    }

    #[tactic(auto, using(crate::proofs::StackLemmas::stack_push))]
    pub fn push(&mut self, frame: Frame<L>) -> Result<(), AllocError>
        ensures { OnOk result (stack_of L.language self.new
            ≡ frame_of L.language frame ∷ stack_of L.language self.old) }
    {
        self.frames.push(frame)?;
        Ok(())
    }

    #[tactic(auto, using(crate::proofs::StackLemmas::stack_push))]
    pub fn pop(&mut self) -> Option<Frame<L>>
        ensures some { IfSome result (λ f. stack_of L.language self.old
            ≡ frame_of L.language f ∷ stack_of L.language self.new) }
        ensures none { IfNone result (stack_of L.language self.old ≡ []) }
    {
        match self.frames.pop() {
            None => None,
            Some(frame) => Some(frame),
        }
    }

    #[tactic(auto, unfolding(crate::specs::Frames::stack_of))]
    pub fn clear(&mut self)
        ensures { stack_of L.language self.new ≡ [] }
    {
        self.frames.clear();
    }
}
