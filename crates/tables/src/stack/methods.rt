//! Taking a free number, and giving one back.
ghost use Rattle.std.specs.Prelude.{◌≡◌, ◌+◌, ◌-◌, ◌^◌, ◌<◌, ◌≤◌, IfOk};
ghost use Rattle.rules.specs.Indexed.{assign};
ghost use Rattle.tables.specs.Stacks.{stack_item, stack_height, stack_room, CountsDown};

use crate::stack::Stack;
use std::alloc::{AllocError, Global};

impl Stack {
    /// A full stack of `count` numbers, which gives `low` first, and then each next one.
    pub fn counting_down(heap: Global, low: usize, count: usize) -> Result<Stack, AllocError>
        requires { low + count < 2 ^ 64 }
        ensures { IfOk result (CountsDown low count) }
    {
        let mut at = Vec::with_capacity(heap, count)?;
        for number in (low..low + count).rev() {
            at.push_reserved(number);
        }
        Ok(Stack { at, height: count })
    }

    /// Takes the number on top.
    pub fn pop(&mut self) -> usize
        requires { 1 ≤ stack_height self.old }
        ensures value { result ≡ stack_item self.old (stack_height self.old - 1) }
        ensures height { stack_height self.new + 1 ≡ stack_height self.old }
        ensures items { stack_item self.new ≡ stack_item self.old }
        ensures room { stack_room self.new ≡ stack_room self.old }
    {
        self.height -= 1;
        self.at[self.height]
    }

    /// Puts a number on top.
    pub fn push(&mut self, number: usize)
        requires { stack_height self.old < stack_room self.old }
        ensures height { stack_height self.new ≡ stack_height self.old + 1 }
        ensures items { stack_item self.new ≡ assign (stack_item self.old) (stack_height self.old) number }
        ensures room { stack_room self.new ≡ stack_room self.old }
    {
        self.at[self.height] = number;
        self.height += 1;
    }
}
