// The queues of functions that modules left for later, one a module.

ghost use Rattle.std.specs.Prelude.{◌≡◌, ◌<◌, [], length, replicate, IfOk, OnOk, OnErr};
ghost use Rattle.event_script.specs.Queues.{added, first_of, without_first};

use caja_units::Memory;
use es3_heap::Value;
use std::alloc::Global;
use std::collections::VecDeque;
use std::marker::Model;

/// The functions that wait, one queue for each module of a page. Modules are known by their numbers, from 0.
#[derive(Drop)]
pub struct Queues {
    queues: Vec<VecDeque<Value>>,
}

impl Model for Queues {
    ghost use Rattle.std.specs.Prelude.{List, map};
    ghost use Rattle.es3_objects.specs.declared.value.Value.{Value as Waiting};

    ghost Value = { List (List Waiting) };

    ghost view = { λ s. map (λ q. q.items) s.queues.items };
}

impl Queues {
    /// As many empty queues as there are modules.
    ///
    /// # Errors
    ///
    /// `Memory` where memory is wanting.
    pub fn new(alloc: Global, modules: u32) -> Result<Queues, Memory>
        ensures { IfOk result (λ s. s ≡ replicate modules []) }
    {
        let mut queues = Vec::new(alloc);
        for _module in 0..modules {
            queues.push(VecDeque::new(alloc))?;
        }
        Ok(Queues { queues })
    }

    /// Puts a function behind all others in the queue of a module.
    ///
    /// # Errors
    ///
    /// `Memory` where memory is wanting; then the queues stay as they were.
    pub fn add(&mut self, m: u32, f: Value) -> Result<(), Memory>
        requires { m < length self.old }
        ensures ok { OnOk result (self.new ≡ added m f self.old) }
        ensures err { OnErr result (self.new ≡ self.old) }
    {
        self.queues[m as usize].push_back(f)?;
        Ok(())
    }

    /// Takes the first function out of the queue of a module, and None exactly where that queue is empty. It takes no memory.
    pub fn take(&mut self, m: u32) -> Option<Value>
        requires { m < length self.old }
        ensures taken { result ≡ first_of m self.old }
        ensures left { self.new ≡ without_first m self.old }
    {
        self.queues[m as usize].pop_front()
    }
}
