//! The machine's loop: one move after another, each of which leaves the rest of the run as it is.

ghost use Rattle.std.specs.Prelude.{◌≡◌, ◌<◌, ◌≤◌, false, IfOk, length};
ghost use Rattle.es3_tree.specs.Tree as tree;
ghost use Rattle.es3_heap.specs.Objects.{Objects};
ghost use Rattle.es3_language.specs.Meaning.{outermost, run_program, run_call};
ghost use Rattle.es3_moves.specs.Where.{plain_env};
ghost use Rattle.es3_moves.specs.Code.{plain_stmts};
ghost use Rattle.es3_moves.specs.Texts.{store_of};
ghost use Rattle.es3_machine.specs.Outcome.{run_of, ended, is_over, outcome_of, work};

use crate::natives::record_touch;
use crate::resume::{begin, follow, resume};
use caja_units::Memory;
use es3_calls::declare_program;
use es3_expressions::lists::{next_argument, next_field, next_item};
use es3_heap::{Heap, Value};
use es3_moves::code::StmtCode;
use es3_moves::frame::{After, Chain, Context, End, Env, Fault, Flow, Frame, Move};
use es3_moves::natives::Natives;
use es3_moves::texts::Texts;
use es3_nodes::lists::next_statement;
use es3_nodes::loops::first_node;
use es3_nodes::switch::find_case;
use es3_statements::vars::next_var;
use std::alloc::Global;
use std::rc::Rc;

/// How a run ended.
#[derive(Drop)]
pub enum Outcome {
    Ended(Flow),
    Stopped(Fault),
    /// A step was wanted, and none was left.
    Spent,
}

/// How a run ended that is over before a move.
fn how_ended(now: Move) -> Outcome
    ensures { result ≡ outcome_of now }
{
    match now {
        Move::End(flow) => Outcome::Ended(flow),
        Move::Stop(fault) => Outcome::Stopped(fault),
        other => {
            other.let_go();
            Outcome::Spent
        }
    }
}

/// The frames that wait, what the texts made, and the steps that are left.
#[derive(Drop)]
pub struct Engine {
    pub alloc: Global,
    pub frames: Vec<Frame>,
    pub texts: Texts,
    pub left: u64,
}

impl Engine {
    /// Whether the run is over before a move: nothing waits where a node ended, a fault stops it, or a step is wanted and none is left.
    fn is_over(&self, now: &Move) -> bool
        ensures { result ≡ is_over self.now now.now }
    {
        match now {
            Move::End(_) => self.frames.is_empty(),
            Move::Stop(_) => true,
            Move::Go(_) => self.left == 0,
            Move::Enter(_, _) => false,
            Move::Again(_) => false,
            Move::List(_, _, _, _, _) => false,
            Move::Items(_, _, _, _) => false,
            Move::Fields(_, _, _, _) => false,
            Move::Arguments(_) => false,
            Move::Vars(_, _, _, _) => false,
            Move::Find(_, _, _, _, _) => false,
            Move::Tell(_, _) => false,
            Move::Follow(_) => false,
        }
    }

    /// One move, after which the rest of the run is what it was.
    fn step<N: Natives>(&mut self, now: Move, h: &mut Heap, natives: &mut N) -> Result<Move, Memory>
        requires { is_over self.now now ≡ false }
        ensures same { IfOk result (λ m. run_of N.table self.new h.new (N.state natives.new) m ≡ run_of N.table self.old h.old (N.state natives.old) now) }
        ensures less { IfOk result (λ m. work self.new m < work self.old now) }
        ensures live { length h.old.list ≤ length h.new.list }
    {
        match now {
            Move::Enter(task, frame) => {
                self.frames.push(frame)?;
                Ok(Move::Go(task))
            }
            Move::Go(task) => {
                self.left -= 1;
                begin(self.alloc, task, h, natives, &mut self.texts)
            }
            Move::Again(looping) => first_node(looping),
            Move::Tell(note, after) => {
                record_touch(self.alloc, &note, natives)?;
                Ok(Move::Follow(after))
            }
            Move::End(flow) => match self.frames.pop() {
                Some(frame) => resume(self.alloc, frame, flow, h, &mut self.texts),
                None => unreachable!(),
            },
            Move::Stop(_) => unreachable!(),
            Move::List(xs, at, acc, env, end) => {
                next_statement(self.alloc, xs, at, acc, env, end, &mut self.texts)
            }
            Move::Items(vs, es, at, env) => next_item(vs, es, at, env, h, &self.texts),
            Move::Fields(object, fields, at, env) => {
                next_field(object, fields, at, env, h, &self.texts)
            }
            Move::Arguments(calling) => next_argument(self.alloc, calling, h, &mut self.texts),
            Move::Vars(items, at, end, env) => next_var(items, at, end, env, h, &self.texts),
            Move::Find(v, cases, at, labels, env) => find_case(v, cases, at, labels, env),
            Move::Follow(after) => follow(self.alloc, after, h, &mut self.texts),
        }
    }

    /// Makes moves until the run is over.
    fn run_from<N: Natives>(
        &mut self,
        first: Move,
        h: &mut Heap,
        natives: &mut N,
    ) -> Result<Outcome, Memory>
        ensures ran { IfOk result (λ o. ended o (store_of h.new self.new.texts) (N.state natives.new) self.new.left ≡ run_of N.table self.old h.old (N.state natives.old) first) }
        ensures live { length h.old.list ≤ length h.new.list }
    {
        let mut now = first;
        'run: while !self.is_over(&now) {
            now = self.step(now, h, natives)?;
        }
        Ok(how_ended(now))
    }

    /// Where the statements of a program stand, and what is called from outside (ES3 10.2.1).
    fn outermost(&self, by: u32) -> Result<Env, Memory>
        ensures { IfOk result (λ e. (h : Objects) → plain_env e ≡ outermost by (store_of h self.now.texts)) }
    {
        let chain = Rc::new(self.alloc, Chain::End)?;
        let context = Context {
            chain,
            calls: 0,
            by,
            this: self.texts.globals,
        };
        Env::new(self.alloc, context)
    }

    /// Runs the statements of a program as a module, with so many steps at most.
    pub fn run_program<N: Natives>(
        &mut self,
        program: Rc<Vec<Rc<StmtCode>>>,
        by: u32,
        h: &mut Heap,
        natives: &mut N,
        steps: u64,
    ) -> Result<Outcome, Memory>
        ensures ran { IfOk result (λ o. ended o (store_of h.new self.new.texts) (N.state natives.new) self.new.left ≡ run_program N.table (tree.script (plain_stmts program.value.items)) by (store_of h.old self.old.texts) (N.state natives.old) steps) }
        ensures live { length h.old.list ≤ length h.new.list }
    {
        self.frames = Vec::new(self.alloc);
        self.left = steps;
        let env = self.outermost(by)?;
        declare_program(self.alloc, &program, by, h, &mut self.texts)?;
        self.run_from(Move::List(program, 0, None, env, End::Program), h, natives)
    }

    /// Runs a call from outside, with so many steps at most.
    pub fn run_call<N: Natives>(
        &mut self,
        f: Value,
        this: Value,
        args: Vec<Value>,
        by: u32,
        h: &mut Heap,
        natives: &mut N,
        steps: u64,
    ) -> Result<Outcome, Memory>
        ensures ran { IfOk result (λ o. ended o (store_of h.new self.new.texts) (N.state natives.new) self.new.left ≡ run_call N.table f this args.items by (store_of h.old self.old.texts) (N.state natives.old) steps) }
        ensures live { length h.old.list ≤ length h.new.list }
    {
        self.frames = Vec::new(self.alloc);
        self.left = steps;
        let env = self.outermost(by)?;
        self.run_from(Move::Follow(After::Apply(f, this, args, env)), h, natives)
    }
}
