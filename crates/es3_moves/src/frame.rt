//! What the machine keeps of the work that waits, and what it does next.

ghost use Rattle.std.specs.Prelude.{◌≡◌, IfOk};
ghost use Rattle.es3_moves.specs.Where.{plain_chain, plain_context, plain_env, with_chain};

use crate::code::{
    CaseCode, CatchCode, ExprCode, FieldCode, FinallyCode, Prefix, StmtCode, TargetCode, VarCode,
};
use caja_units::{Memory, Units};
use es3_heap::{ObjId, Tag, Value};
use es3_language::Touch;
use es3_tree::BinOp;
use std::alloc::Global;
use std::rc::Rc;

/// The scopes around a place, each by its number, the innermost first (ES3 10.1.4).
#[derive(Drop)]
pub enum Chain {
    End,
    In(u32, Rc<Chain>),
}

/// An execution context (ES3 10.2): the scope chain, how many calls are open, the running module, and the object that is `this`.
#[derive(Drop)]
pub struct Context {
    pub chain: Rc<Chain>,
    pub calls: u32,
    pub by: u32,
    pub this: ObjId,
}

/// Where a node stands: its execution context, which the nodes of one body share.
#[derive(Drop)]
pub struct Env {
    pub context: Rc<Context>,
}

impl Env {
    /// A place in an execution context.
    ///
    /// # Errors
    ///
    /// `Memory` where memory is wanting.
    pub fn new(alloc: Global, context: Context) -> Result<Env, Memory>
        ensures { IfOk result (λ e. plain_env e ≡ plain_context context) }
    {
        let context = Rc::new(alloc, context)?;
        Ok(Env { context })
    }

    /// The scopes around the place.
    pub fn chain(&self) -> &Rc<Chain>
        ensures { plain_chain result.now.value ≡ (plain_env self.now).chain }
    {
        &self.context.chain
    }

    /// How many calls are open.
    pub fn calls(&self) -> u32
        ensures { result ≡ (plain_env self.now).calls }
    {
        self.context.calls
    }

    /// The module that runs.
    pub fn by(&self) -> u32
        ensures { result ≡ (plain_env self.now).by }
    {
        self.context.by
    }

    /// The object that is `this`.
    pub fn this(&self) -> ObjId
        ensures { result ≡ (plain_env self.now).this }
    {
        self.context.this
    }

    /// The same place once more.
    ///
    /// # Errors
    ///
    /// `Memory` where memory is wanting.
    pub fn copy(&self) -> Result<Env, Memory>
        ensures { IfOk result (λ e. plain_env e ≡ plain_env self.now) }
    {
        let context = self.context.clone()?;
        Ok(Env { context })
    }

    /// The same place in other scopes.
    ///
    /// # Errors
    ///
    /// `Memory` where memory is wanting.
    pub fn within(&self, alloc: Global, chain: Rc<Chain>) -> Result<Env, Memory>
        ensures { IfOk result (λ e. plain_env e ≡ with_chain (plain_env self.now) (plain_chain chain.value)) }
    {
        Env::new(
            alloc,
            Context {
                chain,
                calls: self.context.calls,
                by: self.context.by,
                this: self.context.this,
            },
        )
    }
}

/// The labels before a statement, the innermost first (ES3 12.12).
#[derive(Drop)]
pub enum Labels {
    End,
    In(Rc<Units>, Rc<Labels>),
}

/// A reference (ES3 8.7), or a value where an expression is none.
#[derive(Drop)]
pub enum Ref {
    /// A name that no scope has.
    Unresolved(Rc<Units>),
    /// A name of a scope, by the scope's number.
    Slot(u32, Rc<Units>),
    /// `arguments` of an activation whose arguments object isn't made yet (ES3 10.1.8).
    OwnArguments(u32),
    /// A name that the object of a `with` has.
    InObject(ObjId, Rc<Units>),
    /// A name of the global object.
    Named(ObjId, Rc<Units>),
    Member(Value, Rc<Units>),
    Just(Value),
}

/// How a node ended, other than by a fault (ES3 8.9).
#[derive(Drop)]
pub enum Flow {
    Gave(Value),
    Found(Ref),
    Normal(Option<Value>),
    Broke(Option<Rc<Units>>, Option<Value>),
    Continued(Option<Rc<Units>>, Option<Value>),
    Returned(Value),
    Threw(Value),
}

/// Why a run stops for good.
#[derive(Clone, Copy)]
pub enum Fault {
    Number,
    Depth,
    Convert,
}

/// What follows a list of statements.
#[derive(Drop)]
pub enum End {
    Program,
    Block,
    Body,
    /// The body of a function that makes an object by `new` (ES3 13.2.2).
    New(ObjId),
    Try(Box<Handlers>),
    Catch(Option<Rc<FinallyCode>>, Env),
    /// A `finally`, with how what stood before it ended.
    Finally(Box<Flow>),
    /// A clause of a `switch`: the clauses from a place on are left.
    Cases(Rc<Vec<CaseCode>>, usize, Rc<Labels>, Env),
}

/// What follows the block of a `try`.
#[derive(Drop)]
pub struct Handlers {
    pub handler: Option<Rc<CatchCode>>,
    pub last: Option<Rc<FinallyCode>>,
    pub env: Env,
}

/// A loop that runs: its parts, the value so far, and its labels (ES3 12.6).
#[derive(Drop)]
pub struct Looping {
    pub test: Option<Rc<ExprCode>>,
    pub update: Option<Rc<ExprCode>>,
    pub body: Rc<StmtCode>,
    pub acc: Option<Value>,
    pub labels: Rc<Labels>,
    pub env: Env,
}

/// A `for` .. `in` that runs: the object, the keys from a place on that are left, what is written to, the body, the value so far,
/// and the labels (ES3 12.6.4).
#[derive(Drop)]
pub struct Keyed {
    pub object: ObjId,
    pub keys: Rc<Vec<Rc<Units>>>,
    pub at: usize,
    pub target: Rc<TargetCode>,
    pub body: Rc<StmtCode>,
    pub acc: Option<Value>,
    pub labels: Rc<Labels>,
    pub env: Env,
}

/// What is called, or made by `new`, once its arguments are there.
#[derive(Drop)]
pub enum Callee {
    Called(Ref),
    Maker(Value),
}

/// A call, or what `new` makes, whose arguments are being found: those that are there, and the list of them from a place on.
#[derive(Drop)]
pub struct Calling {
    pub callee: Callee,
    pub values: Vec<Value>,
    pub list: Rc<Vec<Rc<ExprCode>>>,
    pub at: usize,
    pub env: Env,
}

/// What an expression does with a value. A list goes with the place, from 0, of the node in it that comes next.
#[derive(Drop)]
pub enum Use {
    BinaryLeft(BinOp, Rc<ExprCode>, Env),
    BinaryRight(BinOp, Value),
    Prefix(Prefix),
    AndRight(Rc<ExprCode>, Env),
    OrRight(Rc<ExprCode>, Env),
    CondSide(Rc<ExprCode>, Rc<ExprCode>, Env),
    CommaRight(Rc<ExprCode>, Env),
    DotValue(Rc<Units>, Env),
    DotTarget(Rc<Units>),
    IndexValueBase(Rc<ExprCode>, Env),
    IndexTargetBase(Rc<ExprCode>, Env),
    IndexValue(Value, Env),
    IndexTarget(Value),
    AssignValue(Ref, Env),
    CompoundValue(BinOp, Ref, Value, Env),
    Maker(Rc<Vec<Rc<ExprCode>>>, Env),
    Argument(Box<Calling>),
    Item(Vec<Value>, Rc<Vec<Rc<ExprCode>>>, usize, Env),
    /// The value of a key of an object that is made.
    Field(ObjId, Rc<Units>, Rc<Vec<FieldCode>>, usize, Env),
}

/// What follows the variables of a `var`.
#[derive(Drop)]
pub enum VarsEnd {
    Statement,
    /// The test of the `for` that declares them.
    Loop(Box<Looping>),
}

/// What a statement does with a value.
#[derive(Drop)]
pub enum Effect {
    ToNormal,
    ToReturned,
    ToThrew,
    Var(Ref, Rc<Vec<VarCode>>, usize, VarsEnd, Env),
    IfSide(Rc<StmtCode>, Option<Rc<StmtCode>>, Env),
    LoopTest(Box<Looping>),
    AfterUpdate(Box<Looping>),
    ForKeys(Rc<TargetCode>, Rc<StmtCode>, Rc<Labels>, Env),
    WithBody(Rc<StmtCode>, Env),
    SwitchOn(Rc<Vec<CaseCode>>, Rc<Labels>, Env),
    /// The value of a clause's expression: the value that is looked for, and the place of the clause.
    CaseTest(Value, Rc<Vec<CaseCode>>, usize, Rc<Labels>, Env),
}

/// What is to be done with a reference.
#[derive(Drop)]
pub enum Target {
    AssignTo(Rc<ExprCode>, Env),
    CompoundTo(BinOp, Rc<ExprCode>, Env),
    Step(bool, bool, Env),
    Delete,
    Typeof(Env),
    Called(Rc<Vec<Rc<ExprCode>>>, Env),
}

/// What is to be done when the node above ends.
#[derive(Drop)]
pub enum Frame {
    Value(Use),
    Effect(Effect),
    Target(Target),
    /// The reference that a key is written to.
    KeyTarget(Rc<Units>, Box<Keyed>),
    /// The statements of a list that are left, and the value so far.
    Statement(Rc<Vec<Rc<StmtCode>>>, usize, Option<Value>, Env, End),
    Label(Rc<Units>),
    LoopNext(Box<Looping>),
    KeyNext(Box<Keyed>),
}

/// What takes a step when it is entered.
#[derive(Drop)]
pub enum Task {
    /// An expression for its value.
    Value(Rc<ExprCode>, Env),
    /// An expression as a reference.
    Reference(Rc<ExprCode>, Env),
    Effect(Rc<StmtCode>, Env),
    /// A statement behind labels.
    Labelled(Rc<StmtCode>, Rc<Labels>, Env),
    /// A key that a `for` .. `in` reaches.
    Key(Rc<Units>, Box<Keyed>),
    /// A function that is no text.
    Native(Box<NativeCall>),
}

/// A call of a function that is no text, by its number, with the receiver and the arguments.
#[derive(Drop)]
pub struct NativeCall {
    pub which: u32,
    pub this: Value,
    pub args: Vec<Value>,
    pub env: Env,
}

/// What is recorded of a touch of an object with a name: by which module, how, which one, and at which key.
#[derive(Drop)]
pub struct Note {
    pub by: u32,
    pub what: Touch,
    pub on: Tag,
    pub key: Option<Rc<Units>>,
}

/// What is done with a value that was read.
#[derive(Drop)]
pub enum Then {
    Give,
    /// The call of the value, by the reference that it was read from.
    Call(Ref, Vec<Value>, Env),
    Typeof,
    Compound(BinOp, Rc<ExprCode>, Env, Ref),
    Step(bool, bool, Ref, Env),
}

/// What follows where a touch may be recorded before it.
#[derive(Drop)]
pub enum After {
    Then(Then, Value),
    /// A call: the function, the receiver, the arguments.
    Apply(Value, Value, Vec<Value>, Env),
    /// What a function makes by `new`.
    Construct(Value, Vec<Value>, Env),
    /// The first value is written, and the second is given.
    Write(Ref, Value, Value),
    /// A key is written, and the body of the loop follows.
    WriteKey(Ref, Rc<Units>, Box<Keyed>),
}

/// What the machine does next.
#[derive(Drop)]
pub enum Move {
    /// Enter a task, and go on by the frame.
    Enter(Task, Frame),
    /// Enter a task in place of what ran.
    Go(Task),
    /// Enter the first node of a later turn of a loop.
    Again(Box<Looping>),
    /// The statements that are left, with the value so far, and what follows them.
    List(Rc<Vec<Rc<StmtCode>>>, usize, Option<Value>, Env, End),
    /// The items of an array that are left, behind those that are there.
    Items(Vec<Value>, Rc<Vec<Rc<ExprCode>>>, usize, Env),
    /// The properties of an object literal that are left.
    Fields(ObjId, Rc<Vec<FieldCode>>, usize, Env),
    /// The arguments that are left, and then the call.
    Arguments(Box<Calling>),
    /// The variables of a `var` that are left, and what follows them.
    Vars(Rc<Vec<VarCode>>, usize, VarsEnd, Env),
    /// The clauses of a `switch` from a place on, of which the first with the value counts.
    Find(Value, Rc<Vec<CaseCode>>, usize, Rc<Labels>, Env),
    /// Record a touch, and go on.
    Tell(Note, After),
    Follow(After),
    End(Flow),
    Stop(Fault),
}

// A drop of an enum in place is a case of the proof for each of its variants, and of theirs; in these calls it is one step.

fn let_go<T: Drop>(value: T) {
    let _ = value;
}

impl Flow {
    /// Lets it go.
    pub fn let_go(self) {
        let_go(self);
    }
}

impl Move {
    /// Lets it go.
    pub fn let_go(self) {
        let_go(self);
    }
}
