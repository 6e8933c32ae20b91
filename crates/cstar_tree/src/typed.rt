//! The typed tree: every name is a number, and every conversion and every promotion is a node.

ghost use Rattle.std.specs.Prelude.{◌≡◌};
ghost use Rattle.cstar_tree.specs.Typed.{type_of};

use crate::syntax::{AssignOp, ReduceOp, StepOp};
use cstar_base::{
    Combiner, Direction, Elem, Inclusion, NumberFormat, Op, Place, SegmentMode, Word,
};

/// A typed program. Instance 0 is `main`; the others are numbered as a walk from it in text order
/// first meets them. `need` is the room of each shape, in bits for each position.
#[derive(Drop)]
pub struct Typed {
    pub shapes: Vec<ShapeInfo>,
    pub vars: Vec<VarInfo>,
    pub instances: Vec<Instance>,
    pub need: Vec<u32>,
}

#[derive(Drop)]
pub struct ShapeInfo {
    pub name: Word,
    pub extents: Vec<u32>,
}

/// A variable: `array` is the length of an array, and `start` the value that every element has at
/// every position when the program begins, below `2^bits`.
#[derive(Drop)]
pub struct VarInfo {
    pub name: Word,
    pub elem: Elem,
    pub shape: Option<u16>,
    pub array: Option<u32>,
    pub start: u32,
}

/// A function under one current shape, or none, with which it is reached.
#[derive(Drop)]
pub struct Instance {
    pub name: Word,
    pub current: Option<u16>,
    pub params: Vec<VarInfo>,
    pub result: Option<VarInfo>,
    pub body: TStmt,
}

/// Which variable a name means: the number of one of the file, of a parameter of the instance, or
/// of a variable of its blocks, counted over the whole instance in order of declaration.
#[derive(Clone, Copy, PartialEq, Eq)]
pub enum Variable {
    File(u32),
    Param(u32),
    Local(u32),
}

/// A variable of a block, with its initialiser converted to its type.
#[derive(Drop)]
pub struct LocalVar {
    pub info: VarInfo,
    pub initial: Option<TExpr>,
}

#[derive(Drop)]
pub enum TStmt {
    Block {
        locals: Vec<LocalVar>,
        statements: Vec<TStmt>,
    },
    Expression(TExpr),
    Empty,
    If {
        test: TExpr,
        then: Box<TStmt>,
        otherwise: Option<Box<TStmt>>,
    },
    While {
        test: TExpr,
        body: Box<TStmt>,
    },
    Do {
        body: Box<TStmt>,
        test: TExpr,
    },
    For {
        first: Option<TExpr>,
        test: Option<TExpr>,
        step: Option<TExpr>,
        body: Box<TStmt>,
    },
    Break,
    Continue,
    Return(Option<TExpr>),
    With {
        shape: u16,
        body: Box<TStmt>,
    },
    Everywhere {
        shape: u16,
        body: Box<TStmt>,
    },
    Where {
        shape: u16,
        test: TExpr,
        then: Box<TStmt>,
        otherwise: Option<Box<TStmt>>,
    },
}

/// The type of an expression's value: its element type, and its shape where it is parallel. An
/// expression without value carries `int` and no shape, and nobody reads it.
#[derive(Clone, Copy, PartialEq, Eq)]
pub struct ValueType {
    pub elem: Elem,
    pub shape: Option<u16>,
}

/// An expression. A place is kept where the node can end a run in a fault.
#[derive(Drop)]
pub enum TExpr {
    /// The value is stored in the target, which is a variable, an element of an array or a left
    /// index, maybe in brackets. With `Set` the value has the target's type; with `Shl` and `Shr`
    /// its own promoted type; with another operator the common type of target and value. It has
    /// the target's shape, but where a parallel value is folded into a scalar target.
    Assign {
        ty: ValueType,
        place: Place,
        op: AssignOp,
        target: Box<TExpr>,
        value: Box<TExpr>,
    },
    /// The second and third operand have the type of the whole. The test may be scalar where they
    /// are parallel.
    Choice {
        ty: ValueType,
        test: Box<TExpr>,
        then: Box<TExpr>,
        otherwise: Box<TExpr>,
    },
    /// The operands keep their own element types. Where the left one is parallel the right one is
    /// too; with a scalar left one and a parallel right one the whole is parallel.
    LogicalOr {
        ty: ValueType,
        left: Box<TExpr>,
        right: Box<TExpr>,
    },
    /// As `LogicalOr`.
    LogicalAnd {
        ty: ValueType,
        left: Box<TExpr>,
        right: Box<TExpr>,
    },
    /// Both operands have the operation's common type; those of a shift their own promoted types.
    Binary {
        ty: ValueType,
        place: Place,
        op: Op,
        left: Box<TExpr>,
        right: Box<TExpr>,
    },
    /// The operand has its promoted type, but under `Not` its own.
    Unary {
        ty: ValueType,
        op: UnaryOp,
        operand: Box<TExpr>,
    },
    /// `++` and `--`, before or behind their target.
    Step {
        ty: ValueType,
        op: StepOp,
        order: StepOrder,
        target: Box<TExpr>,
    },
    /// A unary reduction of an operand at its promoted type.
    Reduce {
        ty: ValueType,
        op: ReduceOp,
        operand: Box<TExpr>,
    },
    /// A chain of casts to scalar types, from the outermost to the innermost.
    Casts {
        ty: ValueType,
        elems: Vec<Elem>,
        operand: Box<TExpr>,
    },
    /// The operand, which is parallel and maybe promoted, converted to the element type of `ty`.
    ParallelCast {
        ty: ValueType,
        operand: Box<TExpr>,
    },
    /// The operand, converted to the element type of `ty`.
    Convert {
        ty: ValueType,
        operand: Box<TExpr>,
    },
    /// The scalar operand at every position of the shape of `ty`.
    Promote {
        ty: ValueType,
        operand: Box<TExpr>,
    },
    Variable {
        ty: ValueType,
        variable: Variable,
    },
    /// An element of an array; `place` is that of the `[`.
    Element {
        ty: ValueType,
        place: Place,
        array: Variable,
        index: Box<TExpr>,
    },
    Number {
        ty: ValueType,
        value: u32,
    },
    /// The own coordinate on this axis of the current shape, in a left index.
    Dot {
        ty: ValueType,
        axis: u32,
    },
    Brackets {
        ty: ValueType,
        inner: Box<TExpr>,
    },
    Call {
        ty: ValueType,
        instance: u32,
        arguments: Vec<TExpr>,
    },
    /// The indexes are all scalar, or all parallel and of the current shape.
    LeftIndex {
        ty: ValueType,
        place: Place,
        indexes: Vec<TExpr>,
        variable: Variable,
        of: u16,
    },
    Pcoord {
        ty: ValueType,
        axis: u32,
    },
    /// How many positions the shape has: `value`.
    PositionsOf {
        ty: ValueType,
        shape: u16,
        value: u32,
    },
    /// How many axes the shape has: `value`.
    RankOf {
        ty: ValueType,
        shape: u16,
        value: u32,
    },
    /// The extent of the shape along the axis: `value`.
    DimOf {
        ty: ValueType,
        shape: u16,
        axis: u32,
        value: u32,
    },
    Scan {
        ty: ValueType,
        source: Box<TExpr>,
        axis: u32,
        combiner: Combiner,
        direction: Direction,
        mode: SegmentMode,
        bit: Option<Variable>,
        inclusion: Inclusion,
    },
    Enumerate {
        ty: ValueType,
        axis: u32,
        direction: Direction,
        inclusion: Inclusion,
        mode: SegmentMode,
        bit: Option<Variable>,
    },
    /// The arguments are evaluated in order, and then each piece is printed.
    Printf {
        ty: ValueType,
        pieces: Vec<Piece>,
        arguments: Vec<TExpr>,
    },
    GetChar {
        ty: ValueType,
    },
}

#[derive(Clone, Copy, PartialEq, Eq)]
pub enum UnaryOp {
    Plus,
    Minus,
    Complement,
    Not,
}

/// Whether the value is that before the step or that behind it.
#[derive(Clone, Copy, PartialEq, Eq)]
pub enum StepOrder {
    Prefix,
    Postfix,
}

/// A piece of what `printf` prints: bytes as they are, or the next argument, by `%d`, `%u`, `%x`,
/// `%o` or `%c`.
#[derive(Drop)]
pub enum Piece {
    Bytes(Word),
    Argument(NumberFormat),
}

impl TExpr {
    /// The type of the expression's value.
    pub fn ty(&self) -> ValueType
        ensures { result ≡ type_of self.now }
    {
        match self {
            TExpr::Assign { ty, .. }
            | TExpr::Choice { ty, .. }
            | TExpr::LogicalOr { ty, .. }
            | TExpr::LogicalAnd { ty, .. }
            | TExpr::Binary { ty, .. }
            | TExpr::Unary { ty, .. }
            | TExpr::Step { ty, .. }
            | TExpr::Reduce { ty, .. }
            | TExpr::Casts { ty, .. }
            | TExpr::ParallelCast { ty, .. }
            | TExpr::Convert { ty, .. }
            | TExpr::Promote { ty, .. }
            | TExpr::Variable { ty, .. }
            | TExpr::Element { ty, .. }
            | TExpr::Number { ty, .. }
            | TExpr::Dot { ty, .. }
            | TExpr::Brackets { ty, .. }
            | TExpr::Call { ty, .. }
            | TExpr::LeftIndex { ty, .. }
            | TExpr::Pcoord { ty, .. }
            | TExpr::PositionsOf { ty, .. }
            | TExpr::RankOf { ty, .. }
            | TExpr::DimOf { ty, .. }
            | TExpr::Scan { ty, .. }
            | TExpr::Enumerate { ty, .. }
            | TExpr::Printf { ty, .. }
            | TExpr::GetChar { ty, .. } => *ty,
        }
    }
}
