//! The syntax tree: one variant for each alternative of the grammar, each node with its place.
//!
//! The place of a node is that of its first token, but a binary operator, an assignment and a
//! postfix operator stand at the operator, and `?:` at its `?`.

ghost use Rattle.std.specs.Prelude.{◌≡◌};
ghost use Rattle.cstar_tree.specs.Syntax.{place_of};

use cstar_base::{Combiner, Direction, Elem, Inclusion, Op, Place, SegmentMode, Word};

/// A file: its items in order, and the place of its end.
#[derive(Drop)]
pub struct Tree {
    pub items: Vec<Item>,
    pub end: Place,
}

/// A name as it stands in the text.
#[derive(Drop)]
pub struct Name {
    pub word: Word,
    pub place: Place,
}

#[derive(Drop)]
pub enum Item {
    Shapes {
        place: Place,
        shapes: Vec<ShapeDefinition>,
    },
    Variables(Declaration),
    Function(Function),
}

/// `[extent][extent].. name`.
#[derive(Drop)]
pub struct ShapeDefinition {
    pub extents: Vec<Expr>,
    pub name: Name,
}

/// The name of a shape, or `current`.
#[derive(Drop)]
pub enum ShapeRef {
    Named(Name),
    Current(Place),
}

/// An element type, and the shape behind `:` of a parallel one.
#[derive(Drop)]
pub struct TypeName {
    pub place: Place,
    pub elem: Elem,
    pub shape: Option<ShapeRef>,
}

/// `type name, name, ..;` at file scope or at the head of a block.
#[derive(Drop)]
pub struct Declaration {
    pub type_name: TypeName,
    pub variables: Vec<Declarator>,
}

/// A declared variable with the length of an array and its initialiser, where it has them.
#[derive(Drop)]
pub struct Declarator {
    pub name: Name,
    pub length: Option<Expr>,
    pub initial: Option<Initializer>,
}

/// The initialiser of a variable; `place` is that of its `=`.
#[derive(Drop)]
pub struct Initializer {
    pub place: Place,
    pub value: Expr,
}

#[derive(Drop)]
pub struct Function {
    pub place: Place,
    pub result: ResultType,
    pub name: Name,
    pub parameters: Vec<Parameter>,
    pub body: Block,
}

/// What stands before a function's name. A function without a type answers an `int`.
#[derive(Drop)]
pub enum ResultType {
    Unwritten,
    Void,
    Written(TypeName),
}

#[derive(Drop)]
pub struct Parameter {
    pub type_name: TypeName,
    pub name: Name,
}

/// Declarations, then statements.
#[derive(Drop)]
#[cycle(statement)]
pub struct Block {
    pub place: Place,
    pub declarations: Vec<Declaration>,
    pub statements: Vec<Stmt>,
}

#[derive(Drop)]
#[cycle(statement)]
pub enum Stmt {
    Block(Block),
    Expression {
        place: Place,
        expr: Expr,
    },
    Empty(Place),
    If {
        place: Place,
        test: Expr,
        then: Box<Stmt>,
        otherwise: Option<Box<Stmt>>,
    },
    While {
        place: Place,
        test: Expr,
        body: Box<Stmt>,
    },
    Do {
        place: Place,
        body: Box<Stmt>,
        test: Expr,
    },
    For {
        place: Place,
        first: Option<Expr>,
        test: Option<Expr>,
        step: Option<Expr>,
        body: Box<Stmt>,
    },
    Break(Place),
    Continue(Place),
    Return {
        place: Place,
        value: Option<Expr>,
    },
    With {
        place: Place,
        shape: ShapeRef,
        body: Box<Stmt>,
    },
    Everywhere {
        place: Place,
        body: Box<Stmt>,
    },
    Where {
        place: Place,
        test: Expr,
        then: Box<Stmt>,
        otherwise: Option<Box<Stmt>>,
    },
}

#[derive(Drop)]
pub enum Expr {
    Assign {
        place: Place,
        op: AssignOp,
        target: Box<Expr>,
        value: Box<Expr>,
    },
    Choice {
        place: Place,
        test: Box<Expr>,
        then: Box<Expr>,
        otherwise: Box<Expr>,
    },
    Binary {
        place: Place,
        op: BinaryOp,
        left: Box<Expr>,
        right: Box<Expr>,
    },
    Prefix {
        place: Place,
        op: PrefixOp,
        operand: Box<Expr>,
    },
    /// Casts to scalar types that stand one before the other, in text order. The chain may be as
    /// long as the file, so it is one flat node.
    Casts {
        casts: Vec<Cast>,
        operand: Box<Expr>,
    },
    ParallelCast {
        place: Place,
        type_name: TypeName,
        operand: Box<Expr>,
    },
    Postfix {
        place: Place,
        op: StepOp,
        operand: Box<Expr>,
    },
    Name(Name),
    /// `name[index]`; `bracket` is the place of the `[`.
    Element {
        name: Name,
        bracket: Place,
        index: Box<Expr>,
    },
    Number {
        place: Place,
        value: u32,
        unsigned: bool,
    },
    Dot(Place),
    Brackets {
        place: Place,
        inner: Box<Expr>,
    },
    Call {
        name: Name,
        arguments: Vec<Expr>,
    },
    LeftIndex {
        place: Place,
        indexes: Vec<Expr>,
        name: Name,
    },
    Pcoord {
        place: Place,
        axis: Box<Expr>,
    },
    PositionsOf {
        place: Place,
        shape: ShapeRef,
    },
    RankOf {
        place: Place,
        shape: ShapeRef,
    },
    DimOf {
        place: Place,
        shape: ShapeRef,
        axis: Box<Expr>,
    },
    Scan {
        place: Place,
        source: Box<Expr>,
        axis: Box<Expr>,
        combiner: Combiner,
        direction: Direction,
        mode: SegmentMode,
        bit: Option<Name>,
        inclusion: Inclusion,
    },
    Enumerate {
        place: Place,
        axis: Box<Expr>,
        direction: Direction,
        inclusion: Inclusion,
        mode: SegmentMode,
        bit: Option<Name>,
    },
    Printf {
        place: Place,
        text: Word,
        arguments: Vec<Expr>,
    },
    GetChar(Place),
}

/// A cast to a scalar type, at its `(`.
#[derive(Clone, Copy)]
pub struct Cast {
    pub place: Place,
    pub elem: Elem,
}

/// `=` and the compound assignments.
#[derive(Clone, Copy, PartialEq, Eq)]
pub enum AssignOp {
    Set,
    Add,
    Sub,
    Mul,
    Div,
    Rem,
    Mod,
    And,
    Or,
    Xor,
    Shl,
    Shr,
    Min,
    Max,
}

/// A binary operator: one that chooses whether its right operand is evaluated, or one on numbers.
#[derive(Clone, Copy, PartialEq, Eq)]
pub enum BinaryOp {
    LogicalOr,
    LogicalAnd,
    Number(Op),
}

#[derive(Clone, Copy, PartialEq, Eq)]
pub enum PrefixOp {
    Plus,
    Minus,
    Complement,
    Not,
    Step(StepOp),
    Reduce(ReduceOp),
}

/// `++` and `--`.
#[derive(Clone, Copy, PartialEq, Eq)]
pub enum StepOp {
    Increment,
    Decrement,
}

/// The operators that fold a parallel value into a scalar. `Sub` is the negative of the sum.
#[derive(Clone, Copy, PartialEq, Eq)]
pub enum ReduceOp {
    Add,
    Sub,
    And,
    Xor,
    Or,
    Min,
    Max,
}

impl Expr {
    /// The place of the expression's node.
    pub fn place(&self) -> Place
        ensures { result ≡ place_of self.now }
    {
        match self {
            Expr::Assign { place, .. }
            | Expr::Choice { place, .. }
            | Expr::Binary { place, .. }
            | Expr::Prefix { place, .. }
            | Expr::ParallelCast { place, .. }
            | Expr::Postfix { place, .. }
            | Expr::Number { place, .. }
            | Expr::Dot(place)
            | Expr::Brackets { place, .. }
            | Expr::LeftIndex { place, .. }
            | Expr::Pcoord { place, .. }
            | Expr::PositionsOf { place, .. }
            | Expr::RankOf { place, .. }
            | Expr::DimOf { place, .. }
            | Expr::Scan { place, .. }
            | Expr::Enumerate { place, .. }
            | Expr::Printf { place, .. }
            | Expr::GetChar(place) => *place,
            Expr::Name(name) | Expr::Element { name, .. } | Expr::Call { name, .. } => name.place,
            Expr::Casts { casts, operand } => match casts.first() {
                Some(cast) => cast.place,
                None => operand.place(),
            },
        }
    }
}
