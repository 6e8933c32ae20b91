//! The code of a compiled program with parallel variables means its source. Readers find the law here by name.
#![tactic(auto)]

ghost use Rattle.fields_follow.specs.Example.{ExampleIsParallel};
ghost use Rattle.fields_follow.specs.Laws.{ParallelCodeMeansSource};

/// The code that the compiler makes of a program of functions without recursion on scalars, with parallel variables of
/// the file and of blocks, comes from a new memory to the end of the source's meaning, with its turns, its output and
/// the final numbers of the file's at each of their positions, on every input of bytes. The variables are of all types
/// and no arrays, those of blocks have no initialisers, and all positions are active at first. They are assigned, also
/// with an operator that needs no more bits than a narrow variable has, and stepped, but for those of `bool`, which are
/// assigned alone; and parallel values of the active positions are folded into numbers by unary reductions, and onto
/// scalar variables by `s += x` and its like. All of it may stand within `with`, and also under `where` and
/// `everywhere`: there any of these statements may stand, scalar ones, loops, calls and `printf` too, and `return`,
/// `break` and `continue` that lead out.
///
/// Parallel expressions are of such variables, of gets of the file's from neighbours, `[. + 1]x`, also round the ends
/// of the grid, `[(. + 1) %% dimof(S, 0)]x`, and, of any shape, by indexes that are parallel expressions, also with
/// `.`, or promoted scalars, of own coordinates and of promoted scalars, which are computed and change nothing,
/// converted and cast to any type, with the operators `+ - * / % %% & | ^ ~ << >> <? >?`, but for a division by the
/// constant 0, of truth values: relations, `!`, `&&` and `||`, one operand of which may be a scalar, and of `?:`. Where
/// a divisor is 0 at an active position, or an index lies outside its extent there, both end with that fault at the
/// least such one. The conditions of `where` are such expressions. Scans of them, and operators on scans, are folded,
/// and assigned to variables other than `bool`; so are promoted scalars that change scalar variables. Parallel
/// expressions are sent, too, to variables of the file of any shape at such indexes, also with an operator that folds,
/// and so are promoted scalars and scans. Scalar expressions read single positions of these, `[3]x`, at any scalar
/// indexes, where both end alike if one lies outside its extent. Scalars are stored there, without an operator. What is
/// tested, compared or folded are values of any types, but for bitwise operations on a narrow one and a constant that
/// is converted to a narrow type; those of `bool` are conditions and operands of `!`, `&&` and `||` as others are.
pub fn parallel_code_means_source()
    ensures { ParallelCodeMeansSource }
{}

/// Such a program is this one, which gives a parallel variable its own coordinates, adds 1 to them, calls a function where
/// they are less than 3 and divides 12 by them elsewhere, by `where` with an `else`, and prints their sum. The function
/// adds 10 where they are less than 2, and returns from there. So the law speaks of some, with contexts.
pub fn example_is_parallel()
    ensures { ExampleIsParallel }
{}
