//! The code of a compiled program means its source, so far for programs of scalar variables. Readers find
//! the law here by name.
#![tactic(auto)]

ghost use Rattle.code_follows.specs.Agreement.{CodeMeansSource};

/// The code that the compiler makes of a program of functions without recursion on scalar variables of every
/// type, of the file and of blocks within blocks, with parameters and results of every type, with all operators,
/// conversions and casts, assignments and steps, also within expressions, calls, `printf`, `getchar`, `if`, loops,
/// `break`, `continue` and `return`, comes to the end of the source's meaning, be it the end of `main`, a division
/// by 0, the last turn or an input that fails, with its turns and its output, on every input of bytes. Expressions
/// name variables of open blocks alone, as typing gives.
pub fn code_means_source()
    ensures { CodeMeansSource }
{}
