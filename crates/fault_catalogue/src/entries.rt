//! What each fault means and the way out, as the page of faults says it (`docs/faults.md`).

use crate::Entry;

pub static ENTRIES: [Entry; 46] = [
    Entry {
        number: "E00",
        name: "NotBuilt",
        advice: "No fault of the file: the compiler made an image that breaks an image rule, or one that cannot be read back from its listing, which would be a defect of `cstar`.",
    },
    Entry {
        number: "E01",
        name: "BadByte",
        advice: "Stands at a byte that begins no token; a letter, digit, `_` or `.` right behind a number; an 8 or 9 in an octal constant; the byte behind the `\\` of a bad escape; the second quote of `''`, or the second byte of a character constant. Take the byte out, or divide the tokens by a blank.",
    },
    Entry {
        number: "E02",
        name: "Open",
        advice: "Stands at a comment that is not closed, or a text or character constant that is not closed on its line. Close it.",
    },
    Entry {
        number: "E03",
        name: "Wide",
        advice: "Stands at an integer constant above 4294967295, or at the `\\` of an escape above 255. Write a number that fits.",
    },
    Entry {
        number: "E04",
        name: "Directive",
        advice: "Stands at a line that begins with `#` and is none of `#include <stdio.h>`, `#include <cscomm.h>` and `#define NAME constant`, or defines a name a second time with another value. Use these three alone.",
    },
    Entry {
        number: "E05",
        name: "Syntax",
        advice: "Stands at the first token that no program can have there; the end of the file where something is missing. Look at the token before it. What C has and this language does not is refused here too: a `//` comment (but all words of a file are read first, those of the comment too, so a quote or a strange byte in it is E01 or E02 there), a declaration behind a statement of its block or in the brackets of `for`, a prototype without a body, `float`, pointers, and a text where a value stands, as the argument of `%s` would be.",
    },
    Entry {
        number: "E06",
        name: "Redeclared",
        advice: "Stands at a name that its scope has already. Rename one of the two.",
    },
    Entry {
        number: "E07",
        name: "Unknown",
        advice: "Stands at a name that nothing around it declares. Variables and shapes are known from their declaration on, functions in the whole file. Declare it before its use.",
    },
    Entry {
        number: "E08",
        name: "WrongKind",
        advice: "Stands at a name of another kind than its place needs, also at that of a segment bit which is no parallel `bool` variable, or at an expression without value in an expression. Use a variable, function or shape where one is wanted.",
    },
    Entry {
        number: "E09",
        name: "Extent",
        advice: "Stands at the name of a shape with more than 4 extents, with an extent below 1, or with more than 1,048,576 positions. Make the shape smaller.",
    },
    Entry {
        number: "E10",
        name: "NoShape",
        advice: "Stands at a parallel operation where no shape is current. Put it under `with`; a variable of the file takes its parallel value in `main`, since its initialiser is a constant.",
    },
    Entry {
        number: "E11",
        name: "OtherShape",
        advice: "Stands at a parallel variable, a segment bit, a cast, an initialised variable of a block, or a call with a parallel parameter or result, of a shape that is not the current one. Use `with` of its shape, or a left index.",
    },
    Entry {
        number: "E12",
        name: "ScalarWanted",
        advice: "Stands at what has a parallel value where it takes a scalar: the `if` or loop of a condition, the `printf` or call of an argument, a cast to a scalar type, the `[` of a right index, the operator that stores into a scalar, the `=` of a scalar's initialiser. Reduce the value, as by `+=`, or use `where`. A reduction binds as a sign does, so that of a sum is `+= (p + q)`.",
    },
    Entry {
        number: "E13",
        name: "ParallelWanted",
        advice: "Stands at a reduction, a `where` or a scan of a scalar. Give it a parallel value.",
    },
    Entry {
        number: "E14",
        name: "IndexCount",
        advice: "Stands at a left index with another number of expressions than the shape has axes, or before a scalar. Write one expression for each axis.",
    },
    Entry {
        number: "E15",
        name: "Dot",
        advice: "Stands at a `.` outside a left index of a variable of the current shape. Use `pcoord`.",
    },
    Entry {
        number: "E16",
        name: "NotAPlace",
        advice: "Stands at an assignment, `++` or `--` of something that is no variable. Assign to a variable.",
    },
    Entry {
        number: "E17",
        name: "SendValue",
        advice: "Stands at a send, an assignment to a parallel left index, inside another expression. Make it a statement of its own.",
    },
    Entry {
        number: "E18",
        name: "SendOperator",
        advice: "Stands at a parallel left index under `*=`, `/=`, `%=`, `%%=`, `<<=`, `>>=`, `++` or `--`. Use one of the combining operators `=`, `+=`, `-=`, `&=`, `^=`, `|=`, `<?=`, `>?=`.",
    },
    Entry {
        number: "E19",
        name: "Arguments",
        advice: "Stands at a call with another number of arguments than parameters, or a scan or enumerate whose segment mode and bit do not fit together. Count the arguments.",
    },
    Entry {
        number: "E20",
        name: "Return",
        advice: "Stands at a `return` of a value in a `void` function, of a parallel value in a scalar function, or, where the result is parallel, under another shape than its own. Return what its head says.",
    },
    Entry {
        number: "E21",
        name: "Axis",
        advice: "Stands at an axis that the shape does not have; axes count from 0. Use an axis below the rank.",
    },
    Entry {
        number: "E22",
        name: "LoopWord",
        advice: "Stands at a `break` or `continue` outside a loop. Take it out.",
    },
    Entry {
        number: "E23",
        name: "Recursion",
        advice: "Stands at a call that leads back to its own function. Write a loop.",
    },
    Entry {
        number: "E24",
        name: "NoMain",
        advice: "Stands at the end of a file without `main`; a `main` with parameters, or with a result other than `int` and `void`. Write `main() { }`.",
    },
    Entry {
        number: "E25",
        name: "Format",
        advice: "Stands at a `printf` with another form than `%d %u %x %o %c %%`, or with another number of values. Match the values to the text.",
    },
    Entry {
        number: "E26",
        name: "Constant",
        advice: "Stands at an extent, axis, array length or file-scope initialiser that is no constant expression, or divides by 0. Write constants, casts, `positionsof`, `rankof`, `dimof` and operators alone.",
    },
    Entry {
        number: "E27",
        name: "Depth",
        advice: "Stands at the token that opens the 101st level, or is the 1,001st operator of one expression. A level is each statement inside a function's body, and each `(` and `[` of an expression; the brackets behind `if`, `while`, `for`, `with` and `where`, those of a declaration and the `[` of a shape are none. Operators are all tokens of an expression but names, constants, texts, reserved words, brackets and commas: a `.`, a `?`, a `:`, the `&` of a segment bit and the `:` of a cast count. Divide it over several statements.",
    },
    Entry {
        number: "E28",
        name: "Space",
        advice: "Stands at the end of a file whose variables and expressions need more than 2^30 bits of the machine (`language.md` says how they are counted). Use fewer or smaller variables.",
    },
    Entry {
        number: "E29",
        name: "Size",
        advice: "Stands at the name of the 65th shape, or at the end of a file with more than 1,048,576 nodes, counted once for each shape under which a function runs (`language.md` says what a node is). Divide the program.",
    },
    Entry {
        number: "E30",
        name: "TooLong",
        advice: "Stands at a file with more than 1,048,576 bytes, at 1:1. Divide the program.",
    },
    Entry {
        number: "E31",
        name: "ArrayDecl",
        advice: "Stands at an array without a shape, with an initialiser, or with a length outside 1 to 64. Declare a parallel array, and fill it by statements.",
    },
    Entry {
        number: "E32",
        name: "ArrayUse",
        advice: "Stands at an array without a right index, or a right index at something that is no array. Name one of its elements, as `a[0]`; the element of a parallel variable that is no array has its index on the left, `[3]p`.",
    },
    Entry {
        number: "E40",
        name: "Listing",
        advice: "A line is none of a listing, or the listing ends too early.",
    },
    Entry {
        number: "E41",
        name: "Target",
        advice: "A unit, a jump or a call goes nowhere.",
    },
    Entry {
        number: "E42",
        name: "Field",
        advice: "A field or a register lies outside its set, or is of the wrong length.",
    },
    Entry {
        number: "E43",
        name: "Stack",
        advice: "Calls form a cycle, or more are open at once than `.depth` says.",
    },
    Entry {
        number: "E44",
        name: "BackEdge",
        advice: "A jump back does not go to a turn, or a call does not stand behind one.",
    },
    Entry {
        number: "E45",
        name: "Set",
        advice: "A set, an axis or a grid does not exist.",
    },
    Entry {
        number: "E46",
        name: "Operands",
        advice: "The fields of one instruction are of different sets, or a scan with segments has no bit.",
    },
    Entry {
        number: "E47",
        name: "Space",
        advice: "The sets, at least 2 bits at each position and in whole blocks of 512, take more than 2^30 bits together.",
    },
    Entry {
        number: "E48",
        name: "Slots",
        advice: "More than 67,108,864 registers or open calls.",
    },
    Entry {
        number: "E50",
        name: "Point",
        advice: "The bytes are those of no saved point: at line 1, in the column of the first byte with which no point begins, or behind the last where they end too early.",
    },
    Entry {
        number: "E51",
        name: "State",
        advice: "The registers, the open calls or the place are none at which a run of the listing stops, or the bits are not as many as its sets have, or not filled up with 0; at 1:1.",
    },
    Entry {
        number: "F1",
        name: "Index",
        advice: "A left or right index outside its extent or its array, at the first `[` of the left one or the `[` of the right one. Where all indexes are scalar no position is told, and they are checked even where nothing is active. A position is the row-major number of its coordinates: on a shape `[4][4]`, position 3 is `[0][3]`. Compute it modulo the extent, as `[(. + 1) %% dimof(S, 0)]p`, or narrow the context by `where`.",
    },
    Entry {
        number: "F2",
        name: "DivZero",
        advice: "A division or remainder by 0, in a parallel operation at an active position; the place is that of the operator, as of the `/=` itself. Test the divisor first; `where (q != 0)` and `q && (10 / q)` leave out the positions where it is 0.",
    },
];
