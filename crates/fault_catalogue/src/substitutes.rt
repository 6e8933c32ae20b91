//! What C has and this language has not, and what stands in its place.

/// A word of C, and what is written in its place.
struct Substitute {
    word: &'static str,
    instead: &'static str,
}

/// Words that no program may have: they are reserved, and refused where they stand.
static RESERVED: [Substitute; 18] = [
    Substitute {
        word: "float",
        instead: "There are no fractions: hold them in `int`, so many bits behind the point (`docs/fixed-point.md`).",
    },
    Substitute {
        word: "double",
        instead: "There are no fractions: hold them in `int`, so many bits behind the point (`docs/fixed-point.md`).",
    },
    Substitute {
        word: "const",
        instead: "Leave it out, or write `#define NAME number`.",
    },
    Substitute {
        word: "static",
        instead: "Leave it out: a variable of the file keeps its value between calls.",
    },
    Substitute {
        word: "extern",
        instead: "Leave it out: a program is one file.",
    },
    Substitute {
        word: "register",
        instead: "Leave it out.",
    },
    Substitute {
        word: "auto",
        instead: "Leave it out.",
    },
    Substitute {
        word: "volatile",
        instead: "Leave it out.",
    },
    Substitute {
        word: "sizeof",
        instead: "Numbers of elements are `positionsof(S)` and `dimof(S, axis)`; an `int` has 32 bits, a `short` 16, a `char` 8, a `bool` 1.",
    },
    Substitute {
        word: "switch",
        instead: "Write a chain of `if` and `else`.",
    },
    Substitute {
        word: "case",
        instead: "Write a chain of `if` and `else`.",
    },
    Substitute {
        word: "default",
        instead: "Write a chain of `if` and `else`.",
    },
    Substitute {
        word: "goto",
        instead: "Write a loop, with `break` and `continue`.",
    },
    Substitute {
        word: "struct",
        instead: "Write a variable for each member.",
    },
    Substitute {
        word: "union",
        instead: "Write a variable for each member.",
    },
    Substitute {
        word: "enum",
        instead: "Write `#define NAME number` for each.",
    },
    Substitute {
        word: "typedef",
        instead: "Write the type itself.",
    },
    Substitute {
        word: "shapeof",
        instead: "Write the name of the shape.",
    },
];

/// Names of C's library, which are unknown here.
static LIBRARY: [Substitute; 12] = [
    Substitute {
        word: "puts",
        instead: "Write `printf(\"text\\n\")`.",
    },
    Substitute {
        word: "putchar",
        instead: "Write `printf(\"%c\", byte)`.",
    },
    Substitute {
        word: "scanf",
        instead: "Read bytes by `getchar()` and make numbers of them, as `examples/automaton.cs` does.",
    },
    Substitute {
        word: "gets",
        instead: "Read bytes by `getchar()`.",
    },
    Substitute {
        word: "malloc",
        instead: "Declare a parallel variable: a shape has a fixed number of positions.",
    },
    Substitute {
        word: "free",
        instead: "Leave it out: no memory is taken by a program.",
    },
    Substitute {
        word: "abs",
        instead: "Write `x >? -x`.",
    },
    Substitute {
        word: "min",
        instead: "Write `a <? b`.",
    },
    Substitute {
        word: "max",
        instead: "Write `a >? b`.",
    },
    Substitute {
        word: "rand",
        instead: "Write a generator of your own, as `examples/random.cs` does.",
    },
    Substitute {
        word: "exit",
        instead: "Return from `main`.",
    },
    Substitute {
        word: "palloc",
        instead: "Declare a parallel variable: shapes and variables are fixed.",
    },
];

/// What stands in the place of this word, where one of the two lists has it.
fn listed(list: &'static [Substitute], word: &str) -> Option<&'static str> {
    for substitute in list {
        if substitute.word == word {
            return Some(substitute.instead);
        }
    }
    None
}

/// What is written in the place of a reserved word that no program may have.
pub fn instead_of(word: &str) -> Option<&'static str> {
    listed(&RESERVED, word)
}

/// What is written in the place of a name of C's library.
pub fn other_word(name: &str) -> Option<&'static str> {
    listed(&LIBRARY, name)
}
