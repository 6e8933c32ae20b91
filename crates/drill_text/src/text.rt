ghost use Rattle.std.specs.Prelude.{◌≡◌, ◌<◌, ◌++◌, IfOk, OnOk, codes, decimal};
ghost use Rattle.drill_text.specs.Text.{behind, closing, drill, opening, statement, statements};

use crate::draws::Draws;
use cstar_base::Memory;
use itoa::Buffer;
use std::alloc::Global;

/// How many statements are drawn.
const STATEMENTS: u32 = 200;

/// The text of the drill with this seed: variables of one shape, then 200 drawn statements, then a
/// statement that prints what they came to.
#[tactic(auto, unfolding(crate::specs::Text::drill))]
pub fn drill_text(alloc: Global, seed: u32) -> Result<Vec<u8>, Memory>
    ensures { IfOk result (λ text. text.items ≡ drill seed) }
{
    let mut draws = Draws { state: seed };
    let mut text = Vec::new(alloc);
    let first = draws.draw(1000);
    push_opening(&mut text, first)?;
    push_statements(&mut text, &mut draws)?;
    push_closing(&mut text)?;
    Ok(text)
}

#[tactic(auto, unfolding(crate::specs::Text::opening))]
fn push_opening(text: &mut Vec<u8>, first: u32) -> Result<(), Memory>
    ensures { OnOk result (text.new.items ≡ text.old.items ++ (opening ++ (decimal first ++ codes ";\nc = 0;\n"))) }
{
    push_around(
        text,
        b"shape [4096]S;\nint:S a, b, c;\nmain() {\nint i;\nwith (S) {\na = pcoord(0);\nb = ",
        first,
        b";\nc = 0;\n",
    )
}

#[tactic(auto, unfolding(crate::specs::Text::closing))]
fn push_closing(text: &mut Vec<u8>) -> Result<(), Memory>
    ensures { OnOk result (text.new.items ≡ text.old.items ++ closing) }
{
    push(text, b"printf(\"%d %d %d\\n\", += a, ^= b, >?= c);\n}\n}\n")
}

fn push_statements(text: &mut Vec<u8>, draws: &mut Draws) -> Result<(), Memory>
    ensures { OnOk result (text.new.items ≡ text.old.items ++ statements STATEMENTS draws.old.state) }
{
    'all: for _count in 0..STATEMENTS {
        let kind = draws.draw(8);
        push_statement(text, draws, kind)?;
    }
    Ok(())
}

/// A statement of one of eight kinds.
#[tactic(auto, unfolding(crate::specs::Text::statement, crate::specs::Text::behind))]
fn push_statement(text: &mut Vec<u8>, draws: &mut Draws, kind: u32) -> Result<(), Memory>
    requires { kind < 8 }
    ensures text { OnOk result (text.new.items ≡ text.old.items ++ statement kind draws.old.state) }
    ensures state { OnOk result (draws.new.state ≡ behind kind draws.old.state) }
{
    match kind {
        0 => push_around(text, b"a = a + b * ", draws.draw(100), b";\n"),
        1 => push_where(text, draws),
        2 => push(text, b"[a & 4095]c += b;\n"),
        3 => push_around(
            text,
            b"b = [(. + ",
            draws.draw(7) + 1,
            b") %% dimof(S, 0)]c;\n",
        ),
        4 => push_around(text, b"a = a ^ (c >> ", draws.draw(8), b");\n"),
        5 => push(
            text,
            b"c = scan(a, 0, CMC_combiner_add, CMC_upward, CMC_none, CMC_no_field, CMC_inclusive);\n",
        ),
        6 => push_around(
            text,
            b"for (i = 0; i < ",
            draws.draw(5) + 1,
            b"; i++) b = b <? a + i;\n",
        ),
        7 => push(text, b"printf(\"%d\\n\", += c);\n"),
        _ => unreachable!(),
    }
}

#[tactic(auto, unfolding(crate::specs::Text::statement, crate::specs::Text::behind))]
fn push_where(text: &mut Vec<u8>, draws: &mut Draws) -> Result<(), Memory>
    ensures text { OnOk result (text.new.items ≡ text.old.items ++ statement 1 draws.old.state) }
    ensures state { OnOk result (draws.new.state ≡ behind 1 draws.old.state) }
{
    push_around(text, b"where (a % ", draws.draw(9) + 1, b" == 0) b = b - ")?;
    push_around(text, b"", draws.draw(100), b"; else c = c + 1;\n")?;
    Ok(())
}

/// Two pieces of text with a number between them.
fn push_around(text: &mut Vec<u8>, before: &[u8], number: u32, rest: &[u8]) -> Result<(), Memory>
    ensures { OnOk result (text.new.items ≡ text.old.items ++ (before.now ++ (decimal number ++ rest.now))) }
{
    push(text, before)?;
    push(text, Buffer::new().format(number).as_bytes())?;
    push(text, rest)
}

fn push(text: &mut Vec<u8>, piece: &[u8]) -> Result<(), Memory>
    ensures { OnOk result (text.new.items ≡ text.old.items ++ piece.now) }
{
    text.extend_from_slice(piece)?;
    Ok(())
}
