//! Pages of rows. A line `## NAME` begins a row, and what a line of it says stands in its first mark:
//!
//! - `$ WORDS` is a command, its words divided by blanks; each command of a row is to do the same.
//!   Several that are divided by ` ; ` are done one behind the other on the same files and the same
//!   input, with one output, and give the status of the last;
//! - `|TEXT` is a line of the file, which is there as `a.cs` and as `a.paris`;
//! - `@NAME` begins another file of this name: the lines `|TEXT` behind it are lines of that;
//! - `<TEXT` is a line of the input;
//! - `>TEXT` and `!TEXT` are lines that stand on the output and on the error output in the end;
//! - `= 3` is the status, which is 0 where no such line stands.
//!
//! The file may also be a listing whose instructions are numbered and tried:
//!
//! - `+INSTRUCTION` is the next instruction;
//! - `+INSTRUCTION => VALUES` is one with the values that its first operand then has, one of a
//!   register, one at each processor of a field. Further instructions print them, and they are to
//!   stand on the output, each on a line. Fields of 1, 2 and 4 bits are read unsigned, all else signed.
//!   An instruction that prints has itself printed what stands behind `=>`;
//! - `+OPERAND = VALUES` fills a register, or a field processor by processor.
//!
//! Each text is followed by a newline, and `bytes` has the notation in which it stands. All other
//! lines, and those in front of the first row, say nothing.

use crate::bytes::push_line;
use cstar_base::Memory;
use std::alloc::Global;

/// A further file of a row.
#[derive(Drop)]
pub struct NamedFile {
    pub name: String,
    pub text: Vec<u8>,
}

/// A row: commands, the files and the input that each finds, and what it is to put and to give.
#[derive(Drop)]
pub struct Row {
    alloc: Global,
    pub name: String,
    pub commands: Vec<String>,
    pub file: Vec<u8>,
    pub others: Vec<NamedFile>,
    instructions: u32,
    pub input: Vec<u8>,
    pub out: Vec<u8>,
    pub err: Vec<u8>,
    pub status: u8,
}

/// The rows of a page, in order. The first has no command and no name.
pub fn rows_of(alloc: Global, page: &str) -> Result<Vec<Row>, Memory> {
    let mut rows = Vec::new(alloc);
    let mut row = Row::named(alloc, "")?;
    for line in page.lines() {
        if let Some(name) = line.strip_prefix("## ") {
            rows.push(row)?;
            row = Row::named(alloc, name)?;
        } else {
            row.line(line)?;
        }
    }
    rows.push(row)?;
    Ok(rows)
}

impl Row {
    fn named(alloc: Global, name: &str) -> Result<Row, Memory> {
        Ok(Row {
            alloc,
            name: String::from_str(alloc, name)?,
            commands: Vec::new(alloc),
            file: Vec::new(alloc),
            others: Vec::new(alloc),
            instructions: 0,
            input: Vec::new(alloc),
            out: Vec::new(alloc),
            err: Vec::new(alloc),
            status: 0,
        })
    }

    fn line(&mut self, line: &str) -> Result<(), Memory> {
        if let Some(words) = line.strip_prefix("$") {
            self.command(words)?;
        } else if let Some(text) = line.strip_prefix("|") {
            push_line(self.last_file(), text)?;
        } else if let Some(name) = line.strip_prefix("@") {
            self.others.push(NamedFile {
                name: String::from_str(self.alloc, name)?,
                text: Vec::new(self.alloc),
            })?;
        } else if let Some(text) = line.strip_prefix("<") {
            push_line(&mut self.input, text)?;
        } else if let Some(text) = line.strip_prefix(">") {
            push_line(&mut self.out, text)?;
        } else if let Some(text) = line.strip_prefix("!") {
            push_line(&mut self.err, text)?;
        } else if let Some(status) = line.strip_prefix("= ") {
            self.status = status.parse().unwrap_or(255);
        } else if let Some(tried) = line.strip_prefix("+") {
            self.tried(tried)?;
        }
        Ok(())
    }

    fn command(&mut self, words: &str) -> Result<(), Memory> {
        let mut bytes = Vec::new(self.alloc);
        push_line(&mut bytes, words)?;
        if let Ok(words) = str::from_utf8(bytes.as_slice()) {
            self.commands.push(String::from_str(self.alloc, words)?)?;
        }
        Ok(())
    }

    /// The file that was begun last.
    fn last_file(&mut self) -> &mut Vec<u8> {
        match self.others.last_mut() {
            Some(other) => &mut other.text,
            None => &mut self.file,
        }
    }

    fn tried(&mut self, line: &str) -> Result<(), Memory> {
        if let Some((instruction, values)) = line.split_once(" => ") {
            self.instruction(instruction)?;
            return self.show(instruction, values);
        }
        match line.split_once(" = ") {
            Some((operand, values)) => self.fill(operand, values),
            None => self.instruction(line),
        }
    }

    fn instruction(&mut self, instruction: &str) -> Result<(), Memory> {
        let line = format!(in self.alloc; "{} {instruction}", self.instructions)?;
        push_line(&mut self.file, line.as_str())?;
        self.instructions = self.instructions.saturating_add(1);
        Ok(())
    }

    /// `FE_const REGISTER #VALUE`
    fn constant(&mut self, register: &str, value: u32) -> Result<(), Memory> {
        let instruction = format!(in self.alloc; "FE_const {register} #{value}")?;
        self.instruction(instruction.as_str())
    }

    fn fill(&mut self, operand: &str, values: &str) -> Result<(), Memory> {
        let mut processor = 0u32;
        for value in values.split_whitespace() {
            let value = 0u32.wrapping_add_signed(value.parse().unwrap_or(0));
            if operand.starts_with('r') {
                self.constant(operand, value)?;
            } else {
                self.constant("r0", processor)?;
                self.constant("r1", value)?;
                let write = format!(in self.alloc; "CM_u_write_to_processor_1L {operand} r0 r1")?;
                self.instruction(write.as_str())?;
            }
            processor = processor.saturating_add(1);
        }
        Ok(())
    }

    fn show(&mut self, instruction: &str, values: &str) -> Result<(), Memory> {
        let mut words = instruction.split_whitespace();
        let prints = words.next().unwrap_or("").starts_with("FE_put");
        let operand = words.next().unwrap_or("");
        let mut processor = 0u32;
        for value in values.split_whitespace() {
            if !prints {
                self.show_at(operand, processor)?;
            }
            self.instruction("FE_put_bytes x0a")?;
            push_line(&mut self.out, value)?;
            processor = processor.saturating_add(1);
        }
        Ok(())
    }

    fn show_at(&mut self, operand: &str, processor: u32) -> Result<(), Memory> {
        if operand.starts_with('r') {
            let put = format!(in self.alloc; "FE_put_s {operand}")?;
            return self.instruction(put.as_str());
        }
        let sign = match operand.rsplit_once(':') {
            Some((_, "1" | "2" | "4")) => "u",
            _ => "s",
        };
        self.constant("r0", processor)?;
        let read = format!(in self.alloc; "CM_{sign}_read_from_processor_1L r1 r0 {operand}")?;
        self.instruction(read.as_str())?;
        let put = format!(in self.alloc; "FE_put_{sign} r1")?;
        self.instruction(put.as_str())
    }
}
