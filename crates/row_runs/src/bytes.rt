//! The notation of a page for bytes: `‹ff›` is the byte of this hexadecimal number, and `«100 (»`
//! stands for a hundred times `(`.

use cstar_base::Memory;

/// The greatest number of copies that a page can ask for.
const MOST: u32 = 1_048_577;

/// Appends a line with its newline. One that ends with `‹›` has none.
pub fn push_line(bytes: &mut Vec<u8>, line: &str) -> Result<(), Memory> {
    if let Some(line) = line.strip_suffix("‹›") {
        return push_copies(bytes, line);
    }
    push_copies(bytes, line)?;
    bytes.push(b'\n')?;
    Ok(())
}

/// Appends a text in which `«100 (»` stands for a hundred times `(`.
fn push_copies(bytes: &mut Vec<u8>, text: &str) -> Result<(), Memory> {
    for part in text.split("»") {
        let Some((before, copied)) = part.split_once("«") else {
            push_bytes(bytes, part)?;
            continue;
        };
        push_bytes(bytes, before)?;
        let Some((count, written)) = copied.split_once(" ") else {
            continue;
        };
        let mut piece = Vec::new(*bytes.allocator());
        push_bytes(&mut piece, written)?;
        let count: u32 = count.parse().unwrap_or(0);
        for _ in 0..count.min(MOST) {
            bytes.extend_from_slice(piece.as_slice())?;
        }
    }
    Ok(())
}

/// Appends a text in which `‹ff›` stands for the byte 255.
fn push_bytes(bytes: &mut Vec<u8>, text: &str) -> Result<(), Memory> {
    for part in text.split("›") {
        let Some((before, digits)) = part.split_once("‹") else {
            bytes.extend_from_slice(part.as_bytes())?;
            continue;
        };
        bytes.extend_from_slice(before.as_bytes())?;
        if let Ok(byte) = u8::from_str_radix(digits, 16) {
            bytes.push(byte)?;
        }
    }
    Ok(())
}
