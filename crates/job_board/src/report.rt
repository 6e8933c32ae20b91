use cstar_base::Word;

/// What a job came to: its status, and the bytes of its two outputs.
#[derive(Drop)]
pub struct Report {
    pub status: u8,
    pub out: Word,
    pub err: Word,
}
