/// One step of the machine. Workers are numbered in the order in which they were made, from 0.
#[derive(Clone, Copy)]
pub enum Event {
    /// A new worker gets half of the draws of this one.
    Split { worker: u32 },
    /// The worker draws the next number, which may be a claim.
    Claim { worker: u32 },
    /// The worker delivers the message of the slot with this number.
    Deliver { worker: u32, index: u32 },
    /// `into` takes all that `from` has, and `from` is gone.
    Join { into: u32, from: u32 },
}
