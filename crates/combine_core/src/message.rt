ghost use Rattle.std.specs.Prelude.{◌-◌, ◌^◌, ◌<◌};

/// A value on its way from a sender to a target. The greatest sender of 32 bits is left out, so that
/// each sender has an encoding above 0 in either direction.
#[derive(Clone, Copy)]
pub struct Message {
    pub sender: u32,
    pub target: u32,
    pub value: u32,
    pub ghost sender_fits: { sender < 2 ^ 32 - 1 },
    pub ghost value_fits: { value < 2 ^ 32 },
}
