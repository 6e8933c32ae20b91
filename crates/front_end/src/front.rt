ghost use Rattle.std.specs.Prelude.{◌≡◌, ◌≤◌, vec_len, vec_capacity};

/// The state of the scalar code of a run: the instruction at which it stands, the registers, the
/// places behind the open calls, and the turns that are left. `wanted` is the register that the
/// next answer goes to, and `args` has the arguments of the last parallel instruction.
#[derive(Drop)]
pub struct Front {
    pub(crate) at: u32,
    pub(crate) turns: u32,
    pub(crate) wanted: Option<u32>,
    pub(crate) registers: Vec<u32>,
    pub(crate) returns: Vec<u32>,
    pub(crate) args: Vec<u32>,
    /// For how many calls `returns` has room, and for how many arguments `args`.
    pub(crate) call_room: u32,
    pub(crate) argument_room: usize,
    pub(crate) ghost calls: { call_room ≤ vec_capacity returns },
    pub(crate) ghost arguments: { argument_room ≤ vec_capacity args },
}
