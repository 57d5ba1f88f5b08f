// What the check of steps returns.
use model::LockState;

// Number and place, how many steps are right, and the state after them. Number 0 means accepted.
#[repr(C)]
#[derive(Clone, Copy)]
pub struct StepsReply {
    pub number: u32,
    pub place: usize,
    pub checked: usize,
    pub state: LockState,
}
