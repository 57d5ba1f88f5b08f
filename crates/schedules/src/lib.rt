// What many schedules in one call return: number and place of the whole call, and how many rows were written.
#![tactic(auto)]

#[repr(C)]
#[derive(Clone, Copy)]
pub struct ManyReply {
    pub number: u32,
    pub place: u32,
    pub rows: usize,
}
