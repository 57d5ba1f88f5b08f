// The reply of writing the lock file. Its meaning is in specs/.

// What the call returns. Number 0 means accepted.
#[repr(C)]
#[derive(Clone, Copy)]
pub struct WriteReply {
    pub number: u32,
    pub place: u32,
    pub length: u32,
}
