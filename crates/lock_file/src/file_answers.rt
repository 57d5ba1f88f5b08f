// The reply of the file call. Its meaning is in specs/.

// What the file call returns. Number 0 means accepted.
#[repr(C)]
#[derive(Clone, Copy)]
pub struct FileReply {
    pub number: u32,
    pub place: u32,
    pub length: u32,
}
