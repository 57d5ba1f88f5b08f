// The reply of the chain call. Its meaning is in specs/.
// Number 0 means accepted; then comes the length of the chain, which is 0 if refused.
#![tactic(auto)]

#[repr(C)]
#[derive(Clone, Copy)]
pub struct ChainReply {
    pub number: u32,
    pub place: u32,
    pub length: u32,
}
