// The reply of reading a text. Its meaning is in specs/.
#![tactic(auto)]

use model::TreeWords;

// What reading a text returns. Number 0 means accepted; if refused, all words of the tree are 0.
#[repr(C)]
#[derive(Clone, Copy)]
pub struct TextReply {
    pub number: u32,
    pub place: usize,
    pub tree: TreeWords,
}
