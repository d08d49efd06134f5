// The three kinds of number that document 01 keeps apart, after source 001's logical address, frame ID and LSN:
// a function that wants one cannot be handed another.
#![tactic(auto)]

// A logical address: the number of a page, from 0.
#[derive(Clone, Copy, Debug, PartialEq, Eq, PartialOrd, Ord)]
pub struct PageNo(pub usize);

// A frame ID: the number of a frame, from 0.
#[derive(Clone, Copy, Debug, PartialEq, Eq, PartialOrd, Ord)]
pub struct FrameNo(pub usize);

// An LSN: a log number, 1 to 4,294,967,295; 0 stands for none.
#[derive(Clone, Copy, Debug, PartialEq, Eq, PartialOrd, Ord)]
pub struct LogNo(pub u64);
