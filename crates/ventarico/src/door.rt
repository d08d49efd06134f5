// One call a file: check and judge, then act, then answer.
pub mod abort_call;
pub mod begin_call;
pub mod checkpoint_call;
pub mod close_call;
pub mod commit_call;
pub mod compact_call;
pub mod evict_call;
pub mod format_call;
pub mod read_call;
pub mod restart_call;
pub mod update_call;
