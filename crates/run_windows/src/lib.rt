//! A synchronised machine, its runs in windows, and observers of their records.
#![tactic(auto)]

mod laws;
mod null_observer;
mod null_sink;
mod record_observer;
mod synced;
mod turn_observer;
mod until;

pub use laws::windows_are_the_run;
pub use null_observer::NullObserver;
pub use null_sink::NullSink;
pub use record_observer::RecordObserver;
pub use synced::SyncedMachine;
pub use turn_observer::TurnObserver;
pub use until::Until;
