//! All that a run is lent, in memory, and the top call over it.

use command_top::{FnJudge, Healthy, opamp_main};
use edge_devices::{
    MemDisk, MemoryClock, MemoryDialer, MemoryEntropy, MemoryFolder, MemorySink, MemorySource,
    MemoryWire,
};
use message_handlers::Handlers;
use plain_values::Text;
use std::alloc::Global;
use std::marker::Sync;
use std::sync::Wait;
use std::thread::Threads;
use world_lab::Lab;

/// All that a run is lent, but for a lab, handlers and a judge.
pub struct Lent {
    pub source: MemorySource,
    pub sink: MemorySink,
    pub notes: MemorySink,
    pub disk: MemDisk,
    pub folder: MemoryFolder,
    pub wire: MemoryWire,
    pub dialer: MemoryDialer,
    pub clock: MemoryClock,
    pub entropy: MemoryEntropy,
}

// By hand, so that it is a call where a value is dropped, and not laid out there.
impl Drop for Lent {
    fn drop(self) {
        let Lent {
            source: _,
            sink: _,
            notes: _,
            disk: _,
            folder: _,
            wire: _,
            dialer: _,
            clock: _,
            entropy: _,
        } = self;
    }
}

impl Lent {
    /// These three, beside what holds nothing and answers nothing.
    pub fn of(alloc: Global, source: MemorySource, sink: MemorySink, wire: MemoryWire) -> Lent {
        Lent {
            source,
            sink,
            notes: MemorySink::new(alloc, 3, Vec::new(alloc)),
            disk: MemDisk::new(alloc, Vec::new(alloc)),
            folder: MemoryFolder::new(alloc, Vec::new(alloc)),
            wire,
            dialer: MemoryDialer::new(alloc, Vec::new(alloc), Vec::new(alloc), Vec::new(alloc)),
            clock: MemoryClock::new(alloc, Vec::new(alloc)),
            entropy: MemoryEntropy::new(alloc, Vec::new(alloc), Vec::new(alloc)),
        }
    }
}

/// Runs the words with no handlers and a lab in which nothing was played, and gives the status.
pub fn run_over(
    rt: &(impl AllocGlobal + Threads + Wait + Sync),
    words: &[Text],
    lent: &mut Lent,
) -> u8 {
    let alloc = rt.alloc();
    let judge = FnJudge::new(Healthy);
    let handlers = Handlers::new(alloc);
    let mut lab = Lab::new(alloc);
    let status = opamp_main(
        rt,
        alloc,
        words,
        &mut lent.source,
        &mut lent.sink,
        &mut lent.notes,
        &mut lent.disk,
        &mut lent.folder,
        &mut lent.wire,
        &mut lent.dialer,
        &mut lent.clock,
        &mut lent.entropy,
        &handlers,
        &mut lab,
        judge,
    );
    drop(lab);
    drop(handlers);
    status
}
