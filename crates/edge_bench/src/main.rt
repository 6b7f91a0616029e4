//! Does what the first argument says with the number behind it, and then the same with the third and the fourth if there are any. It is what `bench/store`
//! and `bench/http` time, and `bench/instructions` counts.
//!
//! `entries` saves what a supervisor keeps into the file `opamp.store` of the current folder, so often, with the room and the log of the `agent`;
//! `checkpoints` does so without a log, so that each save writes a slot; `loads` loads the store of the `agent`. `requests` reads HTTP requests from standard
//! input, feeds them to a reader in pieces of so many bytes, and writes how many there were and how many bytes their bodies have. `messages` and `posts`
//! serve the frames of standard input as `serve` does, each as a message of WebSocket, or as a piece of a connection of HTTP, so many events at most, and
//! write how many answers there were and how many bytes they have.
#![tactic(auto)]

mod requests;
mod sessions;
mod stores;

use crate::requests::read_all;
use crate::sessions::serve_frames;
use crate::stores::{WITH_LOG, WITHOUT_LOG, load_all, save_all};
use agent_store::Layout;
use anyhow::anyhow;
use edge_devices::{FileDisk, Kind, Reading};
use std::env;

fn save(rt: HostRuntime, layout: Layout, count: &str) -> Result<(), anyhow::Error> {
    let count: u64 = count.parse()?;
    let mut disk = FileDisk::new(rt);
    if !save_all(rt.alloc(), &mut disk, layout, count) {
        return Err(anyhow!("the store can't be saved"));
    }
    Ok(())
}

fn load(rt: HostRuntime, count: &str) -> Result<(), anyhow::Error> {
    let count: u64 = count.parse()?;
    let mut disk = FileDisk::new(rt);
    let Some(limit) = load_all(rt.alloc(), &mut disk, count) else {
        return Err(anyhow!("the store can't be loaded"));
    };
    println!(rt; "limit {limit}")?;
    Ok(())
}

fn read(rt: HostRuntime, size: &str) -> Result<(), anyhow::Error> {
    let size: usize = size.parse()?;
    let mut source = Reading::new(rt.stdin());
    let counts = read_all(rt.alloc(), &mut source, size)?;
    println!(rt; "{} requests, {} bytes", counts.requests, counts.bytes)?;
    Ok(())
}

fn serve(rt: HostRuntime, kind: Kind, turns: &str) -> Result<(), anyhow::Error> {
    let turns: u64 = turns.parse()?;
    let mut source = Reading::new(rt.stdin());
    let sent = serve_frames(rt.alloc(), &mut source, kind, turns)?;
    println!(rt; "{} answers, {} bytes", sent.messages, sent.bytes)?;
    Ok(())
}

fn run(rt: HostRuntime, kind: &str, number: &str) -> Result<(), anyhow::Error> {
    match kind {
        "requests" => read(rt, number),
        "messages" => serve(rt, Kind::Ws, number),
        "posts" => serve(rt, Kind::Http, number),
        "loads" => load(rt, number),
        "entries" => save(rt, WITH_LOG, number),
        "checkpoints" => save(rt, WITHOUT_LOG, number),
        _ => Err(anyhow!("no such bench")),
    }
}

// Does what the two arguments from this one on say. Gives whether they are there.
fn run_at(rt: HostRuntime, at: usize) -> Result<bool, anyhow::Error> {
    let kind = env::args(&rt)?.nth(at);
    let number = env::args(&rt)?.nth(at.saturating_add(1));
    match (&kind, &number) {
        (Some(kind), Some(number)) => {
            run(rt, kind.as_str(), number.as_str())?;
            Ok(true)
        }
        _ => Ok(false),
    }
}

fn main(rt: HostRuntime) -> Result<(), anyhow::Error> {
    if !run_at(rt, 1)? {
        return Err(anyhow!("a bench and a number"));
    }
    run_at(rt, 3)?;
    Ok(())
}
