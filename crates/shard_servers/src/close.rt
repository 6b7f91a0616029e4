//! The close of the shards, once all desks are done.

ghost use Rattle.std.specs.Prelude.{◌≡◌, ◌∷◌, [], IfErr, IfOk, length, map};
ghost use Rattle.shard_servers.specs.Agreement.{Agrees, AreDistinct, AreKept, FailsToClose, rows_of};
ghost use Rattle.shard_servers.specs.Desks.{parts_of};

use crate::checks::{CloseFail, compare, compare_by_desks};
use crate::desks::Desk;
use crate::shards::Shards;
use crate::tallies::{Books, Tallies};
use plain_values::{List, NoMemory};
use server_core::Server;
use shard_journals::{Row, journals_cross_threads};
use std::alloc::Global;
use std::marker::Sync;
use std::sync::ledger::Ledger;
use std::thread;
use std::thread::Threads;

impl<'a, A: Ledger, B: Ledger, C: Ledger, D: Ledger> Shards<'a, A, B, C, D> {
    /// The journals of the four shards, once the desks are back with every part of each ledger. They keep just the rows that
    /// were told to the desks.
    pub fn close(
        self,
        desks: List<Desk<'a, A, B, C, D>>,
    ) -> Result<List<List<Row<'a>>>, CloseFail<'a>>
        requires first { parts_of (λ p. p.first) desks ≡ A.parts }
        requires second { parts_of (λ p. p.second) desks ≡ B.parts }
        requires third { parts_of (λ p. p.third) desks ≡ C.parts }
        requires fourth { parts_of (λ p. p.fourth) desks ≡ D.parts }
        requires numbers { AreDistinct (map (λ d. d.number) desks) }
        ensures ok { IfOk result (λ journals. Agrees journals desks.entry) }
        ensures err { IfErr result (λ fail. FailsToClose desks.entry fail) }
    {
        let alloc = self.alloc;
        let (journals, mut books, servers) = self.open()?;
        drop(servers);
        compare(alloc, journals.as_slice(), desks.as_slice())?;
        books.audit(desks);
        Ok(journals)
    }

    /// The same, where what was told to a desk is compared in a thread of its own if one can be made, and so is what each shard's server held freed.
    pub fn close_by_desks<R: Threads + Sync>(
        self,
        rt: &R,
        desks: List<Desk<'a, A, B, C, D>>,
    ) -> Result<List<List<Row<'a>>>, CloseFail<'a>>
        requires first { parts_of (λ p. p.first) desks ≡ A.parts }
        requires second { parts_of (λ p. p.second) desks ≡ B.parts }
        requires third { parts_of (λ p. p.third) desks ≡ C.parts }
        requires fourth { parts_of (λ p. p.fourth) desks ≡ D.parts }
        requires numbers { AreDistinct (map (λ d. d.number) desks) }
        ensures ok { IfOk result (λ journals. Agrees journals desks.entry) }
        ensures err { IfErr result (λ fail. FailsToClose desks.entry fail) }
    {
        let alloc = self.alloc;
        let (journals, mut books, servers) = self.open()?;
        servers.free_by_threads(rt);
        compare_by_desks(rt, alloc, journals.as_slice(), desks.as_slice())?;
        books.audit(desks);
        Ok(journals)
    }

    // The journals of the shards, their books and their servers.
    fn open(self) -> Result<(List<List<Row<'a>>>, Books<A, B, C, D>, Servers), NoMemory>
        ensures kept { IfOk result (λ opened. AreKept opened.0) }
        ensures first { IfOk result (λ opened. opened.1.first.total ≡ length (rows_of opened.0 0)) }
        ensures second { IfOk result (λ opened. opened.1.second.total ≡ length (rows_of opened.0 1)) }
        ensures third { IfOk result (λ opened. opened.1.third.total ≡ length (rows_of opened.0 2)) }
        ensures fourth { IfOk result (λ opened. opened.1.fourth.total ≡ length (rows_of opened.0 3)) }
        ensures idle_parts { IfOk result (λ opened. (opened.1.idle.first.parts ≡ 0) × (opened.1.idle.second.parts ≡ 0) × (opened.1.idle.third.parts ≡ 0) × (opened.1.idle.fourth.parts ≡ 0)) }
        ensures idle_amounts { IfOk result (λ opened. (opened.1.idle.first.amount ≡ 0) × (opened.1.idle.second.amount ≡ 0) × (opened.1.idle.third.amount ≡ 0) × (opened.1.idle.fourth.amount ≡ 0)) }
    {
        let alloc = self.alloc;
        let (first, second, third, fourth) = self.into_shards();
        let (first, first_book, first_idle, first_server) = first.into_parts();
        let (second, second_book, second_idle, second_server) = second.into_parts();
        let (third, third_book, third_idle, third_server) = third.into_parts();
        let (fourth, fourth_book, fourth_idle, fourth_server) = fourth.into_parts();
        let books = Books {
            first: first_book,
            second: second_book,
            third: third_book,
            fourth: fourth_book,
            idle: Tallies {
                first: first_idle,
                second: second_idle,
                third: third_idle,
                fourth: fourth_idle,
            },
        };
        let servers = Servers {
            each: [
                Some(first_server),
                Some(second_server),
                Some(third_server),
                Some(fourth_server),
            ],
        };
        let journals = in_row(alloc, first, second, third, fourth)?;
        Ok((journals, books, servers))
    }
}

// The servers of the shards, whose journals were taken out of them.
struct Servers {
    each: [Option<Server>; 4],
}

// By hand, so that it is a call where a value is dropped, and not laid out there.
impl Drop for Servers {
    fn drop(self) {
        let Servers { each } = self;
        drop(each);
    }
}

impl Servers {
    // Frees what they hold, each in a thread of its own where one can be made.
    fn free_by_threads<R: Threads + Sync>(self, rt: &R) {
        journals_cross_threads();
        let Servers { mut each } = self;
        let free = |_: usize, server: &mut Option<Server>| drop(server.take());
        thread::for_each_mut(rt, each.as_mut_slice(), 4, &free);
        drop(each);
    }
}

// The four journals as a list.
fn in_row<'a>(
    alloc: Global,
    first: List<Row<'a>>,
    second: List<Row<'a>>,
    third: List<Row<'a>>,
    fourth: List<Row<'a>>,
) -> Result<List<List<Row<'a>>>, NoMemory>
    ensures four { IfOk result (λ all. all ≡ first.entry ∷ second.entry ∷ third.entry ∷ fourth.entry ∷ []) }
{
    let mut all = List::new(alloc);
    all.push(first)?;
    all.push(second)?;
    all.push(third)?;
    all.push(fourth)?;
    Ok(all)
}
