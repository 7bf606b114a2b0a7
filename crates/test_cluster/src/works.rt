//! The workloads of a run: which batches each hands out is drawn or numbered before, and each waits for what its row says.
ghost use Rattle.std.specs.Prelude.{◌≡◌};

use crate::events::Events;
use crate::rows::{Event, Row};
use anyhow::bail;
use fr_base::{Memory, Step};
use fr_mutation::Batch;
use fr_proxy::Outcome;
use fr_runtime::{Order, Orders, Workload};
use fr_runtime_storm::DrawnOrders;
use std::alloc::Global;
use std::sync::Wait;

/// A workload that waits before some of its batches.
#[derive(Drop)]
pub(crate) struct Staged<'a, R> {
    row: &'a Row,
    events: &'a Events<'a, R>,
    /// The batches that it is to hand out, the last one first.
    ahead: Vec<Order>,
    given: Vec<Order>,
    heard: Vec<Outcome>,
    /// How many it handed out.
    count: u32,
}

impl<R: Wait> Staged<'_, R> {
    /// How many batches it handed out.
    pub(crate) fn given(&self) -> u32 {
        self.count
    }
}

impl<R: Wait> Workload for Staged<'_, R> {
    ghost given = { λ s. s.given.items };

    ghost heard = { λ s. s.heard.items };

    fn next(&mut self) -> Result<Option<(Step, Batch)>, Memory> {
        awaits(self.row, self.events, self.count);
        let Some(order) = self.ahead.pop() else {
            return Ok(None);
        };
        let step = order.step;
        let batch = order.batch.copy()?;
        self.given.reserve(1)?;
        self.given.push_reserved(order);
        self.count = self.count.saturating_add(1);
        Ok(Some((step, batch)))
    }

    fn told(&mut self, outcome: Outcome) -> Result<(), Memory> {
        self.heard.reserve(1)?;
        self.heard.push_reserved(outcome);
        Ok(())
    }
}

/// Waits for what the batch of this number waits for.
fn awaits<R: Wait>(row: &Row, events: &Events<'_, R>, number: u32) {
    events.raise(Event::Due(number));
    for &(before, event) in row.holds.iter() {
        if before == number {
            events.wait(Some(event));
        }
    }
}

/// The workloads of a row. In a storm their batches are drawn.
pub(crate) fn works<'a, R: Wait>(
    alloc: Global,
    row: &'a Row,
    events: &'a Events<'a, R>,
) -> anyhow::Result<Vec<Staged<'a, R>>> {
    let mut works = Vec::new(alloc);
    for number in 0..row.works {
        works.push(Staged {
            row,
            events,
            ahead: ahead(alloc, row, number)?,
            given: Vec::new(alloc),
            heard: Vec::new(alloc),
            count: 0,
        })?;
    }
    Ok(works)
}

/// The batches of the workload of this number, the last one first.
fn ahead(alloc: Global, row: &Row, number: u8) -> anyhow::Result<Vec<Order>> {
    let Some((seed, _)) = row.storm else {
        return all_of(
            alloc,
            Orders::new(alloc, number, row.storages, row.batches),
            row.batches,
        );
    };
    if row.storages == 0 || row.storages > 32 {
        bail!("no storage server, or too many");
    }
    let orders = DrawnOrders::new(alloc, seed, number, row.storages, row.batches);
    all_of(alloc, orders, row.batches)
}

/// The first batches of a workload, the last one first.
fn all_of<W: Workload + Drop>(alloc: Global, work: W, many: u32) -> anyhow::Result<Vec<Order>> {
    let (mut work, mut orders) = (work, Vec::new(alloc));
    for _ in 0..many {
        let Some((step, batch)) = work.next()? else {
            break;
        };
        orders.push(Order { step, batch })?;
    }
    orders.reverse();
    Ok(orders)
}
