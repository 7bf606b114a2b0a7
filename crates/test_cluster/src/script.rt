//! Faults that are written down, over those of a storm, which may be none; and what logs of such a run meet.
ghost use Rattle.std.specs.Prelude.{◌≡◌};

use crate::events::{Counts, Events, count};
use crate::rows::{Event, Kind, Row, Rule};
use fr_ask::Ask;
use fr_base::{Ballot, LogId, NodeId, Tag};
use fr_log::{LogAsk, Push};
use fr_runtime::{Blow, Chosen, Faults, NoFaults, Verdict};
use fr_runtime_storm::Storm;
use std::sync::Wait;

/// What happens in a run, as its row says.
#[derive(Drop)]
pub(crate) struct Script<'a, R> {
    pub(crate) row: &'a Row,
    pub(crate) events: &'a Events<'a, R>,
    pub(crate) counts: &'a Counts,
    pub(crate) storm: Storm,
    /// Whether recoverers begin at the first turn of their threads, and not as without faults.
    pub(crate) is_at_once: bool,
}

fn kind_of(ask: &LogAsk) -> Kind {
    match ask {
        LogAsk::Push(push) => {
            if push.marked().is_none() {
                Kind::Push
            } else {
                Kind::Mark
            }
        }
        LogAsk::Lock { .. } => Kind::Lock,
        LogAsk::Peek { .. } => Kind::Peek,
        LogAsk::MarkAsked { .. } => Kind::MarkAsked,
        _ => Kind::Other,
    }
}

/// Whether a rule is of such an ask to this log.
fn is_of(rule: &Rule, kind: Kind, epoch: u64, index: u8) -> bool {
    let is_to = rule.epoch.unwrap_or(epoch) == epoch && rule.index.unwrap_or(index) == index;
    is_to && rule.ask == kind
}

impl<R: Wait> Script<'_, R> {
    /// What happens to an ask of a log by a rule, if there is one.
    fn ruled(&self, epoch: u64, index: u8, ask: &LogAsk) -> Option<Verdict> {
        self.feed(epoch, index, ask);
        let kind = kind_of(ask);
        let mut rules = self.row.rules.iter().copied();
        let rule = rules.find(|rule| is_of(rule, kind, epoch, index))?;
        if self.events.has(rule.once) {
            self.events.wait(rule.waits);
        }
        Some(rule.befalls.verdict())
    }

    /// A peek waits for the next version.
    fn feed(&self, epoch: u64, index: u8, ask: &LogAsk) {
        if let LogAsk::Peek { after, .. } = ask {
            let next = after.get().saturating_add(1).max(2);
            if epoch == 257 && next <= self.row.fed {
                self.events.wait(Some(Event::Holds(index, next)));
            }
        }
    }

    /// A log answered an ask.
    fn happens(&self, epoch: u64, index: u8, ask: &LogAsk) {
        match ask {
            LogAsk::Push(push) => self.pushed(epoch, index, push),
            LogAsk::Pop { .. } => self.events.raise(Event::Popped(epoch)),
            LogAsk::Peek { .. } => {
                if epoch == 257 {
                    self.events.raise(Event::Peeked(index));
                    self.events.raise(Event::AnyPeeked);
                }
            }
            _ => {}
        }
    }

    fn pushed(&self, epoch: u64, index: u8, push: &Push) {
        self.events.raise_all_pushed();
        if push.marked().is_some() {
            self.events.raise(Event::Marked(epoch));
        } else if epoch == 257 {
            self.events.raise(Event::Holds(index, push.version().get()));
            if index == 0 {
                self.events.raise_pushed();
            }
        }
    }

    /// A log serves an ask. If logs are to meet, the first push of a batch to log (257, 0) waits for the first peek at
    /// log (257, 1), and that for the push.
    pub(crate) fn serves(&self, log: LogId, ask: &LogAsk) {
        if !self.row.meets || log.epoch.get() != 257 {
            return;
        }
        match (kind_of(ask), log.index) {
            (Kind::Push, 0) => self.meet(Event::ServesPush, Event::ServesPeek),
            (Kind::Peek, 1) => self.meet(Event::ServesPeek, Event::ServesPush),
            _ => {}
        }
    }

    /// The first time: says that the one ask is served, and waits for the other.
    fn meet(&self, own: Event, other: Event) {
        if self.events.has(Some(own)) {
            return;
        }
        self.events.raise(own);
        if self.events.wait(Some(other)) {
            count(&self.counts.met);
        }
    }

    /// A log is opened again.
    pub(crate) fn reopens(&self, log: LogId) {
        if log.epoch.get() == 257 && log.index == 0 {
            count(&self.counts.reopened);
        }
    }

    /// A log is made.
    pub(crate) fn makes(&self, epoch: u64, m: u8, k: u8) {
        count(if self.wants(epoch, m, k) {
            &self.counts.as_wanted
        } else {
            &self.counts.otherwise
        });
    }

    /// Whether a log of an epoch may be made with these numbers now: of a later epoch once what its recoverer waits for
    /// has happened.
    fn wants(&self, epoch: u64, m: u8, k: u8) -> bool {
        let first = (self.row.logs, self.row.degree);
        if epoch == 257 {
            return first == (m, k);
        }
        let mut recoveries = self.row.recoveries.iter().copied();
        let Some(recovery) = recoveries.find(|each| each.ballot == epoch) else {
            return false;
        };
        self.events.has(recovery.waits) && recovery.shape.unwrap_or(first) == (m, k)
    }

    /// Log (257, 0) is lost at the first turn, which waits for an event. From the next one on others know it.
    fn loses(&self, turn: u32, event: Event, log: LogId) -> Option<Blow> {
        if turn > 1 {
            self.events.raise(Event::Lost);
            return None;
        }
        self.events.wait(Some(event));
        Some(Blow::Lose { log })
    }
}

impl<R: Wait> Faults for Script<'_, R> {
    ghost use Rattle.std.specs.Prelude.{◌≡◌, ◌+◌, ◌*◌, ◌/◌, ◌==◌, cond};

    ghost begun = { λ s ballot turn. cond s.is_at_once (turn == 1) (turn + 100 == 100 * (ballot / 256)) };

    fn verdict(&self, to: NodeId, ask: &Ask) -> Verdict {
        let ruled = match (&to, ask) {
            (NodeId::Log { epoch, index }, Ask::Log(ask)) => self.ruled(epoch.get(), *index, ask),
            _ => None,
        };
        match ruled {
            Some(verdict) => verdict,
            None => self.storm.verdict(to, ask),
        }
    }

    fn answered(&self, to: NodeId, ask: &Ask) {
        if let (NodeId::Log { epoch, index }, Ask::Log(ask)) = (&to, ask) {
            self.happens(epoch.get(), *index, ask);
        }
    }

    fn strikes(&self, turn: u32, chosen: &[Chosen]) -> Option<Blow> {
        let (epoch, index) = (chosen.first()?.generation.epoch(), 0);
        match (self.row.crash, self.row.lose) {
            (Some(at), _) => (at == turn).then_some(Blow::Crash {
                node: NodeId::Log { epoch, index },
            }),
            (_, Some(event)) => self.loses(turn, event, LogId { epoch, index }),
            _ => self.storm.strikes(turn, chosen),
        }
    }

    fn ends(&self, node: NodeId, turn: u32) -> bool {
        self.storm.ends(node, turn)
    }

    fn begins(&self, ballot: Ballot, turn: u32) -> bool {
        for recovery in self.row.recoveries.iter() {
            if recovery.ballot == ballot.get() {
                self.events.wait(recovery.waits);
            }
        }
        if self.is_at_once {
            turn == 1
        } else {
            NoFaults.begins(ballot, turn)
        }
    }

    fn pulled(&self, _tag: Tag, turn: u32) {
        if let Some((at, event)) = self.row.pulled {
            if at == turn {
                self.events.wait(Some(event));
            }
        }
    }
}
