//! Logs over devices.
ghost use Rattle.std.specs.Prelude.{◌≡◌, ◌≢◌, ◌⊎◌, ◌||◌, ◌↔◌, ◌<◌, ◌≤◌, ◌+◌, ◌-◌, ◌^◌, ◌++◌, min, [], List, ℕ, None, Some, Err, IsOk, IfOk, OnOk, OnErr, IfErr, IsTrue, false};
ghost use Rattle.fr_base.specs.Faults.{met_device};
ghost use Rattle.fr_log.specs.LogState.{fresh_log};
ghost use Rattle.fr_log.specs.Step.{answer_of, after_ask};
ghost use Rattle.fr_record.specs.Moments.{Throughout};
ghost use Rattle.fr_record.specs.Moments as moments;
ghost use Rattle.fr_record.specs.File.{StandsFor};
ghost use Rattle.fr_record.specs.Failing.{FailsOnceMore};
ghost use Rattle.fr_record.specs.Opening.{IsOpening, HasGone};
ghost use Rattle.fr_record_node.specs.Several.{told_all};
ghost use Rattle.fr_record_node.specs.Node.{HasNoRoom, is_trouble};
ghost use Rattle.fr_record_node.specs.Replay.{replayed, Opens};
ghost use Rattle.fr_record_log.specs.LogFile.{fresh_of, replay_log};
ghost use Rattle.fr_record_log.specs.Law.{after_all, written_all};
ghost use Rattle.fr_record_log.specs.Spelling.{written_log};

use crate::log_file::FileLog;
use fr_base::{LogId, Machine, Node, NodeFault, Reopened};
use fr_log::{Log, LogAsk, LogTell};
use fr_record::Device;
use fr_record_node::FileNode;
use fr_tags::MAX_LOGS;
use std::alloc::Global;
use std::marker::Model;

/// A log whose seed, pushes and lock outlast every crash: an ask is answered only once its records are on
/// the device, and one that changes nothing makes no call of it. A push costs its own length, reading the
/// log back the length of its file. Contracts see the device, the records of its file, and the log.
#[derive(Drop)]
pub struct LogNode<D: Device> {
    node: FileNode<FileLog, D>,
}

impl<D: Device> Model for LogNode<D> {
    ghost use Rattle.fr_log.specs.LogState.{LogState};
    ghost use Rattle.fr_record_node.specs.Node.{NodeState};

    ghost Value = { NodeState D LogState };

    ghost view = { λ n. n.node };
}

impl<D: Device> LogNode<D> {
    /// A log that was never asked, of a generation of `m` logs on `k` of which each tag is, over a
    /// device that it is the only one to use.
    pub fn format(alloc: Global, device: D, id: LogId, m: u8, k: u8) -> Result<Self, NodeFault>
        requires some { 1 ≤ k }
        requires fits { k ≤ m }
        requires limit { m ≤ MAX_LOGS }
        requires place { id.index < m }
        ensures log { IfOk result (λ node. node.machine ≡ fresh_log id.epoch id.index m k) }
        ensures records { IfOk result (λ node. node.records ≡ []) }
        ensures works { IfOk result (λ node. node.is_failed ≡ false) }
        ensures free { IfOk result (λ node. node.owed ≡ None) }
        ensures kept { IfOk result (λ node. Throughout D.Led D.disk (Opens replay_log (fresh_of node.machine) (λ x. x
            ≡ node.machine)) node.device node.device) }
        ensures capacity { IfOk result (λ node. D.capacity_of node.device ≡ D.capacity_of device) }
        ensures full { (result ≡ Err NodeFault.Full) ↔ (D.capacity_of device < 1) }
        ensures only_device { IfErr result (λ fault. (fault ≡ NodeFault.Device) ⊎ (fault ≡ NodeFault.Full)) }
        ensures device { (result ≡ Err NodeFault.Device) → FailsOnceMore D.failures_of device }
    {
        let log = FileLog::fresh(alloc, id, m, k);
        match FileNode::format(alloc, device, log) {
            Ok(node) => Ok(LogNode { node }),
            Err(fault) => Err(fault),
        }
    }

    /// The log whose file a device holds, whatever a crash made of it. `Broken` if the device holds no record file, or
    /// one of records that no run of a log of this id, `m` and `k` writes. A refusal drops the device. The clause
    /// `gone` says what a crash may then have left, of a device to which the calls led.
    pub fn open(alloc: Global, device: D, id: LogId, m: u8, k: u8) -> Result<Self, NodeFault>
        requires some { 1 ≤ k }
        requires fits { k ≤ m }
        requires limit { m ≤ MAX_LOGS }
        requires place { id.index < m }
        ensures records { IfOk result (λ node. StandsFor (D.disk device).content node.records) }
        ensures replays { IfOk result (λ node. replayed replay_log (Some (fresh_log id.epoch id.index m k)) node.records ≡ Some node.machine) }
        ensures works { IfOk result (λ node. node.is_failed ≡ false) }
        ensures free { IfOk result (λ node. node.owed ≡ None) }
        ensures any_moment { IfOk result (λ node. IsOpening D.Led D.disk device node.device) }
        ensures gone { OnErr result (HasGone D.Led D.disk (met_device result) device) }
        ensures kept { IfOk result (λ node. Throughout D.Led D.disk (Opens replay_log (fresh_of node.machine) (λ x. x
            ≡ node.machine)) node.device node.device) }
        ensures capacity { IfOk result (λ node. D.capacity_of node.device ≡ D.capacity_of device) }
        ensures broken { (result ≡ Err NodeFault.Broken) → (records : List (List ℕ))
            → StandsFor (D.disk device).content records
            → replayed replay_log (Some (fresh_log id.epoch id.index m k)) records ≡ None }
        ensures device { (result ≡ Err NodeFault.Device) → FailsOnceMore D.failures_of device }
        ensures never_full { result ≢ Err NodeFault.Full }
        ensures never_failed { result ≢ Err NodeFault.Failed }
    {
        // The caller says which log it wants: a file that names another one is `Broken`, and not opened as what it is
        // (invariant 7).
        let log = FileLog::fresh(alloc, id, m, k);
        match FileNode::open(alloc, device, log) {
            Ok(node) => Ok(LogNode { node }),
            Err(fault) => Err(fault),
        }
    }

    /// Answers asks in order as the log does, with all their records in one group: two syncs, however many they are.
    /// After a crash all of the group is there, or nothing; after a fault of the device `reopen` says which. If no ask
    /// changes anything, as in an empty list, no call of the device is made. The file has the bytes that it would have
    /// had the asks been served apart. Memory holds the records of all asks at once, and a copy of each ask.
    pub fn serve_all(&mut self, alloc: Global, asks: Vec<LogAsk>) -> Result<Vec<LogTell>, NodeFault>
        ensures told { IfOk result (λ tells. tells.items ≡ told_all after_ask answer_of self.old.machine asks.items) }
        ensures after { OnOk result (self.new.machine ≡ after_all self.old.machine asks.items) }
        ensures records { OnOk result (self.new.records ≡ self.old.records ++ written_all self.old.machine asks.items) }
        ensures still { written_all self.old.machine asks.items ≡ [] → self.new.device ≡ self.old.device }
        ensures none { asks.items ≡ [] → self.old.is_failed ≡ false → IsOk result × (self.new ≡ self.old) }
        ensures err { OnErr result (self.new.machine ≡ self.old.machine) }
        ensures err_records { OnErr result (self.new.records ≡ self.old.records) }
        ensures failed { (result ≡ Err NodeFault.Failed) ↔ IsTrue self.old.is_failed }
        ensures fails { self.new.is_failed ≡ (self.old.is_failed || met_device result) }
        ensures device { (result ≡ Err NodeFault.Device) → D.failures_of self.new.device ≡ min (D.failures_of self.old.device + 1) (2 ^ 64 - 1) }
        ensures full { (result ≡ Err NodeFault.Full)
            → HasNoRoom (D.capacity_of self.old.device) self.old.records (written_all self.old.machine asks.items) }
        ensures owes { (result ≡ Err NodeFault.Device) → self.new.owed ≡ Some (after_all self.old.machine asks.items) }
        ensures owes_still { result ≢ Err NodeFault.Device → self.new.owed ≡ self.old.owed }
        ensures capacity { D.capacity_of self.new.device ≡ D.capacity_of self.old.device }
        ensures trouble { IfErr result (λ fault. fault ≢ NodeFault.Failed → IsTrue (is_trouble fault)) }
        ensures any_moment { self.old.is_failed ≡ false
            → Throughout D.Led D.disk (Opens replay_log (fresh_of self.old.machine) (λ x. (x ≡ self.old.machine)
            ⊎ (x ≡ after_all self.old.machine asks.items))) self.old.device self.new.device }
        ensures kept { OnOk result (Throughout D.Led D.disk (Opens replay_log (fresh_of self.new.machine) (λ x. x
            ≡ self.new.machine)) self.new.device self.new.device) }
    {
        // One group for all of them, so that a crash leaves all or none: a part of the list would be a state that no
        // reply describes (invariant 4).
        self.node.serve_all(alloc, asks)
    }

    /// The device below, failed or not, as the node's calls left it.
    pub fn into_device(self) -> D
        ensures { result ≡ self.device }
    {
        self.node.into_device()
    }
}

impl<D: Device> Node for LogNode<D> {
    ghost use Rattle.std.specs.Prelude.{IsTrue};
    ghost use Rattle.fr_record.specs.Moments as moments;
    ghost use Rattle.fr_record_node.specs.Replay.{Opens};
    ghost use Rattle.fr_record_node.specs.Node.{HasNoRoom, is_trouble};
    ghost use Rattle.fr_record_log.specs.Spelling.{written_log};
    ghost use Rattle.fr_record_log.specs.LogFile.{fresh_of, replay_log};

    type Plain = Log;

    ghost state = { λ n. n.machine };

    ghost is_failed = { λ n. n.is_failed };

    ghost owed = { λ n. n.owed };

    ghost failures = { λ n. D.failures_of n.device };

    ghost LacksRoom = { λ n ask. HasNoRoom (D.capacity_of n.device) n.records (written_log n.machine ask) };

    ghost Throughout = { λ P n later. moments.Throughout D.Led D.disk (Opens replay_log (fresh_of n.machine) P) n.device later.device };

    ghost CanMeet = { λ fault. IsTrue (is_trouble fault) };

    fn serve(&mut self, alloc: Global, ask: LogAsk) -> Result<LogTell, NodeFault>
        ensures told { IfOk result (λ tell. tell ≡ answer_of self.old.machine ask) }
        ensures after { OnOk result (self.new.machine ≡ after_ask self.old.machine ask) }
        ensures records { OnOk result (self.new.records ≡ self.old.records ++ written_log self.old.machine ask) }
        ensures still { written_log self.old.machine ask ≡ [] → self.new.device ≡ self.old.device }
        ensures err { OnErr result (self.new.machine ≡ self.old.machine) }
        ensures err_records { OnErr result (self.new.records ≡ self.old.records) }
        ensures failed { (result ≡ Err NodeFault.Failed) ↔ IsTrue self.old.is_failed }
        ensures fails { self.new.is_failed ≡ (self.old.is_failed || met_device result) }
        ensures device { (result ≡ Err NodeFault.Device) → D.failures_of self.new.device ≡ min (D.failures_of self.old.device + 1) (2 ^ 64 - 1) }
        ensures full { (result ≡ Err NodeFault.Full)
            → HasNoRoom (D.capacity_of self.old.device) self.old.records (written_log self.old.machine ask) }
        ensures owes { (result ≡ Err NodeFault.Device) → self.new.owed ≡ Some (after_ask self.old.machine ask) }
        ensures owes_still { result ≢ Err NodeFault.Device → self.new.owed ≡ self.old.owed }
        ensures capacity { D.capacity_of self.new.device ≡ D.capacity_of self.old.device }
        ensures trouble { IfErr result (λ fault. fault ≢ NodeFault.Failed → IsTrue (is_trouble fault)) }
        ensures any_moment { self.old.is_failed ≡ false
            → moments.Throughout D.Led D.disk (Opens replay_log (fresh_of self.old.machine) (λ x. (x ≡ self.old.machine)
            ⊎ (x ≡ after_ask self.old.machine ask))) self.old.device self.new.device }
        ensures kept { OnOk result (moments.Throughout D.Led D.disk (Opens replay_log (fresh_of self.new.machine) (λ x. x
            ≡ self.new.machine)) self.new.device self.new.device) }
    {
        // A list of one request, so there is one order of calls: records, device, then the reply (invariant 4).
        self.node.serve(alloc, ask)
    }

    fn reopen(&mut self, alloc: Global) -> Result<Reopened, NodeFault> {
        self.node.reopen(alloc)
    }

    fn plain(&self) -> &Log {
        self.node.plain().log()
    }
}
