//! Tests of what no scenario can say: numbers beside others, a node and devices in memory, ballots that contend; readers and
//! writers that fail; stores in files that stop, fail or crash, and mirrors and devices over such disks.
#![tactic(auto)]

#[cfg(test)]
mod base;
#[cfg(test)]
mod cli;
#[cfg(test)]
mod devices;
#[cfg(test)]
mod disk_device;
#[cfg(test)]
mod files;
#[cfg(test)]
mod gap;
#[cfg(test)]
mod mirror;
