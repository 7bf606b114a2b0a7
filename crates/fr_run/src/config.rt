//! What a world starts from.
ghost use Rattle.std.specs.Prelude.{◌≡◌, ◌≤◌, length, None, Some, IfOk, OnOk, IfErr};
ghost use Rattle.fr_tags.specs.Shards.{shard_fault};
ghost use Rattle.fr_run.specs.ConfigLimits.{config_of, config_fault, IsWithin};

use crate::config_fault::ConfigFault;
use fr_base::{Bytes, Memory};
use fr_tags::{MAX_LOGS, ShardMap};
use std::marker::Model;

/// The most proxies of a generation.
const MAX_PROXIES: u8 = 16;

/// What a world starts from: its coordinators, the logs of the first generation and how many of them hold each tag,
/// the begins of its shards, and the proxies of a generation.
#[derive(Debug, Drop)]
pub struct Config {
    coordinators: u8,
    logs: u8,
    degree: u8,
    map: ShardMap,
    proxies: u8,
}

impl Model for Config {
    ghost use Rattle.fr_run.specs.Config as history;
    ghost use Rattle.fr_run.specs.ConfigLimits.{config_of, IsWithin};

    ghost Value = { history.Config };

    ghost view = { λ c. config_of c.coordinators c.logs c.degree c.map c.proxies };

    ghost invariant = { λ c. IsWithin (config_of c.coordinators c.logs c.degree c.map c.proxies) };
}

impl Config {
    /// The config of these numbers, or the first limit that they break. There are 1, 3, 5, 7 or 9 coordinators; there
    /// are 1 to 16 logs, with each tag on 1 to all of them; the begins make a shard map; there are 1 to 16 proxies.
    /// It takes no memory.
    pub fn new(
        coordinators: u8,
        logs: u8,
        degree: u8,
        shards: Vec<Bytes>,
        proxies: u8,
    ) -> Result<Self, ConfigFault>
        ensures ok { IfOk result (λ config. config ≡ config_of coordinators logs degree shards.items proxies) }
        ensures within { OnOk result (config_fault (config_of coordinators logs degree shards.items proxies) ≡ None) }
        ensures fault { IfErr result (λ fault. config_fault (config_of coordinators logs degree shards.items proxies) ≡ Some fault) }
    {
        if coordinators % 2 == 0 || coordinators > 9 {
            return Err(ConfigFault::Coordinators);
        }
        if degree == 0 || degree > logs || logs > MAX_LOGS {
            return Err(ConfigFault::Logs);
        }
        let Ok(map) = ShardMap::new(shards) else {
            return Err(ConfigFault::Shards);
        };
        if proxies == 0 || proxies > MAX_PROXIES {
            return Err(ConfigFault::Proxies);
        }
        Ok(Config {
            coordinators,
            logs,
            degree,
            map,
            proxies,
        })
    }

    /// How many coordinators there are.
    pub fn coordinators(&self) -> u8
        ensures value { result ≡ self.now.cells }
        ensures within { IsWithin self.now }
    {
        self.coordinators
    }

    /// How many logs the first generation has.
    pub fn logs(&self) -> u8
        ensures value { result ≡ self.now.m }
    {
        self.logs
    }

    /// On how many of its logs each tag is.
    pub fn degree(&self) -> u8
        ensures value { result ≡ self.now.k }
    {
        self.degree
    }

    /// How the keys are cut into shards, each with its storage server.
    pub fn map(&self) -> &ShardMap
        ensures value { result.now ≡ self.now.begins }
    {
        &self.map
    }

    /// How many proxies a generation has.
    pub fn proxies(&self) -> u8
        ensures value { result ≡ self.now.proxies }
    {
        self.proxies
    }

    /// An equal config.
    pub fn copy(&self) -> Result<Self, Memory>
        ensures equal { IfOk result (λ config. config ≡ self.now) }
    {
        Ok(Config {
            coordinators: self.coordinators,
            logs: self.logs,
            degree: self.degree,
            map: self.map.copy()?,
            proxies: self.proxies,
        })
    }
}
