use crate::traffic::Traffic;
use lab_disk::Disk;
use lab_logs::Logs;
use lab_model::Reply;
use lab_target::Target;
use std::marker::Model;

/// A memory disk: N of `/dev/ramN`, and its sectors.
#[derive(Drop)]
pub struct RamDisk {
    pub number: u32,
    pub disk: Disk,
}

impl Model for RamDisk {
    ghost use Rattle.lab_model.specs.State.{Disk as Ram};

    ghost Value = { Ram };

    ghost view = { λ ram. record { number = ram.number; sectors = ram.disk } };
}

/// Where a run stands.
#[derive(Drop)]
pub struct State<T: Target> {
    /// The bios, with what they wait for: the clock and the mapped devices.
    pub traffic: Traffic<T>,
    pub disks: Vec<RamDisk>,
    pub logs: Logs,
    /// Whether the logs have started.
    pub started: bool,
    /// The micro-commands that are done.
    pub done: usize,
    /// The script's moment, in microseconds.
    pub moment: u64,
    /// What commands told.
    pub replies: Vec<Reply>,
}

impl<T: Target> Model for State<T> {
    ghost use Rattle.lab_model.specs.State.{State as Stands};

    ghost Value = { Stands T };

    ghost view = { λ state. record {
      clock = state.traffic.clock;
      bios = state.traffic.bios;
      devices = state.traffic.devices;
      disks = state.disks.items;
      logs = state.logs;
      started = state.started;
      done = state.done;
      moment = state.moment;
      replies = state.replies.items;
    } };
}
