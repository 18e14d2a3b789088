// Which calls of the devices fail in a step.
use crate::format::{Device, Fails, Step};
use anyhow::Result;
use std::alloc::Global;

/// A call of a device that fails in the first step of a case.
#[derive(Clone, Copy, Drop)]
pub struct Fault {
    pub device: Device,
    pub number: u64,
    pub fill: u8,
    pub keep: u64,
}

/// The numbers of the calls that fail, how many calls of a store pass, and what a crash leaves,
/// where there is one.
#[derive(Drop)]
pub struct Faults {
    pub world: Vec<u64>,
    pub store: StoreFaults,
    pub spare: StoreFaults,
    pub second: StoreFaults,
    pub shared: Vec<u64>,
    pub output: Vec<u64>,
}

/// The same of one store. A crash leaves its fill, and so many bytes past the end.
#[derive(Drop)]
pub struct StoreFaults {
    pub fails: Vec<u64>,
    pub pass: u64,
    pub crash: Option<(u8, u64)>,
}

fn no_store_faults(alloc: Global) -> StoreFaults {
    StoreFaults {
        fails: Vec::new(alloc),
        pass: u64::MAX,
        crash: None,
    }
}

fn cut(faults: &mut StoreFaults, fault: Fault) {
    faults.pass = fault.number;
    faults.crash = Some((fault.fill, fault.keep));
}

fn told(alloc: Global, fails: Option<&Fails>) -> Result<Faults> {
    let mut faults = Faults {
        world: Vec::new(alloc),
        store: no_store_faults(alloc),
        spare: no_store_faults(alloc),
        second: no_store_faults(alloc),
        shared: Vec::new(alloc),
        output: Vec::new(alloc),
    };
    if let Some(fails) = fails {
        faults.world.extend_from_slice(fails.world.as_slice())?;
        faults
            .store
            .fails
            .extend_from_slice(fails.store.as_slice())?;
        faults
            .spare
            .fails
            .extend_from_slice(fails.spare.as_slice())?;
        faults
            .second
            .fails
            .extend_from_slice(fails.second.as_slice())?;
        faults.shared.extend_from_slice(fails.shared.as_slice())?;
        faults.output.extend_from_slice(fails.output.as_slice())?;
    }
    Ok(faults)
}

/// The faults of the step, with the one that is added to them.
pub fn faults_of(alloc: Global, step: &Step, fault: Option<Fault>) -> Result<Faults> {
    let mut faults = told(alloc, step.fails.as_ref())?;
    let Some(fault) = fault else {
        return Ok(faults);
    };
    match fault.device {
        Device::World => faults.world.push(fault.number)?,
        Device::Store => faults.store.fails.push(fault.number)?,
        Device::Spare => faults.spare.fails.push(fault.number)?,
        Device::Second => faults.second.fails.push(fault.number)?,
        Device::Shared => faults.shared.push(fault.number)?,
        Device::Output => faults.output.push(fault.number)?,
        Device::Cut => cut(&mut faults.store, fault),
        Device::CutSpare => cut(&mut faults.spare, fault),
        Device::CutSecond => cut(&mut faults.second, fault),
    }
    Ok(faults)
}
