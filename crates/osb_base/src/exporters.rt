ghost use Rattle.std.specs.Prelude.{◌≡◌, ℕ, List, [], Option, Some, option_map, Err, IfOk};
ghost use Rattle.osb_base.specs.declared.exporters.Op.{Op};
ghost use Rattle.osb_base.specs.Faults.{HasCause};
ghost use Rattle.osb_base.specs.Calls.{no_calls, IsCall};
ghost use Rattle.osb_base.specs.Exports.{ExporterState, after_op};

use crate::failing::FailingCalls;
use crate::{Bytes, NoMemory, Text, WriteStop};
use std::alloc::Global;
use std::marker::Model;

/// One operation of an exporter.
#[derive(Debug, Drop, PartialEq, Eq)]
pub enum Op {
    Dir {
        path: Text,
        mode: u32,
        uid: u32,
        gid: u32,
    },
    File {
        path: Text,
        mode: u32,
        uid: u32,
        gid: u32,
        bytes: Bytes,
    },
    Link {
        path: Text,
        uid: u32,
        gid: u32,
        target: Text,
    },
    Finish {
        folder: Text,
        list: Bytes,
    },
}

/// Where trees are exported, one operation after another.
pub trait Exporter {
    /// The operations that were done, where it tells.
    ghost done: { Self → Option (List Op) };

    ghost export_faults: { Self → ℕ };

    fn dir(
        &mut self,
        alloc: Global,
        path: &str,
        mode: u32,
        uid: u32,
        gid: u32,
    ) -> Result<(), WriteStop>
        ensures done { done self.new ≡ option_map (after_op result (Op.Dir path.now mode uid gid)) (done self.old) }
        ensures cause { HasCause WriteStop.Failed (export_faults self.old) (export_faults self.new) result }
        ensures unmade { result ≡ Err WriteStop.NoMemory → export_faults self.new ≡ export_faults self.old };

    fn file(
        &mut self,
        alloc: Global,
        path: &str,
        mode: u32,
        uid: u32,
        gid: u32,
        bytes: &[u8],
    ) -> Result<(), WriteStop>
        ensures done { done self.new ≡ option_map (after_op result (Op.File path.now mode uid gid bytes.now)) (done self.old) }
        ensures cause { HasCause WriteStop.Failed (export_faults self.old) (export_faults self.new) result }
        ensures unmade { result ≡ Err WriteStop.NoMemory → export_faults self.new ≡ export_faults self.old };

    fn link(
        &mut self,
        alloc: Global,
        path: &str,
        uid: u32,
        gid: u32,
        target: &str,
    ) -> Result<(), WriteStop>
        ensures done { done self.new ≡ option_map (after_op result (Op.Link path.now uid gid target.now)) (done self.old) }
        ensures cause { HasCause WriteStop.Failed (export_faults self.old) (export_faults self.new) result }
        ensures unmade { result ≡ Err WriteStop.NoMemory → export_faults self.new ≡ export_faults self.old };

    /// Ends the export into a folder, with the list of what was exported.
    fn finish(&mut self, alloc: Global, folder: &str, list: &[u8]) -> Result<(), WriteStop>
        ensures done { done self.new ≡ option_map (after_op result (Op.Finish folder.now list.now)) (done self.old) }
        ensures cause { HasCause WriteStop.Failed (export_faults self.old) (export_faults self.new) result }
        ensures unmade { result ≡ Err WriteStop.NoMemory → export_faults self.new ≡ export_faults self.old };
}

fn dir_op(alloc: Global, path: &str, mode: u32, uid: u32, gid: u32) -> Result<Op, NoMemory>
    ensures { IfOk result (λ op. op ≡ Op.Dir path.now mode uid gid) }
{
    let path = Text::new(alloc, path)?;
    Ok(Op::Dir {
        path,
        mode,
        uid,
        gid,
    })
}

fn file_op(
    alloc: Global,
    path: &str,
    mode: u32,
    uid: u32,
    gid: u32,
    bytes: &[u8],
) -> Result<Op, NoMemory>
    ensures { IfOk result (λ op. op ≡ Op.File path.now mode uid gid bytes.now) }
{
    let path = Text::new(alloc, path)?;
    let bytes = Bytes::new(Vec::from_slice(alloc, bytes)?);
    Ok(Op::File {
        path,
        mode,
        uid,
        gid,
        bytes,
    })
}

fn link_op(alloc: Global, path: &str, uid: u32, gid: u32, target: &str) -> Result<Op, NoMemory>
    ensures { IfOk result (λ op. op ≡ Op.Link path.now uid gid target.now) }
{
    let path = Text::new(alloc, path)?;
    let target = Text::new(alloc, target)?;
    Ok(Op::Link {
        path,
        uid,
        gid,
        target,
    })
}

fn finish_op(alloc: Global, folder: &str, list: &[u8]) -> Result<Op, NoMemory>
    ensures { IfOk result (λ op. op ≡ Op.Finish folder.now list.now) }
{
    let folder = Text::new(alloc, folder)?;
    let list = Bytes::new(Vec::from_slice(alloc, list)?);
    Ok(Op::Finish { folder, list })
}

/// An exporter in memory, some of whose calls fail.
#[derive(Drop)]
pub struct MemExporter {
    done: Vec<Op>,
    calls: FailingCalls,
}

impl Model for MemExporter {
    ghost Value = { ExporterState };

    ghost view = { λ e. record { ops = e.done.items; calls = e.calls } };
}

impl MemExporter {
    /// An exporter that did nothing yet, of whose calls, counted from 1, those in `fail` fail.
    pub fn new(alloc: Global, fail: Vec<u64>) -> Self
        ensures state { result ≡ record { ops = []; calls = no_calls fail.items } }
    {
        MemExporter {
            done: Vec::new(alloc),
            calls: FailingCalls::new(fail),
        }
    }

    pub fn done(&self) -> &[Op]
        ensures ops { result.now ≡ self.now.ops }
    {
        &self.done
    }
}

impl Exporter for MemExporter {
    ghost done = { λ e. Some e.ops };

    ghost export_faults = { λ e. e.calls.faults };

    fn dir(
        &mut self,
        alloc: Global,
        path: &str,
        mode: u32,
        uid: u32,
        gid: u32,
    ) -> Result<(), WriteStop>
        ensures done { self.new.ops ≡ after_op result (Op.Dir path.now mode uid gid) self.old.ops }
        ensures cause { HasCause WriteStop.Failed self.old.calls.faults self.new.calls.faults result }
        ensures calls { IsCall WriteStop.Failed WriteStop.NoMemory self.old.calls self.new.calls result }
    {
        if self.calls.fails_next() {
            self.calls.count_fault();
            return Err(WriteStop::Failed);
        }
        self.done.push(dir_op(alloc, path, mode, uid, gid)?)?;
        self.calls.count_call();
        Ok(())
    }

    fn file(
        &mut self,
        alloc: Global,
        path: &str,
        mode: u32,
        uid: u32,
        gid: u32,
        bytes: &[u8],
    ) -> Result<(), WriteStop>
        ensures done { self.new.ops ≡ after_op result (Op.File path.now mode uid gid bytes.now) self.old.ops }
        ensures cause { HasCause WriteStop.Failed self.old.calls.faults self.new.calls.faults result }
        ensures calls { IsCall WriteStop.Failed WriteStop.NoMemory self.old.calls self.new.calls result }
    {
        if self.calls.fails_next() {
            self.calls.count_fault();
            return Err(WriteStop::Failed);
        }
        self.done
            .push(file_op(alloc, path, mode, uid, gid, bytes)?)?;
        self.calls.count_call();
        Ok(())
    }

    fn link(
        &mut self,
        alloc: Global,
        path: &str,
        uid: u32,
        gid: u32,
        target: &str,
    ) -> Result<(), WriteStop>
        ensures done { self.new.ops ≡ after_op result (Op.Link path.now uid gid target.now) self.old.ops }
        ensures cause { HasCause WriteStop.Failed self.old.calls.faults self.new.calls.faults result }
        ensures calls { IsCall WriteStop.Failed WriteStop.NoMemory self.old.calls self.new.calls result }
    {
        if self.calls.fails_next() {
            self.calls.count_fault();
            return Err(WriteStop::Failed);
        }
        self.done.push(link_op(alloc, path, uid, gid, target)?)?;
        self.calls.count_call();
        Ok(())
    }

    fn finish(&mut self, alloc: Global, folder: &str, list: &[u8]) -> Result<(), WriteStop>
        ensures done { self.new.ops ≡ after_op result (Op.Finish folder.now list.now) self.old.ops }
        ensures cause { HasCause WriteStop.Failed self.old.calls.faults self.new.calls.faults result }
        ensures calls { IsCall WriteStop.Failed WriteStop.NoMemory self.old.calls self.new.calls result }
    {
        if self.calls.fails_next() {
            self.calls.count_fault();
            return Err(WriteStop::Failed);
        }
        self.done.push(finish_op(alloc, folder, list)?)?;
        self.calls.count_call();
        Ok(())
    }
}

/// An exporter in memory that never fails.
#[derive(Drop)]
pub struct SureExporter {
    done: Vec<Op>,
}

impl Model for SureExporter {
    ghost use Rattle.std.specs.Prelude.{List};
    ghost use Rattle.osb_base.specs.declared.exporters.Op.{Op};

    ghost Value = { List Op };

    ghost view = { λ e. e.done.items };
}

impl SureExporter {
    pub fn new(alloc: Global) -> Self
        ensures unused { result ≡ [] }
    {
        SureExporter {
            done: Vec::new(alloc),
        }
    }
}

impl Exporter for SureExporter {
    ghost done = { λ e. Some e };

    ghost export_faults = { λ _. 0 };

    fn dir(
        &mut self,
        alloc: Global,
        path: &str,
        mode: u32,
        uid: u32,
        gid: u32,
    ) -> Result<(), WriteStop> {
        self.done.push(dir_op(alloc, path, mode, uid, gid)?)?;
        Ok(())
    }

    fn file(
        &mut self,
        alloc: Global,
        path: &str,
        mode: u32,
        uid: u32,
        gid: u32,
        bytes: &[u8],
    ) -> Result<(), WriteStop> {
        self.done
            .push(file_op(alloc, path, mode, uid, gid, bytes)?)?;
        Ok(())
    }

    fn link(
        &mut self,
        alloc: Global,
        path: &str,
        uid: u32,
        gid: u32,
        target: &str,
    ) -> Result<(), WriteStop> {
        self.done.push(link_op(alloc, path, uid, gid, target)?)?;
        Ok(())
    }

    fn finish(&mut self, alloc: Global, folder: &str, list: &[u8]) -> Result<(), WriteStop> {
        self.done.push(finish_op(alloc, folder, list)?)?;
        Ok(())
    }
}
