ghost use Rattle.std.specs.Prelude.{◌<◌};

use crate::entries::{Entry, first_word};
use crate::mistakes::{CaseFault, Mistake};
use crate::puts::{Put, read_path};
use osb_base::NoMemory;
use osb_tree::{Bytes, Node, Path, Text};
use std::alloc::Global;

/// Numbers that look random and are the same in each run.
#[derive(Drop)]
struct Numbers {
    state: u64,
}

/// Adds as many puts as a line asks for, from a generator that begins at its seed.
pub fn add_random(alloc: Global, entry: &Entry, puts: &mut Vec<Put>) -> Result<(), CaseFault> {
    let (count, seed) = first_word(entry.value.as_str());
    let (Ok(count), Ok(seed)) = (count.parse::<u64>(), seed.parse::<u64>()) else {
        return Err(Mistake::NoNumber.at(entry.line));
    };
    let mut numbers = Numbers { state: seed };
    for _ in 0..count {
        puts.push(numbers.put(alloc, entry.line)?)?;
    }
    Ok(())
}

impl Numbers {
    fn below(&mut self, bound: u64) -> u64
        requires { 0 < bound }
        ensures { result < bound }
    {
        let state = self.state.wrapping_mul(6_364_136_223_846_793_005);
        self.state = state.wrapping_add(1_442_695_040_888_963_407);
        (self.state >> 33) % bound
    }

    fn put(&mut self, alloc: Global, line: usize) -> Result<Put, CaseFault> {
        let path = self.path(alloc, line)?;
        let node = self.node(alloc)?;
        let look_up = self.path(alloc, line)?;
        Ok(Put {
            line,
            path,
            node,
            look_up,
        })
    }

    fn path(&mut self, alloc: Global, line: usize) -> Result<Path, CaseFault> {
        let names = ["a", "b", "c", "a-b"];
        let mut text = String::from_str(alloc, "/")?;
        for _ in 0..self.below(5) {
            text.push_str(names[self.below(4) as usize])?;
            text.push('/')?;
        }
        read_path(alloc, text.as_str(), line)
    }

    fn node(&mut self, alloc: Global) -> Result<Node, NoMemory> {
        let mode = self.below(4096) as u32;
        let uid = self.below(1000) as u32;
        match self.below(4) {
            0..=1 => Ok(Node::Dir { mode, uid, gid: 0 }),
            2 => Ok(Node::File {
                mode,
                uid: 0,
                gid: 0,
                bytes: Bytes::new(vec![in alloc; 1u8; self.below(9) as usize]?),
            }),
            _ => Ok(Node::Link {
                uid,
                gid: 0,
                target: Text::new(alloc, "to")?,
            }),
        }
    }
}
