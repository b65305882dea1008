ghost use Rattle.std.specs.Prelude.{◌≡◌, ◌↔◌, ◌+◌, ◌^◌, ◌<◌, ◌≤◌, IfOk, filter, map};
ghost use Rattle.osb_evict.specs.Victims.{is_pinned, is_unpinned, sizes, pinned_sizes, AreApart, IsQueue, IsShortestFront, IsFull, IsFront, IfTaken};

use crate::{Line, Victims};
use osb_base::{Key, List, NoMemory};
use std::alloc::Global;

fn total_size(lines: &[Line]) -> u64
    requires { sizes lines.now < 2 ^ 64 }
    ensures { result ≡ sizes lines.now }
{
    lines.iter().map(|line| line.size).sum()
}

fn pinned_size(lines: &[Line]) -> u64
    requires { sizes lines.now < 2 ^ 64 }
    ensures { result ≡ pinned_sizes lines.now }
{
    lines
        .iter()
        .filter(|line| line.pins != 0)
        .map(|line| line.size)
        .sum()
}

fn unpinned(alloc: Global, lines: &[Line]) -> Result<Vec<Line>, NoMemory>
    ensures { IfOk result (λ left. left.items ≡ filter is_unpinned lines.now) }
{
    lines
        .iter()
        .filter(|line| line.pins == 0)
        .copied()
        .collect(alloc)
}

/// The unpinned lines, first the one that was used first.
fn queue(alloc: Global, lines: &[Line]) -> Result<Vec<Line>, NoMemory>
    requires { AreApart lines.now }
    ensures queue { IfOk result (λ queue. IsQueue lines.now queue.items) }
    ensures sizes { IfOk result (λ queue. sizes queue.items + pinned_sizes lines.now ≡ sizes lines.now) }
{
    let mut queue = unpinned(alloc, lines)?;
    queue.sort_by_key(|line| line.used)?;
    Ok(queue)
}

/// How many lines of the queue's front have to leave.
fn front_len(queue: &[Line], total: u64, limit: u64) -> usize
    requires enough { total ≤ limit + sizes queue.now }
    requires sizes { sizes queue.now ≤ total }
    ensures { IsShortestFront total limit queue.now result }
{
    let mut left = total;
    for (i, line) in queue.iter().enumerate() {
        if left <= limit {
            return i;
        }
        left -= line.size;
    }
    queue.len()
}

fn keys(alloc: Global, lines: &[Line]) -> Result<Vec<Key>, NoMemory>
    ensures { IfOk result (λ keys. keys.items ≡ map (λ line. line.key) lines.now) }
{
    lines.iter().map(|line| line.key).collect(alloc)
}

/// Which lines leave so that beside what is held there is room for what is needed.
#[tactic(auto, using(crate::proofs::Queues::pinned_within))]
pub fn victims(
    alloc: Global,
    lines: &[Line],
    held: u64,
    need: u64,
    limit: u64,
) -> Result<Victims, NoMemory>
    requires small { sizes lines.now + held + need ≤ 2 ^ 63 }
    requires apart { AreApart lines.now }
    ensures full { IfOk result
        (λ victims. IsFull victims ↔ (limit < pinned_sizes lines.now + held + need)) }
    ensures taken { IfOk result
        (λ victims. IfTaken victims (IsFront lines.now (sizes lines.now + held + need) limit)) }
{
    if pinned_size(lines) + held + need > limit {
        return Ok(Victims::Full);
    }
    let queue = queue(alloc, lines)?;
    let count = front_len(&queue, total_size(lines) + held + need, limit);
    Ok(Victims::Take(List::new(keys(alloc, &queue[..count])?)))
}
