// Which nodes, links and edges there are.
ghost use Rattle.std.specs.Prelude.{◌≡◌, ◌≤◌, ◌<◌, IfOk};
ghost use Rattle.std.specs.List.{All, range_with_len};
ghost use Rattle.mn_gen.specs.Shape.{node_count, after, half, edge_count, edges};

use std::alloc::{AllocError, Global};

/// How many nodes there are.
pub(crate) fn node_count(number: u32) -> u32
    requires { number ≤ 99 }
    ensures { result ≡ node_count number }
{
    8 + number
}

/// The next node of the ring.
pub(crate) fn after(number: u32, node: u32) -> u64
    requires { number ≤ 99 }
    ensures { result ≡ after number node }
{
    (u64::from(node) + 1) % u64::from(node_count(number))
}

/// Half a ring.
pub(crate) fn half(number: u32) -> u32
    requires { number ≤ 99 }
    ensures { result ≡ half number }
{
    node_count(number) / 2
}

/// How many edges there are.
pub(crate) fn edge_count(number: u32) -> u32
    requires { number ≤ 99 }
    ensures { result ≡ edge_count number }
{
    (node_count(number) + 3) / 4
}

/// The numbers below a number, in order.
#[tactic(auto, using(crate::proofs::Ranges::one_more))]
pub(crate) fn below(alloc: Global, count: u32) -> Result<Vec<u32>, AllocError>
    ensures { IfOk result (λ numbers. numbers.items ≡ range_with_len 0 count) }
{
    let mut numbers = Vec::new(alloc);
    for k in 0..count {
        numbers.push(k)?;
    }
    Ok(numbers)
}

/// The edges, in order.
#[tactic(auto, using(crate::proofs::Ranges::one_edge_more))]
pub(crate) fn edges(alloc: Global, number: u32) -> Result<Vec<u32>, AllocError>
    requires { number ≤ 99 }
    ensures edges { IfOk result (λ all. all.items ≡ edges number) }
    ensures small { IfOk result (λ all. All (λ edge. edge < 256) all.items) }
{
    let mut all = Vec::new(alloc);
    for k in 0..edge_count(number) {
        all.push(4 * k)?;
    }
    Ok(all)
}
