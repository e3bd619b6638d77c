//! Where the nodes of each path are kept.
ghost use Rattle.std.specs.Prelude.{◌≡◌, ◌<◌, ◌≤◌, ◌-◌, ◌+◌, ◌*◌, ◌/◌, ◌^◌, min, [], ◌∷◌, ◌++◌, length, take, slice_index_or, slice_set, vec_len, IfOk, IsOk, OnOk, OnErr};
ghost use Rattle.std.specs.Vec.{vec_capacity};
ghost use Rattle.mn_paths.specs.Visits.{path_of, further};
ghost use Rattle.mn_paths.specs.Whole.{IsWhole, visits_in};

use mn_base::NodeNo;
use std::alloc::{AllocError, Global};

// So many nodes of a path are kept beside it.
const NEAR: usize = 6;

/// Room for so many more. Where little of the room that is there was written to, that alone is copied.
fn make_room(list: &mut Vec<NodeNo>, more: usize) -> Result<(), AllocError>
    ensures items { list.new.items ≡ list.old.items }
    ensures len { vec_len list.new ≡ vec_len list.old }
    ensures room { OnOk result (vec_len list.new + more ≤ vec_capacity list.new) }
    ensures capacity { vec_capacity list.old ≤ vec_capacity list.new }

    // Where there is room nothing is done, and only for want of it anything fails.
    ensures enough { vec_len list.old + more ≤ vec_capacity list.old → IsOk result × (list.new ≡ list.old) }
    ensures full { OnErr result (vec_capacity list.old < vec_len list.old + more) }
    ensures err { OnErr result (vec_capacity list.new ≡ vec_capacity list.old) }

    // Where all has to be copied, there is room for as much again.
    ensures twice { OnOk result (vec_capacity list.old < vec_len list.old + more → vec_len list.old ≤ vec_capacity list.old / 8 →
        min (2 * (vec_len list.old + more)) (2 ^ 64 - 1) ≤ vec_capacity list.new) }
{
    let Some(needed) = list.len().checked_add(more) else {
        return Err(AllocError);
    };
    if needed <= list.capacity() {
        return Ok(());
    }
    if list.len() > list.capacity() / 8 {
        return list.reserve(more);
    }
    let mut roomy = Vec::with_capacity(*list.allocator(), needed.saturating_mul(2))?;
    roomy.extend_from_slice(list)?;
    *list = roomy;
    Ok(())
}

/// Where the nodes of one path are: beside it, as long as there are few, and else from `start` on among the far ones.
#[derive(Clone, Copy)]
pub struct Path {
    pub(crate) near: [NodeNo; NEAR],
    pub(crate) start: u32,
    pub(crate) len: u16,
    // How many nodes it may come to have.
    pub(crate) most: u16,
}

impl Path {
    /// The path of one node, with room for so many more.
    fn first(node: NodeNo, room: u8) -> Path
        ensures near { length result.near ≡ 6 }
        ensures node { take 1 result.near ≡ node ∷ [] }
        ensures len { result.len ≡ 1 }
        ensures most { result.most ≡ room + 1 }
    {
        Path {
            near: [node; NEAR],
            start: 0,
            len: 1,
            most: u16::from(room) + 1,
        }
    }
}

/// The paths, and the nodes of those that have many.
#[derive(Drop)]
pub struct Table {
    pub(crate) paths: Vec<Path>,
    pub(crate) far: Vec<NodeNo>,
    // So much room is kept for the paths that may still move there.
    pub(crate) owed: usize,
}

impl Table {
    /// No path.
    pub fn new(alloc: Global) -> Table
        ensures whole { IsWhole result }
        ensures visits { visits_in result ≡ [] }
    {
        Table {
            paths: Vec::new(alloc),
            far: Vec::new(alloc),
            owed: 0,
        }
    }

    /// One more path, of a node and with room for so many more.
    pub fn start(&mut self, node: NodeNo, room: u8) -> Result<(), AllocError>
        requires { IsWhole self.old }
        ensures whole { IsWhole self.new }
        ensures ok { OnOk result (visits_in self.new ≡ visits_in self.old ++ record { nodes = node ∷ []; room = room } ∷ []) }
        ensures err { OnErr result (visits_in self.new ≡ visits_in self.old) }
    {
        let path = Path::first(node, room);
        let owed = self.owed + usize::from(path.most);
        // A place among the far nodes has 32 bits.
        if self.far.len() + owed > u32::MAX as usize {
            return Err(AllocError);
        }
        self.paths.reserve(1)?;
        make_room(&mut self.far, owed)?;
        self.owed = owed;
        self.paths.push_reserved(path);
        Ok(())
    }

    /// One node more beside the path.
    fn visit_near(&mut self, packet: u32, node: NodeNo)
        requires whole { IsWhole self.old }
        requires packet { packet < length self.old.paths.items }
        requires room { 0 < (path_of (visits_in self.old) packet).room }
        requires near { (d : _) → (slice_index_or self.old.paths.items packet d).len < 6 }
        ensures whole { IsWhole self.new }
        ensures visits { visits_in self.new ≡ slice_set (visits_in self.old) packet (further (path_of (visits_in self.old) packet) node) }
    {
        let path = &mut self.paths[packet as usize];
        path.near[path.len as usize] = node;
        path.len += 1;
    }

    /// The nodes that stand beside the path move, with one more and all the room that is kept for them.
    fn move_far(&mut self, packet: u32, node: NodeNo)
        requires whole { IsWhole self.old }
        requires packet { packet < length self.old.paths.items }
        requires room { 0 < (path_of (visits_in self.old) packet).room }
        requires full { (d : _) → (slice_index_or self.old.paths.items packet d).len ≡ 6 }
        ensures whole { IsWhole self.new }
        ensures visits { visits_in self.new ≡ slice_set (visits_in self.old) packet (further (path_of (visits_in self.old) packet) node) }
    {
        let start = self.far.len();
        let path = &mut self.paths[packet as usize];
        let most = usize::from(path.most);
        // There is room, so neither can fail.
        let _ = self.far.extend_from_slice(&path.near);
        let _ = self.far.resize(start + most, node);
        self.owed -= most;
        path.start = start as u32;
        path.len += 1;
    }

    /// One node more among the far ones.
    fn visit_far(&mut self, packet: u32, node: NodeNo)
        requires whole { IsWhole self.old }
        requires packet { packet < length self.old.paths.items }
        requires room { 0 < (path_of (visits_in self.old) packet).room }
        requires far { (d : _) → 6 < (slice_index_or self.old.paths.items packet d).len }
        ensures whole { IsWhole self.new }
        ensures visits { visits_in self.new ≡ slice_set (visits_in self.old) packet (further (path_of (visits_in self.old) packet) node) }
    {
        let path = &mut self.paths[packet as usize];
        self.far[path.start as usize + usize::from(path.len)] = node;
        path.len += 1;
    }

    /// One node more on a path that has room.
    pub fn visit(&mut self, packet: u32, node: NodeNo)
        requires whole { IsWhole self.old }
        requires packet { packet < length self.old.paths.items }
        requires room { 0 < (path_of (visits_in self.old) packet).room }
        ensures whole { IsWhole self.new }
        ensures visits { visits_in self.new ≡ slice_set (visits_in self.old) packet (further (path_of (visits_in self.old) packet) node) }
    {
        let len = usize::from(self.paths[packet as usize].len);
        if len < NEAR {
            self.visit_near(packet, node);
        } else if len == NEAR {
            self.move_far(packet, node);
        } else {
            self.visit_far(packet, node);
        }
    }

    /// The nodes of a path.
    pub fn nodes(&self, packet: u32) -> &[NodeNo]
        requires whole { IsWhole self.now }
        requires packet { packet < length self.now.paths.items }
        ensures { result.now ≡ (path_of (visits_in self.now) packet).nodes }
    {
        let path = &self.paths[packet as usize];
        let len = usize::from(path.len);
        if len <= NEAR {
            return &path.near[..len];
        }
        let start = path.start as usize;
        &self.far[start..start + len]
    }
}
