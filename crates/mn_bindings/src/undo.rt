use crate::row::Row;
use mn_base::NodeNo;

/// What puts an event back.
#[derive(Drop)]
pub enum Undo {
    /// What the neighbour advertised until it opened or closed.
    Row(NodeNo, Option<Row>),
    /// What the neighbour had advertised for the FEC.
    Label(NodeNo, NodeNo, Option<u32>),
    /// The event changed nothing that is kept.
    Nothing,
    /// The FEC's next hop before.
    Hop(NodeNo, Option<NodeNo>),
}
